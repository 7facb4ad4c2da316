// The fields of an image, written, as a line of the probe program has them.
#![tactic(auto)]

ghost use Rattle.std.specs.Prelude.{◌≡◌, ◌∷◌, ◌+◌, ◌≤◌, length, drop};
ghost use Rattle.text.specs.Text.{hex_text, Wrote};
ghost use Rattle.probe_fields.specs.Fields.{widths};
ghost use Rattle.probe_texts.specs.Texts.{bytes_text, fields_text};

// The registers, two digits each.
pub fn put_bytes(out: &mut [u8], at: usize, bytes: &[u8]) -> usize
    requires { (length bytes.now ≡ 128) × (at + 256 ≤ length out.old) }
    ensures { Wrote out.old at (bytes_text bytes.now) result out.new × (result ≡ at + 256) }
{
    let mut end = at;
    for b in bytes {
        end = text::put(out, end, &text::hex2(*b));
    }
    end
}

// A tab and a number.
fn put_field(out: &mut [u8], at: usize, width: usize, n: u64) -> usize
    requires { at + width + 1 ≤ length out.old }
    ensures { Wrote out.old at (0x09 ∷ hex_text width n) result out.new × (result ≡ at + width + 1) }
{
    let end = text::put(out, at, b"\t");
    text::put_hex(out, end, width, n)
}

// The digits of each field behind the registers.
const WIDTHS: [usize; 14] = [16, 16, 16, 16, 2, 2, 2, 16, 2, 2, 8, 2, 8, 16];

// An image's fields behind the registers, from the level to the place of the Device ID's byte that is told next: a tab and a number each.
pub fn put_fields(out: &mut [u8], at: usize, numbers: &[u64; 12]) -> usize
    requires { at + 112 ≤ length out.old }
    ensures { Wrote out.old at (fields_text (drop 1 widths) numbers.now) result out.new × (result ≡ at + 112) }
{
    let mut end = at;
    for i in 0..12 {
        end = put_field(out, end, WIDTHS[i], numbers[i]);
    }
    end
}
