// The fields of a line of the probe program, read at their places.
#![tactic(auto)]

ghost use Rattle.std.specs.Prelude.{◌≡◌, false, cond, ◌+◌, ◌-◌, ◌^◌, ◌<◌, ◌≤◌, eqb, ltb, length, get_or};
ghost use Rattle.text.specs.Text.{digit_of};
ghost use Rattle.probe_fields.specs.Fields.{line_form, readable, number_at, bytes_at};

// Where each field of a line begins: the registers first, then a tab before each.
pub const LEVEL_AT: usize = 257;

pub const REFERENCE_AT: usize = 274;

pub const HELD_AT: usize = 291;

pub const EDGE_AT: usize = 308;

pub const POINTER_AT: usize = 325;

pub const BUS_AT: usize = 328;

pub const CHOICE_AT: usize = 331;

pub const STATUS_AT: usize = 334;

pub const LINE_AT: usize = 351;

pub const MODE_AT: usize = 354;

pub const NUMBER_AT: usize = 357;

pub const PLACE_AT: usize = 366;

pub const KIND_AT: usize = 369;

pub const ARGUMENT_AT: usize = 378;

// The places of the tabs.
const TABS: [usize; 14] = [
    256, 273, 290, 307, 324, 327, 330, 333, 350, 353, 356, 365, 368, 377,
];

// Whether a tab stands at this place of a line.
fn is_tab(i: usize) -> bool
    requires { i < 394 }
    ensures { result ≡ get_or line_form i false }
{
    TABS.contains(&i)
}

// Whether the byte is a tab, or a digit.
fn byte_fits(tab: bool, b: u8) -> bool
    ensures { result ≡ cond tab (eqb b 0x09) (ltb (digit_of b) 16) }
{
    if tab {
        return b == b'\t';
    }
    text::digit(b) < 16
}

// Whether the line is digits with tabs at their places.
pub fn is_readable(line: &[u8]) -> bool
    ensures { result ≡ readable line.now }
{
    if line.len() != 394 {
        return false;
    }
    for i in 0..394 {
        if !byte_fits(is_tab(i), line[i]) {
            return false;
        }
    }
    true
}

// The number of so many digits from a place on.
fn number_at(line: &[u8], at: usize, width: usize, most: u64) -> u64
    requires { (at + width ≤ length line.now) × (width ≤ 16) × (most ≡ 16 ^ width - 1) }
    ensures { (result ≡ number_at line.now at width) × (result ≤ most) }
{
    text::field(&line[at..at + width], width, most).unwrap_or(0)
}

// Two digits. A function for each width and no generic one: each has its own type, and a cast that loses nothing.
pub fn byte_at(line: &[u8], at: usize) -> u8
    requires { at + 2 ≤ length line.now }
    ensures { result ≡ number_at line.now at 2 }
{
    number_at(line, at, 2, 0xff) as u8
}

// Sixteen digits.
pub fn word_at(line: &[u8], at: usize) -> u64
    requires { at + 16 ≤ length line.now }
    ensures { result ≡ number_at line.now at 16 }
{
    number_at(line, at, 16, u64::MAX)
}

// Eight digits.
pub fn half_at(line: &[u8], at: usize) -> u32
    requires { at + 8 ≤ length line.now }
    ensures { result ≡ number_at line.now at 8 }
{
    number_at(line, at, 8, 0xffff_ffff) as u32
}

// The registers.
pub fn file_in(line: &[u8]) -> [u8; 128]
    requires { length line.now ≡ 394 }
    ensures { result ≡ bytes_at line.now 0 128 }
{
    let mut file = [0; 128];
    for i in 0..128 {
        file[i] = byte_at(line, 2 * i);
    }
    file
}
