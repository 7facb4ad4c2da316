// The text of a step on an image: its answer, and the image after it, of either part.
#![tactic(auto)]

ghost use Rattle.std.specs.Prelude.{◌≡◌, true, ◌+◌, ◌≤◌, length};
ghost use Rattle.map.specs.Map.{part_of};
ghost use Rattle.device_rules.specs.Device.{out as outcome};
ghost use Rattle.device_rules.specs.Answers.{refusal_number};
ghost use Rattle.device.specs.Held.{state_in, fits_in};
ghost use Rattle.text.specs.Text.{Wrote};
ghost use Rattle.text_answers.specs.Answers.{shown_text};
ghost use Rattle.probe_answers.specs.Answers.{image_text, probe_line};

use device::Device;
use device_rules::Answer;

// The image's fields, a tab before each.
fn put_image(out: &mut [u8], at: usize, d: Device) -> usize
    requires { at + 369 ≤ length out.old }
    ensures { Wrote out.old at (image_text (state_in d)) result out.new × (result ≡ at + 369) }
{
    let tab = text::put(out, at, b"\t");
    let bytes = probe_texts::put_bytes(out, tab, &d.file);
    let numbers = [
        d.sets.level,
        d.sets.reference,
        d.sets.held,
        d.sets.edge,
        d.pointer as u64,
        d.bus as u64,
        d.choice as u64,
        d.status,
        d.line as u64,
        d.mode as u64,
        d.number,
        d.place as u64,
    ];
    probe_texts::put_fields(out, bytes, &numbers)
}

// The text with which a trace tells an answer. A refusal's shows nothing of the device, whose image may be a broken one.
fn put_answer(out: &mut [u8], at: usize, d: Device, answer: Answer) -> usize
    requires { (refusal_number answer ≡ 0 → fits_in d ≡ true) × (at + 25 ≤ length out.old) }
    ensures { Wrote out.old at (shown_text (part_of d.part) (outcome answer (state_in d))) result out.new × (result ≤ at + 25) }
{
    let part = d.part as u64;
    let mut words = [0u64; 28];
    let _fits = d.pack(&mut words);
    let int = words_interrupt::int(&words);
    let low = words_views::low(&words, map::pins_of(part));
    let high = words_views::high(&words);
    text_answers::put_answer(out, at, part, answer, int, low, high)
}

// The answer, and behind it the image after the step; a refusal has no image.
pub fn put_outcome(out: &mut [u8], at: usize, d: Device, answer: Answer) -> usize
    requires { (refusal_number answer ≡ 0 → fits_in d ≡ true) × (at + 395 ≤ length out.old) }
    ensures { Wrote out.old at (probe_line (part_of d.part) (outcome answer (state_in d))) result out.new × (result ≤ at + 395) }
{
    let told = put_answer(out, at, d, answer);
    let Answer::Refused(_) = answer else {
        let image = put_image(out, told, d);
        return text::put(out, image, b"\n");
    };
    text::put(out, told, b"\n")
}
