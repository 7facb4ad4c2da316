// State images as text, of either part: what a line of a probe program says, the step that it asks, and its answer, whole or as it comes in pieces.
#![tactic(auto)]

ghost use Rattle.std.specs.Prelude.{◌≡◌, List, [], ◌++◌, ◌+◌, ◌≤◌, ◌<◌, ℕ, length};
ghost use Rattle.map.specs.Map.{part_of};
ghost use Rattle.device.specs.Held.{state_in};
ghost use Rattle.text.specs.Text.{Wrote};
ghost use Rattle.probe_images.specs.Images.{image_in, probe_text};
ghost use Rattle.probe_images.specs.Begun.{Holds};
ghost use Rattle.probe_images.specs.Asked.{Answers};

mod begun;

pub use begun::Line;
use device::{Device, Stepped};
use device_rules::UNREADABLE;
use pins::Sets;

// The device of the part whose image the line says.
pub fn device_in(part: u8, line: &[u8]) -> Device
    requires { length line.now ≡ 394 }
    ensures { (state_in result ≡ image_in line.now) × (result.part ≡ part) }
{
    let sets = Sets {
        level: probe_fields::word_at(line, probe_fields::LEVEL_AT),
        reference: probe_fields::word_at(line, probe_fields::REFERENCE_AT),
        held: probe_fields::word_at(line, probe_fields::HELD_AT),
        edge: probe_fields::word_at(line, probe_fields::EDGE_AT),
    };
    Device {
        part,
        file: probe_fields::file_in(line),
        sets,
        pointer: probe_fields::byte_at(line, probe_fields::POINTER_AT),
        bus: probe_fields::byte_at(line, probe_fields::BUS_AT),
        choice: probe_fields::byte_at(line, probe_fields::CHOICE_AT),
        status: probe_fields::word_at(line, probe_fields::STATUS_AT),
        line: probe_fields::byte_at(line, probe_fields::LINE_AT),
        mode: probe_fields::byte_at(line, probe_fields::MODE_AT),
        number: probe_fields::half_at(line, probe_fields::NUMBER_AT) as u64,
        place: probe_fields::byte_at(line, probe_fields::PLACE_AT),
    }
}

// The step that the line asks.
pub fn step_in(part: u8, line: &[u8]) -> Stepped
    requires { (part < 2) × (length line.now ≡ 394) }
    ensures { Answers part line.now result }
{
    let device = device_in(part, line);
    let kind = probe_fields::half_at(line, probe_fields::KIND_AT);
    let arg = probe_fields::word_at(line, probe_fields::ARGUMENT_AT);
    device.step(kind, arg)
}

// One line, without its newline: its answer is written from at on.
pub fn answer_line(part: u8, line: &[u8], out: &mut [u8], at: usize) -> usize
    requires { (part < 2) × (at + 395 ≤ length out.old) }
    ensures { Wrote out.old at (probe_text (part_of part) line.now) result out.new × (result ≤ at + 395) }
{
    if !probe_fields::is_readable(line) {
        return text_answers::put_refused(out, at, UNREADABLE);
    }
    let s = step_in(part, line);
    let answer = s.answer;
    let after = s.device;
    probe_answers::put_outcome(out, at, after, answer)
}

// Before the first byte of a line.
pub fn begin() -> Line
    ensures { Holds result [] }
{
    Line {
        held: [0; 395],
        len: 0,
    }
}

// The line with these bytes more.
pub fn grow(line: Line, part: &[u8]) -> Line
    ensures { (text : List ℕ) → Holds line text → Holds result (text ++ part.now) }
{
    let mut held = line.held;
    let len = text_pieces::keep(&mut held, line.len, part);
    Line { held, len }
}

// The whole line's answer, written from at on.
pub fn answer(part: u8, line: Line, out: &mut [u8], at: usize) -> usize
    requires { (part < 2) × (at + 395 ≤ length out.old) }
    ensures { ((text : List ℕ) → Holds line text → Wrote out.old at (probe_text (part_of part) text) result out.new) × (result ≤ at + 395) }
{
    answer_line(part, &line.held[..line.len], out, at)
}
