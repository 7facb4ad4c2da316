// A line of a log, read: the part of the device that there is says how many digits pin levels have.
#![tactic(auto)]

ghost use Rattle.std.specs.Prelude.{◌≡◌, ◌≤◌, length, drop};
ghost use Rattle.text.specs.Text.{field_of};
ghost use Rattle.map.specs.Map.{part_of};
ghost use Rattle.trace_lines.specs.Lines.{event_with, device_of, devices_of, line_of, fields_of};

use device_rules::{BYTE, FETCH, LEVELS, RESET, START, STOP};

// No readable line is longer.
const LONGEST: usize = 32;

// The last address choice.
const MOST_CHOICE: u64 = 3;

// The device that a line makes. Parts: 0 the 24-pin part, 1 its sister.
#[derive(Clone, Copy)]
pub struct Made {
    pub part: u64,
    pub choice: u8,
    pub levels: u64,
}

// What a line says. Event kinds: 0 START, 1 STOP, 2 byte, 3 fetch, 4 levels, 5 hardware reset: the device takes these numbers, as C does.
#[derive(Clone, Copy)]
pub enum Line {
    Device(Made),
    Event { kind: u32, arg: u64 },
}

// What follows a device's word: a choice, a tab and levels.
pub fn device_of(s: &[u8], part: u64) -> Option<Made>
    ensures { result ≡ device_of part s.now }
{
    if s.len() < 2 {
        return None;
    }
    if !text::starts(&s[1..], b"\t") {
        return None;
    }
    let choice = text::field(&s[0..1], 1, MOST_CHOICE)? as u8;
    let levels = text::field(&s[2..], text_answers::digits_of(part), map::pins_of(part))?;
    Some(Made {
        part,
        choice,
        levels,
    })
}

// A line that makes a device.
fn read_device(line: &[u8]) -> Option<Made>
    ensures { result ≡ devices_of line.now }
{
    if text::starts(line, b"device\t") {
        return device_of(&line[7..], 0);
    }
    if text::starts(line, b"device34\t") {
        return device_of(&line[9..], 1);
    }
    None
}

// An event whose argument stands at this place of the line: so many digits of a number that is most or less.
pub fn event_at(line: &[u8], kind: u32, at: usize, count: usize, most: u64) -> Option<Line>
    requires { (at ≤ length line.now) × (count ≤ 15) }
    ensures { result ≡ event_with kind (field_of count most (drop at line.now)) }
{
    let arg = text::field(&line[at..], count, most)?;
    Some(Line::Event { kind, arg })
}

// A line with fields.
fn read_fields(line: &[u8], part: u64) -> Option<Line>
    ensures { result ≡ fields_of (part_of part) line.now }
{
    if text::starts(line, b"byte\t") {
        return event_at(line, BYTE, 5, 2, 0xff);
    }
    if text::starts(line, b"fetch\t") {
        return event_at(line, FETCH, 6, 1, 1);
    }
    if text::starts(line, b"pins\t") {
        let digits = text_answers::digits_of(part);
        return event_at(line, LEVELS, 5, digits, map::pins_of(part));
    }
    let made = read_device(line)?;
    Some(Line::Device(made))
}

// What the line says, where the device is of this part.
pub fn read(line: &[u8], part: u64) -> Option<Line>
    ensures { result ≡ line_of (part_of part) line.now }
{
    if LONGEST < line.len() {
        return None;
    }
    if text::is(line, b"start") {
        return Some(Line::Event {
            kind: START,
            arg: 0,
        });
    }
    if text::is(line, b"stop") {
        return Some(Line::Event { kind: STOP, arg: 0 });
    }
    if text::is(line, b"reset") {
        return Some(Line::Event {
            kind: RESET,
            arg: 0,
        });
    }
    read_fields(line, part)
}
