// A line of a watched log, read: a trace's event, a device with its healthy levels, or a sign-off.
#![tactic(auto)]

ghost use Rattle.std.specs.Prelude.{◌≡◌};
ghost use Rattle.map.specs.Map.{part_of};
ghost use Rattle.watch_lines.specs.Watching.{device_of, own_of, said_by};

use trace_lines::{Line, Made};

// No readable line is longer.
const LONGEST: usize = 32;

// What two digits can say.
const LAST_BYTE: u64 = 0xff;

// What a line says.
#[derive(Clone, Copy)]
pub enum Said {
    Device { made: Made, healthy: u64 },
    Event { kind: u32, arg: u64 },
    SignOff { pin: u32 },
}

// What follows a device's word: what follows it in a trace, a tab and healthy levels.
fn device_of(s: &[u8], part: u64) -> Option<Said>
    ensures { result ≡ device_of part s.now }
{
    let digits = text_answers::digits_of(part);
    let at = digits + 2;
    if s.len() < at + 1 {
        return None;
    }
    if !text::starts(&s[at..], b"\t") {
        return None;
    }
    let made = trace_lines::device_of(&s[0..at], part)?;
    let healthy = text::field(&s[at + 1..], digits, map::pins_of(part))?;
    Some(Said::Device { made, healthy })
}

// A line that is no trace's.
fn read_own(line: &[u8]) -> Option<Said>
    ensures { result ≡ own_of line.now }
{
    if LONGEST < line.len() {
        return None;
    }
    if text::starts(line, b"sign\t") {
        let pin = text::field(&line[5..], 2, LAST_BYTE)? as u32;
        return Some(Said::SignOff { pin });
    }
    if text::starts(line, b"device\t") {
        return device_of(&line[7..], 0);
    }
    if text::starts(line, b"device34\t") {
        return device_of(&line[9..], 1);
    }
    None
}

// What the line says, where the device is of this part.
pub fn read(line: &[u8], part: u64) -> Option<Said>
    ensures { result ≡ said_by (part_of part) line.now }
{
    match trace_lines::read(line, part) {
        Some(Line::Event { kind, arg }) => Some(Said::Event { kind, arg }),
        Some(Line::Device(_)) => None,
        None => read_own(line),
    }
}
