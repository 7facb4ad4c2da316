// The work of the programs plan and plan34: a start and a goal as two arguments or as lines on standard input; the part's plan or refusal on standard output.
#![tactic(auto)]

ghost use Rattle.std.specs.Prelude.{IfOk};
ghost use Rattle.plan_fields.specs.Asks.{Said};

use map::Chip;
use plan_fields::Reading;
use plan_lines::ROOM;
use plan_refusals::LineRefusal;
use planner_promise::Refusal;
use std::env::FillError;
use std::io;
use std::io::{Input, Read};
use std::rt::Env;

// A piece of the lines, and the longest argument that is read.
const PIECE: usize = 4096;

fn say_refusal(rt: &impl Print, refusal: LineRefusal) -> io::Result<()> {
    let mut out = [0u8; ROOM];
    let end = plan_lines::put_refusal(&mut out, 0, refusal.number());
    rt.write_all(&out[..end])
}

// The program's name, as a person knows it.
fn name(chip: Chip) -> &'static str {
    match chip {
        Chip::Pcal6524 => "plan",
        Chip::Pcal6534 => "plan34",
    }
}

// How the program is called, for a person.
fn usage(chip: Chip) -> &'static str {
    match chip {
        Chip::Pcal6524 => {
            "give a start and a goal, twenty hex digits each, in the order 04 05 06 0c 0d 0e 5c 70 71 72; or lines START<tab>GOAL on standard input"
        }
        Chip::Pcal6534 => {
            "give a start and a goal, thirty-two hex digits each, in the order 05 06 07 08 09 0f 10 11 12 13 53 68 69 6a 6b 6c; or lines START<tab>GOAL on standard input"
        }
    }
}

// What a setting is, for a person.
fn setting_said(chip: Chip) -> &'static str {
    match chip {
        Chip::Pcal6524 => {
            "a start and a goal are ten bytes each, 04 05 06 0c 0d 0e 5c 70 71 72, and the 5c byte is 07 or less"
        }
        Chip::Pcal6534 => {
            "a start and a goal are sixteen bytes each, 05 06 07 08 09 0f 10 11 12 13 53 68 69 6a 6b 6c; the 53 byte is 1f or less, and the bytes 09 13 6c of port 4 are 03 or less"
        }
    }
}

// A text for a person. Where nobody can be told, the answer stands all the same.
fn explain(rt: &impl Eprint, chip: Chip, text: &str) {
    let name = name(chip);
    let _ = eprintln!(rt; "{name}: {text}");
}

// Why no quiet way exists, for a person: one pin that is in the way.
fn explain_pin(rt: &impl Eprint, chip: Chip, pin: u8) {
    let name = name(chip);
    let port = pin / 8;
    let bit = pin % 8;
    let changes = match chip {
        Chip::Pcal6524 => "5c",
        Chip::Pcal6534 => "53",
    };
    let _ = eprintln!(rt;
        "{name}: pin {pin:02} (port {port}, bit {bit}) is driven high at start and goal while its port's bit in {changes} changes: keep that bit, or let the pin be low or released at one end"
    );
}

fn explain_pins(rt: &impl Eprint, chip: Chip, r: &Reading) {
    let stuck = planner::stuck_pins(chip, r.start.kept(), r.goal.kept());
    for pin in 0..chip.pins() {
        if (stuck >> pin) & 1 == 1 {
            explain_pin(rt, chip, pin);
        }
    }
}

// What was wrong with a line that is refused, for a person.
fn explain_refusal(rt: &impl Eprint, chip: Chip, refusal: LineRefusal, r: &Reading) {
    match refusal {
        LineRefusal::Unreadable => explain(
            rt,
            chip,
            "give a start and a goal as pairs of lowercase hex digits, nothing else; on a line of standard input with one tab between them",
        ),
        LineRefusal::Planner(Refusal::BadSetting) => explain(rt, chip, setting_said(chip)),
        LineRefusal::Planner(Refusal::NoQuietWay) => explain_pins(rt, chip, r),
        LineRefusal::Planner(Refusal::BufferSmall) => {}
    }
}

// The answer to one whole line, and for a person what is wrong with it.
fn answer(rt: &(impl Print + Eprint), part: u8, r: &Reading) -> io::Result<()>
    requires { Said r.now }
{
    let mut out = [0u8; ROOM];
    let told = plan_lines::answer(part, r, &mut out, 0);
    let end = told.end;
    rt.write_all(&out[..end])?;
    if let Some(refusal) = told.refusal {
        explain_refusal(rt, plan_lines::chip_of(part), refusal, r);
    }
    Ok(())
}

// The two arguments, as one line.
fn line_of_arguments(rt: &impl Env) -> Result<Reading, FillError>
    ensures { IfOk result Said }
{
    let mut word = [0u8; PIECE];
    let mut reading = Reading::begin();
    let start = rt.arg(1, &mut word)?;
    reading.grow(&word[..start]);
    reading.grow(b"\t");
    let goal = rt.arg(2, &mut word)?;
    reading.grow(&word[..goal]);
    Ok(reading)
}

fn from_arguments(rt: &(impl Env + Print + Eprint), part: u8) -> io::Result<()> {
    match line_of_arguments(rt) {
        Ok(reading) => answer(rt, part, &reading),
        Err(_) => say_refusal(rt, LineRefusal::Unreadable),
    }
}

// Lines that came in pieces: what is read of the present one, and whether it holds a byte.
#[derive(Drop)]
struct Lines {
    reading: Reading,
    any: bool,
}

impl Lines {
    // Every line that ends in this piece is answered; the rest of the piece begins the next line.
    fn answer_piece(&mut self, rt: &(impl Print + Eprint), part: u8, piece: &[u8]) -> io::Result<()>
        requires { Said self.old.reading }
        ensures { Said self.new.reading }
    {
        let mut rest = piece;
        while !rest.is_empty() {
            let line = text_pieces::first_line(rest);
            let len = line.len;
            let taken = line.taken;
            self.reading.grow(&rest[..len]);
            self.any = taken <= len;
            if !self.any {
                answer(rt, part, &self.reading)?;
                self.reading = Reading::begin();
            }
            rest = &rest[taken..];
        }
        Ok(())
    }
}

fn from_input(rt: &(impl Input + Print + Eprint), part: u8) -> io::Result<()> {
    let mut piece = [0u8; PIECE];
    let mut lines = Lines {
        reading: Reading::begin(),
        any: false,
    };
    let mut input = rt.reader();
    // a proved loop ends: it counts up to a number that no input uses up
    for _ in 0..u64::MAX {
        let n = input.read(&mut piece)?;
        if n == 0 {
            break;
        }
        lines.answer_piece(rt, part, &piece[..n])?;
    }
    if lines.any {
        answer(rt, part, &lines.reading)?;
    }
    Ok(())
}

// Whether the program was given an argument at a place, its own name at the first, be it of any length.
fn is_given(rt: &impl Env, argument: usize) -> bool {
    let mut word = [0u8; 1];
    !matches!(rt.arg(argument, &mut word), Err(FillError::NotPresent))
}

// Two arguments, or the lines of standard input.
pub fn run(rt: &(impl Env + Input + Print + Eprint), part: u8) -> io::Result<()> {
    if is_given(rt, 0) && !is_given(rt, 1) {
        return from_input(rt, part);
    }
    if is_given(rt, 2) && !is_given(rt, 3) {
        return from_arguments(rt, part);
    }
    say_refusal(rt, LineRefusal::Unreadable)?;
    let chip = plan_lines::chip_of(part);
    explain(rt, chip, usage(chip));
    Ok(())
}
