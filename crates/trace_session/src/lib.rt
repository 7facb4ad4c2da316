// The trace program's work: one line in, one line out, on a session that holds the device, once a line has made one.
#![tactic(auto)]

ghost use Rattle.std.specs.Prelude.{◌≡◌, ◌+◌, ◌^◌, ◌<◌, ◌≤◌, length, IsSome, Some};
ghost use Rattle.map.specs.Map.{part_of};
ghost use Rattle.device_rules.specs.Device.{out as outcome};
ghost use Rattle.device_rules.specs.declared.Answer.TheVariants.{Nothing};
ghost use Rattle.device_rules.specs.PowerOn.{power_on};
ghost use Rattle.text.specs.Text.{Wrote};
ghost use Rattle.text_answers.specs.Answers.{refused_line, shown_line};
ghost use Rattle.text_logs.specs.Lines.{Says};
ghost use Rattle.trace_session.specs.Tracing.Session.{NoDevice, With};
ghost use Rattle.trace_session.specs.Tracing.{session_of, part_number, standing_line, traced, answer_to, told_by, Kept};
ghost use Rattle.trace_session.specs.Bounds.{answer_fits, answer_short, answer_cut};

use device_rules::{Answer, UNREADABLE};
use std::marker::Model;
use text_logs::AnswersLines;
use trace_columns::Columns;
use trace_lines::Line;
use words::PART;

// The Device ID of a device that a line makes.
const NO_ID: u64 = 0;

// The part of words that hold no device yet.
const NO_PART: u64 = 2;

// Refusal 7.
fn refuse(out: &mut [u8], at: usize) -> usize
    requires { at + 26 ≤ length out.old }
    ensures { Wrote out.old at (refused_line 7) result out.new }
{
    text_answers::put_refused(out, at, UNREADABLE)
}

// The device as words, which name no part before there is one, and the text of its columns.
#[derive(Drop)]
pub struct Session {
    words: [u64; 28],
    columns: Columns,
}

impl Model for Session {
    ghost use Rattle.trace_session.specs.Tracing.{Session as Traced, session_of, Sound};

    ghost Value = { Traced };

    ghost view = { λ s. session_of s.words };

    ghost invariant = { λ s. Sound s.words s.columns };
}

impl Session {
    // Before a log: no device yet.
    pub fn new() -> Self
        ensures { result ≡ NoDevice }
    {
        let mut words = [0; 28];
        words[PART] = NO_PART;
        Session {
            words,
            columns: Columns::new(),
        }
    }

    // Of words that hold a well-formed device, or none.
    pub fn holding(words: [u64; 28]) -> Self
        requires { Kept words }
        ensures { result ≡ session_of words }
    {
        let mut columns = Columns::new();
        if words[PART] < NO_PART {
            columns.refresh(&words);
        }
        Session { words, columns }
    }

    // The words of the device.
    pub fn words(&self) -> &[u64; 28]
        ensures { Kept result.now × (session_of result.now ≡ self.now) }
    {
        &self.words
    }

    // The part of the device, if there is one.
    pub fn part(&self) -> Option<u64>
        ensures { result ≡ part_number self.now }
    {
        let part = self.words[PART];
        if part < NO_PART {
            return Some(part);
        }
        None
    }

    // A device anew; its line is put.
    pub fn make(&mut self, part: u64, choice: u8, levels: u64, out: &mut [u8], at: usize) -> usize
        requires { (part < 2) × (choice < 4) × (levels < 2 ^ (part_of part).width) × (at + 26 ≤ length out.old) }
        ensures { Says (told_by part (outcome Nothing (power_on (part_of part) choice levels 0))) out.old at result out.new self.new }
    {
        words_device::power_on(&mut self.words, part, choice, levels, NO_ID);
        self.columns.refresh(&self.words);
        self.put_line(out, at)
    }

    // Puts the line of the device as it stands, which answers nothing.
    pub fn put_line(&self, out: &mut [u8], at: usize) -> usize
        requires { IsSome (part_number self.now) × (at + 26 ≤ length out.old) }
        ensures { Wrote out.old at (standing_line self.now) result out.new }
    {
        self.columns.put_line(&self.words, Answer::Nothing, out, at)
    }

    // An event, on the device if there is one; its answer's line is put.
    pub fn event(&mut self, kind: u32, arg: u64, out: &mut [u8], at: usize) -> usize
        requires { at + 26 ≤ length out.old }
        ensures { Says (traced self.old (Some (Line.Event kind arg))) out.old at result out.new self.new }
    {
        if self.words[PART] < NO_PART {
            let answer = words_device::event(&mut self.words, kind, arg);
            self.columns.renew(&self.words);
            return self.columns.put_line(&self.words, answer, out, at);
        }
        refuse(out, at)
    }
}

impl AnswersLines for Session {
    ghost room = { 26 };

    ghost answer = { answer_to };

    fn answer_line(&mut self, line: &[u8], out: &mut [u8], at: usize) -> usize {
        match trace_lines::read(line, self.words[PART]) {
            Some(Line::Device(made)) => self.make(made.part, made.choice, made.levels, out, at),
            Some(Line::Event { kind, arg }) => self.event(kind, arg, out, at),
            None => refuse(out, at),
        }
    }

    ghost fits = { answer_fits };

    ghost short = { answer_short };

    ghost cut = { answer_cut };
}
