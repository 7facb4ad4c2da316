// The watch program's work: one line in, one line out, as a trace has it, with the loss marks beside the device and at the end of each line; sign-offs among them.
#![tactic(auto)]

ghost use Rattle.std.specs.Prelude.{◌≡◌, ◌+◌, ◌^◌, ◌<◌, ◌≤◌, true, length, Some};
ghost use Rattle.map.specs.Map.{part_of};
ghost use Rattle.device_rules.specs.Device.{out as outcome};
ghost use Rattle.device_rules.specs.declared.Answer.TheVariants.{Nothing};
ghost use Rattle.device_rules.specs.PowerOn.{power_on};
ghost use Rattle.text_logs.specs.Lines.{Says};
ghost use Rattle.trace_lines.specs.Lines.{Taken};
ghost use Rattle.trace_session.specs.Tracing.{session_of, Kept as TraceKept};
ghost use Rattle.loss_rules.specs.Marks.{new_marks};
ghost use Rattle.loss_sets.specs.Sets.{marks_in};
ghost use Rattle.watch_session.specs.Watch.Session.{NoDevice};
ghost use Rattle.watch_session.specs.Watch.{watching, unmarked, fitting, Kept, part_in, told_by, watched, answer_to};
ghost use Rattle.watch_session.specs.Bounds.{answer_fits, answer_short, answer_cut};

use loss_sets::SET;
use std::marker::Model;
use text_logs::AnswersLines;
use trace_session::Session;
use watch_lines::Said;
use words::{PART, STATUS};

// A trace's session, and the loss marks of its device.
#[derive(Drop)]
pub struct Watch {
    session: Session,
    marks: [u64; 2],
}

impl Model for Watch {
    ghost use Rattle.std.specs.Prelude.{◌≡◌, true};
    ghost use Rattle.loss_sets.specs.Sets.{marks_in};
    ghost use Rattle.watch_session.specs.Watch.{Session as Watched, watching, fitting};

    ghost Value = { Watched };

    ghost view = { λ w. watching w.session (marks_in w.marks) };

    ghost invariant = { λ w. fitting w.session (marks_in w.marks) ≡ true };
}

impl Watch {
    // Before a log: no device yet.
    pub fn new() -> Self
        ensures { result ≡ NoDevice }
    {
        Watch {
            session: Session::new(),
            marks: [0; 2],
        }
    }

    // Of words that hold a well-formed device, or none, and marks that fit it.
    pub fn holding(words: [u64; 28], marks: [u64; 2]) -> Self
        requires { Kept words marks }
        ensures { result ≡ watching (session_of words) (marks_in marks) }
    {
        let session = Session::holding(words);
        Watch { session, marks }
    }

    // The words of the device.
    pub fn words(&self) -> &[u64; 28]
        ensures { TraceKept result.now × (session_of result.now ≡ unmarked self.now) }
    {
        self.session.words()
    }

    // Its marks.
    pub fn marks(&self) -> &[u64; 2]
        ensures is { watching (unmarked self.now) (marks_in result.now) ≡ self.now }
        ensures fits { fitting (unmarked self.now) (marks_in result.now) ≡ true }
    {
        &self.marks
    }

    // A device anew, with marks that are all set.
    pub fn make(
        &mut self,
        part: u64,
        choice: u8,
        levels: u64,
        healthy: u64,
        out: &mut [u8],
        at: usize,
    ) -> usize
        requires { (part < 2) × (choice < 4) × (levels < 2 ^ (part_of part).width) × (healthy < 2 ^ (part_of part).width) × (at + 36 ≤ length out.old) }
        ensures { Says (told_by part (outcome Nothing (power_on (part_of part) choice levels 0)) (new_marks (part_of part) healthy)) out.old at result out.new self.new }
    {
        let end = self.session.make(part, choice, levels, out, at);
        let _ = loss_sets::make(&mut self.marks, part, healthy);
        watch_answers::put_marks(out, end, part, self.marks[SET])
    }

    // An event, on the device if there is one; what it sets is marked.
    pub fn event(&mut self, kind: u32, arg: u64, out: &mut [u8], at: usize) -> usize
        requires { Taken (part_in self.old) kind arg × (at + 36 ≤ length out.old) }
        ensures { Says (watched self.old (Some (Said.Event kind arg))) out.old at result out.new self.new }
    {
        let Some(part) = self.session.part() else {
            return watch_answers::refuse(out, at);
        };
        let words = self.session.words();
        let before = words[STATUS];
        let resets = loss_marks::is_reset(words, kind);
        let end = self.session.event(kind, arg, out, at);
        let after = self.session.words()[STATUS];
        loss_notes::note(&mut self.marks, resets, before, after);
        watch_answers::put_marks(out, end, part, self.marks[SET])
    }

    // A sign-off, on the device if there is one.
    pub fn sign(&mut self, pin: u32, out: &mut [u8], at: usize) -> usize
        requires { at + 36 ≤ length out.old }
        ensures { Says (watched self.old (Some (Said.SignOff pin))) out.old at result out.new self.new }
    {
        let Some(part) = self.session.part() else {
            return watch_answers::refuse(out, at);
        };
        let signed = loss_marks::sign_off(self.session.words(), &mut self.marks, part, pin);
        if let Err(refusal) = signed {
            return watch_answers::refuse_sign(out, at, refusal.number());
        }
        let end = self.session.put_line(out, at);
        watch_answers::put_marks(out, end, part, self.marks[SET])
    }
}

impl AnswersLines for Watch {
    ghost room = { 36 };

    ghost answer = { answer_to };

    fn answer_line(&mut self, line: &[u8], out: &mut [u8], at: usize) -> usize {
        match watch_lines::read(line, self.session.words()[PART]) {
            Some(Said::Device { made, healthy }) => {
                self.make(made.part, made.choice, made.levels, healthy, out, at)
            }
            Some(Said::Event { kind, arg }) => self.event(kind, arg, out, at),
            Some(Said::SignOff { pin }) => self.sign(pin, out, at),
            None => watch_answers::refuse(out, at),
        }
    }

    ghost fits = { answer_fits };

    ghost short = { answer_short };

    ghost cut = { answer_cut };
}
