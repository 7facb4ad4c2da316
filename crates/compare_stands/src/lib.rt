// A comparison of two files: the events of a piece met with the answers that they expect, the end of the events, and the line that decides shown.
#![tactic(auto)]

ghost use Rattle.std.specs.Prelude.{◌≡◌, [], false, ◌+◌, ◌^◌, ◌<◌, ◌≤◌, length, drop, Ok, Err, MatchResult, OnOk};
ghost use Rattle.std.specs.Io.{StartsWith};
ghost use Rattle.trace_logs.specs.Pieces.{opened};
ghost use Rattle.compare_pieces.specs.Meeting.{wanting};
ghost use Rattle.compare_stands.specs.declared.Stop.TheVariants.{Said};

use compare_answers::Answers;
use compare_lines::Verdict;
use compare_pieces::LONGEST;
use compare_verdicts::Finding;
use std::io;
use std::io::Read;
use text_logs::Log;
use trace_session::Session;

// Of a longer event so many bytes are kept: more than a person is shown.
const EVENT: usize = 33;

// Why a comparison goes no further: all is said, be it only what could not be read, or it could not be written.
#[derive(Drop)]
pub enum Stop {
    Said,
    Unwritten(io::Error),
}

impl From<io::Error> for Stop {
    fn from(error: io::Error) -> Stop {
        Stop::Unwritten(error)
    }
}

// What was read. Where nothing could be, a person is told why, and nothing more is said.
pub fn read_or_told<T>(said: &impl Print, what: &str, read: io::Result<T>) -> Result<T, Stop>
    ensures { MatchResult read (λ x. result ≡ Ok x) (λ _. result ≡ Err Said) }
{
    match read {
        Ok(x) => Ok(x),
        Err(error) => {
            compare_answers::fail(said, what.as_bytes(), error);
            Err(Stop::Said)
        }
    }
}

// Where the verdict is put and where a person is told, the device that the events make, the answers, and how many lines agree so far.
#[derive(Drop)]
pub struct Comparison<'a, O, S, R> {
    out: &'a O,
    said: &'a S,
    log: Log<Session>,
    answers: Answers<R>,
    agreed: u64,
}

impl<'a, O: Print, S: Print, R: Read> Comparison<'a, O, S, R> {
    pub fn new(out: &'a O, said: &'a S, answers: R) -> Self
        ensures log { (result.log ≡ opened) × (result.agreed ≡ 0) }
        ensures answers { (result.answers.left ≡ []) × (result.answers.last ≡ false) }
    {
        Comparison {
            out,
            said,
            log: trace_logs::start(),
            answers: Answers::new(answers),
            agreed: 0,
        }
    }

    // Answers enough to judge a line, or all there are.
    pub fn fill(&mut self) -> Result<(), Stop>
        ensures enough { OnOk result (wanting (length self.new.answers.left) self.new.answers.last ≡ false) }
        ensures kept { StartsWith self.new.answers.left self.old.answers.left }
        ensures log { (self.new.log ≡ self.old.log) × (self.new.agreed ≡ self.old.agreed) }
    {
        read_or_told(self.said, "compare: the answers", self.answers.fill())
    }

    // So many lines agree more, as long as they can be counted, and take so many answers.
    fn agree(&mut self, lines: usize, answers: usize)
        requires { answers ≤ length self.old.answers.left }
        ensures left { (self.new.answers.left ≡ drop answers self.old.answers.left) × (self.new.answers.last ≡ self.old.answers.last) }
        ensures log { self.new.log ≡ self.old.log }
        ensures agreed { self.old.agreed + lines < 2 ^ 64 → self.new.agreed ≡ self.old.agreed + lines }
    {
        self.agreed = self.agreed.checked_add(lines as u64).unwrap_or(self.agreed);
        self.answers.advance(answers);
    }

    // The verdict and, where there is one, the line that departs or is left over. Where that can't be read to its end, nothing is said of it.
    fn conclude(&mut self, verdict: Verdict, event: &[u8], expected: &[u8]) -> Result<(), Stop>
        ensures { self.new.log ≡ self.old.log }
    {
        let shown = verdict == Verdict::Departs || verdict == Verdict::LeftOver;
        if shown {
            read_or_told(self.said, "compare: the answers", self.answers.fill_line())?;
        }
        let finding = Finding {
            verdict,
            agreed: self.agreed,
            event,
            expected,
            found: self.answers.left(),
        };
        finding.conclude(self.out, self.said)?;
        if shown {
            self.answers.print_line(self.out, self.said)?;
        }
        Ok(())
    }

    // The header's line.
    pub fn meet_header(&mut self) -> Result<(), Stop>
        ensures { self.new.log ≡ self.old.log }
    {
        let mut line = [0u8; LONGEST];
        let end = trace_logs::put_header(&mut line, 0);
        match compare_lines::judge(&line[0..end], self.answers.left()) {
            Ok(taken) => {
                self.agree(1, taken);
                Ok(())
            }
            Err(verdict) => {
                self.conclude(verdict, b"none, this is the header", &line[0..end])?;
                Err(Stop::Said)
            }
        }
    }

    // All events of a piece, with as many answers as they expect.
    pub fn meet_piece(&mut self, piece: &[u8]) -> Result<(), Stop> {
        let mut line = [0u8; LONGEST];
        let mut event = [0u8; EVENT];
        let mut begun = text_pieces::keep(&mut event, 0, self.log.begun());
        let mut rest = piece;
        while !rest.is_empty() {
            self.fill()?;
            let last = self.answers.is_last();
            let met = compare_pieces::meet(
                &mut self.log,
                rest,
                &mut line,
                self.answers.left(),
                last,
            );
            self.agree(met.lines, met.answers);
            if 0 < met.events {
                begun = 0;
            }
            rest = &rest[met.events..];
            if let Some(verdict) = met.verdict {
                let end = text_pieces::newline_at(rest);
                let all = text_pieces::keep(&mut event, begun, &rest[0..end]);
                self.conclude(verdict, &event[0..all], &line[0..met.end])?;
                return Err(Stop::Said);
            }
        }
        Ok(())
    }

    // The end of the events.
    pub fn end_events(&mut self) -> Result<(), Stop> {
        self.fill()?;
        let mut line = [0u8; LONGEST];
        let mut event = [0u8; EVENT];
        let begun = text_pieces::keep(&mut event, 0, self.log.begun());
        let settled = compare_ends::finish(&mut self.log, &mut line, self.answers.left());
        self.agree(settled.lines, settled.answers);
        self.conclude(settled.verdict, &event[0..begun], &line[0..settled.end])
    }
}
