// Logs, which are answered line by line and come in pieces of any size: read in bounded memory, whatever answers a line.
#![tactic(auto)]

ghost use Rattle.std.specs.Prelude.{◌≡◌, List, [], ◌++◌, ℕ, ◌+◌, ◌*◌, ◌≤◌, length, take};
ghost use Rattle.text_pieces.specs.Pieces.{taken_of};
ghost use Rattle.text_logs.specs.Lines.{Reply, Says};
ghost use Rattle.text_logs.specs.Pieces.{reading, grown, ended, given, first_given, at_end, Gives};

use arrayvec::ArrayVec;
use std::marker::Model;

// What answers the lines of a log, one line for each.
pub trait AnswersLines {
    // room enough for any answer
    ghost room: { ℕ };

    // the answer to a line, and what there is after it
    ghost answer: { Self → List ℕ → Reply Self };

    // One line, without its newline: its answer is written from at on; says where it ends.
    fn answer_line(&mut self, line: &[u8], out: &mut [u8], at: usize) -> usize
        requires { at + room ≤ length out.old }
        ensures { Says (answer self.old line.now) out.old at result out.new self.new };

    ghost fits: { (x : Self) (line : List ℕ) → length (answer x line).line ≤ room };

    // no answer is longer than ten bytes for each byte of its line with the newline
    ghost short: { (x : Self) (line : List ℕ) → length (answer x line).line ≤ 10 * (length line + 1) };

    // of a line that is too long its first 33 bytes say as much as all of it
    ghost cut: { (x : Self) (line : List ℕ) → answer x (take 33 line) ≡ answer x line };
}

// A log that is read: what answers its lines, and the line that has begun, of which 33 bytes are kept: it is too long whatever follows.
#[derive(Drop)]
pub struct Log<A> {
    answers: A,
    begun: ArrayVec<u8, 33>,
}

impl<A> Model for Log<A> {
    ghost use Rattle.std.specs.Prelude.{◌≤◌, length};
    ghost use Rattle.text_logs.specs.Pieces.{Reading, reading};

    ghost Value = { Reading A };

    ghost view = { λ l. reading l.answers l.begun.items };

    ghost invariant = { λ l. length l.begun.items ≤ 33 };
}

// Where the answer of a first line ends, and how much of the piece it took.
#[derive(Clone, Copy)]
pub struct Took {
    pub end: usize,
    pub taken: usize,
}

// The line that has begun goes on with these bytes.
fn grow(begun: &mut ArrayVec<u8, 33>, part: &[u8])
    ensures { begun.new.items ≡ take 33 (begun.old.items ++ part.now) }
{
    let room = begun.remaining_capacity().min(part.len());
    for byte in &part[..room] {
        begun.push(*byte);
    }
}

impl<A: AnswersLines> Log<A> {
    // Before the log: no line has begun.
    pub fn new(answers: A) -> Self
        ensures { result ≡ reading answers [] }
    {
        Log {
            answers,
            begun: ArrayVec::new(),
        }
    }

    // What answers the lines, as it is after those that were read.
    pub fn answers(&self) -> &A
        ensures { result.now ≡ self.now.session }
    {
        &self.answers
    }

    // What is kept of the line that has begun.
    pub fn begun(&self) -> &[u8]
        ensures value { result.now ≡ self.now.begun }
        ensures small { length self.now.begun ≤ 33 }
    {
        self.begun.as_slice()
    }

    // The line that has begun ends with this part, and is answered; one that lies whole in its piece is read where it lies.
    fn end_line(&mut self, part: &[u8], out: &mut [u8], at: usize) -> usize
        requires { at + A.room ≤ length out.old }
        ensures { Gives (ended A.answer (grown self.old part.now)) out.old at result out.new self.new }
    {
        let whole = self.begun.is_empty();
        if whole {
            return self.answers.answer_line(part, out, at);
        }
        grow(&mut self.begun, part);
        let end = self.answers.answer_line(self.begun.as_slice(), out, at);
        self.begun.clear();
        end
    }

    // The first line of a piece: its answer is written from at on. A piece with no newline is all carried on.
    pub fn first_line(&mut self, piece: &[u8], out: &mut [u8], at: usize) -> Took
        requires { at + A.room ≤ length out.old }
        ensures gives { Gives (first_given A.answer self.old piece.now) out.old at result.end out.new self.new }
        ensures takes { result.taken ≡ taken_of piece.now }
    {
        let line = text_pieces::first_line(piece);
        if line.taken <= line.len {
            grow(&mut self.begun, piece);
            return Took {
                end: at,
                taken: line.taken,
            };
        }
        Took {
            end: self.end_line(&piece[..line.len], out, at),
            taken: line.taken,
        }
    }

    // Every complete line of a piece is answered; the answers are written from at on. Says where they end.
    pub fn feed(&mut self, piece: &[u8], out: &mut [u8], at: usize) -> usize
        requires { at + 10 * (length self.old.begun + length piece.now) + A.room ≤ length out.old }
        ensures gives { Gives (given A.answer self.old piece.now) out.old at result out.new self.new }
        ensures within { result ≤ length out.new }
    {
        // a proof learns here that few bytes have begun
        let _ = &self.begun;
        let mut rest = piece;
        let mut end = at;
        while !rest.is_empty() {
            let took = self.first_line(rest, out, end);
            end = took.end;
            rest = &rest[took.taken..];
        }
        end
    }

    // The end of the log: a last line without newline is answered if it holds a byte. Says where the answer ends.
    pub fn finish(&mut self, out: &mut [u8], at: usize) -> usize
        requires { at + A.room ≤ length out.old }
        ensures gives { Gives (at_end A.answer self.old) out.old at result out.new self.new }
        ensures within { result ≤ length out.new }
    {
        if self.begun.is_empty() {
            return at;
        }
        self.end_line(&[], out, at)
    }
}
