// The answers that a comparison reads, from a file of any length into bounded memory: enough to judge a line, or a whole line, which is shown.
#![tactic(auto)]

ghost use Rattle.std.specs.Prelude.{◌≡◌, ◌≤◌, ◌-◌, [], true, false, length, drop, IfOk, OnOk, ◌+◌, nat_eq};
ghost use Rattle.std.specs.Io.{StartsWith};
ghost use Rattle.compare_pieces.specs.Meeting.{wanting};

use compare_pieces::{ENOUGH, wants};
use std::io;
use std::io::{Cursor, Read, Write};
use std::marker::Model;

// How many bytes of the answers are in memory at once.
const ROOM: usize = 65536;

// A line is read on while there is room for so many bytes.
const PIECE: usize = 4096;

// No error has longer words.
const WORDS: usize = 256;

// Where the system's words for an error end: std has its number in brackets after them.
fn words_end(words: &[u8]) -> usize
    ensures { result ≤ length words.now }
{
    for (i, b) in words.iter().enumerate() {
        if *b == 0 {
            return i;
        }
        if *b == b'(' {
            return i.saturating_sub(1);
        }
    }
    words.len()
}

// A line for a person: what failed, and the system's words for why. Where nobody can be told, nothing else changes.
pub fn fail(said: &impl Print, what: &[u8], error: io::Error) {
    let mut room = Cursor::new([0u8; WORDS]);
    let _ = write!(room, "{error}");
    let words = room.into_inner();
    let end = words_end(&words);
    let _ = said.write_all(what);
    let _ = said.write_all(b": ");
    let _ = said.write_all(&words[0..end]);
    let _ = said.write_all(b"\n");
}

// The answers that were read and are not done with, and the file that has the rest. A contract sees the former.
#[derive(Drop)]
pub struct Answers<R> {
    file: R,
    seen: [u8; ROOM],
    at: usize,
    have: usize,
    last: bool,
}

impl<R> Model for Answers<R> {
    ghost use Rattle.std.specs.Prelude.{◌≤◌, ◌-◌, take, drop};
    ghost use Rattle.compare_answers.specs.Reading.{Reading};

    ghost Value = { Reading };

    ghost view = { λ a. record { left = take (a.have - a.at) (drop a.at a.seen); last = a.last } };

    ghost invariant = { λ a. (a.at ≤ a.have) × (a.have ≤ 65536) };
}

impl<R: Read> Answers<R> {
    pub fn new(file: R) -> Self
        ensures { (result.left ≡ []) × (result.last ≡ false) }
    {
        Answers {
            file,
            seen: [0; ROOM],
            at: 0,
            have: 0,
            last: false,
        }
    }

    // What was read and is not done with.
    pub fn left(&self) -> &[u8]
        ensures { result.now ≡ self.now.left }
    {
        &self.seen[self.at..self.have]
    }

    // Whether no more follow.
    pub fn is_last(&self) -> bool
        ensures { result ≡ self.now.last }
    {
        self.last
    }

    // So many bytes are done with.
    pub fn advance(&mut self, count: usize)
        requires { count ≤ length self.old.left }
        ensures { (self.new.left ≡ drop count self.old.left) × (self.new.last ≡ self.old.last) }
    {
        self.at += count;
    }

    // One read more, behind what is there: how many bytes it gave.
    fn read_on(&mut self) -> io::Result<usize>
        ensures more { IfOk result (λ count. length self.new.left ≡ length self.old.left + count) }
        ensures last { IfOk result (λ count. self.new.last ≡ nat_eq count 0) }
        ensures kept { StartsWith self.new.left self.old.left }
    {
        let count = self.file.read(&mut self.seen[self.have..])?;
        self.have += count;
        self.last = count == 0;
        Ok(count)
    }

    // Whether more are to be read before a line can be judged.
    fn are_few(&self) -> bool
        ensures value { result ≡ wanting (length self.now.left) self.now.last }
        ensures few { result ≡ true → self.now.last ≡ false }
    {
        wants(self.left().len(), self.last)
    }

    // What is not done with comes to the front.
    fn move_to_front(&mut self)
        ensures { self.new ≡ self.old }
    {
        self.seen.copy_within(self.at..self.have, 0);
        self.have -= self.at;
        self.at = 0;
    }

    // Reads answers enough to judge a line, or all there are.
    pub fn fill(&mut self) -> io::Result<()>
        ensures enough { OnOk result (wanting (length self.new.left) self.new.last ≡ false) }
        ensures kept { StartsWith self.new.left self.old.left }
    {
        if !self.are_few() {
            return Ok(());
        }
        self.move_to_front();
        for _ in 0..ENOUGH {
            self.read_on()?;
            if !self.are_few() {
                break;
            }
        }
        Ok(())
    }

    // Reads on while the next line has no end and there is room for it.
    pub fn fill_line(&mut self) -> io::Result<()>
        ensures { StartsWith self.new.left self.old.left }
    {
        let mut ended = self.last || self.left().contains(&b'\n');
        for _ in self.have..ROOM {
            if ended || ROOM - self.have < PIECE {
                break;
            }
            let count = self.read_on()?;
            let left = self.left();
            ended = self.last || left[left.len() - count..].contains(&b'\n');
        }
        Ok(())
    }

    // The next line, with a newline, on standard output; it may go on past all that was read.
    pub fn print_line(&mut self, out: &impl Print, said: &impl Print) -> io::Result<()> {
        // a proved loop ends: it counts up to a number that no line uses up
        for _ in 0..u64::MAX {
            let left = self.left();
            let line = text_pieces::newline_at(left);
            out.write_all(&left[0..line])?;
            if self.last || line < left.len() {
                break;
            }
            self.at = 0;
            self.have = 0;
            if let Err(error) = self.read_on() {
                fail(said, b"compare: the answers", error);
                break;
            }
        }
        out.write_all(b"\n")
    }
}
