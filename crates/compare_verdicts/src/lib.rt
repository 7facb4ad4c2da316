// What a comparison says: the verdict on standard output, and for a person on standard error what is the matter with which line.
#![tactic(auto)]

use compare_lines::Verdict;
use std::io;

// Of a longer line a person is shown so many bytes.
const SHOWN: usize = 32;

// A part of what a person is told. Where nobody can be told, the verdict stands all the same.
fn tell(said: &impl Print, part: &[u8]) {
    let _ = said.write_all(part);
}

// What a person is told of a line: its beginning.
fn tell_line(said: &impl Print, label: &[u8], text: &[u8]) {
    let len = text_pieces::newline_at(text);
    tell(said, label);
    if SHOWN < len {
        tell(said, &text[0..SHOWN]);
        tell(said, b"...\n");
        return;
    }
    tell(said, &text[0..len]);
    tell(said, b"\n");
}

// What was found: how many lines agree before it, and of the line that decides its event, what was expected, and the answers from there on.
#[derive(Clone, Copy)]
pub struct Finding<'a> {
    pub verdict: Verdict,
    pub agreed: u64,
    pub event: &'a [u8],
    pub expected: &'a [u8],
    pub found: &'a [u8],
}

impl Finding<'_> {
    fn tell_agreed(&self, said: &impl Print) {
        let agreed = self.agreed;
        let what = if agreed == 1 {
            "line agrees"
        } else {
            "lines agree"
        };
        let _ = println!(said; "compare: {agreed} {what}");
    }

    // The number of the line that decides, and what is the matter with it.
    fn tell_number(&self, said: &impl Print, what: &str) {
        let number = self.agreed.saturating_add(1);
        let _ = println!(said; "compare: line {number} {what}");
    }

    // What a person is told.
    fn tell(&self, said: &impl Print) {
        match self.verdict {
            Verdict::Agrees => self.tell_agreed(said),
            Verdict::Departs => {
                self.tell_number(said, "departs");
                tell_line(said, b"event: ", self.event);
                tell_line(said, b"expected: ", self.expected);
                tell_line(said, b"found: ", self.found);
            }
            Verdict::EndsEarly => {
                self.tell_number(said, "is missing");
                tell_line(said, b"event: ", self.event);
                tell_line(said, b"expected: ", self.expected);
            }
            Verdict::LeftOver => {
                self.tell_number(said, "is left over");
                tell(said, b"expected: nothing, the events end before it\n");
                tell_line(said, b"found: ", self.found);
            }
        }
    }

    // What a person is told, and then the verdict.
    pub fn conclude(&self, out: &impl Print, said: &impl Print) -> io::Result<()> {
        self.tell(said);
        let verdict = self.verdict;
        println!(out; "{verdict}")
    }
}
