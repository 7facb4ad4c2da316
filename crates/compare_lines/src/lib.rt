// One line of a bench's answers against the line that is expected.
#![tactic(auto)]

ghost use Rattle.std.specs.Prelude.{◌≡◌, ◌<◌, length};
ghost use Rattle.compare_lines.specs.Judging.{Judges};
ghost use Rattle.compare_lines.specs.Verdicts.{number_of};

use std::fmt;

// What is found of a bench's answers.
#[derive(Clone, Copy, Debug, PartialEq, Eq)]
pub enum Verdict {
    Agrees,
    Departs,
    EndsEarly,
    LeftOver,
}

// The number that C sees.
impl From<Verdict> for u8 {
    ghost from_gives = { λ verdict number. number ≡ number_of verdict };

    fn from(verdict: Verdict) -> u8 {
        match verdict {
            Verdict::Agrees => 0,
            Verdict::Departs => 1,
            Verdict::EndsEarly => 2,
            Verdict::LeftOver => 3,
        }
    }
}

// The word that a shell sees.
impl fmt::Display for Verdict {
    fn fmt<W: fmt::Write>(&self, f: &mut fmt::Formatter<W>) -> fmt::Result {
        let word = match self {
            Verdict::Agrees => "agrees",
            Verdict::Departs => "departs",
            Verdict::EndsEarly => "ends early",
            Verdict::LeftOver => "left over",
        };
        f.write_str(word)
    }
}

// A line that is expected, with its newline, against the answers that are left: how many bytes of them it takes, or the verdict. A last line without a newline counts.
pub fn judge(line: &[u8], answers: &[u8]) -> Result<usize, Verdict>
    requires { 0 < length line.now }
    ensures { Judges line.now answers.now result }
{
    if answers.len() == 0 {
        return Err(Verdict::EndsEarly);
    }
    if text_begins::begins(answers, line) {
        return Ok(line.len());
    }
    let unended = line.len() - 1;
    if text::is(answers, &line[0..unended]) {
        return Ok(answers.len());
    }
    Err(Verdict::Departs)
}
