// A bench's answers against the device's: whole texts.
#![tactic(auto)]

ghost use Rattle.std.specs.Prelude.{◌≡◌, ◌≤◌, length, drop};
ghost use Rattle.compare_lines.specs.Comparing.{compared, first_line};
ghost use Rattle.compare_lines.specs.Verdicts.{number_of};
ghost use Rattle.compare_logs.specs.Finding.{FindsOn, LineAt, Finds};

use compare_lines::Verdict;
use compare_pieces::LONGEST;

// What was found in whole texts: the verdict, and from where to where the part lies that is handed back.
#[derive(Clone, Copy)]
pub struct Found {
    pub verdict: Verdict,
    pub from: usize,
    pub to: usize,
}

// The line that begins at a place.
fn line_at(answers: &[u8], verdict: Verdict, from: usize) -> Found
    requires { from ≤ length answers.now }
    ensures as_given { (result.verdict ≡ verdict) × (result.from ≡ from) }
    ensures line { LineAt answers.now from result.to }
{
    let line = text_pieces::first_line(&answers[from..]);
    let len = line.len;
    Found {
        verdict,
        from,
        to: from + len,
    }
}

// A verdict, and where in the answers that were left it was found.
#[derive(Clone, Copy)]
struct Place {
    verdict: Verdict,
    from: usize,
}

// The answers that are left after the header, against all events.
fn find_on(events: &[u8], rest: &[u8], line: &mut [u8]) -> Place
    requires { 26 ≤ length line.old }
    ensures finds { FindsOn events.now rest.now (number_of result.verdict) (drop result.from rest.now) }
    ensures within { result.from ≤ length rest.now }
{
    let mut log = trace_logs::start();
    let met = compare_pieces::meet(&mut log, events, line, rest, true);
    let at = met.answers;
    match met.verdict {
        Some(verdict) => Place { verdict, from: at },
        None => {
            let settled = compare_ends::finish(&mut log, line, &rest[at..]);
            Place {
                verdict: settled.verdict,
                from: at + settled.answers,
            }
        }
    }
}

// Whole texts: the header is judged, and then the rest.
pub fn find(events: &[u8], answers: &[u8]) -> Found
    ensures { Finds events.now answers.now (number_of result.verdict) result.from result.to }
{
    let mut line = [0u8; LONGEST];
    let end = trace_logs::put_header(&mut line, 0);
    match compare_lines::judge(&line[0..end], answers) {
        Ok(taken) => {
            let place = find_on(events, &answers[taken..], &mut line);
            line_at(answers, place.verdict, taken + place.from)
        }
        Err(verdict) => line_at(answers, verdict, 0),
    }
}

// What is found of a bench's answers, and the part of them that is handed back.
#[derive(Clone, Copy)]
pub struct Comparison<'a> {
    pub verdict: Verdict,
    pub part: &'a [u8],
}

// Are these the answers of the device? The line that departs, or the first that is left over, is handed back as the part of the answers that it is, and else the empty part at their end.
pub fn compare<'a>(events: &[u8], answers: &'a [u8]) -> Comparison<'a>
    ensures verdict { number_of result.verdict ≡ (compared events.now answers.now).verdict }
    ensures part { result.part.now ≡ first_line (compared events.now answers.now).left }
{
    let found = find(events, answers);
    Comparison {
        verdict: found.verdict,
        part: &answers[found.from..found.to],
    }
}
