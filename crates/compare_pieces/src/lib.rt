// A bench's answers against the device's: texts in pieces of any size.
#![tactic(auto)]

ghost use Rattle.std.specs.Prelude.{◌≡◌, true, false, None, ◌<◌, ◌≤◌, length};
ghost use Rattle.compare_pieces.specs.Meeting.{Seen, Unless, wanting, Meets};

use compare_lines::Verdict;
use text_logs::Log;
use trace_session::Session;

// No line that is expected is longer, its newline counted.
pub const LONGEST: usize = 26;

// So many bytes of answers are asked for while there are more of them.
pub const ENOUGH: usize = 64;

// What a call came to: the verdict, where it is found; how much of both pieces is done with; how many lines agree; and where the line ends that was expected last.
#[derive(Clone, Copy)]
pub struct Met {
    pub verdict: Option<Verdict>,
    pub events: usize,
    pub answers: usize,
    pub lines: usize,
    pub end: usize,
}

// The first line of the events, or all of them where none ends: the line that it expects is put into line and judged.
fn meet_line(log: &mut Log<Session>, events: &[u8], line: &mut [u8], answers: &[u8]) -> Met
    requires { (0 < length events.now) × (26 ≤ length line.old) }
    ensures meets { Meets (Seen answers.now) log.old events.now answers.now result.verdict result.lines result.events result.answers log.new }
    ensures line { (length line.new ≡ length line.old) × (result.end ≤ length line.new) }
    ensures some { result.verdict ≡ None → 0 < result.events }
{
    // a proof learns here that few bytes of a line have begun
    let _ = log.begun();
    let took = log.first_line(events, line, 0);
    let end = took.end;
    if end == 0 {
        return Met {
            verdict: None,
            events: took.taken,
            answers: 0,
            lines: 0,
            end,
        };
    }
    match compare_lines::judge(&line[0..end], answers) {
        Ok(taken) => Met {
            verdict: None,
            events: took.taken,
            answers: taken,
            lines: 1,
            end,
        },
        Err(verdict) => Met {
            verdict: Some(verdict),
            events: 0,
            answers: 0,
            lines: 0,
            end,
        },
    }
}

// Whether more answers are to be read before a line can be judged: while there are more, as many as any line has and one.
pub fn wants(left: usize, last: bool) -> bool
    ensures value { result ≡ wanting left last }
    ensures more { result ≡ true → last ≡ false }
    ensures enough { result ≡ false → left ≤ 26 → last ≡ true }
{
    !last && left < ENOUGH
}

// One line of the events after the other, each with a line of the answers, until one of the pieces is done with or the verdict is found. No line of the answers is judged by its beginning: where few are left and these are not the last, the call ends.
pub fn meet(
    log: &mut Log<Session>,
    events: &[u8],
    line: &mut [u8],
    answers: &[u8],
    last: bool,
) -> Met
    requires { 26 ≤ length line.old }
    ensures meets { Meets (Unless last) log.old events.now answers.now result.verdict result.lines result.events result.answers log.new }
    ensures line { (length line.new ≡ length line.old) × (result.end ≤ length line.new) }
    ensures all { result.verdict ≡ None → last ≡ true → result.events ≡ length events.now }
    ensures onward { result.verdict ≡ None → wanting (length answers.now) last ≡ false → 0 < length events.now → 0 < result.events }
{
    let mut met = Met {
        verdict: None,
        events: 0,
        answers: 0,
        lines: 0,
        end: 0,
    };
    // a line takes as many bytes of both as it has, so no `for` counts them
    while met.verdict.is_none() && met.events < events.len() {
        if wants(answers.len() - met.answers, last) {
            break;
        }
        let next = meet_line(log, &events[met.events..], line, &answers[met.answers..]);
        met = Met {
            verdict: next.verdict,
            events: met.events + next.events,
            answers: met.answers + next.answers,
            lines: met.lines + next.lines,
            end: next.end,
        };
    }
    met
}
