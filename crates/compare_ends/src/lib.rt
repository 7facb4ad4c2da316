// A bench's answers against the device's: the end of the events.
#![tactic(auto)]

ghost use Rattle.std.specs.Prelude.{◌≡◌, ◌<◌, ◌≤◌, length};
ghost use Rattle.compare_lines.specs.Comparing.{agrees, left_over};
ghost use Rattle.compare_lines.specs.Verdicts.{number_of};
ghost use Rattle.compare_pieces.specs.Meeting.{Settles};

use compare_lines::Verdict;
use text_logs::Log;
use trace_session::Session;

// What the end of the events came to: the verdict, how much of the answers is done with, how many lines agree, and where the line ends that was expected last.
#[derive(Clone, Copy)]
pub struct Settled {
    pub verdict: Verdict,
    pub answers: usize,
    pub lines: usize,
    pub end: usize,
}

// What is left when no line is expected any more.
fn rest_verdict(left: usize) -> Verdict
    ensures none { left ≡ 0 → number_of result ≡ agrees }
    ensures some { 0 < left → number_of result ≡ left_over }
{
    if left == 0 {
        return Verdict::Agrees;
    }
    Verdict::LeftOver
}

// The end of the events: a last line without newline expects an answer if it holds a byte, and then nothing is expected.
pub fn finish(log: &mut Log<Session>, line: &mut [u8], answers: &[u8]) -> Settled
    requires { 26 ≤ length line.old }
    ensures settles { Settles log.old answers.now (number_of result.verdict) result.lines result.answers }
    ensures line { (length line.new ≡ length line.old) × (result.end ≤ length line.new) }
{
    let end = log.finish(line, 0);
    if end == 0 {
        return Settled {
            verdict: rest_verdict(answers.len()),
            answers: 0,
            lines: 0,
            end,
        };
    }
    match compare_lines::judge(&line[0..end], answers) {
        Ok(taken) => Settled {
            verdict: rest_verdict(answers.len() - taken),
            answers: taken,
            lines: 1,
            end,
        },
        Err(verdict) => Settled {
            verdict,
            answers: 0,
            lines: 0,
            end,
        },
    }
}
