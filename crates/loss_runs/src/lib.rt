// Events one after another with the loss marks beside the device, until one is refused.
#![tactic(auto)]

ghost use Rattle.std.specs.Prelude.{◌≡◌, true, ℕ, ◌+◌, ◌*◌, ◌≤◌, length, get_or};
ghost use Rattle.map.specs.Map.{part_of};
ghost use Rattle.words_state.specs.Packed.{state_in, Packed, Leaves};
ghost use Rattle.words_device.specs.Named.{Named};
ghost use Rattle.words_events.specs.Events.{event_at, sent_of, one};
ghost use Rattle.words_runs.specs.Runs.{ran, Left};
ghost use Rattle.loss_rules.specs.Marks.{marks_fit};
ghost use Rattle.loss_sets.specs.Sets.{marks_in};
ghost use Rattle.loss_runs.specs.MarkedRuns.{marked_by, marks_over};

use device_rules::Answer;
use words::STATUS;

// The event of number i, and what it sets is marked.
fn take(words: &mut [u64; 28], marks: &mut [u64; 2], events: &[u8], i: usize) -> Answer
    requires { Named words.old × (12 * i + 12 ≤ length events.now) }
    ensures { ((c : ℕ) → Packed c words.old → Leaves c words.new result (one (part_of c) (state_in (part_of c) words.old) (event_at events.now i)))
        × ((c : ℕ) → Packed c words.old → marks_fit (part_of c) (marks_in marks.old) ≡ true
        → marks_in marks.new ≡ marked_by (part_of c) (state_in (part_of c) words.old) (event_at events.now i) (marks_in marks.old)) }
{
    let before = words[STATUS];
    let kind = words_events::word_at(events, 12 * i);
    let resets = loss_marks::is_reset(&*words, kind);
    let answer = words_taking::take(words, events, i);
    if answer.is_refusal() {
        return answer;
    }
    loss_notes::note(marks, resets, before, words[STATUS]);
    answer
}

// The events in order, until one is refused.
pub fn run(
    words: &mut [u64; 28],
    marks: &mut [u64; 2],
    events: &[u8],
    asked: usize,
    answers: &mut [u8],
    done: &mut [u64; 1],
) -> u32
    requires { Named words.old × (12 * asked ≤ length events.now) × (2 * asked ≤ length answers.old)
        × (marks_fit (part_of (get_or words.old 27 0)) (marks_in marks.old) ≡ true) }
    ensures { ((c : ℕ) → Packed c words.old → Left c (ran (part_of c) (state_in (part_of c) words.old) (sent_of events.now 0 asked)) result
        words.new answers.old answers.new done.new)
        × ((c : ℕ) → Packed c words.old
        → marks_in marks.new ≡ marks_over (part_of c) (state_in (part_of c) words.old) (marks_in marks.old) (sent_of events.now 0 asked)) }
{
    for i in 0..asked {
        let answer = take(words, marks, events, i);
        let Answer::Refused(refusal) = answer else {
            words_events::put(answers, i, answer);
            continue;
        };
        *done = [i as u64];
        return u32::from(refusal);
    }
    *done = [asked as u64];
    0
}
