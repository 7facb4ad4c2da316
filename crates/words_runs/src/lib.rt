// Events one after another, on words that are lent and known to be packed, until one is refused.
#![tactic(auto)]

ghost use Rattle.std.specs.Prelude.{ℕ, ◌*◌, ◌≤◌, length};
ghost use Rattle.map.specs.Map.{part_of};
ghost use Rattle.words_state.specs.Packed.{state_in, Packed};
ghost use Rattle.words_device.specs.Named.{Named};
ghost use Rattle.words_events.specs.Events.{sent_of};
ghost use Rattle.words_runs.specs.Runs.{ran, Left};

use device_rules::Answer;

// The events in order, until one is refused.
pub fn run(
    words: &mut [u64; 28],
    events: &[u8],
    asked: usize,
    answers: &mut [u8],
    done: &mut [u64; 1],
) -> u32
    requires { Named words.old × (12 * asked ≤ length events.now) × (2 * asked ≤ length answers.old) }
    ensures { (c : ℕ) → Packed c words.old → Left c (ran (part_of c) (state_in (part_of c) words.old) (sent_of events.now 0 asked)) result
        words.new answers.old answers.new done.new }
{
    for i in 0..asked {
        let answer = words_taking::take(words, events, i);
        let Answer::Refused(refusal) = answer else {
            words_events::put(answers, i, answer);
            continue;
        };
        *done = [i as u64];
        return u32::from(refusal);
    }
    *done = [asked as u64];
    0
}
