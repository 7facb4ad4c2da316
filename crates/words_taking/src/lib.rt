// An event of a burst, which comes as bytes, taken on words that are lent.
#![tactic(auto)]

ghost use Rattle.std.specs.Prelude.{ℕ, ◌+◌, ◌*◌, ◌≤◌, length};
ghost use Rattle.map.specs.Map.{part_of};
ghost use Rattle.words_state.specs.Packed.{state_in, Packed, Leaves};
ghost use Rattle.words_device.specs.Named.{Named};
ghost use Rattle.words_events.specs.Events.{sent, event_at, one};

use device_rules::{Answer, BAD_ARGUMENT, BAD_KIND};
use words::PART;

// The last event kind.
const LAST_KIND: u32 = 5;

// The most that the lower half of an argument can be, and what its upper half counts.
const LOWER_HALF: u64 = 0xffff_ffff;

const UPPER_HALF: u64 = 0x1_0000_0000;

// One event: a third word is the upper half of the argument where the pins need it, and else refused.
fn one(words: &mut [u64; 28], kind: u32, arg: u32, third: u32) -> Answer
    requires { Named words.old }
    ensures { (c : ℕ) → Packed c words.old → Leaves c words.new result (one (part_of c) (state_in (part_of c) words.old) (sent kind arg third)) }
{
    if third == 0 {
        return words_device::event(words, kind, arg as u64);
    }
    if LOWER_HALF < map::pins_of(words[PART]) {
        let whole = third as u64 * UPPER_HALF + arg as u64;
        return words_device::event(words, kind, whole);
    }
    if LAST_KIND < kind {
        return Answer::Refused(BAD_KIND);
    }
    Answer::Refused(BAD_ARGUMENT)
}

// The event of number i.
pub fn take(words: &mut [u64; 28], events: &[u8], i: usize) -> Answer
    requires { Named words.old × (12 * i + 12 ≤ length events.now) }
    ensures { (c : ℕ) → Packed c words.old → Leaves c words.new result (one (part_of c) (state_in (part_of c) words.old) (event_at events.now i)) }
{
    let kind = words_events::word_at(events, 12 * i);
    let arg = words_events::word_at(events, 12 * i + 4);
    let third = words_events::word_at(events, 12 * i + 8);
    one(words, kind, arg, third)
}
