// START and STOP on words that are packed: for either part.
#![tactic(auto)]

ghost use Rattle.std.specs.Prelude.{◌≡◌, ℕ, ◌-◌, ◌^◌, get_or};
ghost use Rattle.map.specs.Map.{part_of};
ghost use Rattle.device_rules.specs.Device.{step as step_of};
ghost use Rattle.device_rules.specs.Device.Event.{Start, Stop};
ghost use Rattle.words_state.specs.Packed.{state_in, Packed, Leaves};

use device_rules::Answer;
use words::BUS;
use words_state::{ARMED, IDLE, NAMED, OPENED, REOPENED};

// START: the repeated one in the question for a Device ID, and elsewhere the first.
pub fn start(words: &mut [u64; 28]) -> Answer
    requires { Packed (get_or words.old 27 0) words.old }
    ensures { (c : ℕ) → Packed c words.old → Leaves c words.new result (step_of (part_of c) (state_in (part_of c) words.old) Start) }
{
    let bus = words[BUS];
    match bus {
        NAMED => words_state::goes(words, REOPENED, Answer::Nothing),
        REOPENED => words_state::goes(words, REOPENED, Answer::Nothing),
        _ => words_state::goes(words, OPENED, Answer::Nothing),
    }
}

// STOP.
pub fn stop(words: &mut [u64; 28], pins: u64) -> Answer
    requires { Packed (get_or words.old 27 0) words.old × (pins ≡ 2 ^ (part_of (get_or words.old 27 0)).width - 1) }
    ensures { (c : ℕ) → Packed c words.old → pins ≡ 2 ^ (part_of c).width - 1
        → Leaves c words.new result (step_of (part_of c) (state_in (part_of c) words.old) Stop) }
{
    if words[BUS] == ARMED {
        words_resets::reset(words, pins);
        return Answer::Nothing;
    }
    words_state::goes(words, IDLE, Answer::Nothing)
}
