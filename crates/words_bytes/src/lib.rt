// A byte from the master that is not a command, on words that are packed: for either part.
#![tactic(auto)]

ghost use Rattle.std.specs.Prelude.{◌≡◌, ℕ, get_or};
ghost use Rattle.map.specs.Map.{part_of};
ghost use Rattle.device_rules.specs.Device.{byte_in, step as step_of};
ghost use Rattle.device_rules.specs.Device.Bus.{Call};
ghost use Rattle.device_rules.specs.Device.Event.{ByteSent};
ghost use Rattle.words_rows.specs.Rows.{row_at};
ghost use Rattle.words_state.specs.Packed.{state_in, Packed, Standing, Leaves};

use device_rules::Answer;
use words::BUS;
use words_state::{ARMED, ASKING, CALL, DEAF, FILLING, IDLE, OPENED, REOPENED};

// A byte in Call: software reset, or nothing.
fn byte_call(words: &mut [u64; 28], value: u8) -> Answer
    requires { Packed (get_or words.old 27 0) words.old }
    ensures { (c : ℕ) → Packed c words.old → Leaves c words.new result (byte_in (part_of c) Call (state_in (part_of c) words.old) value) }
{
    if value == 6 {
        return words_state::goes(words, ARMED, Answer::Ack);
    }
    words_state::goes(words, DEAF, Answer::Nak)
}

// A byte from the master, which is not a command.
pub fn byte(words: &mut [u64; 28], row: u32, value: u8) -> Answer
    requires { Standing row (get_or words.old 21 0) words.old × (get_or words.old 22 0 ≡ 2 → ⊥) }
    ensures { (c : ℕ) → Packed c words.old → (get_or words.old 22 0 ≡ 2 → ⊥) → row ≡ row_at (part_of c) (get_or words.old 21 0)
        → Leaves c words.new result (step_of (part_of c) (state_in (part_of c) words.old) (ByteSent value)) }
{
    let bus = words[BUS];
    match bus {
        OPENED => words_address::address(words, value),
        FILLING => words_data::byte_filling(words, row, value),
        CALL => byte_call(words, value),
        IDLE => Answer::Nak,
        ASKING => words_asking::asked(words, value),
        REOPENED => words_asking::asked_again(words, value),
        _ => words_state::goes(words, DEAF, Answer::Nak),
    }
}
