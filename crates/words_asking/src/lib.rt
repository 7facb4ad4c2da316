// The question for a Device ID, on words that are packed: our byte in it, and the byte after START again; for either part.
#![tactic(auto)]

ghost use Rattle.std.specs.Prelude.{ℕ, get_or};
ghost use Rattle.map.specs.Map.{part_of};
ghost use Rattle.device_rules.specs.Device.{byte_in};
ghost use Rattle.device_rules.specs.Device.Bus.{Asking, Reopened};
ghost use Rattle.words_state.specs.Packed.{state_in, Packed, Leaves};

use device_rules::Answer;
use words::{CHOICE, PLACE};
use words_state::{DEAF, NAMED, TELLING};

// The byte that asks for the telling.
const ASKS_TO_TELL: u8 = 0xf9;

// A byte in Asking: our byte, with either lowest bit.
pub fn asked(words: &mut [u64; 28], value: u8) -> Answer
    requires { Packed (get_or words.old 27 0) words.old }
    ensures { (c : ℕ) → Packed c words.old → Leaves c words.new result (byte_in (part_of c) Asking (state_in (part_of c) words.old) value) }
{
    let address = 2 * (0x20 + words[CHOICE]);
    let byte = value as u64;
    if (byte == address) | (byte == address + 1) {
        return words_state::goes(words, NAMED, Answer::Ack);
    }
    words_state::goes(words, DEAF, Answer::Nak)
}

// A byte in Reopened: the telling begins at the first byte, or it is an address byte.
pub fn asked_again(words: &mut [u64; 28], value: u8) -> Answer
    requires { Packed (get_or words.old 27 0) words.old }
    ensures { (c : ℕ) → Packed c words.old → Leaves c words.new result (byte_in (part_of c) Reopened (state_in (part_of c) words.old) value) }
{
    if value == ASKS_TO_TELL {
        words[PLACE] = 0;
        return words_state::goes(words, TELLING, Answer::Ack);
    }
    words_address::address(words, value)
}
