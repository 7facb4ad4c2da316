// Address bytes, on words that are packed: ours, the general call, and the one that asks for a Device ID; for either part.
#![tactic(auto)]

ghost use Rattle.std.specs.Prelude.{ℕ, get_or};
ghost use Rattle.map.specs.Map.{part_of};
ghost use Rattle.device_rules.specs.Device.{addressed};
ghost use Rattle.words_state.specs.Packed.{state_in, Packed, Leaves};

use device_rules::Answer;
use words::CHOICE;
use words_state::{ASKING, CALL, CHOSEN, DEAF, SENDING};

// The byte that asks for a Device ID.
const ASKS: u64 = 0xf8;

// An address byte: ours to write or to read, the general call, or the question for a Device ID.
pub fn address(words: &mut [u64; 28], value: u8) -> Answer
    requires { Packed (get_or words.old 27 0) words.old }
    ensures { (c : ℕ) → Packed c words.old → Leaves c words.new result (addressed (state_in (part_of c) words.old) value) }
{
    let address = 2 * (0x20 + words[CHOICE]);
    let byte = value as u64;
    if byte == address {
        return words_state::goes(words, CHOSEN, Answer::Ack);
    }
    if byte == address + 1 {
        return words_state::goes(words, SENDING, Answer::Ack);
    }
    if byte == 0 {
        return words_state::goes(words, CALL, Answer::Ack);
    }
    if byte == ASKS {
        return words_state::goes(words, ASKING, Answer::Ack);
    }
    words_state::goes(words, DEAF, Answer::Nak)
}
