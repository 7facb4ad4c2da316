// Data bytes written in Filling, and the pointer's step over the whole map after any data byte, on words that are packed: for either part.
#![tactic(auto)]

ghost use Rattle.std.specs.Prelude.{◌≡◌, ℕ, get_or, set};
ghost use Rattle.map.specs.Map.{part_of, onward};
ghost use Rattle.device_rules.specs.Device.{byte_in};
ghost use Rattle.device_rules.specs.Device.Bus.{Filling};
ghost use Rattle.words_rows.specs.Rows.{row_at};
ghost use Rattle.words_state.specs.Packed.{state_in, Packed, Standing, Leaves};

use device_rules::Answer;
use words::{MODE, PART, POINTER};

// The pointer steps over the whole map, and the answer is handed on.
pub fn steps_over_map(words: &mut [u64; 28], answer: Answer) -> Answer
    requires { Packed (get_or words.old 27 0) words.old }
    ensures { (result ≡ answer) × ((c : ℕ) → Packed c words.old → words.new ≡ set words.old 21 (onward (part_of c) (get_or words.old 21 0))) }
{
    words[POINTER] = map::onward_of(words[PART], (words[POINTER] % 128) as u8) as u64;
    answer
}

// A byte in Filling: the register at the pointer, whose row is given, is written, and the pointer steps.
pub fn byte_filling(words: &mut [u64; 28], row: u32, value: u8) -> Answer
    requires { Standing row (get_or words.old 21 0) words.old × (get_or words.old 22 0 ≡ 3) }
    ensures { (c : ℕ) → Packed c words.old → get_or words.old 22 0 ≡ 3 → row ≡ row_at (part_of c) (get_or words.old 21 0)
        → Leaves c words.new result (byte_in (part_of c) Filling (state_in (part_of c) words.old) value) }
{
    words_kept::write(words, row, value);
    if words[MODE] == 0 {
        words[POINTER] = words_rows::successor(row);
        return Answer::Ack;
    }
    steps_over_map(words, Answer::Ack)
}
