// The command, the byte that sets the pointer and the mode, on words that are packed: for either part.
#![tactic(auto)]

ghost use Rattle.std.specs.Prelude.{◌≡◌, true, false, ℕ, ◌%◌, get_or};
ghost use Rattle.map.specs.Map.{part_of};
ghost use Rattle.device_rules.specs.Device.{byte_in};
ghost use Rattle.device_rules.specs.Device.Bus.{Chosen};
ghost use Rattle.device_rules.specs.Refusals.{stepped};
ghost use Rattle.words_rows.specs.Rows.{row_at};
ghost use Rattle.words_state.specs.Packed.{state_in, Packed, Standing, Leaves};

use device_rules::{Answer, BAD_ARGUMENT, BYTE};
use words::{BUS, MODE, POINTER};
use words_state::{CHOSEN, DEAF, FILLING};

// Whether the event is a command.
pub fn is_command(words: &[u64; 28], kind: u32) -> bool
    ensures { (result ≡ true → (kind ≡ 2) × (get_or words.now 22 0 ≡ 2)) × (result ≡ false → kind ≡ 2 → get_or words.now 22 0 ≡ 2 → ⊥) }
{
    if kind == BYTE {
        return words[BUS] == CHOSEN;
    }
    false
}

// A byte in Chosen: the command, whose row is given.
fn byte_chosen(words: &mut [u64; 28], wanted: u32, value: u8) -> Answer
    requires { Standing wanted (value % 128) words.old }
    ensures { (c : ℕ) → Packed c words.old → wanted ≡ row_at (part_of c) (value % 128)
        → Leaves c words.new result (byte_in (part_of c) Chosen (state_in (part_of c) words.old) value) }
{
    if wanted == 0 {
        return words_state::goes(words, DEAF, Answer::Nak);
    }
    words[POINTER] = (value % 128) as u64;
    words[MODE] = (value / 128) as u64;
    words_state::goes(words, FILLING, Answer::Ack)
}

// A command on packed words, its row given.
pub fn command(words: &mut [u64; 28], row: u32, arg: u64) -> Answer
    requires { Standing row (arg % 128) words.old × (get_or words.old 22 0 ≡ 2) }
    ensures { (c : ℕ) → Packed c words.old → get_or words.old 22 0 ≡ 2 → row ≡ row_at (part_of c) (arg % 128)
        → Leaves c words.new result (stepped (part_of c) (state_in (part_of c) words.old) 2 arg) }
{
    if 255 < arg {
        return Answer::Refused(BAD_ARGUMENT);
    }
    byte_chosen(words, row, arg as u8)
}
