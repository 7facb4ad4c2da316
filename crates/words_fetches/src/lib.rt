// Bytes fetched by the master, on words that are packed: for either part.
#![tactic(auto)]

ghost use Rattle.std.specs.Prelude.{◌≡◌, cond, ℕ, get_or, set};
ghost use Rattle.map.specs.Map.{part_of, next_in};
ghost use Rattle.device_rules.specs.Device.{step as step_of};
ghost use Rattle.device_rules.specs.Device.Event.{ByteFetched};
ghost use Rattle.words_rows.specs.Rows.{row_at};
ghost use Rattle.words_state.specs.Packed.{state_in, Packed, Standing, Leaves};

use device_rules::Answer;
use words::{BUS, MODE, POINTER};
use words_state::{DEAF, SENDING, TELLING};

// A byte was shown, with that answer: acknowledged, the pointer steps; else the device is deaf.
fn was_fetched(words: &mut [u64; 28], row: u32, acknowledged: bool, answer: Answer) -> Answer
    requires { Packed (get_or words.old 27 0) words.old }
    ensures { (result ≡ answer) × ((c : ℕ) → Packed c words.old → row ≡ row_at (part_of c) (get_or words.old 21 0)
        → words.new ≡ cond acknowledged (set words.old 21 (next_in (part_of c) (get_or words.old 24 0) (get_or words.old 21 0))) (set words.old 22 7)) }
{
    if !acknowledged {
        return words_state::goes(words, DEAF, answer);
    }
    if words[MODE] != 0 {
        return words_data::steps_over_map(words, answer);
    }
    words[POINTER] = words_rows::successor(row);
    answer
}

// A byte fetched in another state than Sending: the Device ID's in Telling, else none.
fn fetch_elsewhere(words: &mut [u64; 28], acknowledged: bool) -> Answer
    requires { Packed (get_or words.old 27 0) words.old }
    ensures { (c : ℕ) → Packed c words.old → (get_or words.old 22 0 ≡ 4 → ⊥)
        → Leaves c words.new result (step_of (part_of c) (state_in (part_of c) words.old) (ByteFetched acknowledged)) }
{
    if words[BUS] == TELLING {
        return words_identity::tell(words, acknowledged);
    }
    Answer::Byte(0xff)
}

// A byte fetched by the master.
pub fn fetch(words: &mut [u64; 28], row: u32, acknowledged: bool) -> Answer
    requires { Standing row (get_or words.old 21 0) words.old }
    ensures { (c : ℕ) → Packed c words.old → row ≡ row_at (part_of c) (get_or words.old 21 0)
        → Leaves c words.new result (step_of (part_of c) (state_in (part_of c) words.old) (ByteFetched acknowledged)) }
{
    if words[BUS] != SENDING {
        return fetch_elsewhere(words, acknowledged);
    }
    if words_rows::rule(row) == words_rows::INPUT {
        let answer = Answer::Byte(words_views::show_inputs(&*words, row));
        words_kept::settle(words, row);
        return was_fetched(words, row, acknowledged, answer);
    }
    let answer = Answer::Byte(words_views::show(&*words, row));
    was_fetched(words, row, acknowledged, answer)
}
