// The bus on words that are packed: what every event but a command does, for either part.
#![tactic(auto)]

ghost use Rattle.std.specs.Prelude.{◌≡◌, ℕ, ◌-◌, ◌^◌, get_or};
ghost use Rattle.map.specs.Map.{part_of};
ghost use Rattle.device_rules.specs.Refusals.{stepped};
ghost use Rattle.words_rows.specs.Rows.{row_at};
ghost use Rattle.words_state.specs.Packed.{state_in, Packed, Standing, Leaves};

use device_rules::{Answer, BAD_ARGUMENT, BAD_KIND, BYTE, FETCH, LEVELS, RESET, START, STOP};

// Any other event on packed words, the row of the register at the pointer given.
pub fn event(words: &mut [u64; 28], pins: u64, row: u32, kind: u32, arg: u64) -> Answer
    requires { Standing row (get_or words.old 21 0) words.old × (pins ≡ 2 ^ (part_of (get_or words.old 27 0)).width - 1)
        × (kind ≡ 2 → get_or words.old 22 0 ≡ 2 → ⊥) }
    ensures { (c : ℕ) → Packed c words.old → pins ≡ 2 ^ (part_of c).width - 1 → row ≡ row_at (part_of c) (get_or words.old 21 0)
        → (kind ≡ 2 → get_or words.old 22 0 ≡ 2 → ⊥) → Leaves c words.new result (stepped (part_of c) (state_in (part_of c) words.old) kind arg) }
{
    match kind {
        START => words_conditions::start(words),
        STOP => words_conditions::stop(words, pins),
        BYTE => {
            if 255 < arg {
                return Answer::Refused(BAD_ARGUMENT);
            }
            words_bytes::byte(words, row, arg as u8)
        }
        FETCH => {
            if 1 < arg {
                return Answer::Refused(BAD_ARGUMENT);
            }
            words_fetches::fetch(words, row, arg == 1)
        }
        LEVELS => {
            if pins < arg {
                return Answer::Refused(BAD_ARGUMENT);
            }
            words_kept::set_levels(words, arg);
            Answer::Nothing
        }
        RESET => {
            words_resets::reset(words, pins);
            Answer::Nothing
        }
        _ => Answer::Refused(BAD_KIND),
    }
}
