// What a reset leaves, on words: for either part.
#![tactic(auto)]

ghost use Rattle.std.specs.Prelude.{◌≡◌, ℕ, ◌-◌, ◌^◌, get_or};
ghost use Rattle.map.specs.Map.{part_of};
ghost use Rattle.device_rules.specs.Device.{out, resetted};
ghost use Rattle.words_state.specs.Packed.{state_in, Packed, Leaves};

use device_rules::Answer;
use words::{CHOICE, ID, PART};

// Any reset, of a part whose pins are these.
pub fn reset(words: &mut [u64; 28], pins: u64)
    requires { Packed (get_or words.old 27 0) words.old × (pins ≡ 2 ^ (part_of (get_or words.old 27 0)).width - 1) }
    ensures { (c : ℕ) → Packed c words.old → pins ≡ 2 ^ (part_of c).width - 1
        → Leaves c words.new Answer.Nothing (out Answer.Nothing (resetted (part_of c) (state_in (part_of c) words.old))) }
{
    let x = words::sets_in(&*words);
    let y = pins_marks::reset_pins(x);
    let choice = words[CHOICE];
    let id = words[ID];
    let part = words[PART];
    words_defaults::put_defaults(words, pins, choice, id, part);
    words::put_sets(words, y);
}
