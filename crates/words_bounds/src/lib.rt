// Whether each word is within its bounds, the pointer's register apart.
#![tactic(auto)]

ghost use Rattle.std.specs.Prelude.{◌≡◌, true};
ghost use Rattle.map.specs.Map.{part_of};
ghost use Rattle.words.specs.Words.{Fit};
ghost use Rattle.words_state.specs.Packed.{Bounded};

use words::{BUS, PART, PLACE};

// The last bus state, and the last place in a Device ID.
const LAST_BUS: u64 = 11;

const LAST_PLACE: u64 = 2;

// Whether the words may stand as those of the part, whose spare bits are given, the pointer's register apart.
pub fn bounded(words: &[u64; 28], part: u64, spare: u64) -> bool
    requires { (spare ≡ 0 → Fit (part_of part) words.now) × (Fit (part_of part) words.now → spare ≡ 0) }
    ensures { (result ≡ true → Bounded part words.now) × (Bounded part words.now → result ≡ true) }
{
    if LAST_BUS < words[BUS] {
        return false;
    }
    if LAST_PLACE < words[PLACE] {
        return false;
    }
    spare | words_faults::odd(words) | words_faults::stale(words) | (words[PART] ^ part) == 0
}
