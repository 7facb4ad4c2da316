// Whether words are the packing of a well-formed image, as refusal 3 asks.
#![tactic(auto)]

ghost use Rattle.std.specs.Prelude.{◌≡◌, ◌<◌, true, Some, None};
ghost use Rattle.map.specs.Map.{part_of};
ghost use Rattle.words.specs.Words.{Fit};
ghost use Rattle.words_state.specs.Packed.{Packed, Judged};

use map::{
    DEBOUNCE_COUNT24, DEBOUNCE_COUNT34, DEBOUNCED24, DEBOUNCED34, PINS24, PINS34, PORT_KINDS24,
    PORT_KINDS34,
};
use words::POINTER;

// What is set in the words of registers and pins, and does not exist in the part.
fn spare_in<const PART: u64>(words: &[u64; 28]) -> u64
    requires { PART < 2 }
    ensures { (result ≡ 0 → Fit (part_of PART) words.now) × (Fit (part_of PART) words.now → result ≡ 0) }
{
    if PART == 0 {
        return words_spare::spare(words, PINS24, PORT_KINDS24, DEBOUNCED24, DEBOUNCE_COUNT24);
    }
    words_spare::spare(words, PINS34, PORT_KINDS34, DEBOUNCED34, DEBOUNCE_COUNT34)
}

// The row of the register at the pointer, if the words are the packing of a well-formed image of the part; else 0, which is no register's row. An Option would be two numbers to test behind this call, in every step.
fn judged_as<const PART: u64>(words: &[u64; 28]) -> u32
    requires { PART < 2 }
    ensures { (result ≡ 0 → Judged PART words.now None) × ((result ≡ 0 → ⊥) → Judged PART words.now (Some result)) }
{
    if !words_bounds::bounded(words, PART, spare_in::<PART>(words)) {
        return 0;
    }
    words_tables::row_of(PART, words[POINTER])
}

// The same of the part of that number: there is no third. Put into its callers: C's calls know their part, and a call of this would ask for it in every step.
#[inline(always)]
pub fn judged(words: &[u64; 28], part: u64) -> Option<u32>
    ensures { Judged part words.now result }
{
    let row = match part {
        0 => judged_as::<0>(words),
        1 => judged_as::<1>(words),
        _ => 0,
    };
    (row != 0).then_some(row)
}

// Whether the words are the packing of a well-formed image of the part.
pub fn fits(words: &[u64; 28], part: u64) -> bool
    ensures { (result ≡ true → Packed part words.now) × (Packed part words.now → result ≡ true) }
{
    judged(words, part).is_some()
}
