// The bits that are set in words of registers and pins, and that their part does not have.
#![tactic(auto)]

ghost use Rattle.std.specs.Prelude.{◌≡◌, ℕ};
ghost use Rattle.map.specs.Map.{part_of};
ghost use Rattle.words.specs.Words.{Fit};
ghost use Rattle.words_spare.specs.Spare.{union_to, Limits};

use words::{DEBOUNCE_COUNT, DEBOUNCE_ENABLE, PORT_KIND};

// The bits that are set in some word of pins: the port kind among them, debounce not, which have limits of their own.
fn union(words: &[u64; 28]) -> u64
    ensures { result ≡ union_to words.now 16 }
{
    let low = words[0] | words[1] | words[2] | words[3] | words[4] | words[5] | words[6];
    let more = low | words[7] | words[8] | words[9] | words[10] | words[11] | words[12];
    more | words[13] | words[14] | words[15] | words[16]
}

// What is set in the words of registers and pins, and does not exist.
pub fn spare(words: &[u64; 28], pins: u64, kinds: u64, enables: u64, counts: u64) -> u64
    ensures { (c : ℕ) → Limits c pins kinds enables counts
        → (result ≡ 0 → Fit (part_of c) words.now) × (Fit (part_of c) words.now → result ≡ 0) }
{
    let any = union(words);
    let kind = words[PORT_KIND];
    let enable = words[DEBOUNCE_ENABLE];
    let count = words[DEBOUNCE_COUNT];
    (any ^ (any & pins))
        | (kind ^ (kind & kinds))
        | (enable ^ (enable & enables))
        | (count ^ (count & counts))
}
