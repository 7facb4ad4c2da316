// How levels, a fetch and a reset move level, reference, held and edge, at all pins at once.
#![tactic(auto)]

ghost use Rattle.std.specs.Prelude.{◌≡◌, ℕ, ◌<◌, ◌^◌};
ghost use Rattle.bits.specs.Bits.{bit};
ghost use Rattle.pins.specs.Pin.{only, level_to, input_fetched, settle, reset};
ghost use Rattle.pins.specs.AllPins.{Within, source_at, map_pins};

use pins::{Sets, Sources};

// The levels become those of new.
pub fn levels_to(v: Sources, x: Sets, new: u64) -> Sets
    ensures { (w : ℕ) → new < 2 ^ w → Within w x
        → result ≡ map_pins w x (λ i. level_to (source_at v i) (bit new i)) }
{
    let rose = (new ^ (new & x.level)) & v.rising;
    let fell = (x.level ^ (x.level & new)) & v.falling;
    let matching = (rose | fell) & v.configuration;
    Sets {
        level: new,
        reference: x.reference,
        held: x.held | ((new ^ x.reference) & v.configuration & v.latch),
        edge: x.edge | (matching ^ (matching & v.mask)),
    }
}

// The pins of on are settled.
pub fn settled(x: Sets, on: u64) -> Sets
    ensures { (w : ℕ) → Within w x → result ≡ map_pins w x (λ i. only (bit on i) settle) }
{
    Sets {
        level: x.level,
        reference: (x.reference ^ (x.reference & on)) | (x.level & on),
        held: x.held ^ (x.held & on),
        edge: x.edge ^ (x.edge & on),
    }
}

// The input port register that holds the pins of here is fetched.
pub fn fetch_input(x: Sets, here: u64) -> Sets
    ensures { (w : ℕ) → Within w x → result ≡ map_pins w x (λ i. only (bit here i) input_fetched) }
{
    settled(x, here)
}

// Any reset, of all pins.
pub fn reset_pins(x: Sets) -> Sets
    ensures { (w : ℕ) → Within w x → result ≡ map_pins w x (λ i. reset) }
{
    Sets {
        level: x.level,
        reference: x.level,
        held: 0,
        edge: 0,
    }
}
