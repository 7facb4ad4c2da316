// What register writes do to held and edge marks and references, at all pins at once.
#![tactic(auto)]

ghost use Rattle.std.specs.Prelude.{◌≡◌, ℕ};
ghost use Rattle.bits.specs.Bits.{bit};
ghost use Rattle.pins.specs.Pin.{only, clear_written, mask_written, edge_written, latch_written, configuration_written};
ghost use Rattle.pins.specs.AllPins.{Within, map_pins};

use pins::Sets;

// The clear bits of here are written with those of on.
pub fn write_clear(x: Sets, here: u64, on: u64) -> Sets
    ensures { (w : ℕ) → Within w x → result ≡ map_pins w x (λ i. only (bit here i) (clear_written (bit on i))) }
{
    pins_marks::settled(x, here & on)
}

// The mask bits of here become those of on.
pub fn write_mask(mut x: Sets, here: u64, on: u64) -> Sets
    ensures { (w : ℕ) → Within w x → result ≡ map_pins w x (λ i. only (bit here i) (mask_written (bit on i))) }
{
    x.edge = x.edge ^ (x.edge & (here & on));
    x
}

// The edge fields of here become those of rising and falling.
pub fn write_edge(mut x: Sets, here: u64, rising: u64, falling: u64) -> Sets
    ensures { (w : ℕ) → Within w x
        → result ≡ map_pins w x (λ i. only (bit here i) (edge_written (bit rising i) (bit falling i))) }
{
    let none = here ^ (here & (rising | falling));
    x.edge = x.edge ^ (x.edge & none);
    x
}

// The latch bits of here, which were those of latch, become those of on.
pub fn write_latch(mut x: Sets, configuration: u64, latch: u64, here: u64, on: u64) -> Sets
    ensures { (w : ℕ) → Within w x
        → result ≡ map_pins w x (λ i. only (bit here i) (latch_written (bit configuration i) (bit latch i) (bit on i))) }
{
    let moved = (x.level ^ x.reference) & configuration;
    let begun = (x.held & latch) | (moved ^ (moved & latch));
    x.held = (x.held ^ (x.held & here)) | (begun & here & on);
    x
}

// The configuration bits of here, which were those of configuration, become those of on. What turns to input is held anew.
pub fn write_configuration(x: Sets, configuration: u64, latch: u64, here: u64, on: u64) -> Sets
    ensures { (w : ℕ) → Within w x
        → result ≡ map_pins w x (λ i. only (bit here i) (configuration_written (bit latch i) (bit configuration i) (bit on i))) }
{
    let forgotten = here ^ (here & (on & configuration));
    let turned = forgotten & on;
    let moved = (x.level ^ x.reference) & latch;
    Sets {
        level: x.level,
        reference: x.reference,
        held: (x.held ^ (x.held & forgotten)) | (moved & turned),
        edge: x.edge ^ (x.edge & forgotten),
    }
}
