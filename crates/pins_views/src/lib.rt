// What all pins show: the drives, the input port bits, the status bits and INT.
#![tactic(auto)]

ghost use Rattle.std.specs.Prelude.{◌≡◌, Bool, ◌&&◌, ℕ, ◌<◌, ◌^◌};
ghost use Rattle.bits.specs.Bits.{bit};
ghost use Rattle.pins.specs.Pin.{drive, is_low, is_high, input_bit, status};
ghost use Rattle.pins.specs.AllPins.{PinsOf, pin_at, source_at, drive_at, asserted};

use pins::{Sets, Sources};

// The pins of all that are driven low: an output 0 is low whatever its kind.
pub fn driven_low(all: u64, configuration: u64, output: u64) -> u64
    ensures { (port_kind pin_kind : Bool)
        → PinsOf result (λ i. bit all i && is_low (drive (bit configuration i) (bit output i) port_kind pin_kind)) all }
{
    all ^ (all & (configuration | output))
}

pub fn driven_high(configuration: u64, output: u64, port_kind: u64, pin_kind: u64) -> u64
    ensures { PinsOf result (λ i. is_high (drive_at configuration output port_kind pin_kind i)) output }
{
    output ^ (output & (configuration | (port_kind ^ pin_kind)))
}

// The input port bits.
pub fn input_bits(
    configuration: u64,
    latch: u64,
    polarity: u64,
    port_kind: u64,
    pin_kind: u64,
    x: Sets,
) -> u64
    ensures { (i : ℕ) → bit result i
        ≡ input_bit (bit configuration i) (bit latch i) (bit polarity i) (bit port_kind i) (bit pin_kind i) (pin_at x i) }
{
    let kept = latch & x.held;
    let raw = (x.level ^ (x.level & kept)) | (kept ^ (kept & x.reference));
    let shut = configuration | (port_kind ^ pin_kind);
    ((raw ^ polarity) & configuration) | (x.level ^ (x.level & shut))
}

// The pins whose status bit is 1.
pub fn status_bits(v: Sources, x: Sets) -> u64
    ensures { PinsOf result (λ i. status (source_at v i) (pin_at x i)) v.configuration }
{
    let field = v.rising | v.falling;
    let moved = x.level ^ x.reference;
    let level = (x.held & v.latch) | (moved ^ (moved & v.latch));
    let pending = (x.edge & field) | (level ^ (level & field));
    let unmasked = v.configuration ^ (v.configuration & v.mask);
    unmasked & pending
}

// Whether INT is asserted, from the status bits.
pub fn int_asserted(status: u64) -> bool
    ensures { (w : ℕ) → status < 2 ^ w → result ≡ asserted w (λ i. bit status i) }
{
    status != 0
}
