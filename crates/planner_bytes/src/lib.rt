// What the rules say of each pin between start and goal, computed for all pins at once.
#![tactic(auto)]

ghost use Rattle.std.specs.Prelude.{◌≡◌, ℕ};
ghost use Rattle.bits.specs.Bits.{bit};
ghost use Rattle.planner_quiet.specs.Order.{stuck};
ghost use Rattle.planner_quiet.specs.Route.{mid_configuration, mid_output};
ghost use Rattle.planner_bytes.specs.Bytes.{pin_in};

// A setting as pin sets: bit i of each belongs to pin i; `kind` has each port's bit of the output port kind at all its pins.
#[derive(Clone, Copy)]
pub struct PinSets {
    pub output: u64,
    pub configuration: u64,
    pub kind: u64,
    pub flip: u64,
}

// The configuration in the middle of the plan.
pub fn mid_configuration(s: PinSets, g: PinSets) -> u64
    ensures { (i : ℕ) → bit result i ≡ mid_configuration (pin_in s i) (pin_in g i) }
{
    let change = (s.output ^ g.output)
        | (s.configuration ^ g.configuration)
        | (s.kind ^ g.kind)
        | (s.flip ^ g.flip);
    let free = s.configuration
        | (s.output & (s.kind ^ s.flip))
        | (g.configuration | (g.output & (g.kind ^ g.flip)));
    (change & free) | (s.configuration ^ (s.configuration & change))
}

// The output in the middle of the plan.
pub fn mid_output(s: PinSets, g: PinSets) -> u64
    ensures { (i : ℕ) → bit result i ≡ mid_output (pin_in s i) (pin_in g i) }
{
    s.output & (g.output | mid_configuration(s, g))
}

// The pins that are stuck.
pub fn stuck_in(s: PinSets, g: PinSets) -> u64
    ensures { (i : ℕ) → bit result i ≡ stuck (pin_in s i) (pin_in g i) }
{
    let high = s.output ^ (s.output & (s.configuration | (s.kind ^ s.flip)));
    let again = g.output ^ (g.output & (g.configuration | (g.kind ^ g.flip)));
    high & again & (s.kind ^ g.kind)
}
