// Making a device, of either part: what refuses it, for whoever makes one, by value or on words; and the pins of one by value.
#![tactic(auto)]

ghost use Rattle.std.specs.Prelude.{◌≡◌, ℕ};
ghost use Rattle.map.specs.Map.{Part, part_of};
ghost use Rattle.device_rules.specs.PowerOn.{power_on, making_refused};
ghost use Rattle.device_making.specs.Refused.{number_of, refused_by};

use device_rules::{LAST_CHOICE, LAST_ID};
use pins::Sets;

// Why a device is not made, or a question about one is not answered.
#[derive(Clone, Copy, Debug, PartialEq, Eq)]
pub enum Refusal {
    BadArgument,
    BadImage,
}

impl Refusal {
    // Its number, as a caller from C has it.
    pub fn number(self) -> u8
        ensures { result ≡ number_of self }
    {
        match self {
            Refusal::BadArgument => 2,
            Refusal::BadImage => 3,
        }
    }
}

// Whether a device of the part can be made.
pub fn allows(part: u64, choice: u32, levels: u64, number: u64) -> Result<(), Refusal>
    ensures { refused_by result ≡ making_refused (part_of part) choice levels number }
{
    if u32::from(LAST_CHOICE) < choice {
        return Err(Refusal::BadArgument);
    }
    if map::pins_of(part) < levels {
        return Err(Refusal::BadArgument);
    }
    if LAST_ID < number {
        return Err(Refusal::BadArgument);
    }
    Ok(())
}

// The pins at power-on: no event is held, each reference is at the present level.
pub fn pins_at(levels: u64) -> Sets
    ensures { (p : Part) (choice id : ℕ) → result ≡ (power_on p choice levels id).regs.sets }
{
    Sets {
        level: levels,
        reference: levels,
        held: 0,
        edge: 0,
    }
}
