// The room that a plan takes: the most writes that it may have, two bytes each.
#![tactic(auto)]

ghost use Rattle.std.specs.Prelude.{◌≡◌, ◌+◌, ◌*◌};
ghost use Rattle.map.specs.Chips.{part_at};

use map::Chip;

// the most writes that a plan may have
pub const WRITE_BOUND: usize = 16;

// and a plan of the sister
pub const WRITE_BOUND34: usize = 26;

// How many bytes a buffer has at least that has room for every plan of the part.
pub fn plan_room(chip: Chip) -> usize
    ensures { result ≡ 2 * (5 * (part_at chip).ports + 1) }
{
    match chip {
        Chip::Pcal6524 => 2 * WRITE_BOUND,
        Chip::Pcal6534 => 2 * WRITE_BOUND34,
    }
}
