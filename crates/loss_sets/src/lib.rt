// The loss marks as two pin sets in memory that is lent: the pins that are marked and each pin's healthy level. How they are made, and which are a part's.
#![tactic(auto)]

ghost use Rattle.std.specs.Prelude.{◌≡◌, ◌-◌, ◌^◌, ◌≤◌};
ghost use Rattle.map.specs.Map.{Part, part_of};
ghost use Rattle.loss_rules.specs.Marks.{marks_fit};
ghost use Rattle.loss_sets.specs.Refused.{number_of, refused_by};
ghost use Rattle.loss_sets.specs.Sets.{marks_in, MakesMarks};

pub const SET: usize = 0;

pub const HEALTHY: usize = 1;

// Why marks are not made, or a mark is not signed off.
#[derive(Clone, Copy, Debug, PartialEq, Eq)]
pub enum Refusal {
    BadArgument,
    BrokenImage,
    NotHealthy,
}

impl Refusal {
    // Its number, as lines and C have it.
    pub fn number(self) -> u8
        ensures { result ≡ number_of self }
    {
        match self {
            Refusal::BadArgument => 2,
            Refusal::BrokenImage => 3,
            Refusal::NotHealthy => 13,
        }
    }
}

// How many pins a part has.
const WIDTH24: u32 = 24;

const WIDTH34: u32 = 34;

pub fn width_of(part: u64) -> u32
    ensures { (result ≡ (part_of part).width) × (result ≤ 63) }
{
    if part == 0 {
        return WIDTH24;
    }
    WIDTH34
}

// Whether both sets are of the part's pins, which are these.
pub fn fit(marks: &[u64; 2], pins: u64) -> bool
    ensures { (p : Part) → pins ≡ 2 ^ p.width - 1 → result ≡ marks_fit p (marks_in marks.now) }
{
    if pins < marks[SET] {
        return false;
    }
    marks[HEALTHY] <= pins
}

// Marks anew, all of them set.
pub fn make(marks: &mut [u64; 2], part: u64, healthy: u64) -> Result<(), Refusal>
    ensures { MakesMarks part healthy (refused_by result) marks.old marks.new }
{
    let pins = map::pins_of(part);
    if pins < healthy {
        return Err(Refusal::BadArgument);
    }
    *marks = [pins, healthy];
    Ok(())
}
