// What a line of settings is refused for.
#![tactic(auto)]

ghost use Rattle.std.specs.Prelude.{◌≡◌};
ghost use Rattle.plan_refusals.specs.Refusals.{line_number};

use device_rules::UNREADABLE;
use planner_promise::Refusal;

// It is not two fields of whole pairs, or the planner refuses what it says.
#[derive(Clone, Copy, Debug, PartialEq, Eq)]
pub enum LineRefusal {
    Unreadable,
    Planner(Refusal),
}

impl LineRefusal {
    // Its number, as the line's answer has it.
    pub fn number(self) -> u8
        ensures { result ≡ line_number self }
    {
        match self {
            LineRefusal::Unreadable => UNREADABLE,
            LineRefusal::Planner(refusal) => refusal.number(),
        }
    }
}

impl From<Refusal> for LineRefusal {
    ghost use Rattle.plan_refusals.specs.declared.LineRefusal.TheVariants.{Planner};

    ghost from_gives = { λ refusal line_refusal. line_refusal ≡ Planner refusal };

    fn from(refusal: Refusal) -> LineRefusal {
        LineRefusal::Planner(refusal)
    }
}
