// What the planner promises, and what it answers.
#![tactic(auto)]

ghost use Rattle.std.specs.Prelude.{◌≡◌};
ghost use Rattle.planner_promise.specs.Promise.{number_of};

// Why there is no plan.
#[derive(Clone, Copy, Debug, PartialEq, Eq)]
pub enum Refusal {
    NoQuietWay,
    BadSetting,
    BufferSmall,
}

impl Refusal {
    // Its number, as answers on lines and to C have it.
    pub fn number(self) -> u8
        ensures { result ≡ number_of self }
    {
        match self {
            Refusal::NoQuietWay => 4,
            Refusal::BadSetting => 5,
            Refusal::BufferSmall => 6,
        }
    }
}
