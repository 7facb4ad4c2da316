// What an event does to the loss marks.
#![tactic(auto)]

ghost use Rattle.std.specs.Prelude.{◌≡◌, true, ◌^◌, ◌<◌};
ghost use Rattle.map.specs.Map.{Part};
ghost use Rattle.loss_rules.specs.Marks.{noted, marks_fit};
ghost use Rattle.loss_sets.specs.Sets.{marks_in};

use loss_sets::{HEALTHY, SET};

// Marks what an event sets that found the status set before and left after.
pub fn note(marks: &mut [u64; 2], resets: bool, before: u64, after: u64)
    ensures { (p : Part) → marks_fit p (marks_in marks.old) ≡ true → before < 2 ^ p.width → after < 2 ^ p.width
        → marks_in marks.new ≡ noted p resets before after (marks_in marks.old) }
{
    let rose = after ^ (after & before);
    if resets {
        *marks = [marks[SET] | (rose | before), marks[HEALTHY]];
        return;
    }
    *marks = [marks[SET] | rose, marks[HEALTHY]];
}
