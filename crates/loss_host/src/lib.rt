// Loss marks as a C host has them: answers and refusals as numbers.
#![tactic(auto)]

ghost use Rattle.std.specs.Prelude.{◌≡◌};
ghost use Rattle.loss_sets.specs.Refused.{refused_by};
ghost use Rattle.loss_host.specs.MarkedHost.{MarkedTold};

use loss_sets::Refusal;

// One event of the part.
pub fn step(
    words: &mut [u64; 28],
    marks: &mut [u64; 2],
    part: u64,
    kind: u32,
    argument: u64,
    answer: &mut [u8; 2],
) -> u32
    ensures { MarkedTold part words.old marks.old kind argument result words.new marks.new answer.old answer.new }
{
    let stepped = loss_marks::step(words, marks, part, kind, argument);
    host_answers::tell(stepped, answer)
}

// What marks answer: the number of the refusal, 0 for none.
pub fn tell(done: Result<(), Refusal>) -> u32
    ensures { result ≡ refused_by done }
{
    match done {
        Ok(()) => 0,
        Err(refusal) => u32::from(refusal.number()),
    }
}
