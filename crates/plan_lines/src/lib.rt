// What a line of settings is answered, written into lent memory.
#![tactic(auto)]

ghost use Rattle.std.specs.Prelude.{◌≡◌, List, ℕ, ◌+◌, ◌*◌, ◌≤◌, length};
ghost use Rattle.text.specs.Text.{Wrote};
ghost use Rattle.text_answers.specs.Answers.{refused_line};
ghost use Rattle.map.specs.Map.{part_of};
ghost use Rattle.map.specs.Chips.{part_at};
ghost use Rattle.planner_promise.specs.Answer.{Answers};
ghost use Rattle.planner_promise.specs.Promise.{count_of};
ghost use Rattle.plan_fields.specs.Asks.{Holds, Said};
ghost use Rattle.plan_refusals.specs.Refusals.{refused_as, number_told};
ghost use Rattle.plan_lines.specs.Told.{answer_to, write_text, pairs_text, plan_line, Tells};

use map::Chip;
use plan_fields::Reading;
use plan_refusals::LineRefusal;

// Puts a refusal's line into out from at on, and says where it ends.
pub fn put_refusal(out: &mut [u8], at: usize, number: u8) -> usize
    requires { at + 26 ≤ length out.old }
    ensures { Wrote out.old at (refused_line number) result out.new × (result ≤ at + 26) }
{
    text_answers::put_refused(out, at, number)
}

fn put_write(out: &mut [u8], at: usize, register: u8, value: u8) -> usize
    requires { at + 5 ≤ length out.old }
    ensures { Wrote out.old at (write_text register value) result out.new × (result ≡ at + 5) }
{
    let a = text::hex2(register);
    let b = text::hex2(value);
    text::put(out, at, &[b'\t', a[0], a[1], b[0], b[1]])
}

// The writes of a plan, each a register and a value.
fn put_writes(out: &mut [u8], at: usize, pairs: &[u8]) -> usize
    requires { 2 * at + 5 * length pairs.now ≤ 2 * length out.old }
    ensures { Wrote out.old at (pairs_text pairs.now) result out.new × (2 * result ≤ 2 * at + 5 * length pairs.now) }
{
    let mut end = at;
    for pair in pairs.chunks_exact(2) {
        end = put_write(out, end, pair[0], pair[1]);
    }
    end
}

// The line of a plan.
fn put_plan(out: &mut [u8], at: usize, pairs: &[u8]) -> usize
    requires { (length pairs.now ≤ 52) × (at + 135 ≤ length out.old) }
    ensures { Wrote out.old at (plan_line (pairs_text pairs.now)) result out.new × (result ≤ at + 135) }
{
    let word = text::put(out, at, b"plan");
    let end = put_writes(out, word, pairs);
    text::put(out, end, b"\n")
}

// An answer's room: `plan`, the sister's 26 writes and a newline.
pub const ROOM: usize = 135;

// Where an answer ends, and what the line was refused for.
#[derive(Clone, Copy)]
pub struct Told {
    pub end: usize,
    pub refusal: Option<LineRefusal>,
}

// The part of that number: every one but 0 is the sister's.
pub fn chip_of(part: u8) -> Chip
    ensures { part_at result ≡ part_of part }
{
    match part {
        0 => Chip::Pcal6524,
        _ => Chip::Pcal6534,
    }
}

// The part's planner is asked, where the line can be read; either part's plan fits.
fn planned(part: u8, r: &Reading, pairs: &mut [u8; 52]) -> Result<usize, LineRefusal>
    ensures { (line : List ℕ) → Holds r.now line → Answers (refused_as result) (count_of result) pairs.old pairs.new (answer_to (part_of part) line) }
{
    if !r.is_whole() {
        return Err(LineRefusal::Unreadable);
    }
    let writes = planner::plan(chip_of(part), r.start.kept(), r.goal.kept(), pairs)?;
    Ok(writes)
}

// The whole line's answer, written from at on.
pub fn answer(part: u8, r: &Reading, out: &mut [u8], at: usize) -> Told
    requires { Said r.now × (at + 135 ≤ length out.old) }
    ensures { ((line : List ℕ) → Holds r.now line → Tells (part_of part) line out.old at result.end (number_told result.refusal) out.new) × (result.end ≤ at + 135) }
{
    let mut pairs = [0u8; 52];
    match planned(part, r, &mut pairs) {
        Ok(writes) => Told {
            end: put_plan(out, at, &pairs[..2 * writes]),
            refusal: None,
        },
        Err(refusal) => Told {
            end: put_refusal(out, at, refusal.number()),
            refusal: Some(refusal),
        },
    }
}
