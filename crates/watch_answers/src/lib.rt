// The line of an answer in a watched log: the marks at its end, and a refusal that may be 13.
#![tactic(auto)]

ghost use Rattle.std.specs.Prelude.{List, ◌∷◌, ◌++◌, ℕ, ◌+◌, ◌<◌, ◌≤◌, length};
ghost use Rattle.map.specs.Map.{part_of};
ghost use Rattle.text.specs.Text.{hex_text, Wrote};
ghost use Rattle.text_answers.specs.Answers.{digits_of, newline};
ghost use Rattle.watch_answers.specs.Marked.{refusal_line};

use device_rules::UNREADABLE;
use loss_sets::Refusal;

// Refusal 7.
pub fn refuse(out: &mut [u8], at: usize) -> usize
    requires { at + 36 ≤ length out.old }
    ensures { Wrote out.old at (refusal_line 7) result out.new }
{
    text_answers::put_refused(out, at, UNREADABLE)
}

// A sign-off's refusal, by its number.
pub fn refuse_sign(out: &mut [u8], at: usize, number: u8) -> usize
    requires { at + 36 ≤ length out.old }
    ensures { Wrote out.old at (refusal_line number) result out.new }
{
    if number == Refusal::NotHealthy.number() {
        return text::put(out, at, b"refused\t13\n");
    }
    text_answers::put_refused(out, at, number)
}

// Puts the marks at the end of a line that ends here, in place of its newline, and says where it ends then.
pub fn put_marks(out: &mut [u8], end: usize, part: u64, set: u64) -> usize
    requires { (0 < end) × (end + 10 ≤ length out.old) }
    ensures { (lent : List ℕ) (at : ℕ) (text : List ℕ) → Wrote lent at (text ++ newline) end out.old
        → Wrote lent at (text ++ ((0x09 ∷ hex_text (digits_of (part_of part)) set) ++ newline)) result out.new }
{
    let start = text::put(out, end - 1, b"\t");
    let digits = text_answers::digits_of(part);
    let last = text::put_hex(out, start, digits, set);
    text::put(out, last, b"\n")
}
