// The text that says an answer, and its line, written into lent memory: for either part.
#![tactic(auto)]

ghost use Rattle.std.specs.Prelude.{◌≡◌, Bool, cond, [], ◌∷◌, ◌++◌, ℕ, ◌+◌, ◌≤◌, length};
ghost use Rattle.map.specs.Map.{part_of};
ghost use Rattle.text.specs.Text.{Wrote};
ghost use Rattle.text_answers.specs.Answers.{answer_word, digits_of, columns, unless_refused, answer_text, answer_line, kept_of, Keeps, refused_line};

use device_rules::Answer;

// A pin set has so many hex digits.
const DIGITS24: usize = 6;

const DIGITS34: usize = 9;

// The columns of the 24-pin part and a newline have so many bytes; those of its sister fill the text that is kept.
const KEPT24: usize = 16;

// The answer's word, and a tab where columns follow.
fn put_word(out: &mut [u8], at: usize, answer: Answer) -> usize
    requires { at + 9 ≤ length out.old }
    ensures { Wrote out.old at (answer_word answer ++ unless_refused answer (0x09 ∷ [])) result out.new }
{
    match answer {
        Answer::Nothing => text::put(out, at, b"-\t"),
        Answer::Ack => text::put(out, at, b"ack\t"),
        Answer::Nak => text::put(out, at, b"nak\t"),
        Answer::Byte(b) => {
            let digits = text::hex2(b);
            let word = [digits[0], digits[1], b'\t'];
            text::put(out, at, &word)
        }
        Answer::Refused(n) => {
            let digit = text::digit_byte(n % 16);
            let word = [b'r', b'e', b'f', b'u', b's', b'e', b'd', b'\t', digit];
            text::put(out, at, &word)
        }
    }
}

// INT's level: 0 where it is asserted.
fn int_level(int: bool) -> u8
    ensures { result ≡ cond int 0x30 0x31 }
{
    if int {
        return b'0';
    }
    b'1'
}

pub fn digits_of(part: u64) -> usize
    ensures { (result ≡ digits_of (part_of part)) × (result ≤ 9) }
{
    if part == 0 {
        return DIGITS24;
    }
    DIGITS34
}

fn put_columns(out: &mut [u8], at: usize, part: u64, int: bool, low: u64, high: u64) -> usize
    requires { at + 21 ≤ length out.old }
    ensures { Wrote out.old at (columns (part_of part) int low high) result out.new }
{
    let digits = digits_of(part);
    let level = int_level(int);
    let before = [level, b'\t'];
    let start = text::put(out, at, &before);
    let middle = text::put_hex(out, start, digits, low);
    let next = text::put(out, middle, b"\t");
    text::put_hex(out, next, digits, high)
}

// Puts the answer, without newline, into out from at on, and says where it ends.
pub fn put_answer(
    out: &mut [u8],
    at: usize,
    part: u64,
    answer: Answer,
    int: bool,
    low: u64,
    high: u64,
) -> usize
    requires { at + 25 ≤ length out.old }
    ensures { Wrote out.old at (answer_text (part_of part) answer int low high) result out.new }
{
    let end = put_word(out, at, answer);
    let Answer::Refused(_) = answer else {
        return put_columns(out, end, part, int, low, high);
    };
    end
}

// Writes the columns and a newline into a text that is kept: lines are put with it as long as they have these columns.
pub fn keep(kept: &mut [u8; 22], part: u64, int: bool, low: u64, high: u64)
    ensures { Keeps (part_of part) kept.new int low high × (length kept.new ≡ 22) }
{
    let end = put_columns(kept, 0, part, int, low, high);
    kept[end] = b'\n';
}

// Puts a text that is kept. It is loaded before it is stored: whole words are copied then.
fn put_kept(out: &mut [u8], at: usize, part: u64, kept: &[u8; 22]) -> usize
    requires { (at + 22 ≤ length out.old) × (length kept.now ≡ 22) }
    ensures { Wrote out.old at (kept_of (part_of part) kept.now) result out.new }
{
    let bytes = *kept;
    if part == 0 {
        return text::put(out, at, &bytes[0..KEPT24]);
    }
    text::put(out, at, &bytes)
}

// Puts a refusal's line into out from at on, and says where it ends.
pub fn put_refused(out: &mut [u8], at: usize, number: u8) -> usize
    requires { at + 10 ≤ length out.old }
    ensures { Wrote out.old at (refused_line number) result out.new }
{
    let end = put_word(out, at, Answer::Refused(number));
    text::put(out, end, b"\n")
}

// Puts the line of an answer, its columns as they are kept, into out from at on, and says where it ends.
pub fn put_line(out: &mut [u8], at: usize, part: u64, answer: Answer, kept: &[u8; 22]) -> usize
    requires { (at + 26 ≤ length out.old) × (length kept.now ≡ 22) }
    ensures { (int : Bool) (low high : ℕ) → Keeps (part_of part) kept.now int low high
        → Wrote out.old at (answer_line (part_of part) answer int low high) result out.new }
{
    let end = put_word(out, at, answer);
    let Answer::Refused(_) = answer else {
        return put_kept(out, end, part, kept);
    };
    text::put(out, end, b"\n")
}
