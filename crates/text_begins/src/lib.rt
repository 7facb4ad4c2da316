// Whether a text begins with a word, eight bytes at a time. The slice's own `starts_with` was tried: on a line of 18 bytes it took 63 instructions for 44.
#![tactic(auto)]

ghost use Rattle.std.specs.Prelude.{◌≡◌, ◌+◌, ◌^◌, ◌<◌, ◌≤◌, length};
ghost use Rattle.text.specs.Text.{starts_with};
ghost use Rattle.text_begins.specs.Eights.{four_at, eight_at};

// Four bytes from a place on as one number, the first the lowest.
fn four(s: &[u8], i: usize) -> u64
    requires { i + 4 ≤ length s.now }
    ensures { (result ≡ four_at s.now i) × (result < 2 ^ 32) }
{
    let low = u64::from(s[i]) + 256 * u64::from(s[i + 1]);
    let high = u64::from(s[i + 2]) + 256 * u64::from(s[i + 3]);
    low + 65536 * high
}

// Eight bytes: read as one, they are compared in the time of one.
fn eight(s: &[u8], i: usize) -> u64
    requires { i + 8 ≤ length s.now }
    ensures { result ≡ eight_at s.now i }
{
    four(s, i) + 0x1_0000_0000 * four(s, i + 4)
}

// Whether s begins with the word, eight bytes a turn and the last eight at the end: lines of nearly the same length then take the same way.
pub fn begins(s: &[u8], word: &[u8]) -> bool
    ensures { result ≡ starts_with word.now s.now }
{
    let len = word.len();
    if s.len() < len {
        return false;
    }
    if len < 8 {
        return text::starts(s, word);
    }
    // By hand: a range by `step_by(8)` wants a measure too, and says no more.
    let mut i = 0;
    while i < len - 8 {
        if eight(s, i) != eight(word, i) {
            return false;
        }
        i += 8;
    }
    eight(s, len - 8) == eight(word, len - 8)
}
