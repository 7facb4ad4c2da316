// Text as bytes: words and lowercase hex digits, read from slices and written into lent memory.
#![tactic(auto)]

ghost use Rattle.std.specs.Prelude.{◌≡◌, ◌+◌, ◌<◌, ◌≤◌, ◌/◌, ◌%◌, length};
ghost use Rattle.text.specs.Text.{starts_with, is_word, digit_of, number_of, field_of, digit_byte, hex_text, Wrote};

// Whether s begins with the word.
pub fn starts(s: &[u8], word: &[u8]) -> bool
    ensures { result ≡ starts_with word.now s.now }
{
    if s.len() < word.len() {
        return false;
    }
    // The slice's own `starts_with` was tried: to tell a line by its words took 48 instructions for 37, since this loop is unrolled.
    for i in 0..word.len() {
        if s[i] != word[i] {
            return false;
        }
    }
    true
}

// Whether s is the word.
pub fn is(s: &[u8], word: &[u8]) -> bool
    ensures { result ≡ is_word word.now s.now }
{
    s.len() == word.len() && starts(s, word)
}

// From the byte 30h on, which of 64 bytes are digits.
const DIGIT_PLACES: u64 = 0x7e_0000_0000_03ff;

// The number that a digit stands for, 16 where the byte is none. No branch tells numbers from letters, nor an Option digits from other bytes: it would be guessed wrong.
pub fn digit(b: u8) -> u64
    ensures { result ≡ digit_of b }
{
    let c = b as u64;
    let place = (c + 208) % 256;
    if 63 < place {
        return 16;
    }
    if (DIGIT_PLACES >> place) % 2 == 0 {
        return 16;
    }
    (c + 9 * (c / 64)) % 16
}

// The number that the digits of s stand for.
fn number(s: &[u8]) -> Option<u64>
    requires { length s.now ≤ 16 }
    ensures { result ≡ number_of 0 s.now }
{
    let mut n = 0;
    for b in s {
        let d = digit(*b);
        if 15 < d {
            return None;
        }
        n = 16 * n + d;
    }
    Some(n)
}

// So many digits of a number that is most or less.
pub fn field(s: &[u8], count: usize, most: u64) -> Option<u64>
    requires { count ≤ 16 }
    ensures { result ≡ field_of count most s.now }
{
    if s.len() != count {
        return None;
    }
    let n = number(s)?;
    if most < n {
        return None;
    }
    Some(n)
}

// The digit of a number below 16.
pub fn digit_byte(n: u8) -> u8
    requires { n < 16 }
    ensures { result ≡ digit_byte n }
{
    if n < 10 {
        return 0x30 + n;
    }
    0x57 + n
}

// The digits of a byte, the first in the lower eight bits: both at once take fewer instructions than one after the other.
fn pair(b: u8) -> u64
    ensures { (result % 256 ≡ digit_byte (b / 16 % 16)) × (result / 256 % 256 ≡ digit_byte (b % 16)) }
{
    let n = b as u64;
    let digits = n / 16 % 16 + 256 * (n % 16);
    let letters = (digits + 0x606) / 16 & 0x101;
    digits + 0x3030 + 39 * letters
}

pub fn hex2(n: u8) -> [u8; 2]
    ensures { result ≡ hex_text 2 n }
{
    let p = pair(n);
    [(p % 256) as u8, (p / 256 % 256) as u8]
}

// The lowest digit of a wider number.
fn low_digit(n: u64) -> u8
    ensures { result ≡ digit_byte (n % 16) }
{
    digit_byte((n % 16) as u8)
}

// Puts the text into out from at on, and says where it ends. No `write!`: the memory is lent, nothing can fail, and contracts count the places.
pub fn put(out: &mut [u8], at: usize, text: &[u8]) -> usize
    requires { at + length text.now ≤ length out.old }
    ensures { Wrote out.old at text.now result out.new }
{
    let end = at + text.len();
    out[at..end].copy_from_slice(text);
    end
}

// Puts so many lowest digits of n into out from at on, and says where they end.
pub fn put_hex(out: &mut [u8], at: usize, count: usize, n: u64) -> usize
    requires { at + count ≤ length out.old }
    ensures { Wrote out.old at (hex_text count n) result out.new × (result ≡ at + count) }
{
    let mut rest = n;
    for i in (0..count).rev() {
        out[at + i] = low_digit(rest);
        rest /= 16;
    }
    at + count
}
