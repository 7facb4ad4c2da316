// The byte that a register holds, out of the words: for either part.
#![tactic(auto)]

ghost use Rattle.std.specs.Prelude.{◌≡◌, ℕ, ◌*◌, ◌/◌, ◌^◌, ◌<◌};
ghost use Rattle.std.specs.Int.Bits.{bit_and};
ghost use Rattle.map.specs.Map.{part_of};
ghost use Rattle.words.specs.Words.{entry_of, zipped};
ghost use Rattle.words_rows.specs.Rows.{row_at, word_in};

use words::{FALLING, RISING, STRENGTH_HIGH, STRENGTH_LOW};

// Four bits of a word.
fn half(word: u64, k: u8) -> u8
    requires { k < 16 }
    ensures { (result ≡ bit_and (word / 2 ^ (4 * k)) 15) × (result < 16) }
{
    ((word >> (4 * k)) & 15) as u8
}

// A byte of two halves: even bits and odd bits.
fn zip(lo: u8, hi: u8) -> u8
    requires { (lo < 16) × (hi < 16) }
    ensures { result ≡ zipped lo hi }
{
    let low = (lo & 1) | ((lo & 2) << 1) | ((lo & 4) << 2) | ((lo & 8) << 3);
    low | ((hi & 1) << 1) | ((hi & 2) << 2) | ((hi & 4) << 3) | ((hi & 8) << 4)
}

// The byte that the register holds.
pub fn entry(words: &[u64; 28], row: u32) -> u8
    requires { word_in row < 28 }
    ensures { (part n : ℕ) → n < 128 → row ≡ row_at (part_of part) n → result ≡ entry_of (part_of part) words.now n }
{
    let port = words_rows::port(row);
    let fourth = words_rows::fourth(row);
    let rule = words_rows::rule(row);
    match rule {
        words_rows::EDGE => zip(half(words[RISING], fourth), half(words[FALLING], fourth)),
        words_rows::DRIVE_STRENGTH => zip(
            half(words[STRENGTH_LOW], fourth),
            half(words[STRENGTH_HIGH], fourth),
        ),
        words_rows::CLEAR => 0,
        0..=words_rows::INPUT_STATUS => 0,
        _ => ports::byte_of(words[words_rows::word(row)], port),
    }
}
