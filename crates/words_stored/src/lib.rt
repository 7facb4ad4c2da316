// Words out of a register file: each of its bytes is stored, and moves no pin.
#![tactic(auto)]

ghost use Rattle.std.specs.Prelude.{◌≡◌, true, ℕ, ◌<◌};
ghost use Rattle.map.specs.Map.{kind_at, stored, file_fits, part_of};
ghost use Rattle.registers.specs.Registers.{core};
ghost use Rattle.words.specs.Words.{slot_at, paired, file_of, stored_in, sets_in, Fit, Holds};
ghost use Rattle.words_rows.specs.Rows.{row_at, Numbered};

use words::{RISING, STRENGTH_LOW};

// Fields of two bits, a byte of them, stored in two words, the first of which is given.
fn store_fields(words: &mut [u64; 28], first: usize, row: u32, value: u8)
    requires { first < 27 }
    ensures { (part n : ℕ) → n < 128 → row ≡ row_at (part_of part) n → stored (kind_at (part_of part) n) ≡ true → first ≡ slot_at (part_of part) n → paired first ≡ true
        → Fit (part_of part) words.old
        → Holds (part_of part) words.old words.new (core (stored_in (part_of part) words.old n value) (sets_in words.old)) }
{
    words_moves::put_pair(
        words,
        first,
        words_bits::field_pins(row),
        words_bits::low_bits(row, value),
        words_bits::high_bits(row, value),
    );
}

// A byte stored, and no more: what a register file holds goes into the words so.
fn store(words: &mut [u64; 28], row: u32, value: u8)
    requires { Numbered row words.old }
    ensures { (part n : ℕ) → n < 128 → row ≡ row_at (part_of part) n → Fit (part_of part) words.old
        → Holds (part_of part) words.old words.new (core (stored_in (part_of part) words.old n value) (sets_in words.old)) }
{
    let rule = words_rows::rule(row);
    match rule {
        words_rows::EDGE => store_fields(words, RISING, row, value),
        words_rows::DRIVE_STRENGTH => store_fields(words, STRENGTH_LOW, row, value),
        words_rows::CLEAR => {}
        0..=words_rows::INPUT_STATUS => {}
        _ => words_moves::put(
            words,
            words_rows::word(row),
            words_bits::port_pins(row),
            words_bits::port_bits(row, value),
        ),
    }
}

// The words that stand for a register file.
pub fn from_file(words: &mut [u64; 28], part: u64, file: &[u8; 128])
    ensures { Fit (part_of part) words.new
        × (file_fits (part_of part) file.now ≡ true → file_of (part_of part) words.new ≡ file.now) }
{
    *words = [0; 28];
    for n in 0..128u64 {
        store(words, words_tables::row_of(part, n), file[n as usize]);
    }
}
