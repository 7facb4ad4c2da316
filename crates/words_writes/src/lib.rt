// A register written, on words that are lent: its row says where its bits go and what they do to the pins.
#![tactic(auto)]

ghost use Rattle.std.specs.Prelude.{◌≡◌, false, ℕ};
ghost use Rattle.map.specs.Map.{reserved, part_of};
ghost use Rattle.registers.specs.Registers.{written};
ghost use Rattle.words.specs.Words.{core_in, Fit, Holds};
ghost use Rattle.words_rows.specs.Rows.{rule_at, row_at, Known};

use words::STRENGTH_LOW;

// An edge register, whose fields are kept in two words.
fn write_edge(words: &mut [u64; 28], row: u32, value: u8)
    ensures { (part n : ℕ) → reserved (part_of part) n ≡ false → row ≡ row_at (part_of part) n → rule_at (part_of part) n ≡ 8
        → Fit (part_of part) words.old → Holds (part_of part) words.old words.new (written (part_of part) (core_in (part_of part) words.old) n value) }
{
    let here = words_bits::field_pins(row);
    let low = words_bits::low_bits(row, value);
    let high = words_bits::high_bits(row, value);
    words_moves::write_fields(words, here, low, high);
}

// A register of drive strength, in two words too; no pin moves.
fn write_strength(words: &mut [u64; 28], row: u32, value: u8)
    ensures { (part n : ℕ) → reserved (part_of part) n ≡ false → row ≡ row_at (part_of part) n → rule_at (part_of part) n ≡ 14
        → Fit (part_of part) words.old → Holds (part_of part) words.old words.new (written (part_of part) (core_in (part_of part) words.old) n value) }
{
    let here = words_bits::field_pins(row);
    let low = words_bits::low_bits(row, value);
    let high = words_bits::high_bits(row, value);
    words_moves::put_pair(words, STRENGTH_LOW, here, low, high);
}

// A register written: its rule says what that does.
pub fn write_register(words: &mut [u64; 28], row: u32, value: u8)
    requires { Known row words.old }
    ensures { (part n : ℕ) → reserved (part_of part) n ≡ false → row ≡ row_at (part_of part) n → Fit (part_of part) words.old
        → Holds (part_of part) words.old words.new (written (part_of part) (core_in (part_of part) words.old) n value) }
{
    let here = words_bits::port_pins(row);
    let on = words_bits::port_bits(row, value);
    let rule = words_rows::rule(row);
    match rule {
        words_rows::CONFIGURATION => words_moves::write_configuration(words, here, on),
        words_rows::LATCH => words_moves::write_latch(words, here, on),
        words_rows::MASK => words_moves::write_mask(words, here, on),
        words_rows::EDGE => write_edge(words, row, value),
        words_rows::CLEAR => words_moves::write_clear(words, here, on),
        words_rows::DRIVE_STRENGTH => write_strength(words, row, value),
        // read only
        0..=words_rows::INPUT_STATUS => {}
        _ => words_moves::put(words, words_rows::word(row), here, on),
    }
}
