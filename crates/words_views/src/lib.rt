// What can be seen of the words but for INT, what a fetch shows and does, and the levels: for either part.
#![tactic(auto)]

ghost use Rattle.std.specs.Prelude.{◌≡◌, false, ℕ, ◌-◌, ◌^◌, ◌<◌};
ghost use Rattle.map.specs.Map.{kind_at, reserved, part_of};
ghost use Rattle.map.specs.Map.Kind.{Input, InputStatus};
ghost use Rattle.registers.specs.Registers.{levelled, fetched, driven_low, driven_high};
ghost use Rattle.registers.specs.Interrupt.{shown_kept};
ghost use Rattle.words.specs.Words.{core_in, interrupt_in, Fit, PinLevels, Holds};
ghost use Rattle.words_rows.specs.Rows.{row_at, word_in, Known};

use words::{CONFIGURATION, OUTPUT, PIN_KIND, STATUS};

// The pins driven low, of all pins.
pub fn low(words: &[u64; 28], all: u64) -> u64
    ensures { (part : ℕ) → all ≡ 2 ^ (part_of part).width - 1 → result ≡ driven_low (part_of part) (core_in (part_of part) words.now) }
{
    pins_views::driven_low(all, words[CONFIGURATION], words[OUTPUT])
}

// The pins driven high.
pub fn high(words: &[u64; 28]) -> u64
    ensures { (part : ℕ) → Fit (part_of part) words.now → result ≡ driven_high (part_of part) (core_in (part_of part) words.now) }
{
    let kinds = words_pins::port_kinds(words);
    pins_views::driven_high(words[CONFIGURATION], words[OUTPUT], kinds, words[PIN_KIND])
}

// The byte that a register of input port bits shows: an input port register, or an input status register.
pub fn show_inputs(words: &[u64; 28], row: u32) -> u8
    ensures { (part n : ℕ) → reserved (part_of part) n ≡ false → row ≡ row_at (part_of part) n
        → (kind_at (part_of part) n ≡ Input → result ≡ shown_kept (part_of part) (kind_at (part_of part) n) (core_in (part_of part) words.now) (interrupt_in words.now) n)
        × (kind_at (part_of part) n ≡ InputStatus → result ≡ shown_kept (part_of part) (kind_at (part_of part) n) (core_in (part_of part) words.now) (interrupt_in words.now) n) }
{
    ports::byte_of(words_pins::inputs(words), words_rows::port(row))
}

// The byte that a fetch of the register shows: interrupt status is what is kept.
pub fn show(words: &[u64; 28], row: u32) -> u8
    requires { word_in row < 28 }
    ensures { (part n : ℕ) → reserved (part_of part) n ≡ false → row ≡ row_at (part_of part) n → Fit (part_of part) words.now
        → result ≡ shown_kept (part_of part) (kind_at (part_of part) n) (core_in (part_of part) words.now) (interrupt_in words.now) n }
{
    let rule = words_rows::rule(row);
    match rule {
        words_rows::INPUT => show_inputs(words, row),
        words_rows::INPUT_STATUS => show_inputs(words, row),
        words_rows::STATUS => ports::byte_of(words[STATUS], words_rows::port(row)),
        _ => words_entries::entry(words, row),
    }
}

// What a fetch of the register does: an input port register settles its pins.
pub fn settle(words: &mut [u64; 28], row: u32)
    requires { Known row words.old }
    ensures { (part n : ℕ) → reserved (part_of part) n ≡ false → row ≡ row_at (part_of part) n → Fit (part_of part) words.old
        → Holds (part_of part) words.old words.new (fetched (part_of part) (core_in (part_of part) words.old) n) }
{
    if words_rows::rule(row) == words_rows::INPUT {
        let x = words::sets_in(&*words);
        let y = pins_marks::fetch_input(x, ports::port_set(words_rows::port(row)));
        words::put_sets(words, y);
    }
}

// The levels become those of new.
pub fn set_levels(words: &mut [u64; 28], new: u64)
    requires { PinLevels new words.old }
    ensures { (part : ℕ) → new < 2 ^ (part_of part).width → Fit (part_of part) words.old
        → Holds (part_of part) words.old words.new (levelled (part_of part) (core_in (part_of part) words.old) new) }
{
    let v = words_pins::sources(&*words);
    let x = words::sets_in(&*words);
    let y = pins_marks::levels_to(v, x, new);
    words::put_sets(words, y);
}
