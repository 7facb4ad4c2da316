// A register written or fetched, and levels, on words that are packed: the status set and the line follow where that can change them.
#![tactic(auto)]

ghost use Rattle.std.specs.Prelude.{◌≡◌, ℕ, ◌^◌, ◌<◌, get_or};
ghost use Rattle.map.specs.Map.{part_of};
ghost use Rattle.registers.specs.Registers.{written, fetched, levelled};
ghost use Rattle.words.specs.Words.{core_in, PinLevels};
ghost use Rattle.words_rows.specs.Rows.{row_at};
ghost use Rattle.words_state.specs.Packed.{Packed, Standing, Becomes};

// The register at the pointer, whose row is given, is written: the status set and the line follow where that can change them.
pub fn write(words: &mut [u64; 28], row: u32, value: u8)
    requires { Standing row (get_or words.old 21 0) words.old }
    ensures { (c : ℕ) → Packed c words.old → row ≡ row_at (part_of c) (get_or words.old 21 0)
        → Becomes c words.old words.new (written (part_of c) (core_in (part_of c) words.old) (get_or words.old 21 0) value) }
{
    words_writes::write_register(words, row, value);
    if words_rows::rings(row) {
        words_interrupt::keep(words);
    }
}

// What a fetch of it does: only an input port register settles pins, and so changes a status bit.
pub fn settle(words: &mut [u64; 28], row: u32)
    requires { Standing row (get_or words.old 21 0) words.old }
    ensures { (c : ℕ) → Packed c words.old → row ≡ row_at (part_of c) (get_or words.old 21 0)
        → Becomes c words.old words.new (fetched (part_of c) (core_in (part_of c) words.old) (get_or words.old 21 0)) }
{
    words_views::settle(words, row);
    if words_rows::rule(row) == words_rows::INPUT {
        words_interrupt::keep(words);
    }
}

// The levels become those of new.
pub fn set_levels(words: &mut [u64; 28], new: u64)
    requires { PinLevels new words.old }
    ensures { (c : ℕ) → Packed c words.old → new < 2 ^ (part_of c).width
        → Becomes c words.old words.new (levelled (part_of c) (core_in (part_of c) words.old) new) }
{
    words_views::set_levels(words, new);
    words_interrupt::keep(words);
}
