// What a register number of either part means, as one number, its row: a row taken apart.
#![tactic(auto)]

ghost use Rattle.std.specs.Prelude.{◌≡◌, false, true, ℕ, ◌-◌, ◌^◌, ◌<◌};
ghost use Rattle.map.specs.Map.{kind_at, reserved, successor, room_at, part_of};
ghost use Rattle.registers.specs.Interrupt.{rings};
ghost use Rattle.words.specs.Words.{slot_at, digit_at, paired};
ghost use Rattle.words_rows.specs.Rows.{rule_at, row_at, word_in};

// The rules, by their numbers: a kind's is the kind's own.
pub const INPUT: u32 = 1;

pub const STATUS: u32 = 2;

pub const INPUT_STATUS: u32 = 3;

pub const CONFIGURATION: u32 = 4;

pub const LATCH: u32 = 5;

pub const MASK: u32 = 6;

pub const EDGE: u32 = 8;

pub const CLEAR: u32 = 9;

pub const DRIVE_STRENGTH: u32 = 14;

// What writing and reading the register does.
pub fn rule(row: u32) -> u32
    ensures { (part n : ℕ) → n < 128 → row ≡ row_at (part_of part) n → result ≡ rule_at (part_of part) n }
{
    row & 15
}

// Whether its write can change a status bit.
pub fn rings(row: u32) -> bool
    ensures { (part n : ℕ) → n < 128 → row ≡ row_at (part_of part) n → result ≡ rings (kind_at (part_of part) n) }
{
    let rule = rule(row);
    match rule {
        CONFIGURATION => true,
        LATCH => true,
        MASK => true,
        EDGE => true,
        CLEAR => true,
        _ => false,
    }
}

// Its word, or the first of two.
pub fn word(row: u32) -> usize
    ensures { ((part n : ℕ) → n < 128 → row ≡ row_at (part_of part) n → result ≡ slot_at (part_of part) n) × (result ≡ word_in row) }
{
    ((row >> 4) & 31) as usize
}

// Which byte of its word it is.
pub fn port(row: u32) -> u8
    ensures { ((part n : ℕ) → n < 128 → row ≡ row_at (part_of part) n → paired (slot_at (part_of part) n) ≡ false → result ≡ digit_at (part_of part) n) × (result < 8) }
{
    ((row >> 12) & 7) as u8
}

// Which four bits of its two words.
pub fn fourth(row: u32) -> u8
    ensures { ((part n : ℕ) → n < 128 → row ≡ row_at (part_of part) n → paired (slot_at (part_of part) n) ≡ true → result ≡ digit_at (part_of part) n) × (result < 16) }
{
    ((row >> 11) & 15) as u8
}

// The next number of its group, as the part's table of successors has it.
pub fn successor(row: u32) -> u64
    ensures { (part n : ℕ) → n < 128 → row ≡ row_at (part_of part) n → result ≡ successor (part_of part) n }
{
    ((row >> 15) & 127) as u64
}

// The bits of it that exist.
pub fn existing(row: u32) -> u8
    ensures { (part n : ℕ) → reserved (part_of part) n ≡ false → row ≡ row_at (part_of part) n → result ≡ 2 ^ room_at (part_of part) n - 1 }
{
    (row >> 24) as u8
}
