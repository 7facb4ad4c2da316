// The bits of a register that is written, where its row says that they stand: all of them, and those that are 1.
#![tactic(auto)]

ghost use Rattle.std.specs.Prelude.{◌≡◌, false, true, ◌&&◌, ℕ, ◌<◌, ltb};
ghost use Rattle.bits.specs.Bits.{bit};
ghost use Rattle.ports.specs.Ports.{in_port, port_bit, in_edge, rising_bit, falling_bit};
ghost use Rattle.map.specs.Map.{reserved, part_of};
ghost use Rattle.words.specs.Words.{slot_at, digit_at, paired, wide_of};
ghost use Rattle.words_rows.specs.Rows.{row_at};

// The eight bits of a register's place in its word.
pub fn port_pins(row: u32) -> u64
    ensures { (part n : ℕ) → n < 128 → row ≡ row_at (part_of part) n → paired (slot_at (part_of part) n) ≡ false
        → (i : ℕ) → bit result i ≡ in_port (digit_at (part_of part) n) i }
{
    ports::port_set(words_rows::port(row))
}

// Those that are 1 in the value, of the bits that exist.
pub fn port_bits(row: u32, value: u8) -> u64
    ensures { (part n : ℕ) → reserved (part_of part) n ≡ false → row ≡ row_at (part_of part) n → paired (slot_at (part_of part) n) ≡ false
        → (i : ℕ) → bit result i ≡ (in_port (digit_at (part_of part) n) i && (port_bit value i && ltb i (wide_of (part_of part) (slot_at (part_of part) n)))) }
{
    ports::at_port(value & words_rows::existing(row), words_rows::port(row))
}

// The four pins of a register of two bits a pin.
pub fn field_pins(row: u32) -> u64
    ensures { (part n : ℕ) → n < 128 → row ≡ row_at (part_of part) n → paired (slot_at (part_of part) n) ≡ true
        → (i : ℕ) → bit result i ≡ in_edge (digit_at (part_of part) n) i }
{
    ports::edge_set(words_rows::fourth(row))
}

// Those whose low bit is 1 in the value.
pub fn low_bits(row: u32, value: u8) -> u64
    ensures { (part n : ℕ) → reserved (part_of part) n ≡ false → row ≡ row_at (part_of part) n → paired (slot_at (part_of part) n) ≡ true
        → (i : ℕ) → bit result i ≡ (in_edge (digit_at (part_of part) n) i && (rising_bit value i && ltb i (part_of part).width)) }
{
    ports::rising_at(value & words_rows::existing(row), words_rows::fourth(row))
}

// And those whose high bit is.
pub fn high_bits(row: u32, value: u8) -> u64
    ensures { (part n : ℕ) → reserved (part_of part) n ≡ false → row ≡ row_at (part_of part) n → paired (slot_at (part_of part) n) ≡ true
        → (i : ℕ) → bit result i ≡ (in_edge (digit_at (part_of part) n) i && (falling_bit value i && ltb i (part_of part).width)) }
{
    ports::falling_at(value & words_rows::existing(row), words_rows::fourth(row))
}
