// From the bytes of registers to pin sets, and back.
// Registers of two bits a pin: four pins a byte.
#![tactic(auto)]

ghost use Rattle.std.specs.Prelude.{◌≡◌, ◌&&◌, [], ◌∷◌, ℕ, ◌+◌, ◌*◌, ◌/◌, ◌%◌, ◌<◌, ◌^◌};
ghost use Rattle.bits.specs.Bits.{bit};
ghost use Rattle.ports.specs.Ports.{in_port, port_bit, bytes_bit, byte_of, in_edge, rising_bit, falling_bit, evens_of};

// The byte of port k at that port's pins.
pub fn at_port(byte: u8, k: u8) -> u64
    requires { k < 8 }
    ensures { (i : ℕ) → bit result i ≡ (in_port k i && port_bit byte i) }
{
    (byte as u64) << (8 * k)
}

// The eight pins of port k.
pub fn port_set(k: u8) -> u64
    requires { k < 8 }
    ensures { (i : ℕ) → bit result i ≡ in_port k i }
{
    at_port(0xff, k)
}

// The byte of port k, out of a pin set.
pub fn byte_of(s: u64, k: u8) -> u8
    requires { k < 8 }
    ensures { result ≡ byte_of k (bit s) }
{
    ((s >> (8 * k)) & 0xff) as u8
}

// The bytes of three ports as a pin set, a of port 0.
pub fn join3(a: u8, b: u8, c: u8) -> u64
    ensures { ((i : ℕ) → i < 24 → bit result i ≡ bytes_bit (a ∷ b ∷ c ∷ []) i) × (result < 2 ^ 24) }
{
    (c as u64 * 256 + b as u64) * 256 + a as u64
}

// A bit for each of up to five ports, at the eight pins of its port.
pub fn spread(byte: u8) -> u64
    requires { byte < 32 }
    ensures { (i : ℕ) → bit result i ≡ bit byte (i / 8) }
{
    // copies seven bits apart have bit k where port k's pins begin
    let copies = byte as u64 * 0x1020_4081;
    (copies & 0x01_0101_0101) * 0xff
}

// Four bits at the pins of edge register k.
fn at_edge(bits: u8, k: u8) -> u64
    requires { (bits < 16) × (k < 16) }
    ensures { (i : ℕ) → bit result i ≡ (in_edge k i && bit bits (i % 4)) }
{
    (bits as u64) << (4 * k)
}

// The four pins of edge register k.
pub fn edge_set(k: u8) -> u64
    requires { k < 16 }
    ensures { (i : ℕ) → bit result i ≡ in_edge k i }
{
    at_edge(0xf, k)
}

// Bits 0, 2, 4 and 6 of an edge register, together.
fn evens(byte: u8) -> u8
    ensures { (result ≡ evens_of byte) × (result < 16) }
{
    (byte & 1) | ((byte >> 1) & 2) | ((byte >> 2) & 4) | ((byte >> 3) & 8)
}

// The pins of edge register k whose field asks for rising edges.
pub fn rising_at(byte: u8, k: u8) -> u64
    requires { k < 16 }
    ensures { (i : ℕ) → bit result i ≡ (in_edge k i && rising_bit byte i) }
{
    at_edge(evens(byte), k)
}

// And those whose field asks for falling ones.
pub fn falling_at(byte: u8, k: u8) -> u64
    requires { k < 16 }
    ensures { (i : ℕ) → bit result i ≡ (in_edge k i && falling_bit byte i) }
{
    at_edge(evens(byte >> 1), k)
}
