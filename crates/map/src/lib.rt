// The register map, part by part: see specs/Map.antt for the groups and proofs/ for what is worked out of them.
#![tactic(auto)]

ghost use Rattle.std.specs.Prelude.{◌≡◌, ◌-◌, ◌^◌, false};
ghost use Rattle.map.specs.Map.{part24, part34, part_of, reserved, onward};
ghost use Rattle.map.specs.Chips.{part_at};

// The parts: the one of 24 pins, and its sister of 34.
#[derive(Clone, Copy, Debug, PartialEq, Eq)]
pub enum Chip {
    Pcal6524,
    Pcal6534,
}

impl Chip {
    // How many pins it has.
    pub fn pins(self) -> u8
        ensures { result ≡ (part_at self).width }
    {
        match self {
            Chip::Pcal6524 => 24,
            Chip::Pcal6534 => 34,
        }
    }
}

// The 24-pin part: every pin, the bits that exist in the output port kind, in debounce enable and in debounce count.
pub const PINS24: u64 = 0xff_ffff;

pub const PORT_KINDS24: u64 = 0x7;

pub const DEBOUNCED24: u64 = 0xffff;

pub const DEBOUNCE_COUNT24: u64 = 0xff;

// The first registers of what a setting holds: output, configuration, the output port kind, pin output kind.
pub const OUTPUT24: u8 = 0x04;

pub const CONFIGURATION24: u8 = 0x0c;

pub const PORT_KIND24: u8 = 0x5c;

pub const PIN_KIND24: u8 = 0x70;

// Its sister of 34 pins.
pub const PINS34: u64 = 0x3_ffff_ffff;

pub const PORT_KINDS34: u64 = 0x1f;

pub const DEBOUNCED34: u64 = 0xff_ffff;

pub const DEBOUNCE_COUNT34: u64 = 0;

pub const OUTPUT34: u8 = 0x05;

pub const CONFIGURATION34: u8 = 0x0f;

pub const PORT_KIND34: u8 = 0x53;

pub const PIN_KIND34: u8 = 0x68;

// Of both: the last register number.
pub const LAST_NUMBER: u8 = 0x7f;

// Every pin of the part of that number.
pub fn pins_of(part: u64) -> u64
    ensures { result ≡ 2 ^ (part_of part).width - 1 }
{
    if part == 0 {
        return PINS24;
    }
    PINS34
}

// The step over the whole map, from a register of the 24-pin part: to the next number, past the reserved ones after these, and from the highest to 00h.
fn onward24(n: u8) -> u8
    requires { reserved part24 n ≡ false }
    ensures { result ≡ onward part24 n }
{
    match n {
        0x02 => 0x04,
        0x06 => 0x08,
        0x0a => 0x0c,
        0x0e => 0x40,
        0x45 => 0x48,
        0x4a => 0x4c,
        0x4e => 0x50,
        0x52 => 0x54,
        0x56 => 0x58,
        0x5a => 0x5c,
        0x5c => 0x60,
        0x65 => 0x68,
        0x6a => 0x6c,
        0x6e => 0x70,
        0x72 => 0x74,
        0x76 => 0x00,
        _ => n + 1,
    }
}

// And of its sister.
fn onward34(n: u8) -> u8
    requires { reserved part34 n ≡ false }
    ensures { result ≡ onward part34 n }
{
    match n {
        0x13 => 0x30,
        0x38 => 0x3a,
        0x5c => 0x5e,
        0x6f => 0x00,
        _ => n + 1,
    }
}

// Of the part of that number.
pub fn onward_of(part: u64, n: u8) -> u8
    requires { reserved (part_of part) n ≡ false }
    ensures { result ≡ onward (part_of part) n }
{
    if part == 0 {
        return onward24(n);
    }
    onward34(n)
}
