// The state beside the register file, and the answers.
// Which images, events and makings are refused, by number, and what the others give: see specs/ for the definitions and proofs/ for their laws.
#![tactic(auto)]

ghost use Rattle.std.specs.Prelude.{◌≡◌, [], ◌∷◌, eqb};
ghost use Rattle.device_rules.specs.Answers.{answer_kind, answer_byte};

use pins::Sets;

#[derive(Clone, Copy, PartialEq, Eq)]
pub enum Answer {
    Nothing,
    Ack,
    Nak,
    Byte(u8),
    Refused(u8),
}

impl Answer {
    pub fn is_refusal(self) -> bool
        ensures { result ≡ eqb (answer_kind self) 4 }
    {
        matches!(self, Answer::Refused(_))
    }

    // Its kind and the byte read, as a caller has them; a refusal is no answer, and goes by 4.
    pub fn told(self) -> [u8; 2]
        ensures { result ≡ answer_kind self ∷ answer_byte self ∷ [] }
    {
        match self {
            Answer::Nothing => [0, 0],
            Answer::Ack => [1, 0],
            Answer::Nak => [2, 0],
            Answer::Byte(byte) => [3, byte],
            Answer::Refused(_) => [4, 0],
        }
    }
}

// The state beside the register file.
#[derive(Clone, Copy)]
pub struct Rest {
    pub sets: Sets,
    pub pointer: u8,
    pub bus: u8,
    pub choice: u8,
    pub status: u64,
    pub line: u8,
    pub mode: u8,
    pub number: u64,
    pub place: u8,
}

// The line, INT's level, where no status bit is 1.
pub const QUIET: u8 = 1;

// Event kinds.
pub const START: u32 = 0;

pub const STOP: u32 = 1;

pub const BYTE: u32 = 2;

pub const FETCH: u32 = 3;

pub const LEVELS: u32 = 4;

pub const RESET: u32 = 5;

// Refusals, by their numbers; 0 is none.
pub const NONE: u8 = 0;

pub const BAD_KIND: u8 = 1;

pub const BAD_ARGUMENT: u8 = 2;

pub const BAD_IMAGE: u8 = 3;

// Of a line that says nothing.
pub const UNREADABLE: u8 = 7;

// The last address choice.
pub const LAST_CHOICE: u8 = 3;

// The last number that a Device ID can be.
pub const LAST_ID: u64 = 0xff_ffff;
