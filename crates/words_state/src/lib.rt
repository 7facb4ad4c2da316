// The state that the words hold: the bus going on, for either part.
#![tactic(auto)]

ghost use Rattle.std.specs.Prelude.{◌≡◌, set};

use device_rules::Answer;
use words::BUS;

// Bus states.
pub const IDLE: u64 = 0;

pub const OPENED: u64 = 1;

pub const CHOSEN: u64 = 2;

pub const FILLING: u64 = 3;

pub const SENDING: u64 = 4;

pub const CALL: u64 = 5;

pub const ARMED: u64 = 6;

pub const DEAF: u64 = 7;

pub const ASKING: u64 = 8;

pub const NAMED: u64 = 9;

pub const REOPENED: u64 = 10;

pub const TELLING: u64 = 11;

// The bus goes to a state, with that answer.
pub fn goes(words: &mut [u64; 28], bus: u64, answer: Answer) -> Answer
    ensures { (result ≡ answer) × (words.new ≡ set words.old 22 bus) }
{
    words[BUS] = bus;
    answer
}
