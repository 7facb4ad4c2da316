// The state as words that a caller lends, for both parts: what each word is, and the pins' four as sets.
#![tactic(auto)]

ghost use Rattle.std.specs.Prelude.{◌≡◌};
ghost use Rattle.words.specs.Words.{sets_in, with_sets};

use pins::Sets;

pub const LEVEL: usize = 0;

pub const REFERENCE: usize = 1;

pub const HELD: usize = 2;

pub const EDGE: usize = 3;

pub const CONFIGURATION: usize = 4;

pub const LATCH: usize = 5;

pub const MASK: usize = 6;

pub const PORT_KIND: usize = 7;

pub const RISING: usize = 8;

pub const FALLING: usize = 9;

pub const OUTPUT: usize = 10;

pub const POLARITY: usize = 11;

pub const PIN_KIND: usize = 12;

pub const STRENGTH_LOW: usize = 13;

pub const STRENGTH_HIGH: usize = 14;

pub const PULL_SELECT: usize = 16;

pub const DEBOUNCE_ENABLE: usize = 17;

pub const DEBOUNCE_COUNT: usize = 18;

pub const STATUS: usize = 19;

pub const LINE: usize = 20;

pub const POINTER: usize = 21;

pub const BUS: usize = 22;

pub const CHOICE: usize = 23;

// The pointer's mode: 0 it steps in its group, 1 over the whole map.
pub const MODE: usize = 24;

// The Device ID: its number, and the place of the byte that is told next.
pub const ID: usize = 25;

pub const PLACE: usize = 26;

pub const PART: usize = 27;

// The pins' level, reference, held and edge.
pub fn sets_in(words: &[u64; 28]) -> Sets
    ensures { result ≡ sets_in words.now }
{
    Sets {
        level: words[LEVEL],
        reference: words[REFERENCE],
        held: words[HELD],
        edge: words[EDGE],
    }
}

// They become these.
pub fn put_sets(words: &mut [u64; 28], x: Sets)
    ensures { words.new ≡ with_sets words.old x }
{
    words[LEVEL] = x.level;
    words[REFERENCE] = x.reference;
    words[HELD] = x.held;
    words[EDGE] = x.edge;
}
