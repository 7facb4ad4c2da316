// The words of the defaults, which a reset leaves: for either part.
#![tactic(auto)]

ghost use Rattle.std.specs.Prelude.{◌≡◌};
ghost use Rattle.words_defaults.specs.Defaults.{reset_words};

use words::{
    CHOICE, CONFIGURATION, ID, LINE, MASK, OUTPUT, PART, PULL_SELECT, STRENGTH_HIGH, STRENGTH_LOW,
};

// INT's level where no status bit is 1.
const QUIET: u64 = 1;

// The words after a reset but for the pins, of a part whose pins are these: the one place in code where the defaults stand.
pub fn put_defaults(words: &mut [u64; 28], pins: u64, choice: u64, id: u64, part: u64)
    ensures { words.new ≡ reset_words pins choice id part }
{
    *words = [0; 28];
    words[CONFIGURATION] = pins;
    words[MASK] = pins;
    words[OUTPUT] = pins;
    words[STRENGTH_LOW] = pins;
    words[STRENGTH_HIGH] = pins;
    words[PULL_SELECT] = pins;
    words[LINE] = QUIET;
    words[CHOICE] = choice;
    words[ID] = id;
    words[PART] = part;
}
