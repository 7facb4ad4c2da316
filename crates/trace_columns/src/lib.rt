// The text of the columns, which few events change: kept with what it was told from, and written anew where one of these words changed.
#![tactic(auto)]

ghost use Rattle.std.specs.Prelude.{◌≡◌, List, ℕ, ◌+◌, ◌≤◌, length, get_or};
ghost use Rattle.map.specs.Map.{part_of};
ghost use Rattle.device_rules.specs.Device.{out as outcome};
ghost use Rattle.words_state.specs.Packed.{part_word, state_in};
ghost use Rattle.words_device.specs.Named.{Named};
ghost use Rattle.text.specs.Text.{Wrote};
ghost use Rattle.text_answers.specs.Answers.{shown_line};
ghost use Rattle.trace_columns.specs.Columns.{Told, Fresh};

use device_rules::Answer;
use words::{CONFIGURATION, LINE, OUTPUT, PART, PIN_KIND, PORT_KIND};

// A line, INT's level, that no device has.
const NO_LINE: u64 = 2;

// The words that the columns depend on.
#[derive(Clone, Copy, PartialEq)]
pub struct Causes {
    line: u64,
    configuration: u64,
    output: u64,
    port_kind: u64,
    pin_kind: u64,
}

impl Causes {
    // These words as they are.
    fn of(words: &[u64; 28]) -> Self
        ensures { Told words.now result }
    {
        Causes {
            line: words[LINE],
            configuration: words[CONFIGURATION],
            output: words[OUTPUT],
            port_kind: words[PORT_KIND],
            pin_kind: words[PIN_KIND],
        }
    }
}

// The text of the columns, and the words that it was told from.
#[derive(Drop)]
pub struct Columns {
    told: Causes,
    text: [u8; 22],
}

impl Columns {
    // Before a device: no text yet, and told from words that no device has.
    pub fn new() -> Self
        ensures { (words : List ℕ) → Fresh words result }
    {
        Columns {
            told: Causes {
                line: NO_LINE,
                configuration: 0,
                output: 0,
                port_kind: 0,
                pin_kind: 0,
            },
            text: [0; 22],
        }
    }

    // The text, written anew.
    pub fn refresh(&mut self, words: &[u64; 28])
        requires { Named words.now }
        ensures { Fresh words.now self.new × Told words.now self.new.told }
    {
        self.told = Causes::of(words);
        let int = words_interrupt::int(words);
        let low = words_views::low(words, map::pins_of(words[PART]));
        let high = words_views::high(words);
        text_answers::keep(&mut self.text, words[PART], int, low, high);
    }

    // The text, written anew if it changed.
    pub fn renew(&mut self, words: &[u64; 28])
        requires { Named words.now × Fresh words.now self.old }
        ensures { Fresh words.now self.new × Told words.now self.new.told }
    {
        if self.told == Causes::of(words) {
            return;
        }
        self.refresh(words);
    }

    // Puts the line of an answer, with the columns of the device in the words, into out from at on, and says where it ends.
    pub fn put_line(&self, words: &[u64; 28], answer: Answer, out: &mut [u8], at: usize) -> usize
        requires { Named words.now × Fresh words.now self.now × Told words.now self.now.told × (at + 26 ≤ length out.old) }
        ensures { Wrote out.old at (shown_line (part_of (get_or words.now part_word 0)) (outcome answer (state_in (part_of (get_or words.now part_word 0)) words.now))) result out.new }
    {
        text_answers::put_line(out, at, words[PART], answer, &self.text)
    }
}
