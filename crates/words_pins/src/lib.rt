// What the rules of a pin ask of the words: the registers that events depend on, port kinds, input port bits and status bits, for either part.
#![tactic(auto)]

ghost use Rattle.std.specs.Prelude.{◌≡◌, ℕ, ◌/◌, ◌<◌, get_or};
ghost use Rattle.bits.specs.Bits.{bit};
ghost use Rattle.pins.specs.AllPins.{PinsOf, source_at};
ghost use Rattle.pins.specs.OnePin.{input_of, status_of};
ghost use Rattle.words.specs.Words.{words_at, pin_in};

use pins::Sources;
use words::{CONFIGURATION, FALLING, LATCH, MASK, PIN_KIND, POLARITY, PORT_KIND, RISING};

// The registers that events depend on.
pub fn sources(words: &[u64; 28]) -> Sources
    ensures { ((i : ℕ) → source_at result i ≡ (words_at words.now i).source) × (result.configuration ≡ get_or words.now 4 0) }
{
    Sources {
        configuration: words[CONFIGURATION],
        mask: words[MASK],
        latch: words[LATCH],
        rising: words[RISING],
        falling: words[FALLING],
    }
}

// The output port kind, at the pins of its ports.
pub fn port_kinds(words: &[u64; 28]) -> u64
    ensures { (i : ℕ) → i < 40 → bit result i ≡ bit (get_or words.now 7 0) (i / 8) }
{
    ports::spread((words[PORT_KIND] % 32) as u8)
}

// The input port bits.
pub fn inputs(words: &[u64; 28]) -> u64
    ensures { (i : ℕ) → i < 40 → bit result i ≡ input_of (pin_in words.now i) }
{
    let x = words::sets_in(words);
    let kinds = port_kinds(words);
    pins_views::input_bits(
        words[CONFIGURATION],
        words[LATCH],
        words[POLARITY],
        kinds,
        words[PIN_KIND],
        x,
    )
}

// The pins whose status bit is 1.
pub fn statuses(words: &[u64; 28]) -> u64
    ensures { PinsOf result (λ i. status_of (pin_in words.now i)) (get_or words.now 4 0) }
{
    let v = sources(words);
    let x = words::sets_in(words);
    pins_views::status_bits(v, x)
}
