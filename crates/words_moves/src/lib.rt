// Bits of a word written, at any width, and what that does to the pins: clear, mask, edge fields, latch, configuration.
#![tactic(auto)]

ghost use Rattle.std.specs.Prelude.{◌≡◌, ℕ, ◌+◌, ◌<◌, get_or};
ghost use Rattle.bits.specs.Bits.{bit};
ghost use Rattle.pins.specs.Pin.{only, clear_written, mask_written, edge_written, latch_written, configuration_written};
ghost use Rattle.pins.specs.AllPins.{Within, map_pins};
ghost use Rattle.words.specs.Words.{sets_in, with_sets, merged_at, merged_pair};

use words::{CONFIGURATION, LATCH, MASK, RISING};

// The bits of here in the word become those of on.
pub fn put(words: &mut [u64; 28], at: usize, here: u64, on: u64)
    requires { at < 28 }
    ensures { words.new ≡ merged_at words.old at here on }
{
    let word = words[at];
    words[at] = (word ^ (word & here)) | on;
}

// The bits of here in two words become those of low and of high.
pub fn put_pair(words: &mut [u64; 28], at: usize, here: u64, low: u64, high: u64)
    requires { at + 1 < 28 }
    ensures { words.new ≡ merged_pair words.old at here low high }
{
    put(words, at, here, low);
    put(words, at + 1, here, high);
}

pub fn write_configuration(words: &mut [u64; 28], here: u64, on: u64)
    ensures { (width : ℕ) → Within width (sets_in words.old) → words.new
        ≡ with_sets (merged_at words.old 4 here on)
        (map_pins width (sets_in words.old)
        (λ i. only (bit here i) (configuration_written (bit (get_or words.old 5 0) i) (bit (get_or words.old 4 0) i) (bit on i)))) }
{
    let x = words::sets_in(&*words);
    let y = pins_writes::write_configuration(x, words[CONFIGURATION], words[LATCH], here, on);
    put(words, CONFIGURATION, here, on);
    words::put_sets(words, y);
}

pub fn write_latch(words: &mut [u64; 28], here: u64, on: u64)
    ensures { (width : ℕ) → Within width (sets_in words.old) → words.new
        ≡ with_sets (merged_at words.old 5 here on)
        (map_pins width (sets_in words.old)
        (λ i. only (bit here i) (latch_written (bit (get_or words.old 4 0) i) (bit (get_or words.old 5 0) i) (bit on i)))) }
{
    let x = words::sets_in(&*words);
    let y = pins_writes::write_latch(x, words[CONFIGURATION], words[LATCH], here, on);
    put(words, LATCH, here, on);
    words::put_sets(words, y);
}

pub fn write_mask(words: &mut [u64; 28], here: u64, on: u64)
    ensures { (width : ℕ) → Within width (sets_in words.old) → words.new
        ≡ with_sets (merged_at words.old 6 here on)
        (map_pins width (sets_in words.old) (λ i. only (bit here i) (mask_written (bit on i)))) }
{
    let x = words::sets_in(&*words);
    let y = pins_writes::write_mask(x, here, on);
    put(words, MASK, here, on);
    words::put_sets(words, y);
}

pub fn write_clear(words: &mut [u64; 28], here: u64, on: u64)
    ensures { (width : ℕ) → Within width (sets_in words.old) → words.new
        ≡ with_sets words.old
        (map_pins width (sets_in words.old) (λ i. only (bit here i) (clear_written (bit on i)))) }
{
    let x = words::sets_in(&*words);
    let y = pins_writes::write_clear(x, here, on);
    words::put_sets(words, y);
}

pub fn write_fields(words: &mut [u64; 28], here: u64, low: u64, high: u64)
    ensures { (width : ℕ) → Within width (sets_in words.old) → words.new
        ≡ with_sets (merged_pair words.old 8 here low high)
        (map_pins width (sets_in words.old) (λ i. only (bit here i) (edge_written (bit low i) (bit high i)))) }
{
    let x = words::sets_in(&*words);
    let y = pins_writes::write_edge(x, here, low, high);
    put_pair(words, RISING, here, low, high);
    words::put_sets(words, y);
}
