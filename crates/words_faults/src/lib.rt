// What is wrong in words, as bits: those past a word's last, and what is kept of the interrupt against what the rules work out.
#![tactic(auto)]

ghost use Rattle.std.specs.Prelude.{◌≡◌, ℕ, ◌/◌, ◌^◌, get_or};
ghost use Rattle.std.specs.Int.Bits.{bit_or};
ghost use Rattle.map.specs.Map.{part_of};
ghost use Rattle.registers.specs.Interrupt.{worked_out};
ghost use Rattle.words.specs.Words.{core_in, interrupt_in, Fit};

use words::{CHOICE, ID, LINE, MODE, POINTER, STATUS};

// What is set in the words that end at a bit, and may not be.
pub fn odd(words: &[u64; 28]) -> u64
    ensures { result ≡ bit_or (bit_or (bit_or (get_or words.now 21 0 / 2 ^ 7) (get_or words.now 23 0 / 2 ^ 2)) (get_or words.now 24 0 / 2 ^ 1))
        (get_or words.now 25 0 / 2 ^ 24) }
{
    (words[POINTER] >> 7) | (words[CHOICE] >> 2) | (words[MODE] >> 1) | (words[ID] >> 24)
}

// In which bits the status set and the line are not what the rules work out.
pub fn stale(words: &[u64; 28]) -> u64
    ensures { (c : ℕ) → Fit (part_of c) words.now
        → (result ≡ 0 → interrupt_in words.now ≡ worked_out (part_of c) (core_in (part_of c) words.now))
        × (interrupt_in words.now ≡ worked_out (part_of c) (core_in (part_of c) words.now) → result ≡ 0) }
{
    let status = words_pins::statuses(words);
    let line = words_interrupt::line_of(status);
    (words[STATUS] ^ status) | (words[LINE] ^ line)
}
