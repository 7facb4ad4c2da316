// The interrupt on words: status set and line worked out, kept, and told as INT; for either part.
#![tactic(auto)]

ghost use Rattle.std.specs.Prelude.{◌≡◌, cond, ℕ, ◌^◌, ◌<◌};
ghost use Rattle.bits.specs.Bits.{bit};
ghost use Rattle.pins.specs.AllPins.{asserted};
ghost use Rattle.map.specs.Map.{part_of};
ghost use Rattle.registers.specs.Registers.{int_asserted};
ghost use Rattle.registers.specs.Interrupt.{worked_out};
ghost use Rattle.words.specs.Words.{core_in, interrupt_in, with_interrupt, Fit};

use words::{LINE, STATUS};

// INT's level of a status set: 0 asserted, 1 quiet.
pub fn line_of(status: u64) -> u64
    ensures { (w : ℕ) → status < 2 ^ w → result ≡ cond (asserted w (λ i. bit status i)) 0 1 }
{
    if pins_views::int_asserted(status) {
        return 0;
    }
    1
}

// The status set and the line become what the rules work out of the other words.
pub fn keep(words: &mut [u64; 28])
    ensures { (part : ℕ) → Fit (part_of part) words.old
        → words.new ≡ with_interrupt words.old (worked_out (part_of part) (core_in (part_of part) words.old)) }
{
    let status = words_pins::statuses(&*words);
    words[STATUS] = status;
    words[LINE] = line_of(status);
}

// Whether INT is asserted: what is kept.
pub fn int(words: &[u64; 28]) -> bool
    ensures { (part : ℕ) → interrupt_in words.now ≡ worked_out (part_of part) (core_in (part_of part) words.now)
        → result ≡ int_asserted (part_of part) (core_in (part_of part) words.now) }
{
    words[LINE] == 0
}
