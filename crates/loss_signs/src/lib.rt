// Signing a loss mark off: what is asked of its pin, and the mark cleared.
#![tactic(auto)]

ghost use Rattle.std.specs.Prelude.{◌≡◌, true, ◌<◌, get_or};
ghost use Rattle.bits.specs.Bits.{bit};
ghost use Rattle.map.specs.Map.{Part};
ghost use Rattle.loss_rules.specs.Marks.{quiet_and_healthy, signed, marks_fit};
ghost use Rattle.loss_sets.specs.Sets.{marks_in};

use loss_sets::{HEALTHY, SET};
use words::{LEVEL, STATUS};

// Whether the set has the pin.
fn has(set: u64, pin: u32) -> bool
    requires { pin < 64 }
    ensures { result ≡ bit set pin }
{
    (set >> pin) % 2 == 1
}

// Whether the pin's status bit is 0 and its level the healthy one.
pub fn is_well(words: &[u64; 28], healthy: u64, pin: u32) -> bool
    requires { pin < 64 }
    ensures { result ≡ quiet_and_healthy (bit (get_or words.now 19 0) pin) (bit (get_or words.now 0 0) pin) (bit healthy pin) }
{
    if has(words[STATUS], pin) {
        return false;
    }
    !has(words[LEVEL] ^ healthy, pin)
}

// The pin's mark is cleared.
pub fn clear(marks: &mut [u64; 2], pin: u32)
    requires { pin < 64 }
    ensures { (p : Part) → marks_fit p (marks_in marks.old) ≡ true → marks_in marks.new ≡ signed p pin (marks_in marks.old) }
{
    let its = 1u64 << pin;
    *marks = [marks[SET] ^ (marks[SET] & its), marks[HEALTHY]];
}
