// A device with loss marks, in memory that is lent: its words, and beside them the marks.
#![tactic(auto)]

ghost use Rattle.std.specs.Prelude.{◌≡◌, ℕ};
ghost use Rattle.map.specs.Map.{Part};
ghost use Rattle.device_rules.specs.Refusals.{event_of};
ghost use Rattle.words_state.specs.Packed.{state_in};
ghost use Rattle.loss_rules.specs.Marks.{is_reset};
ghost use Rattle.loss_sets.specs.Refused.{refused_by};
ghost use Rattle.loss_marks.specs.Lent.{MarkedSteps, Signs};

use device_rules::{Answer, BAD_IMAGE, RESET, STOP};
use loss_sets::{HEALTHY, Refusal};
use words::{BUS, STATUS};
use words_state::ARMED;

// Whether an event of this kind resets the device. A kind over the last one is refused, and nobody asks.
pub fn is_reset(words: &[u64; 28], kind: u32) -> bool
    ensures { (p : Part) (arg : ℕ) → result ≡ is_reset (state_in p words.now) (event_of kind arg) }
{
    if kind == STOP {
        return words[BUS] == ARMED;
    }
    RESET <= kind
}

// One event of the part, whatever words and marks hold.
pub fn step(words: &mut [u64; 28], marks: &mut [u64; 2], part: u64, kind: u32, arg: u64) -> Answer
    ensures { MarkedSteps part words.old words.new marks.old marks.new kind arg result }
{
    if !loss_sets::fit(&*marks, map::pins_of(part)) {
        return Answer::Refused(BAD_IMAGE);
    }
    let before = words[STATUS];
    let resets = is_reset(&*words, kind);
    let answer = words_device::step(words, part, kind, arg);
    if answer.is_refusal() {
        return answer;
    }
    loss_notes::note(marks, resets, before, words[STATUS]);
    answer
}

// Sign-off of a pin of the part, whatever words and marks hold.
pub fn sign_off(words: &[u64; 28], marks: &mut [u64; 2], part: u64, pin: u32) -> Result<(), Refusal>
    ensures { Signs part words.now marks.old marks.new pin (refused_by result) }
{
    if !words_fits::fits(words, part) {
        return Err(Refusal::BrokenImage);
    }
    if !loss_sets::fit(&*marks, map::pins_of(part)) {
        return Err(Refusal::BrokenImage);
    }
    if loss_sets::width_of(part) <= pin {
        return Err(Refusal::BadArgument);
    }
    if !loss_signs::is_well(words, marks[HEALTHY], pin) {
        return Err(Refusal::NotHealthy);
    }
    loss_signs::clear(marks, pin);
    Ok(())
}
