// What a C call does, the part given as its number: each function stands behind two that are exported.
#![tactic(auto)]

ghost use Rattle.std.specs.Prelude.{◌<◌};
ghost use Rattle.host_words.specs.Host.{Told, Made, Seen, Shown, drives_of, int_of};

use host_words::{BAD_ARGUMENT, BAD_IMAGE, DONE};

// The parts by their numbers.
pub const PCAL6524: u64 = 0;

pub const PCAL6534: u64 = 1;

// The last register number.
const LAST_NUMBER: u32 = 127;

// A device of the part at power-on.
pub fn power_on(words: &mut [u64; 28], part: u64, choice: u32, levels: u64, number: u64) -> u32
    requires { part < 2 }
    ensures { Made part choice levels number result words.old words.new }
{
    match device_making::allows(part, choice, levels, number) {
        Ok(()) => {
            words_device::power_on(words, part, (choice % 4) as u8, levels, number);
            DONE
        }
        Err(refusal) => u32::from(refusal.number()),
    }
}

// One event.
pub fn step(words: &mut [u64; 28], part: u64, kind: u32, argument: u64, answer: &mut [u8; 2]) -> u32
    ensures { Told part words.old kind argument result words.new answer.old answer.new }
{
    let stepped = words_device::step(words, part, kind, argument);
    host_answers::tell(stepped, answer)
}

// The pins driven low and high.
pub fn drives(words: &[u64; 28], part: u64, drives: &mut [u64; 2]) -> u32
    ensures { Seen part words.now drives_of result drives.old drives.new }
{
    if words_fits::fits(words, part) {
        let low = words_views::low(words, map::pins_of(part));
        let high = words_views::high(words);
        *drives = [low, high];
        return DONE;
    }
    BAD_IMAGE
}

// Whether INT is asserted.
pub fn int(words: &[u64; 28], part: u64, asserted: &mut [u8; 1]) -> u32
    ensures { Seen part words.now int_of result asserted.old asserted.new }
{
    if words_fits::fits(words, part) {
        *asserted = [host_answers::one_if(words_interrupt::int(words))];
        return DONE;
    }
    BAD_IMAGE
}

// The byte that a fetch of register n would show.
pub fn show(words: &[u64; 28], part: u64, number: u32, shown: &mut [u8; 1]) -> u32
    ensures { Shown part words.now number result shown.old shown.new }
{
    if !words_fits::fits(words, part) {
        return BAD_IMAGE;
    }
    if LAST_NUMBER < number {
        return BAD_ARGUMENT;
    }
    let row = words_tables::row_of(part, number as u64);
    if row == 0 {
        return BAD_ARGUMENT;
    }
    *shown = [words_views::show(words, row)];
    DONE
}
