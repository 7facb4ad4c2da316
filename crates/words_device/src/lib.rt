// The device on words that are lent: made; stepped with every refusal, whatever they hold, and where they are known to be packed without the test of refusal 3.
#![tactic(auto)]

ghost use Rattle.std.specs.Prelude.{◌≡◌, ℕ, ◌-◌, ◌^◌, ◌<◌, get_or};
ghost use Rattle.map.specs.Map.{part_of};
ghost use Rattle.device_rules.specs.PowerOn.{power_on};
ghost use Rattle.device_rules.specs.Refusals.{stepped};
ghost use Rattle.words_rows.specs.Rows.{row_at};
ghost use Rattle.words_state.specs.Packed.{state_in, Packed, Leaves, Steps};
ghost use Rattle.words_device.specs.Named.{Named, Obeys};

use device_rules::{Answer, BAD_IMAGE, BYTE, START};
use pins::Sets;
use words::{PART, POINTER};

// A device at power-on.
pub fn power_on(words: &mut [u64; 28], part: u64, choice: u8, levels: u64, id: u64)
    requires { (part < 2) × (choice < 4) × (levels < 2 ^ (part_of part).width) × (id < 2 ^ 24) }
    ensures { Packed part words.new × (state_in (part_of part) words.new ≡ power_on (part_of part) choice levels id) }
{
    words_defaults::put_defaults(words, map::pins_of(part), choice as u64, id, part);
    let quiet = Sets {
        level: levels,
        reference: levels,
        held: 0,
        edge: 0,
    };
    words::put_sets(words, quiet);
}

// One event on words that are packed, the row of the register at the pointer given.
fn event_at(words: &mut [u64; 28], part: u64, row: u32, kind: u32, arg: u64) -> Answer
    requires { Packed part words.old × (row ≡ row_at (part_of part) (get_or words.old 21 0)) }
    ensures { Leaves part words.new result (stepped (part_of part) (state_in (part_of part) words.old) kind arg) }
{
    if words_command::is_command(&*words, kind) {
        let wanted = words_tables::row_of(part, arg % 128);
        return words_command::command(words, wanted, arg);
    }
    words_bus::event(words, map::pins_of(part), row, kind, arg)
}

// START or STOP, which ask for no row.
fn condition(words: &mut [u64; 28], pins: u64, kind: u32) -> Answer
    requires { Packed (get_or words.old 27 0) words.old × (pins ≡ 2 ^ (part_of (get_or words.old 27 0)).width - 1) × (kind < 2) }
    ensures { (c arg : ℕ) → Packed c words.old → pins ≡ 2 ^ (part_of c).width - 1
        → Leaves c words.new result (stepped (part_of c) (state_in (part_of c) words.old) kind arg) }
{
    if kind == START {
        return words_conditions::start(words);
    }
    words_conditions::stop(words, pins)
}

// One event on words that are known to be packed: nothing of refusal 3 is left to test. START and STOP, three of ten events of a host's traffic, ask for no row.
pub fn event(words: &mut [u64; 28], kind: u32, arg: u64) -> Answer
    requires { Named words.old }
    ensures { Obeys words.old words.new kind arg result }
{
    let part = words[PART];
    if kind < BYTE {
        return condition(words, map::pins_of(part), kind);
    }
    let row = words_tables::row_of(part, words[POINTER]);
    event_at(words, part, row, kind, arg)
}

// One event of the part, whatever the words hold.
pub fn step(words: &mut [u64; 28], part: u64, kind: u32, arg: u64) -> Answer
    ensures { Steps part words.old words.new kind arg result }
{
    match words_fits::judged(&*words, part) {
        Some(row) => event_at(words, part, row, kind, arg),
        None => Answer::Refused(BAD_IMAGE),
    }
}
