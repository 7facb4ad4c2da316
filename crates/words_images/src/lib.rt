// The words out of an image, and an image out of them.
#![tactic(auto)]

ghost use Rattle.std.specs.Prelude.{◌≡◌, true, get_or};
ghost use Rattle.map.specs.Map.{part_of};
ghost use Rattle.registers.specs.Registers.{core};
ghost use Rattle.registers.specs.Interrupt.{interrupt};
ghost use Rattle.device_rules.specs.Device.{identity, state};
ghost use Rattle.words.specs.Words.{file_of};
ghost use Rattle.words_images.specs.Images.{Packs, rest_in};

use device_rules::Rest;
use pins::Sets;
use words::{BUS, CHOICE, ID, LINE, MODE, PART, PLACE, POINTER, STATUS};

// The words become those of an image of the part, if it fits.
pub fn pack(
    words: &mut [u64; 28],
    part: u64,
    file: &[u8; 128],
    sets: Sets,
    pointer: u64,
    bus: u64,
    choice: u64,
    status: u64,
    line: u64,
    mode: u64,
    number: u64,
    place: u64,
) -> bool
    ensures { Packs part (state (core file.now sets) (interrupt status line) pointer mode bus choice (identity number place)) result words.old words.new }
{
    let mut fresh = [0u64; 28];
    words_stored::from_file(&mut fresh, part, file);
    words::put_sets(&mut fresh, sets);
    fresh[POINTER] = pointer;
    fresh[BUS] = bus;
    fresh[CHOICE] = choice;
    fresh[STATUS] = status;
    fresh[LINE] = line;
    fresh[MODE] = mode;
    fresh[ID] = number;
    fresh[PLACE] = place;
    fresh[PART] = part;
    if !words_files::stand_for(&fresh, part, file) {
        return false;
    }
    if !words_fits::fits(&fresh, part) {
        return false;
    }
    *words = fresh;
    true
}

// The image that the words hold: its register file, and the rest of it.
pub fn unpack(words: &[u64; 28], file: &mut [u8; 128]) -> Rest
    ensures { (file.new ≡ file_of (part_of (get_or words.now 27 0)) words.now) × (result ≡ rest_in words.now) }
{
    let part = words[PART];
    words_files::to_file(words, part, file);
    let sets = words::sets_in(words);
    let pointer = (words[POINTER] % 256) as u8;
    let bus = (words[BUS] % 256) as u8;
    let choice = (words[CHOICE] % 256) as u8;
    let status = words[STATUS];
    let line = (words[LINE] % 256) as u8;
    let mode = (words[MODE] % 256) as u8;
    let number = words[ID];
    let place = (words[PLACE] % 256) as u8;
    Rest {
        sets,
        pointer,
        bus,
        choice,
        status,
        line,
        mode,
        number,
        place,
    }
}
