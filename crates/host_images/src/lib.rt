// An image as a C host has it, in arrays, to words and back, the part given as its number: each function stands behind two that are exported.
#![tactic(auto)]

ghost use Rattle.std.specs.Prelude.{◌<◌};
ghost use Rattle.host_words.specs.Host.{image_in, FromImage, ToImage};

use host_words::{BAD_IMAGE, DONE};
use pins::Sets;
use words::{BUS, CHOICE, EDGE, HELD, ID, LEVEL, LINE, MODE, PLACE, POINTER, REFERENCE, STATUS};

// The words of an image.
pub fn pack(
    words: &mut [u64; 28],
    part: u64,
    pins: &[u64; 4],
    registers: &[u8; 128],
    rest: &[u64; 8],
) -> u32
    requires { part < 2 }
    ensures { FromImage part (image_in pins.now registers.now rest.now) result words.old words.new }
{
    let sets = Sets {
        level: pins[0],
        reference: pins[1],
        held: pins[2],
        edge: pins[3],
    };
    if words_images::pack(
        words, part, registers, sets, rest[0], rest[1], rest[2], rest[3], rest[4], rest[5],
        rest[6], rest[7],
    ) {
        return DONE;
    }
    BAD_IMAGE
}

// The image of words.
pub fn unpack(
    words: &[u64; 28],
    part: u64,
    pins: &mut [u64; 4],
    registers: &mut [u8; 128],
    rest: &mut [u64; 8],
) -> u32
    ensures { ToImage part words.now result pins.old registers.old rest.old
        pins.new registers.new rest.new }
{
    if !words_fits::fits(words, part) {
        return BAD_IMAGE;
    }
    words_files::to_file(words, part, registers);
    *pins = [words[LEVEL], words[REFERENCE], words[HELD], words[EDGE]];
    *rest = [
        words[POINTER],
        words[BUS],
        words[CHOICE],
        words[STATUS],
        words[LINE],
        words[MODE],
        words[ID],
        words[PLACE],
    ];
    DONE
}
