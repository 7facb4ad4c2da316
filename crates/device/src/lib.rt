// The device by value, of either part, as its callers have it: made, stepped and asked.
#![tactic(auto)]

ghost use Rattle.std.specs.Prelude.{◌≡◌, ◌+◌, ◌*◌, ◌<◌, false, IfOk, IfErr};
ghost use Rattle.map.specs.Map.{part_of, defaults};
ghost use Rattle.map.specs.Chips.{part_at};
ghost use Rattle.words_images.specs.Images.{Packs};
ghost use Rattle.device.specs.Held.{state_in, fits_in, number_at, Stands, Makes, Steps};
ghost use Rattle.device.specs.Asked.{low_of, high_of, line_of, shown_of};

use device_making::Refusal;
use device_rules::{Answer, BAD_IMAGE, QUIET};
use map::{Chip, LAST_NUMBER};
use pins::Sets;

// The parts by their numbers: the one of 24 pins, and its sister of 34.
pub const PART24: u8 = 0;

pub const PART34: u8 = 1;

// The device: its part's number, and its state: one byte for each command number beside the pin sets, the pointer, the bus state, the address choice, the status set, the line, the pointer's mode, the Device ID's number and the place of its byte that is told next.
#[derive(Clone, Copy)]
pub struct Device {
    pub part: u8,
    pub file: [u8; 128],
    pub sets: Sets,
    pub pointer: u8,
    pub bus: u8,
    pub choice: u8,
    pub status: u64,
    pub line: u8,
    pub mode: u8,
    pub number: u64,
    pub place: u8,
}

// An answer, and the device after.
#[derive(Clone, Copy)]
pub struct Stepped {
    pub answer: Answer,
    pub device: Device,
}

// The number of a part, as an image has it.
fn number_of(chip: Chip) -> u8
    ensures { (result ≡ number_at chip) × (result < 2) × (part_of result ≡ part_at chip) }
{
    match chip {
        Chip::Pcal6524 => PART24,
        Chip::Pcal6534 => PART34,
    }
}

impl Device {
    // the most writes that a plan may have
    pub const WRITE_BOUND: usize = device_rooms::WRITE_BOUND;

    // and a plan of the sister
    pub const WRITE_BOUND34: usize = device_rooms::WRITE_BOUND34;

    // How many bytes a buffer has at least that has room for every plan of the part.
    pub fn plan_room(chip: Chip) -> usize
        ensures room { result ≡ 2 * (5 * (part_at chip).ports + 1) }
        ensures bound { chip ≡ Chip.Pcal6524 → result ≡ 2 * Device.WRITE_BOUND }
        ensures bound34 { chip ≡ Chip.Pcal6534 → result ≡ 2 * Device.WRITE_BOUND34 }
    {
        device_rooms::plan_room(chip)
    }

    // The register file of the part after any reset.
    pub fn reset_values(chip: Chip) -> [u8; 128]
        ensures { result ≡ defaults (part_at chip) }
    {
        let part = u64::from(number_of(chip));
        let mut words = [0u64; 28];
        words_device::power_on(&mut words, part, 0, 0, 0);
        let mut file = [0u8; 128];
        words_files::to_file(&words, part, &mut file);
        file
    }

    // A device of the part at power-on, at this address choice, with these levels and this Device ID.
    pub fn power_on(chip: Chip, choice: u8, levels: u64, number: u64) -> Result<Device, Refusal>
        ensures { Makes chip choice levels number result }
    {
        let part = number_of(chip);
        device_making::allows(u64::from(part), u32::from(choice), levels, number)?;
        Ok(Device {
            part,
            file: Self::reset_values(chip),
            sets: device_making::pins_at(levels),
            pointer: 0,
            bus: 0,
            choice,
            status: 0,
            line: QUIET,
            mode: 0,
            number,
            place: 0,
        })
    }

    // The words of the image, if it may stand: what refusal 3 asks.
    pub fn pack(self, words: &mut [u64; 28]) -> bool
        ensures { Packs self.part (state_in self) result words.old words.new }
    {
        words_images::pack(
            words,
            u64::from(self.part),
            &self.file,
            self.sets,
            u64::from(self.pointer),
            u64::from(self.bus),
            u64::from(self.choice),
            self.status,
            u64::from(self.line),
            u64::from(self.mode),
            self.number,
            u64::from(self.place),
        )
    }

    // The words of the image, or that it may not stand.
    fn words(self) -> Result<[u64; 28], Refusal>
        ensures stands { IfOk result (λ w. Stands self w) }
        ensures refused { IfErr result (λ e. (e ≡ Refusal.BadImage) × (fits_in self ≡ false)) }
    {
        let mut words = [0u64; 28];
        if self.pack(&mut words) {
            return Ok(words);
        }
        Err(Refusal::BadImage)
    }

    // One event: the image is packed, the words are stepped, and what they hold then is unpacked.
    pub fn step(self, kind: u32, arg: u64) -> Stepped
        ensures { Steps self kind arg result }
    {
        let mut words = [0u64; 28];
        if !self.pack(&mut words) {
            return Stepped {
                answer: Answer::Refused(BAD_IMAGE),
                device: self,
            };
        }
        let answer = words_device::event(&mut words, kind, arg);
        let mut file = self.file;
        let after = words_images::unpack(&words, &mut file);
        let device = Device {
            part: self.part,
            file,
            sets: after.sets,
            pointer: after.pointer,
            bus: after.bus,
            choice: after.choice,
            status: after.status,
            line: after.line,
            mode: after.mode,
            number: after.number,
            place: after.place,
        };
        Stepped { answer, device }
    }

    // The pins driven low.
    pub fn low(self) -> Result<u64, Refusal>
        ensures { result ≡ low_of self }
    {
        let words = self.words()?;
        Ok(words_views::low(&words, map::pins_of(u64::from(self.part))))
    }

    // The pins driven high.
    pub fn high(self) -> Result<u64, Refusal>
        ensures { result ≡ high_of self }
    {
        let words = self.words()?;
        Ok(words_views::high(&words))
    }

    // Whether INT is asserted.
    pub fn int(self) -> Result<bool, Refusal>
        ensures { result ≡ line_of self }
    {
        let kept = self.words()?;
        Ok(words_interrupt::int(&kept))
    }

    // The byte that a fetch of register n would show: input port bytes, status bytes and all others.
    pub fn show(self, n: u8) -> Result<u8, Refusal>
        ensures { result ≡ shown_of self n }
    {
        let words = self.words()?;
        if LAST_NUMBER < n {
            return Err(Refusal::BadArgument);
        }
        let row = words_tables::row_of(u64::from(self.part), u64::from(n));
        if row == 0 {
            return Err(Refusal::BadArgument);
        }
        Ok(words_views::show(&words, row))
    }
}
