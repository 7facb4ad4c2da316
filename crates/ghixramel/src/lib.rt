// The C boundary: the state as words that the caller owns, an image as its arrays, answers and refusals as numbers. Each call is there for both parts.
// The crate ghixramel_c exports them.
#![tactic(auto)]

ghost use Rattle.std.specs.Prelude.{◌≡◌, false, [], ◌∷◌, eqb, length};
ghost use Rattle.map.specs.Map.{part24, part34};
ghost use Rattle.planner_promise.specs.Answer.{answer_of, Answers};
ghost use Rattle.planner_promise.specs.Promise.{Promise};
ghost use Rattle.host_words.specs.Host.{Told, Made, Seen, Shown, drives_of, int_of, image_in, FromImage, ToImage, count_in};
ghost use Rattle.words_burst.specs.Burst.{Bursts};
ghost use Rattle.loss_sets.specs.Sets.{MakesMarks};
ghost use Rattle.loss_marks.specs.Lent.{Signs};
ghost use Rattle.loss_burst.specs.MarkedBurst.{MarkedBursts};
ghost use Rattle.loss_host.specs.MarkedHost.{MarkedTold};
ghost use Rattle.text_pieces.specs.Pieces.{newline_at};
ghost use Rattle.compare_lines.specs.Comparing.{compared, part_from};

use host_calls::{PCAL6524, PCAL6534};
use host_words::DONE;
use map::Chip;

// The calls of the PCAL6524.
pub fn ghixramel_power_on(words: &mut [u64; 28], choice: u32, levels: u64, number: u64) -> u32
    ensures { Made 0 choice levels number result words.old words.new }
{
    host_calls::power_on(words, PCAL6524, choice, levels, number)
}

pub fn ghixramel_step(words: &mut [u64; 28], kind: u32, argument: u64, answer: &mut [u8; 2]) -> u32
    ensures { Told 0 words.old kind argument result words.new answer.old answer.new }
{
    host_calls::step(words, PCAL6524, kind, argument, answer)
}

pub fn ghixramel_drives(words: &[u64; 28], driven: &mut [u64; 2]) -> u32
    ensures { Seen 0 words.now drives_of result driven.old driven.new }
{
    host_calls::drives(words, PCAL6524, driven)
}

pub fn ghixramel_int(words: &[u64; 28], asserted: &mut [u8; 1]) -> u32
    ensures { Seen 0 words.now int_of result asserted.old asserted.new }
{
    host_calls::int(words, PCAL6524, asserted)
}

pub fn ghixramel_show(words: &[u64; 28], number: u32, shown: &mut [u8; 1]) -> u32
    ensures { Shown 0 words.now number result shown.old shown.new }
{
    host_calls::show(words, PCAL6524, number, shown)
}

pub fn ghixramel_pack(
    words: &mut [u64; 28],
    pins: &[u64; 4],
    registers: &[u8; 128],
    rest: &[u64; 8],
) -> u32
    ensures { FromImage 0 (image_in pins.now registers.now rest.now) result words.old words.new }
{
    host_images::pack(words, PCAL6524, pins, registers, rest)
}

pub fn ghixramel_unpack(
    words: &[u64; 28],
    pins: &mut [u64; 4],
    registers: &mut [u8; 128],
    rest: &mut [u64; 8],
) -> u32
    ensures { ToImage 0 words.now result pins.old registers.old rest.old
        pins.new registers.new rest.new }
{
    host_images::unpack(words, PCAL6524, pins, registers, rest)
}

// Many events, each of twelve bytes, with two bytes of answer each.
pub fn ghixramel_burst(
    words: &mut [u64; 28],
    events: &[u8],
    asked: u64,
    answers: &mut [u8],
    done: &mut [u64; 1],
) -> u32
    ensures { Bursts 0 words.old events.now asked result words.new answers.old answers.new
        done.old done.new }
{
    words_burst::burst(words, PCAL6524, events, asked, answers, done)
}

// Loss marks anew, all of them set, each pin with its healthy level.
pub fn ghixramel_marks_new(marks: &mut [u64; 2], healthy: u64) -> u32
    ensures { MakesMarks 0 healthy result marks.old marks.new }
{
    loss_host::tell(loss_sets::make(marks, PCAL6524, healthy))
}

// One event, and what it sets is marked.
pub fn ghixramel_marked_step(
    words: &mut [u64; 28],
    marks: &mut [u64; 2],
    kind: u32,
    argument: u64,
    answer: &mut [u8; 2],
) -> u32
    ensures { MarkedTold 0 words.old marks.old kind argument result words.new marks.new answer.old answer.new }
{
    loss_host::step(words, marks, PCAL6524, kind, argument, answer)
}

// Many events, and what they set is marked.
pub fn ghixramel_marked_burst(
    words: &mut [u64; 28],
    marks: &mut [u64; 2],
    events: &[u8],
    asked: u64,
    answers: &mut [u8],
    done: &mut [u64; 1],
) -> u32
    ensures { MarkedBursts 0 words.old marks.old events.now asked result words.new marks.new
        answers.old answers.new done.old done.new }
{
    loss_burst::burst(words, marks, PCAL6524, events, asked, answers, done)
}

// A pin that is quiet and healthy is signed off: its mark is cleared.
pub fn ghixramel_sign_off(words: &[u64; 28], marks: &mut [u64; 2], pin: u32) -> u32
    ensures { Signs 0 words.now marks.old marks.new pin result }
{
    loss_host::tell(loss_marks::sign_off(words, marks, PCAL6524, pin))
}

// The plan from the start to the goal, at the start of the buffer.
pub fn ghixramel_plan(start: &[u8], goal: &[u8], buffer: &mut [u8], writes: &mut [u64; 1]) -> u32
    ensures exact { Answers result (count_in result writes.new) buffer.old buffer.new
        (answer_of part24 start.now goal.now (length buffer.old)) }
    ensures promise { Promise part24 start.now goal.now buffer.old buffer.new result (count_in result writes.new) }
    ensures refused { eqb result 0 ≡ false → writes.new ≡ writes.old }
{
    let planned = planner::plan(Chip::Pcal6524, start, goal, buffer);
    host_answers::tell_plan(planned, writes)
}

// A bench's answers against those of the devices that its events make, of either part: the verdict, and where the part of the answers lies that is handed back and how long it is.
pub fn ghixramel_compare(
    events: &[u8],
    answers: &[u8],
    verdict: &mut [u8; 1],
    part: &mut [u64; 2],
) -> u32
    ensures { (result ≡ 0) × (verdict.new ≡ (compared events.now answers.now).verdict ∷ [])
        × (part.new ≡ part_from answers.now (compared events.now answers.now) ∷ newline_at (compared events.now answers.now).left ∷ []) }
{
    let found = compare_logs::find(events, answers);
    *verdict = [u8::from(found.verdict)];
    *part = [found.from as u64, (found.to - found.from) as u64];
    DONE
}

// And of its sister, the PCAL6534.
pub fn ghixramel34_power_on(words: &mut [u64; 28], choice: u32, levels: u64, number: u64) -> u32
    ensures { Made 1 choice levels number result words.old words.new }
{
    host_calls::power_on(words, PCAL6534, choice, levels, number)
}

pub fn ghixramel34_step(
    words: &mut [u64; 28],
    kind: u32,
    argument: u64,
    answer: &mut [u8; 2],
) -> u32
    ensures { Told 1 words.old kind argument result words.new answer.old answer.new }
{
    host_calls::step(words, PCAL6534, kind, argument, answer)
}

pub fn ghixramel34_drives(words: &[u64; 28], driven: &mut [u64; 2]) -> u32
    ensures { Seen 1 words.now drives_of result driven.old driven.new }
{
    host_calls::drives(words, PCAL6534, driven)
}

pub fn ghixramel34_int(words: &[u64; 28], asserted: &mut [u8; 1]) -> u32
    ensures { Seen 1 words.now int_of result asserted.old asserted.new }
{
    host_calls::int(words, PCAL6534, asserted)
}

pub fn ghixramel34_show(words: &[u64; 28], number: u32, shown: &mut [u8; 1]) -> u32
    ensures { Shown 1 words.now number result shown.old shown.new }
{
    host_calls::show(words, PCAL6534, number, shown)
}

pub fn ghixramel34_pack(
    words: &mut [u64; 28],
    pins: &[u64; 4],
    registers: &[u8; 128],
    rest: &[u64; 8],
) -> u32
    ensures { FromImage 1 (image_in pins.now registers.now rest.now) result words.old words.new }
{
    host_images::pack(words, PCAL6534, pins, registers, rest)
}

pub fn ghixramel34_unpack(
    words: &[u64; 28],
    pins: &mut [u64; 4],
    registers: &mut [u8; 128],
    rest: &mut [u64; 8],
) -> u32
    ensures { ToImage 1 words.now result pins.old registers.old rest.old
        pins.new registers.new rest.new }
{
    host_images::unpack(words, PCAL6534, pins, registers, rest)
}

// Many events, each of twelve bytes, with two bytes of answer each.
pub fn ghixramel34_burst(
    words: &mut [u64; 28],
    events: &[u8],
    asked: u64,
    answers: &mut [u8],
    done: &mut [u64; 1],
) -> u32
    ensures { Bursts 1 words.old events.now asked result words.new answers.old answers.new
        done.old done.new }
{
    words_burst::burst(words, PCAL6534, events, asked, answers, done)
}

pub fn ghixramel34_marks_new(marks: &mut [u64; 2], healthy: u64) -> u32
    ensures { MakesMarks 1 healthy result marks.old marks.new }
{
    loss_host::tell(loss_sets::make(marks, PCAL6534, healthy))
}

pub fn ghixramel34_marked_step(
    words: &mut [u64; 28],
    marks: &mut [u64; 2],
    kind: u32,
    argument: u64,
    answer: &mut [u8; 2],
) -> u32
    ensures { MarkedTold 1 words.old marks.old kind argument result words.new marks.new answer.old answer.new }
{
    loss_host::step(words, marks, PCAL6534, kind, argument, answer)
}

pub fn ghixramel34_marked_burst(
    words: &mut [u64; 28],
    marks: &mut [u64; 2],
    events: &[u8],
    asked: u64,
    answers: &mut [u8],
    done: &mut [u64; 1],
) -> u32
    ensures { MarkedBursts 1 words.old marks.old events.now asked result words.new marks.new
        answers.old answers.new done.old done.new }
{
    loss_burst::burst(words, marks, PCAL6534, events, asked, answers, done)
}

pub fn ghixramel34_sign_off(words: &[u64; 28], marks: &mut [u64; 2], pin: u32) -> u32
    ensures { Signs 1 words.now marks.old marks.new pin result }
{
    loss_host::tell(loss_marks::sign_off(words, marks, PCAL6534, pin))
}

// The plan from the start to the goal, at the start of the buffer.
pub fn ghixramel34_plan(start: &[u8], goal: &[u8], buffer: &mut [u8], writes: &mut [u64; 1]) -> u32
    ensures exact { Answers result (count_in result writes.new) buffer.old buffer.new
        (answer_of part34 start.now goal.now (length buffer.old)) }
    ensures promise { Promise part34 start.now goal.now buffer.old buffer.new result (count_in result writes.new) }
    ensures refused { eqb result 0 ≡ false → writes.new ≡ writes.old }
{
    let planned = planner::plan(Chip::Pcal6534, start, goal, buffer);
    host_answers::tell_plan(planned, writes)
}
