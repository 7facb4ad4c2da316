// Many events in one call with the loss marks beside the device: the image and the marks are tested once.
#![tactic(auto)]

ghost use Rattle.loss_burst.specs.MarkedBurst.{MarkedBursts};

// Refusals as a caller has them.
const BROKEN: u32 = 3;

const BAD_BURST: u32 = 8;

// A burst of the part, whatever words and marks hold.
pub fn burst(
    words: &mut [u64; 28],
    marks: &mut [u64; 2],
    part: u64,
    events: &[u8],
    asked: u64,
    answers: &mut [u8],
    done: &mut [u64; 1],
) -> u32
    ensures { MarkedBursts part words.old marks.old events.now asked result words.new marks.new
        answers.old answers.new done.old done.new }
{
    if words_events::is_bad(events.len() as u64, asked, answers.len() as u64) {
        return BAD_BURST;
    }
    if asked == 0 {
        *done = [0];
        return 0;
    }
    if !loss_sets::fit(&*marks, map::pins_of(part)) {
        *done = [0];
        return BROKEN;
    }
    if !words_fits::fits(&*words, part) {
        *done = [0];
        return BROKEN;
    }
    loss_runs::run(words, marks, events, asked as usize, answers, done)
}
