// Many events in one call, on words that are lent: the image is tested once.
#![tactic(auto)]

ghost use Rattle.words_burst.specs.Burst.{Bursts};

// Refusals as a caller has them.
const BROKEN: u32 = 3;

const BAD_BURST: u32 = 8;

// A burst of the part.
pub fn burst(
    words: &mut [u64; 28],
    part: u64,
    events: &[u8],
    asked: u64,
    answers: &mut [u8],
    done: &mut [u64; 1],
) -> u32
    ensures { Bursts part words.old events.now asked result words.new
        answers.old answers.new done.old done.new }
{
    if words_events::is_bad(events.len() as u64, asked, answers.len() as u64) {
        return BAD_BURST;
    }
    if asked == 0 {
        *done = [0];
        return 0;
    }
    if !words_fits::fits(&*words, part) {
        *done = [0];
        return BROKEN;
    }
    words_runs::run(words, events, asked as usize, answers, done)
}
