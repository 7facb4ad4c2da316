// The telling of a Device ID, on words that are packed: for either part.
#![tactic(auto)]

ghost use Rattle.std.specs.Prelude.{◌≡◌, ℕ, ◌<◌, get_or};
ghost use Rattle.map.specs.Map.{part_of};
ghost use Rattle.device_rules.specs.Device.{byte_at, next_place, step as step_of};
ghost use Rattle.device_rules.specs.Device.Event.{ByteFetched};
ghost use Rattle.words_state.specs.Packed.{id_in, state_in, Packed, Leaves};

use device_rules::Answer;
use words::{ID, PLACE};
use words_state::DEAF;

// The byte of the Device ID that is told next.
fn byte_told(words: &[u64; 28]) -> u8
    requires { get_or words.now 26 0 < 3 }
    ensures { result ≡ byte_at (id_in words.now) }
{
    let id = words[ID];
    let place = words[PLACE];
    match place {
        0 => ((id >> 16) % 256) as u8,
        1 => ((id >> 8) % 256) as u8,
        _ => (id % 256) as u8,
    }
}

// The place after it: after the last the first again.
fn next_place(place: u64) -> u64
    ensures { (place < 3 → result ≡ next_place place) × (result < 3) }
{
    match place {
        0 => 1,
        1 => 2,
        _ => 0,
    }
}

// A fetch in Telling.
pub fn tell(words: &mut [u64; 28], acknowledged: bool) -> Answer
    requires { Packed (get_or words.old 27 0) words.old }
    ensures { (c : ℕ) → Packed c words.old → get_or words.old 22 0 ≡ 11
        → Leaves c words.new result (step_of (part_of c) (state_in (part_of c) words.old) (ByteFetched acknowledged)) }
{
    let answer = Answer::Byte(byte_told(&*words));
    if !acknowledged {
        return words_state::goes(words, DEAF, answer);
    }
    words[PLACE] = next_place(words[PLACE]);
    answer
}
