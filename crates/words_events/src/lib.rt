// The events of a burst out of their bytes, and their answers as bytes.
#![tactic(auto)]

ghost use Rattle.std.specs.Prelude.{◌≡◌, ◌+◌, ◌*◌, ◌≤◌, false, eqb, length, set};
ghost use Rattle.device_rules.specs.Answers.{answer_kind, answer_byte};
ghost use Rattle.words_events.specs.Events.{word_at, eight};

use device_rules::Answer;

const EVENT_BYTES: u64 = 12;

const MOST_EVENTS: u64 = 512;

// Four bytes from a place on, lowest first.
pub fn word_at(bytes: &[u8], at: usize) -> u32
    requires { at + 4 ≤ length bytes.now }
    ensures { result ≡ word_at bytes.now at }
{
    u32::from_le_bytes([bytes[at], bytes[at + 1], bytes[at + 2], bytes[at + 3]])
}

// The answer of event number i, which is no refusal: its kind and the byte read.
pub fn put(answers: &mut [u8], i: usize, answer: Answer)
    requires { (2 * i + 2 ≤ length answers.old) × (eqb (answer_kind answer) 4 ≡ false) }
    ensures { answers.new ≡ set (set answers.old (2 * i) (answer_kind answer)) (2 * i + 1) (answer_byte answer) }
{
    let [kind, byte] = answer.told();
    answers[2 * i] = kind;
    answers[2 * i + 1] = byte;
}

// What refusal 8 tests.
pub fn is_bad(bytes: u64, asked: u64, room: u64) -> bool
    ensures { result ≡ eight bytes asked room }
{
    if bytes % EVENT_BYTES != 0 {
        return true;
    }
    if bytes / EVENT_BYTES < asked {
        return true;
    }
    if MOST_EVENTS < asked {
        return true;
    }
    room < 2 * asked
}
