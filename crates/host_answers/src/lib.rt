// Answers as a C host has them: as numbers.
#![tactic(auto)]

ghost use Rattle.std.specs.Prelude.{◌≡◌, cond};
ghost use Rattle.device_rules.specs.Answers.{refusal_number};
ghost use Rattle.planner_promise.specs.Promise.{refusal_of};
ghost use Rattle.host_words.specs.Host.{told_as, writes_after};

use device_rules::Answer;
use planner_promise::Refusal;

// An answer told as its kind and its byte; a refusal as its number alone.
pub fn tell(answer: Answer, told: &mut [u8; 2]) -> u32
    ensures { (result ≡ refusal_number answer) × (told.new ≡ told_as answer told.old) }
{
    if let Answer::Refused(number) = answer {
        return u32::from(number);
    }
    *told = answer.told();
    0
}

// A test as C has it.
pub fn one_if(t: bool) -> u8
    ensures { result ≡ cond t 1 0 }
{
    if t {
        return 1;
    }
    0
}

// The planner's answer as numbers: the refusal's is given back, the number of writes stored.
pub fn tell_plan(planned: Result<usize, Refusal>, writes: &mut [u64; 1]) -> u32
    ensures { (result ≡ refusal_of planned) × (writes.new ≡ writes_after planned writes.old) }
{
    match planned {
        Ok(n) => {
            *writes = [n as u64];
            0
        }
        Err(refusal) => refusal.number() as u32,
    }
}
