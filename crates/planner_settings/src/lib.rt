// A setting of either part: whether it is well-formed, why there is no plan whatever the pins do, and its bytes as pin sets.
#![tactic(auto)]

ghost use Rattle.std.specs.Prelude.{◌≡◌, true, ◌+◌, ◌≤◌, length, get_or};
ghost use Rattle.bits.specs.Bits.{join};
ghost use Rattle.map.specs.Map.{part_of};
ghost use Rattle.planner_promise.specs.Formed.{formed};
ghost use Rattle.planner_promise.specs.Promise.{refusal_of};
ghost use Rattle.planner_settings.specs.Loaded.{LaidOut, Loaded, early};

use planner_bytes::PinSets;
use planner_promise::Refusal;

// What the planner knows of a part: its ports, the first register of each group, and the most that a setting's byte may be
// in the output port kind and in the last port.
#[derive(Clone, Copy)]
pub struct Layout {
    pub ports: u8,
    pub output: u8,
    pub configuration: u8,
    pub kind: u8,
    pub flip: u8,
    pub kinds: u8,
    pub last: u8,
}

impl Layout {
    // Of the part of that number: every one but 0 is the sister's.
    pub fn of(part: u64) -> Layout
        ensures { LaidOut (part_of part) result }
    {
        match part {
            0 => Layout {
                ports: 3,
                output: map::OUTPUT24,
                configuration: map::CONFIGURATION24,
                kind: map::PORT_KIND24,
                flip: map::PIN_KIND24,
                kinds: 0x07,
                last: 0xff,
            },
            _ => Layout {
                ports: 5,
                output: map::OUTPUT34,
                configuration: map::CONFIGURATION34,
                kind: map::PORT_KIND34,
                flip: map::PIN_KIND34,
                kinds: 0x1f,
                last: 0x03,
            },
        }
    }
}

// Whether s is a setting of the part: a byte a register, and no bit that does not exist.
pub fn is_formed(part: u64, s: &[u8]) -> bool
    ensures { result ≡ formed (part_of part) s.now }
{
    let l = Layout::of(part);
    let n = l.ports as usize;
    if s.len() != 3 * n + 1 {
        return false;
    }
    (s[2 * n] <= l.kinds) & (s[n - 1] <= l.last) & (s[2 * n - 1] <= l.last) & (s[3 * n] <= l.last)
}

// Why there is no plan whatever the pins do: a bad setting, then a buffer with less room than needed.
pub fn refused_early(
    part: u64,
    start: &[u8],
    goal: &[u8],
    room: usize,
    needed: usize,
) -> Result<(), Refusal>
    ensures { refusal_of result ≡ early (part_of part) start.now goal.now room needed }
{
    if !is_formed(part, start) || !is_formed(part, goal) {
        return Err(Refusal::BadSetting);
    }
    if room < needed {
        return Err(Refusal::BufferSmall);
    }
    Ok(())
}

// The bytes of n ports as a pin set.
fn word(s: &[u8], at: usize, n: usize) -> u64
    requires { (at + n ≤ length s.now) × (n ≤ 8) }
    ensures { result ≡ join 8 n (λ k. get_or s.now (at + k) 0) }
{
    let mut w = 0u64;
    for k in (0..n).rev() {
        w = w * 256 + s[at + k] as u64;
    }
    w
}

// A setting as pin sets.
pub fn load(part: u64, s: &[u8]) -> PinSets
    requires { formed (part_of part) s.now ≡ true }
    ensures { Loaded (part_of part) s.now result }
{
    let n = Layout::of(part).ports as usize;
    PinSets {
        output: word(s, 0, n),
        configuration: word(s, n, n),
        kind: ports::spread(s[2 * n]),
        flip: word(s, 2 * n + 1, n),
    }
}
