// The planner: from a start to a goal for the registers that set direction, output level and output kind, of either part.
#![tactic(auto)]

ghost use Rattle.std.specs.Prelude.{◌≡◌, cond, ◌&&◌, List, ℕ, ◌+◌, ◌*◌, ◌≤◌, ◌<◌, length};
ghost use Rattle.bits.specs.Bits.{tabulate};
ghost use Rattle.map.specs.Map.{part_of};
ghost use Rattle.map.specs.Chips.{part_at};
ghost use Rattle.planner_quiet.specs.Order.{stuck};
ghost use Rattle.planner_quiet.specs.Quiet.{bits_at};
ghost use Rattle.planner_promise.specs.Formed.{formed, room_for};
ghost use Rattle.planner_promise.specs.Answer.{answer_of, Answers};
ghost use Rattle.planner_promise.specs.Promise.{refusal_of, count_of, Promise};
ghost use Rattle.planner_pairs.specs.Pairs.{Emitted};
ghost use Rattle.planner.specs.Halfway.{Halfway};
ghost use Rattle.planner.specs.Pairwise.{turn_pairs, opens_to, close_pairs, closes_to};

use map::Chip;
use planner_bytes::PinSets;
use planner_promise::Refusal;
use planner_settings::Layout;

// The parts by their numbers: code for each is compiled with its number known.
const PART24: u64 = 0;

const PART34: u64 = 1;

// The pins in the middle of the plan: the port kinds of the goal, the pins' own kinds of the start.
fn middle(s: PinSets, g: PinSets) -> PinSets
    ensures { Halfway s g result }
{
    PinSets {
        output: planner_bytes::mid_output(s, g),
        configuration: planner_bytes::mid_configuration(s, g),
        kind: g.kind,
        flip: s.flip,
    }
}

// Port k's output and configuration from one pin set to another, behind n writes; how many there are then.
fn turn_port(part: u64, k: u8, a: PinSets, b: PinSets, n: usize, buf: &mut [u8]) -> usize
    requires { (k < (part_of part).ports) × (2 * n + 4 ≤ length buf.old) }
    ensures { ((out before : List ℕ) → Emitted out n before buf.old → Emitted (turn_pairs (part_of part) a b k out) result before buf.new)
        × (result ≤ n + 2) }
{
    let l = Layout::of(part);
    let o = planner_pairs::put(
        buf,
        n,
        l.output + k,
        ports::byte_of(a.output, k),
        ports::byte_of(b.output, k),
    );
    planner_pairs::put(
        buf,
        o,
        l.configuration + k,
        ports::byte_of(a.configuration, k),
        ports::byte_of(b.configuration, k),
    )
}

// Every port to the middle.
fn open_ports(part: u64, s: PinSets, m: PinSets, buf: &mut [u8]) -> usize
    requires { room_for (part_of part) ≤ length buf.old }
    ensures { Emitted (opens_to (part_of part) s m (part_of part).ports) result buf.old buf.new × (result ≤ 2 * (part_of part).ports) }
{
    let ports = Layout::of(part).ports;
    let mut n = 0;
    for k in 0..ports {
        n = turn_port(part, k, s, m, n, buf);
    }
    n
}

// Port k to the goal: pin kinds, output, configuration.
fn close_port(part: u64, k: u8, m: PinSets, g: PinSets, n: usize, buf: &mut [u8]) -> usize
    requires { (k < (part_of part).ports) × (2 * n + 6 ≤ length buf.old) }
    ensures { ((out before : List ℕ) → Emitted out n before buf.old → Emitted (close_pairs (part_of part) m g k out) result before buf.new)
        × (result ≤ n + 3) }
{
    let l = Layout::of(part);
    let f = planner_pairs::put(
        buf,
        n,
        l.flip + k,
        ports::byte_of(m.flip, k),
        ports::byte_of(g.flip, k),
    );
    turn_port(part, k, m, g, f, buf)
}

// Every port to the goal, behind the writes that there are.
fn close_ports(part: u64, m: PinSets, g: PinSets, from: usize, buf: &mut [u8]) -> usize
    requires { (from ≤ 2 * (part_of part).ports + 1) × (room_for (part_of part) ≤ length buf.old) }
    ensures { (out before : List ℕ) → Emitted out from before buf.old
        → Emitted (closes_to (part_of part) m g out (part_of part).ports) result before buf.new }
{
    let ports = Layout::of(part).ports;
    let mut n = from;
    for k in 0..ports {
        n = close_port(part, k, m, g, n, buf);
    }
    n
}

// The plan of the part of that number, for whose buffer so many bytes are needed.
fn plan_of<const PART: u64>(
    start: &[u8],
    goal: &[u8],
    buf: &mut [u8],
    needed: usize,
) -> Result<usize, Refusal>
    requires { needed ≡ room_for (part_of PART) }
    ensures exact { Answers (refusal_of result) (count_of result) buf.old buf.new (answer_of (part_of PART) start.now goal.now (length buf.old)) }
    ensures promise { Promise (part_of PART) start.now goal.now buf.old buf.new (refusal_of result) (count_of result) }
{
    planner_settings::refused_early(PART, start, goal, buf.len(), needed)?;
    let s = planner_settings::load(PART, start);
    let g = planner_settings::load(PART, goal);
    if planner_bytes::stuck_in(s, g) != 0 {
        return Err(Refusal::NoQuietWay);
    }
    let m = middle(s, g);
    let opened = open_ports(PART, s, m, buf);
    let l = Layout::of(PART);
    let kinds = 2 * l.ports as usize;
    let turned = planner_pairs::put(buf, opened, l.kind, start[kinds], goal[kinds]);
    Ok(close_ports(PART, m, g, turned, buf))
}

// The plan of the part from the start to the goal, at the start of the buffer; how many writes it has.
pub fn plan(chip: Chip, start: &[u8], goal: &[u8], buf: &mut [u8]) -> Result<usize, Refusal>
    ensures exact { Answers (refusal_of result) (count_of result) buf.old buf.new (answer_of (part_at chip) start.now goal.now (length buf.old)) }
    ensures promise { Promise (part_at chip) start.now goal.now buf.old buf.new (refusal_of result) (count_of result) }
{
    let needed = device_rooms::plan_room(chip);
    match chip {
        Chip::Pcal6524 => plan_of::<PART24>(start, goal, buf, needed),
        Chip::Pcal6534 => plan_of::<PART34>(start, goal, buf, needed),
    }
}

// The pins that are stuck in the part of that number.
fn stuck_over(part: u64, start: &[u8], goal: &[u8]) -> u64
    ensures { result ≡ cond (formed (part_of part) start.now && formed (part_of part) goal.now)
        (tabulate (part_of part).width (λ i. stuck (bits_at (part_of part) start.now i) (bits_at (part_of part) goal.now i))) 0 }
{
    if !planner_settings::is_formed(part, start) || !planner_settings::is_formed(part, goal) {
        return 0;
    }
    planner_bytes::stuck_in(
        planner_settings::load(part, start),
        planner_settings::load(part, goal),
    )
}

// The pins that are stuck, for whoever explains why there is no quiet way; none where a start or goal is malformed.
pub fn stuck_pins(chip: Chip, start: &[u8], goal: &[u8]) -> u64
    ensures { result ≡ cond (formed (part_at chip) start.now && formed (part_at chip) goal.now)
        (tabulate (part_at chip).width (λ i. stuck (bits_at (part_at chip) start.now i) (bits_at (part_at chip) goal.now i))) 0 }
{
    match chip {
        Chip::Pcal6524 => stuck_over(PART24, start, goal),
        Chip::Pcal6534 => stuck_over(PART34, start, goal),
    }
}
