// Pairs of bytes at the front of a buffer: a register and what is written to it, where that changes what is there.
#![tactic(auto)]

ghost use Rattle.std.specs.Prelude.{List, ◌++◌, ℕ, ◌+◌, ◌*◌, ◌≤◌, length};
ghost use Rattle.planner_pairs.specs.Pairs.{pair_of, Emitted};

// Lays the pair of a register behind n others, unless it holds the value already; how many there are then.
pub fn put(buf: &mut [u8], n: usize, register: u8, was: u8, to: u8) -> usize
    requires { 2 * n + 2 ≤ length buf.old }
    ensures { ((out before : List ℕ) → Emitted out n before buf.old → Emitted (out ++ pair_of register was to) result before buf.new)
        × (result ≤ n + 1) }
{
    if was == to {
        return n;
    }
    buf[2 * n] = register;
    buf[2 * n + 1] = to;
    n + 1
}
