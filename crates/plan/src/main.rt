// The service engineer's command for the 24-pin part: plan START GOAL, or lines START<tab>GOAL on standard input.
#![tactic(auto)]

use device::PART24;
use std::io;

fn main(rt: HostRuntime) -> io::Result<()> {
    plan_program::run(&rt, PART24)
}
