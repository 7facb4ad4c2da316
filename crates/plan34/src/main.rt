// The service engineer's command for the 34-pin sister: plan34 START GOAL, or lines START<tab>GOAL on standard input.
#![tactic(auto)]

use device::PART34;
use std::io;

fn main(rt: HostRuntime) -> io::Result<()> {
    plan_program::run(&rt, PART34)
}
