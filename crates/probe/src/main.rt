// The probe program of the 24-pin part.
#![tactic(auto)]

use device::PART24;
use std::io;

fn main(rt: HostRuntime) -> io::Result<()> {
    probe_program::run(&rt, PART24)
}
