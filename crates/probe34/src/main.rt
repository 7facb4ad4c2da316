// The probe program of the 34-pin sister.
#![tactic(auto)]

use device::PART34;
use std::io;

fn main(rt: HostRuntime) -> io::Result<()> {
    probe_program::run(&rt, PART34)
}
