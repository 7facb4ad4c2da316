// The inspector's command: compare EVENTS ANSWERS, two files of a bench; are the answers those of the device?
#![tactic(auto)]

use std::io;

fn main(rt: HostRuntime) -> io::Result<()> {
    compare_program::run(&rt, &rt.stderr())
}
