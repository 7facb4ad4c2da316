// The watch program: a log of events and sign-offs on standard input, an answer for each line, with the loss marks, on standard output.
#![tactic(auto)]

use std::io;
use std::io::Read;

fn write_header(to: &impl Print) -> io::Result<()> {
    let mut out = [0u8; 26];
    let end = watch_logs::put_header(&mut out, 0);
    to.write_all(&out[..end])
}

// The answers' room is ten bytes for each byte of a piece and of a line that has begun, and 36 more.
fn main(rt: HostRuntime) -> io::Result<()> {
    let mut piece = [0u8; 16384];
    let mut out = [0u8; 164_206];
    let mut log = watch_logs::start();
    let mut input = rt.stdin();
    write_header(&rt)?;
    // a proved loop ends: it counts up to a number that no input reaches
    for _ in 0..u64::MAX {
        let count = input.read(&mut piece)?;
        if count == 0 {
            let end = log.finish(&mut out, 0);
            return rt.write_all(&out[..end]);
        }
        let end = log.feed(&piece[..count], &mut out, 0);
        rt.write_all(&out[..end])?;
    }
    Ok(())
}
