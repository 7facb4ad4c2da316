// The work of the probe programs: a state image of the part and an event a line on standard input; the answer and the image after it on standard output.
#![tactic(auto)]

ghost use Rattle.std.specs.Prelude.{◌<◌, ◌≤◌, length, IfOk};

use probe_images::Line;
use std::io;
use std::io::{Input, Read};

// Writes the answers so far where there is no room for one more, and says where the next one goes.
fn make_room(to: &impl Print, out: &[u8], end: usize) -> io::Result<usize>
    requires { end ≤ length out.now }
    ensures { IfOk result (λ at. at ≤ 65141) }
{
    if end <= 65_141 {
        return Ok(end);
    }
    to.write_all(&out[..end])?;
    Ok(0)
}

// Every line that ends in this piece is answered; the rest of the piece begins the next line.
fn answer_piece(
    to: &impl Print,
    part: u8,
    line: Line,
    piece: &[u8],
    out: &mut [u8; 65536],
) -> io::Result<Line>
    requires { part < 2 }
{
    let mut begun = line;
    let mut rest = piece;
    let mut end = 0;
    while 0 < rest.len() {
        let first = text_pieces::first_line(rest);
        begun = probe_images::grow(begun, &rest[..first.len]);
        if first.taken <= first.len {
            to.write_all(&out[..end])?;
            return Ok(begun);
        }
        let at = make_room(to, &*out, end)?;
        end = probe_images::answer(part, begun, out, at);
        begun = probe_images::begin();
        rest = &rest[first.taken..];
    }
    to.write_all(&out[..end])?;
    Ok(begun)
}

// A last line without newline counts if it holds a byte.
fn answer_last(to: &impl Print, part: u8, line: Line, out: &mut [u8; 65536]) -> io::Result<()>
    requires { part < 2 }
{
    if 0 < line.len {
        let end = probe_images::answer(part, line, out, 0);
        to.write_all(&out[..end])?;
    }
    Ok(())
}

// Every line of standard input is answered as it comes.
pub fn run(rt: &(impl Input + Print), part: u8) -> io::Result<()>
    requires { part < 2 }
{
    let mut piece = [0u8; 16384];
    let mut out = [0u8; 65536];
    let mut line = probe_images::begin();
    let mut input = rt.reader();
    // a proved loop ends: it counts up to a number that no input uses up
    for _ in 0..u64::MAX {
        let n = input.read(&mut piece)?;
        if n == 0 {
            return answer_last(rt, part, line, &mut out);
        }
        line = answer_piece(rt, part, line, &piece[..n], &mut out)?;
    }
    Ok(())
}
