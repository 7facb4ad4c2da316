// Texts that come in pieces: where a line ends, and what is kept of one that has begun.
#![tactic(auto)]

ghost use Rattle.std.specs.Prelude.{◌≡◌, ◌==◌, ◌+◌, ◌≤◌, min, length, position};
ghost use Rattle.text_pieces.specs.Pieces.{newline_at, First, Kept};

// Where the first newline of a few bytes stands.
fn newline_in(few: &[u8]) -> Option<usize>
    ensures { result ≡ position (λ b. b == 0x0a) few.now }
{
    few.iter().position(|b| *b == b'\n')
}

// Where the first newline stands, or the length. Four bytes a turn: each turn has a cost of its own. `memchr` was tried: from 11 bytes on it is as fast, but lines of 8 took nearly twice as long.
pub fn newline_at(piece: &[u8]) -> usize
    ensures { (result ≡ newline_at piece.now) × (result ≤ length piece.now) }
{
    let mut left = piece;
    while let [first, second, third, fourth, rest @ ..] = left {
        let at = piece.len() - left.len();
        if *first == b'\n' {
            return at;
        }
        if *second == b'\n' {
            return at + 1;
        }
        if *third == b'\n' {
            return at + 2;
        }
        if *fourth == b'\n' {
            return at + 3;
        }
        left = rest;
    }
    match newline_in(left) {
        Some(at) => piece.len() - left.len() + at,
        None => piece.len(),
    }
}

// The first line of a piece: how many bytes of it are there, and how many the piece gives up for it.
#[derive(Clone, Copy)]
pub struct Line {
    pub len: usize,
    pub taken: usize,
}

// Reads the first line of a piece, which takes its newline with it; a piece with no newline is all taken.
pub fn first_line(piece: &[u8]) -> Line
    ensures { First piece.now result.len result.taken }
{
    let len = newline_at(piece);
    if len < piece.len() {
        return Line {
            len,
            taken: len + 1,
        };
    }
    Line { len, taken: len }
}

// Adds a part to the first len bytes, as much of it as there is room for, and says how many bytes there are then.
pub fn keep(held: &mut [u8], len: usize, part: &[u8]) -> usize
    requires { len ≤ length held.old }
    ensures { Kept held.old len part.now result held.new }
{
    let room = held.len() - len;
    let n = room.min(part.len());
    text::put(held, len, &part[..n])
}
