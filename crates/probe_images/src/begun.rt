// A line that has begun.
ghost use Rattle.std.specs.Prelude.{◌≤◌};

// Of a line that has begun 395 bytes are kept: no longer line is readable. An array and a length: `text_pieces::keep` fills lent memory, as it does for the event that `compare` shows.
#[derive(Clone, Copy)]
pub struct Line {
    pub held: [u8; 395],
    pub len: usize,
    ghost small: { len ≤ 395 },
}
