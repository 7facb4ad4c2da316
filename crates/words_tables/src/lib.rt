// The row of a register of a part that is given by its number.
#![tactic(auto)]

ghost use Rattle.std.specs.Prelude.{◌≡◌, ◌<◌};
ghost use Rattle.map.specs.Map.{part_of};
ghost use Rattle.words_rows.specs.Rows.{row_at};

// The row of a part that is given by its number.
pub fn row_of(part: u64, n: u64) -> u32
    requires { n < 128 }
    ensures { result ≡ row_at (part_of part) n }
{
    if part == 0 {
        return words_rows24::row24(n);
    }
    words_rows34::row34(n)
}
