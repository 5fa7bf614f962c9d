// How large a table may be, and how many values it has.
ghost use Rattle.std.specs.Prelude.{◌≡◌};
ghost use Rattle.method.specs.Outcome.{card};

// The most rows and the most columns of a table: `most_size` of method.
pub const MOST_SIZE: usize = 48;

// The smaller of rows and columns.
pub fn smaller_size(rows: usize, cols: usize) -> usize
    ensures { result ≡ card rows cols }
{
    rows.min(cols)
}
