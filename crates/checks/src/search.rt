// The search for readings that are no numbers.
ghost use Rattle.std.specs.Prelude.{◌≡◌, ◌*◌, ◌≤◌, length};
ghost use Rattle.method.specs.Settings.{most_size};
ghost use Rattle.method.specs.Checks.{bad_readings};
ghost use Rattle.checks.specs.Values.{place_in};

use crate::place::Place;

// Where the first reading that is infinite or NaN stands, and how many there are: one pass over the
// table, to its end.
// Kept: `b.chunks(cols)` stops where there are no columns, and this function's clause allows that.
pub(crate) fn bad_readings(b: &[f64], rows: usize, cols: usize) -> Place
    requires { (length b.now ≡ rows * cols) × (rows ≤ most_size) × (cols ≤ most_size) }
    ensures { place_in result ≡ bad_readings cols rows cols b.now }
{
    let mut found = Place::nowhere();
    for i in 0..rows {
        for j in 0..cols {
            found = found.looked(i, j, b[i * cols + j]);
        }
    }
    found
}
