// The bidiagonal form (svd/bidiagonalization.rs, with its twins in svd/verify.rs): columns are
// cleared below their heads and rows past theirs, and U and V take the same reflections. The plain
// call keeps no rows of U and V, so one function stands for each pair of twins.
// Kept: a column is copied and a row reflects in place, as `column_zeroed` and `row_zeroed` have it.
ghost use Rattle.std.specs.Prelude.{◌≡◌, ◌+◌, ◌*◌, ◌≤◌, ◌<◌, length};
ghost use Rattle.std.specs.Float.{binary64};
ghost use Rattle.method.specs.Reflection.{blank};
ghost use Rattle.method.specs.Settings.{most_size};
ghost use Rattle.method.specs.Bidiagonal.{column_zeroed, row_zeroed, places_zeroed, bidiagonal};
ghost use Rattle.svd.specs.Values.{sizes, Inside, Taken};
ghost use Rattle.svd.specs.Loan.{work_in, SameLoan};

use crate::householder::{
    Reflection, clear_line, copy_line, lapply_householder, params, rapply_householder,
};
use crate::window::Window;
use crate::work::Work;
use checks::sizes::MOST_SIZE;

// Makes the reflection of column j from row i on, in a blank one: the column keeps the head that it leaves, below
// the floor too.
// Kept: b alone is lent: as a method of Work it would have to promise that U and V stay as they are.
fn take_col(
    b: &mut [f64],
    made: &mut Reflection,
    rows: usize,
    stride: usize,
    i: usize,
    j: usize,
    floor: f64,
)
    requires { (i < rows) × (j < stride) × (rows ≤ most_size) × (rows * stride ≤ length b.old)
        × (made.old.vector ≡ blank) }
    ensures { Taken floor rows stride i j b.old b.new made.new }
{
    let n = rows - i;
    let head = i * stride + j;
    let mut w = [0.0f64; MOST_SIZE];
    copy_line(b, &mut w, head, stride, n);
    clear_line(b, head, stride, n);
    params(&mut w[..n], made, floor);
    b[head] = w[0];
}

impl Work<'_> {
    // Column j, cleared below row i.
    fn zero_col(&mut self, i: usize, j: usize, floor: f64)
        requires { (i < self.old.shape.rows) × (j < self.old.shape.cols) }
        ensures same { SameLoan self.old self.new }
        ensures zeroed { work_in self.new ≡
            column_zeroed binary64 floor (sizes self.old.shape) i j (work_in self.old) }
    {
        let z = self.shape;
        let mut made = Reflection::blank();
        take_col(self.b, &mut made, z.rows, z.stride, i, j, floor);
        if made.tau != 0.0 {
            lapply_householder(self.b, &made, z.table_from(i, j + 1));
            rapply_householder(self.u, &made, Window::columns_from(z.rows, z.urows, i));
        }
    }

    // Row i, cleared right of column j; left as found below the floor. Built into its caller twice it would
    // take 400 bytes of stack more.
    #[inline(never)]
    fn zero_row(&mut self, i: usize, j: usize, floor: f64)
        requires { (i < self.old.shape.rows) × (j < self.old.shape.cols) }
        ensures same { SameLoan self.old self.new }
        ensures zeroed { work_in self.new ≡
            row_zeroed binary64 floor (sizes self.old.shape) i j (work_in self.old) }
    {
        let z = self.shape;
        let n = z.cols - j;
        let at = i * z.stride + j;
        let mut made = Reflection::blank();
        params(&mut self.b[at..at + n], &mut made, floor);
        if made.tau != 0.0 {
            rapply_householder(self.b, &made, z.table_from(i + 1, j));
            rapply_householder(self.v, &made, Window::columns_from(z.cols, z.vrows, j));
        }
    }

    // All places of the diagonal but the last: in the upper form the place's column and then its row
    // right of the coupling, in the lower its row and then its column below it.
    fn zero_places(&mut self, pivot: usize, floor: f64)
        requires { Inside (sizes self.old.shape) (pivot + 1) }
        ensures same { SameLoan self.old self.new }
        ensures zeroed { work_in self.new ≡
            places_zeroed binary64 floor (sizes self.old.shape) self.old.upper pivot (work_in self.old) }
    {
        for k in 0..pivot {
            if self.upper {
                self.zero_col(k, k, floor);
                self.zero_row(k, k + 1, floor);
            } else {
                self.zero_row(k, k, floor);
                self.zero_col(k + 1, k, floor);
            }
        }
    }

    // The bidiagonal form: all places but the last, and the last one's line where the table is not
    // square. `card` is the smaller of rows and columns.
    pub(crate) fn bidiagonal(&mut self, card: usize, floor: f64)
        requires { (1 ≤ card) × Inside (sizes self.old.shape) card }
        ensures same { SameLoan self.old self.new }
        ensures bidiagonal { work_in self.new ≡
            bidiagonal binary64 floor (sizes self.old.shape) self.old.upper card (work_in self.old) }
    {
        let pivot = card - 1;
        self.zero_places(pivot, floor);
        if self.shape.rows != self.shape.cols {
            if self.upper {
                self.zero_col(pivot, pivot, floor);
            } else {
                self.zero_row(pivot, pivot, floor);
            }
        }
    }
}
