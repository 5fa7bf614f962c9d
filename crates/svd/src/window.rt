// What a reflection works on.
ghost use Rattle.std.specs.Prelude.{◌≡◌, ◌+◌, ◌-◌, ◌*◌, ◌^◌, ◌≤◌, ◌<◌};
ghost use Rattle.method.specs.Settings.{most_size};

// Some rows and columns of a row-major table: `rows` rows from `row` on, in the `cols` columns from
// `column` on, of a table whose rows start `stride` entries apart.
#[derive(Clone, Copy, Debug, PartialEq, Eq)]
pub struct Window {
    pub stride: usize,
    pub row: usize,
    pub column: usize,
    pub rows: usize,
    pub cols: usize,
}

impl Window {
    // Where its row k starts.
    pub(crate) fn start(self, k: usize) -> usize
        requires { (self.row + k ≤ most_size) × ((self.row + k) * self.stride + self.column < 2 ^ 64) }
        ensures { result ≡ (self.row + k) * self.stride + self.column }
    {
        (self.row + k) * self.stride + self.column
    }

    // The columns from j on of `lines` rows of n entries each, one after another.
    pub(crate) fn columns_from(n: usize, lines: usize, j: usize) -> Window
        requires { j ≤ n }
        ensures { result ≡ record { stride = n; row = 0; column = j; rows = lines; cols = n - j } }
    {
        Window {
            stride: n,
            row: 0,
            column: j,
            rows: lines,
            cols: n - j,
        }
    }
}
