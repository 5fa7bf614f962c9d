// What the kernels work on: a table of `rows` rows and `cols` columns whose rows start `stride`
// entries apart, and the rows of U and V that are kept: all of them or none.
ghost use Rattle.std.specs.Prelude.{◌≡◌, ◌-◌, ◌≤◌};
ghost use Rattle.method.specs.Floats.{pick};
ghost use Rattle.method.specs.Outcome.{is_upper};

use crate::window::Window;

#[derive(Clone, Copy, Debug, PartialEq, Eq)]
pub struct Shape {
    pub rows: usize,
    pub cols: usize,
    pub stride: usize,
    pub urows: usize,
    pub vrows: usize,
}

impl Shape {
    // Of a packed table, with its factors kept or not: the definition's `packed`.
    pub(crate) fn packed(kept: bool, rows: usize, cols: usize) -> Shape
        ensures { result ≡ record {
          rows = rows;
          cols = cols;
          stride = cols;
          urows = pick kept rows 0;
          vrows = pick kept cols 0;
        } }
    {
        Shape {
            rows,
            cols,
            stride: cols,
            urows: if kept { rows } else { 0 },
            vrows: if kept { cols } else { 0 },
        }
    }

    // Whether the bidiagonal form is the upper one.
    pub(crate) fn is_upper(self) -> bool
        ensures { result ≡ is_upper self.rows self.cols }
    {
        self.cols <= self.rows
    }

    // The table from row i and column j on.
    pub(crate) fn table_from(self, i: usize, j: usize) -> Window
        requires { (i ≤ self.rows) × (j ≤ self.cols) }
        ensures { result ≡ record {
          stride = self.stride;
          row = i;
          column = j;
          rows = self.rows - i;
          cols = self.cols - j;
        } }
    {
        Window {
            stride: self.stride,
            row: i,
            column: j,
            rows: self.rows - i,
            cols: self.cols - j,
        }
    }
}
