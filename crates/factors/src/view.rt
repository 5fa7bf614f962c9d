// The row view: a row of U or of V where it lies, without a copy.
ghost use Rattle.std.specs.Prelude.{◌≡◌, ◌*◌, ◌+◌, ◌≤◌, length};
ghost use Rattle.method.specs.View.{view_fit, row_of, row_viewed};
ghost use Rattle.factors.specs.View.{entry_at, view_place};

use crate::MOST_SIZE;

// Whether sizes, lengths, side and row are fit.
// Kept: six arguments and no refusal of crate `checks`, as the definition `view_fit` takes and answers it.
fn view_fit(rows: usize, cols: usize, u: &[f64], v: &[f64], side: usize, row: usize) -> bool
    ensures { result ≡ view_fit rows cols u.now v.now side row }
{
    rows != 0
        && cols != 0
        && rows <= MOST_SIZE
        && cols <= MOST_SIZE
        && u.len() == rows * rows
        && v.len() == cols * cols
        && match side {
            0 => row < rows,
            1 => row < cols,
            _ => false,
        }
}

// Row `row` of a square table of `size` rows, where it lies.
fn row_of(a: &[f64], size: usize, row: usize) -> &[f64]
    requires { (row * size + size ≤ length a.now) × (length a.now ≤ 3072) }
    ensures entries { result.now ≡ row_of size row a.now }
    ensures place { result.ref_ptr ≡ entry_at a.entry.ref_ptr (row * size) }
{
    let start = row * size;
    let end = start + size;
    &a[start..end]
}

// Row `row` of U (side 0) or of V (side 1), where it lies. Its refusal is an empty part at the start of
// U, given exactly where a size is outside 1 to 48, a length is wrong, the side is above 1 or the row
// is not below the side's size.
// Kept: no None: the clause `place` and the product's rules say where the empty part lies.
// Kept: the side is a number, as the C caller hands it.
pub fn row_view<'a>(
    rows: usize,
    cols: usize,
    u: &'a [f64],
    v: &'a [f64],
    side: usize,
    row: usize,
) -> &'a [f64]
    ensures entries { result.now ≡ row_viewed rows cols u.now v.now side row }
    ensures place { result.ref_ptr
        ≡ view_place rows cols u.now v.now side row u.entry.ref_ptr v.entry.ref_ptr }
{
    if !view_fit(rows, cols, u, v, side, row) {
        return &u[..0];
    }
    if side == 0 {
        row_of(u, rows, row)
    } else {
        row_of(v, cols, row)
    }
}
