// Rotations (francis/givens.rs): the rule that makes one, and what it does to two rows or two
// columns of a row-major table.
// Kept: pairs go by index: two rows' `iter_mut`, zipped, would lend entries of which no clause says anything.
ghost use Rattle.std.specs.Prelude.{◌≡◌, ◌+◌, ◌*◌, ◌<◌, length};
ghost use Rattle.std.specs.Float.{binary64};
ghost use Rattle.method.specs.Rotation.{rotation_of, pair_turned, rows_turned, columns_turned};
ghost use Rattle.svd.specs.Values.{rotation, Block};

// Where a rotation takes its two numbers, with its cosine and sine.
#[derive(Clone, Copy, Debug, PartialEq)]
pub struct Rotation {
    pub radius: f64,
    pub cosine: f64,
    pub sine: f64,
}

// The rotation that takes (a, b) to (radius, 0).
pub(crate) fn implicit_givens_rotation(a: f64, b: f64) -> Rotation
    ensures { rotation result ≡ rotation_of binary64 a b }
{
    if a == 0.0 {
        return Rotation {
            radius: b,
            cosine: 0.0,
            sine: 1.0,
        };
    }
    if float::magnitude(b) > float::magnitude(a) {
        let ratio = a / b;
        let norm = float::square_root(1.0 + ratio * ratio);
        let sine = 1.0 / norm;
        Rotation {
            radius: b * norm,
            cosine: sine * ratio,
            sine,
        }
    } else {
        let ratio = b / a;
        let norm = float::square_root(1.0 + ratio * ratio);
        let cosine = 1.0 / norm;
        Rotation {
            radius: a * norm,
            cosine,
            sine: cosine * ratio,
        }
    }
}

// Entries p and q, turned: both from the old values.
// Kept: one list and two places, as `pair_turned` takes them: two entries of a list are not lent at once.
fn turn_pair(a: &mut [f64], g: Rotation, p: usize, q: usize)
    requires { (p < length a.old) × (q < length a.old) }
    ensures { a.new ≡ pair_turned binary64 (rotation g) p q a.old }
{
    let x = a[p];
    let y = a[q];
    a[p] = g.cosine * x + g.sine * y;
    a[q] = (-g.sine) * x + g.cosine * y;
}

// Rows i and i + 1, turned in the `range` columns from j on.
// Kept: the place by four numbers, since a `Window` of two rows or two columns would have one side always 2.
// Kept: two functions, as `rows_turned` and `columns_turned` of method: one would take two steps besides.
pub(crate) fn apply_g_left(
    a: &mut [f64],
    g: Rotation,
    stride: usize,
    i: usize,
    j: usize,
    range: usize,
)
    requires { Block stride i j 2 range a.old }
    ensures { a.new ≡ rows_turned binary64 (rotation g) stride i j range a.old }
{
    let upper = i * stride;
    let lower = (i + 1) * stride;
    for k in 0..range {
        turn_pair(a, g, upper + (j + k), lower + (j + k));
    }
}

// Columns i and i + 1, turned in the `range` rows from j on.
pub(crate) fn apply_gt_right(
    a: &mut [f64],
    g: Rotation,
    stride: usize,
    i: usize,
    j: usize,
    range: usize,
)
    requires { Block stride j i range 2 a.old }
    ensures { a.new ≡ columns_turned binary64 (rotation g) stride i j range a.old }
{
    for k in 0..range {
        let row = (j + k) * stride;
        turn_pair(a, g, row + i, row + (i + 1));
    }
}
