// The walk over the bidiagonal form (svd/bulge_chasing.rs, with its twins in svd/verify.rs): each
// pass drops the last coupling of the live corner where it is negligible, and sweeps the corner
// where it is not. The upper and the lower form differ in which lines, rows or columns, come first.
// Kept: `rowwise`, i and j one by one, as the definitions `along`, `turned` and `pushed` of method take them.
// Kept: `Inside` is asked, since it is of the i, j, n or interior that a method is given, no fact of Work.
ghost use Rattle.std.specs.Prelude.{◌≡◌, ◌+◌, ◌*◌, ◌≤◌, ◌<◌, length};
ghost use Rattle.std.specs.Float.{binary64};
ghost use Rattle.method.specs.Walk.{stands, run};
ghost use Rattle.method.specs.Chase.{along, turned, pushed, steps, negligible, first_rotation, swept};
ghost use Rattle.method.specs.Moves.{sweep_rotations};
ghost use Rattle.method.specs.Outcome.{rules_of};
ghost use Rattle.svd.specs.Values.{rotation, sizes, walk_of, Inside, Cornered};
ghost use Rattle.svd.specs.Passes.{Standing};
ghost use Rattle.svd.specs.Loan.{work_in, SameLoan};

use crate::givens::{Rotation, apply_g_left, apply_gt_right, implicit_givens_rotation};
use crate::primitives::{Corner, Walk, singular};
use crate::work::Work;
use checks::settings::Settings;

impl Work<'_> {
    // Entry j of line i, a row or a column.
    fn along(&self, rowwise: bool, i: usize, j: usize) -> f64
        requires { (i * self.now.shape.stride + j < length self.now.b.now)
            × (j * self.now.shape.stride + i < length self.now.b.now) }
        ensures { result ≡ along rowwise self.now.shape.stride i j self.now.b.now }
    {
        // Kept: with the row and the column chosen first the calls of 48 x 48 take 1 % longer.
        if rowwise {
            let at = i * self.shape.stride + j;
            self.b[at]
        } else {
            let at = j * self.shape.stride + i;
            self.b[at]
        }
    }

    // Lines i and i + 1, turned in the n entries from j on. Rows turn the same columns of U with them,
    // columns those of V.
    fn turn(&mut self, g: Rotation, rowwise: bool, i: usize, j: usize, n: usize)
        requires { Inside (sizes self.old.shape) (i + 2) × Inside (sizes self.old.shape) (j + n) }
        ensures same { SameLoan self.old self.new }
        ensures turned { work_in self.new ≡
            turned binary64 (sizes self.old.shape) (rotation g) rowwise i j n (work_in self.old) }
    {
        let z = self.shape;
        // Kept: a branch on `rowwise`, as `turned` of method has it: rows go with U, columns with V.
        if rowwise {
            apply_g_left(self.b, g, z.stride, i, j, n);
            apply_gt_right(self.u, g, z.rows, i, 0, z.urows);
        } else {
            apply_gt_right(self.b, g, z.stride, i, j, n);
            apply_gt_right(self.v, g, z.cols, i, 0, z.vrows);
        }
    }

    // Zero pushed into entry j of line i + 1, out of entry j of line i.
    fn push(&mut self, rowwise: bool, i: usize, j: usize, n: usize)
        requires { (1 ≤ n) × Inside (sizes self.old.shape) (i + 2) × Inside (sizes self.old.shape) (j + n) }
        ensures same { SameLoan self.old self.new }
        ensures pushed { work_in self.new ≡
            pushed binary64 (sizes self.old.shape) rowwise i j n (work_in self.old) }
    {
        let x = self.along(rowwise, i, j);
        let y = self.along(rowwise, i + 1, j);
        let g = implicit_givens_rotation(x, y);
        self.turn(g, rowwise, i, j, n);
    }

    // The steps down the interior of the live corner, each of two pushes.
    fn chase(&mut self, interior: usize)
        requires { Inside (sizes self.old.shape) (interior + 2) }
        ensures same { SameLoan self.old self.new }
        ensures chased { work_in self.new ≡
            steps binary64 (sizes self.old.shape) self.old.upper interior (work_in self.old) }
    {
        for k in 0..interior {
            self.push(self.upper, k, k, 3);
            self.push(!self.upper, k + 1, k, 3);
        }
    }

    // The rotation that a sweep over the live corner starts with.
    fn first_rotation(&self, corner: Corner) -> Rotation
        requires { Cornered (sizes self.now.shape) self.now.upper corner }
        ensures { rotation result ≡
            first_rotation binary64 self.now.shape.stride self.now.upper corner.inter self.now.b.now }
    {
        let tr = corner.tl + 1;
        let br = corner.bl + 1;
        let shift = singular(self.b[corner.tl], self.b[tr], self.b[corner.bl], self.b[br]);
        let first = self.b[0];
        let next = self.along(!self.upper, 1, 0);
        implicit_givens_rotation(first * first - shift, first * next)
    }

    // A sweep over the live corner. The answer is how many rotations it computed: two for each step, the
    // first and the last.
    fn givens_iteration(&mut self, corner: Corner) -> usize
        requires { Cornered (sizes self.old.shape) self.old.upper corner }
        ensures same { SameLoan self.old self.new }
        ensures swept { work_in self.new ≡
            swept binary64 (sizes self.old.shape) self.old.upper corner.inter (work_in self.old) }
        ensures rotations { result ≡ sweep_rotations self.old.upper corner.inter }
    {
        let g = self.first_rotation(corner);
        self.turn(g, !self.upper, 0, 0, 2);
        self.chase(corner.inter);
        self.push(self.upper, corner.inter, corner.inter, 2);
        2 * corner.inter + 2
    }

    // Whether the live corner's coupling is negligible beside its diagonal neighbours.
    fn is_negligible(&self, corner: Corner, s: Settings) -> bool
        requires { Cornered (sizes self.now.shape) self.now.upper corner }
        ensures { result ≡
            negligible binary64 s.tolerance s.absolute self.now.shape.stride self.now.upper corner.inter
            self.now.b.now }
    {
        let br = corner.bl + 1;
        let scale = float::magnitude(self.b[corner.tl]) + float::magnitude(self.b[br]);
        float::magnitude(self.b[corner.e1]) < float::smaller(scale * s.tolerance, s.absolute)
    }

    // At most n passes from a record.
    pub(crate) fn decomp_givens(&mut self, first: Walk, n: usize, s: Settings) -> Walk
        requires { Standing (sizes self.old.shape) self.old.upper n first }
        ensures same { SameLoan self.old self.new }
        ensures walked { stands (walk_of result) (work_in self.new) ≡
            run (rules_of binary64 (sizes self.old.shape) self.old.upper s.tolerance s.absolute)
            s.limit s.credit n (stands (walk_of first) (work_in self.old)) }
    {
        let mut walk = first;
        for _made in 0..n {
            if walk.tally.range <= 1 || walk.counter >= s.limit {
                break;
            }
            if self.is_negligible(walk.corner, s) {
                walk = walk.drop(self.shape.stride, s.credit);
            } else {
                let turns = self.givens_iteration(walk.corner);
                walk = walk.sweep(turns);
            }
        }
        walk
    }
}
