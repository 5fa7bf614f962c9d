// The shift of a sweep and the walk's record (svd/primitives.rs). The Rust's six lent counters are
// one record here: a drop consumes it and hands back the next, and so does a sweep.
// Kept: a drop lowers each of a Corner's four places, down to 0, as the definition `corner_dropped` has it.
// Kept: `upper` and `stride` go without a Shape, as `corner_of` and `corner_dropped` of method take them.
ghost use Rattle.std.specs.Prelude.{◌≡◌, ◌+◌, ◌-◌, ◌*◌, ◌≤◌, ◌<◌};
ghost use Rattle.std.specs.Float.{binary64};
ghost use Rattle.method.specs.Chase.{singular};
ghost use Rattle.method.specs.Walk.{begun, after_drop, after_sweep};
ghost use Rattle.method.specs.Walk.Loop.{Room};
ghost use Rattle.method.specs.Settings.{most_size, most_stride};
ghost use Rattle.method.specs.Positions.{corner_of, corner_dropped};
ghost use Rattle.svd.specs.Values.{walk_of, corner_in};

use crate::tally::Tally;

// The eigenvalue of M'M nearest to its last entry, for M of rows (m00, m01) and (m10, m11).
pub(crate) fn singular(m00: f64, m01: f64, m10: f64, m11: f64) -> f64
    ensures { result ≡ singular binary64 m00 m01 m10 m11 }
{
    let off_diag = m00 * m01 + m10 * m11;
    let first = m00 * m00 + m10 * m10;
    let last = m01 * m01 + m11 * m11;
    let d = (first - last) / 2.0;
    let discriminate = d * d + off_diag * off_diag;
    last + d - float::sign(d) * float::square_root(float::larger(discriminate, 0.0))
}

// Where the live corner stands: its interior, and the places of the coupling and of the last 2 x 2's
// left entries.
#[derive(Clone, Copy, Debug, PartialEq, Eq)]
pub struct Corner {
    pub inter: usize,
    pub e1: usize,
    pub tl: usize,
    pub bl: usize,
}

impl Corner {
    // The corner of a range.
    pub(crate) fn of_range(upper: bool, range: usize, stride: usize) -> Corner
        requires { (range ≤ most_size) × (stride ≤ most_stride) }
        ensures { corner_in result ≡ corner_of upper stride range }
    {
        let inter = range.saturating_sub(2);
        let tl = inter * stride + inter;
        let bl = (inter + 1) * stride + inter;
        let e1 = if upper {
            inter * stride + (inter + 1)
        } else {
            bl
        };
        Corner { inter, e1, tl, bl }
    }

    // The corner after a drop.
    pub(crate) fn dropped(self, stride: usize) -> Corner
        requires { stride ≤ most_stride }
        ensures { corner_in result ≡ corner_dropped stride (corner_in self) }
    {
        let shift = stride + 1;
        Corner {
            inter: self.inter.saturating_sub(1),
            e1: self.e1.saturating_sub(shift),
            tl: self.tl.saturating_sub(shift),
            bl: self.bl.saturating_sub(shift),
        }
    }
}

// The walk's record: what it counts, the counter that the limit bounds, and where the corner stands.
#[derive(Clone, Copy, Debug, PartialEq, Eq)]
pub struct Walk {
    pub tally: Tally,
    pub counter: usize,
    pub corner: Corner,
}

impl Walk {
    // The record at the start, over a diagonal of `card` entries.
    pub(crate) fn new(upper: bool, card: usize, stride: usize) -> Walk
        requires { (card ≤ most_size) × (stride ≤ most_stride) }
        ensures { (walk_of result ≡ begun card) × (corner_in result.corner ≡ corner_of upper stride card) }
    {
        Walk {
            tally: Tally::begun(card),
            counter: 0,
            corner: Corner::of_range(upper, card, stride),
        }
    }

    // The record after a pass that drops.
    pub(crate) fn drop(self, stride: usize, credit: usize) -> Walk
        requires { (1 < self.tally.range) × (stride ≤ most_stride) × Room 1 0 (walk_of self) }
        ensures { (walk_of result ≡ after_drop credit (walk_of self))
            × (corner_in result.corner ≡ corner_dropped stride (corner_in self.corner)) }
    {
        Walk {
            tally: self.tally.dropped(),
            counter: (self.counter + 1).saturating_sub(credit),
            corner: self.corner.dropped(stride),
        }
    }

    // The record after a pass that sweeps, and computes so many rotations: the corner stays where it
    // is.
    pub(crate) fn sweep(self, turns: usize) -> Walk
        requires { Room 1 turns (walk_of self) }
        ensures { (walk_of result ≡ after_sweep turns (walk_of self)) × (result.corner ≡ self.corner) }
    {
        Walk {
            tally: self.tally.swept(turns),
            counter: self.counter + 1,
            ..self
        }
    }
}
