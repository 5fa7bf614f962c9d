// The calls (svd/interface.rs). Each asks nothing of its caller: what is unfit is refused by number,
// in a fixed order, and a refused call writes nothing.
// Kept: lists one by one, as the C interface lends them; rows and columns as `full_outcome` takes them.
ghost use Rattle.std.specs.Prelude.{◌≡◌, [], ◌≤◌};
ghost use Rattle.std.specs.Float.{binary64};
ghost use Rattle.method.specs.Work.{work};
ghost use Rattle.method.specs.Walk.{stands};
ghost use Rattle.method.specs.Settings.{most_limit, most_credit};
ghost use Rattle.method.specs.Outcome.{outcome_of, walked_from, outcome, plain_outcome, full_outcome};
ghost use Rattle.checks.specs.Values.{settings_of};
ghost use Rattle.svd.specs.Values.{sizes, walk_of, report_of, Lending, Inside};

use crate::primitives::Walk;
use crate::report::Report;
use crate::shape::Shape;
use crate::work::Work;
use checks::refusal::{Refusal, first_refusal};
use checks::settings::Settings;
use checks::sizes::smaller_size;

// No allowed call makes more passes: the definition's `most_passes`.
// Kept: written out, as the definition is; `passes_most_lem` of method says that no accepted call makes more.
const MOST_PASSES: usize = 146000;

// The bidiagonal form, and then the walk.
// Kept: the plain call keeps 0 rows of U and V, as the definition `packed` has it: one function serves both.
fn decompose(b: &mut [f64], u: &mut [f64], v: &mut [f64], z: Shape, s: Settings) -> Walk
    requires { Inside (sizes z) 1 × (s.limit ≤ most_limit) × (s.credit ≤ most_credit)
        × Lending (sizes z) (work b.old u.old v.old) }
    ensures { stands (walk_of result) (work b.new u.new v.new) ≡
        walked_from binary64 (sizes z) z.rows z.cols (settings_of s)
        (work b.old u.old v.old) }
{
    let upper = z.is_upper();
    let card = smaller_size(z.rows, z.cols);
    let mut w = Work {
        b,
        u,
        v,
        shape: z,
        upper,
    };
    w.bidiagonal(card, s.floor);
    let first = Walk::new(upper, card, z.stride);
    w.decomp_givens(first, MOST_PASSES, s)
}

// Either call, with U and V kept or not.
fn split(
    b: &mut [f64],
    u: &mut [f64],
    v: &mut [f64],
    kept: bool,
    rows: usize,
    cols: usize,
    settings: Settings,
) -> Result<Report, Refusal>
    ensures { outcome_of (report_of result) (work b.new u.new v.new) ≡
        outcome binary64 kept rows cols (settings_of settings)
        (work b.old u.old v.old) }
{
    first_refusal(b, u, v, kept, rows, cols, settings)?;
    let z = Shape::packed(kept, rows, cols);
    let walk = decompose(b, u, v, z, settings);
    Ok(Report::accepted(walk, b, z))
}

// The split with U and V kept: each is multiplied from the right as it stands, so a caller who
// wants the decomposition has them filled with the identity first.
pub fn full_svd_decomposition(
    b: &mut [f64],
    u: &mut [f64],
    v: &mut [f64],
    rows: usize,
    cols: usize,
    settings: Settings,
) -> Result<Report, Refusal>
    ensures { outcome_of (report_of result) (work b.new u.new v.new) ≡
        full_outcome binary64 rows cols (settings_of settings)
        (work b.old u.old v.old) }
{
    split(b, u, v, true, rows, cols, settings)
}

// The split of the table alone.
pub fn svd_decomposition(
    b: &mut [f64],
    rows: usize,
    cols: usize,
    settings: Settings,
) -> Result<Report, Refusal>
    ensures { outcome_of (report_of result) (work b.new [] []) ≡
        plain_outcome binary64 rows cols (settings_of settings) b.old }
{
    let mut u = [0.0f64; 0];
    let mut v = [0.0f64; 0];
    split(b, &mut u, &mut v, false, rows, cols, settings)
}
