// The ordered call (rule 9.4). It asks nothing of its caller: what is unfit is refused by number, in a
// fixed order.
ghost use Rattle.std.specs.Prelude.{◌≡◌, Ok};
ghost use Rattle.std.specs.Float.{binary64};
ghost use Rattle.method.specs.Work.{work};
ghost use Rattle.method.specs.Checks.{first_of};
ghost use Rattle.method.specs.Report.{is_settled};
ghost use Rattle.method.specs.Outcome.{outcome_of, card};
ghost use Rattle.method.specs.Order.{diagonal, old_positions};
ghost use Rattle.method.specs.Order.Sizes.{Finite};
ghost use Rattle.method.specs.Ordered.{run_checks, ordered_of, refused_after, put_in_order, ordered_outcome};
ghost use Rattle.checks.specs.Values.{settings_of};
ghost use Rattle.svd.specs.Values.{word_in, report_of};
ghost use Rattle.order.specs.declared.ordered.Unordered.TheVariants.{Refused};
ghost use Rattle.order.specs.Values.{ordered_report, judged};
ghost use Rattle.order.specs.Room.{Fits, in_order, in_order_by};

use crate::columns::columns;
use crate::diagonal::Diagonal;
use checks::refusal::{Refusal, lent_refusal};
use checks::settings::Settings;
use checks::sizes::{MOST_SIZE, smaller_size};
use svd::interface::full_svd_decomposition;
use svd::report::{Report, Word};

// Why values are not put in order: the call is refused before the run, or the run, whose report goes with
// it, did not settle, or a value that it left is not finite.
#[derive(Clone, Copy, Debug, PartialEq, Eq)]
pub enum Unordered {
    Refused(Refusal),
    NotSettled(Report),
    NotFinite(Report),
}

impl From<Refusal> for Unordered {
    ghost from_gives = { λ r e. e ≡ Refused r };

    fn from(refusal: Refusal) -> Unordered {
        Unordered::Refused(refusal)
    }
}

fn is_settled(word: Word) -> bool
    ensures { result ≡ is_settled (word_in word) }
{
    word == Word::Settled
}

// Whether what a run left has an order: it settled, and its diagonal is finite.
fn has_order(report: Report, d: Diagonal<'_>) -> Result<(), Unordered>
    ensures { judged report result
        ≡ refused_after (first_of (run_checks d.entry.c (diagonal d.entry.cols d.entry.b.now) (word_in report.word))) (report_of (Ok report)) }
{
    let word = report.word;
    if !is_settled(word) {
        return Err(Unordered::NotSettled(report));
    }
    if !d.all_finite() {
        return Err(Unordered::NotFinite(report));
    }
    Ok(())
}

// The values into their list, in the order of the diagonal, and the columns of U and V with them.
fn move_all(d: Diagonal<'_>, u: &mut [f64], v: &mut [f64], list: &mut [f64], rows: usize)
    requires { (d.c ≡ card rows d.cols) × Fits rows d.cols (work d.b.now u.old v.old) list.old
        × Finite d.c (diagonal d.cols d.b.now) }
    ensures { in_order (work d.entry.b.now u.new v.new) list.new ≡
        in_order_by rows d.entry.cols d.entry.c (work d.entry.b.now u.old v.old) list.old
        (old_positions d.entry.c (diagonal d.entry.cols d.entry.b.now)) }
{
    let mut p: [usize; MOST_SIZE] = [0; MOST_SIZE];
    d.positions(&mut p);
    d.values(&p, list);
    columns(u, rows, &p, d, true);
    columns(v, d.cols, &p, d, false);
}

// What a run left, put in order where it has one.
fn put_in_order(
    report: Report,
    b: &[f64],
    u: &mut [f64],
    v: &mut [f64],
    list: &mut [f64],
    rows: usize,
    cols: usize,
) -> Result<Report, Unordered>
    requires { Fits rows cols (work b.now u.old v.old) list.old }
    ensures { ordered_of (outcome_of (ordered_report result) (work b.now u.new v.new))
        list.new ≡
        put_in_order rows cols
        (outcome_of (report_of (Ok report)) (work b.now u.old v.old)) list.old }
{
    let c = smaller_size(rows, cols);
    let d = Diagonal { b, cols, c };
    has_order(report, d)?;
    move_all(d, u, v, list, rows);
    Ok(report)
}

// The split with U and V kept, and its values in a list, largest first, equal ones by lower old
// position; the first columns of U and V move with them, and a column of U is negated where its value
// had the sign bit set. The table stays as the run leaves it.
//
// A refusal before the run writes nothing. One after it leaves table, U and V as the run has them, and
// the list as it was.
pub fn ordered_svd_decomposition(
    b: &mut [f64],
    u: &mut [f64],
    v: &mut [f64],
    list: &mut [f64],
    rows: usize,
    cols: usize,
    settings: Settings,
) -> Result<Report, Unordered>
    ensures { ordered_of (outcome_of (ordered_report result) (work b.new u.new v.new))
        list.new ≡
        ordered_outcome binary64 rows cols (settings_of settings)
        (work b.old u.old v.old) list.old }
{
    lent_refusal(b, u, v, list, rows, cols)?;
    let report = full_svd_decomposition(b, u, v, rows, cols, settings)?;
    put_in_order(report, b, u, v, list, rows, cols)
}
