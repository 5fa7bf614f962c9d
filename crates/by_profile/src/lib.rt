// The calls by a profile's number, for an app whose surveyor picks the instrument. By one of 1 to 4 each
// is the call with that profile's settings. By any other number it is refused: for what is lent, as that
// call is, or else by 10, in the place of 6 and 7.
// Kept: a profile goes by its number, since the definitions `profile_plain` and its like take any number.
// Kept: one function for the three matches would take the check's answer, made then for a good number too.
#![tactic(auto)]

ghost use Rattle.std.specs.Prelude.{◌≡◌, []};
ghost use Rattle.std.specs.Float.{binary64};
ghost use Rattle.method.specs.Work.{work};
ghost use Rattle.method.specs.Outcome.{outcome_of};
ghost use Rattle.method.specs.Ordered.{ordered_of};
ghost use Rattle.method.specs.Profiles.{profile_plain, profile_full, profile_ordered};
ghost use Rattle.svd.specs.Values.{report_of};
ghost use Rattle.order.specs.Values.{ordered_report};

use checks::refusal::{Refusal, lent_refusal, table_refusal};
use order::ordered::{Unordered, ordered_svd_decomposition};
use profiles::pick;
use svd::interface::{full_svd_decomposition, svd_decomposition};
use svd::report::Report;

// The plain call.
pub fn profile_svd_decomposition(
    b: &mut [f64],
    rows: usize,
    cols: usize,
    profile: usize,
) -> Result<Report, Refusal>
    ensures { outcome_of (report_of result) (work b.new [] [])
        ≡ profile_plain binary64 rows cols profile b.old }
{
    match pick(profile) {
        Ok(settings) => svd_decomposition(b, rows, cols, settings),
        Err(none) => {
            table_refusal(b, &[], &[], false, rows, cols)?;
            Err(none)
        }
    }
}

// The accumulating call.
pub fn profile_full_svd_decomposition(
    b: &mut [f64],
    u: &mut [f64],
    v: &mut [f64],
    rows: usize,
    cols: usize,
    profile: usize,
) -> Result<Report, Refusal>
    ensures { outcome_of (report_of result) (work b.new u.new v.new)
        ≡ profile_full binary64 rows cols profile (work b.old u.old v.old) }
{
    match pick(profile) {
        Ok(settings) => full_svd_decomposition(b, u, v, rows, cols, settings),
        Err(none) => {
            table_refusal(b, u, v, true, rows, cols)?;
            Err(none)
        }
    }
}

// The ordered call.
pub fn profile_ordered_svd_decomposition(
    b: &mut [f64],
    u: &mut [f64],
    v: &mut [f64],
    list: &mut [f64],
    rows: usize,
    cols: usize,
    profile: usize,
) -> Result<Report, Unordered>
    ensures { ordered_of
        (outcome_of (ordered_report result) (work b.new u.new v.new))
        list.new
        ≡ profile_ordered binary64 rows cols profile
        (work b.old u.old v.old) list.old }
{
    match pick(profile) {
        Ok(settings) => ordered_svd_decomposition(b, u, v, list, rows, cols, settings),
        Err(none) => {
            lent_refusal(b, u, v, list, rows, cols)?;
            Err(Unordered::Refused(none))
        }
    }
}
