// The first refusal that applies to a call, looked for before any number is touched; and that of what
// a call is lent.
// Kept: lists one by one, as the C interface lends them; rows and columns as `refusal_of` takes them.
ghost use Rattle.std.specs.Prelude.{◌≡◌, true, not, ◌&&◌, ◌||◌, eqb, ltb, ◌*◌, ◌≤◌, length};
ghost use Rattle.method.specs.Work.{work};
ghost use Rattle.method.specs.Settings.{most_size, most_limit, most_credit};
ghost use Rattle.method.specs.Checks.{bound_fit, floor_fit, first_of, refusal_of};
ghost use Rattle.method.specs.Checks.{size_checks, length_checks, table_checks, setting_checks, reading_checks};
ghost use Rattle.method.specs.Ordered.{list_checks, lent_checks};
ghost use Rattle.checks.specs.Values.{settings_of, place_in, refusal_in, checked, number_of, place_of};

use crate::place::Place;
use crate::search::bad_readings;
use crate::settings::Settings;
use crate::sizes::{MOST_SIZE, smaller_size};
use float::is_finite;

// Why a call is refused. A reading that is no number goes with the place of the first and the count of all.
#[derive(Clone, Copy, Debug, PartialEq, Eq)]
pub enum Refusal {
    NoSize,
    TooLarge,
    TableLength,
    ULength,
    VLength,
    OverLimit,
    UnfitBounds,
    BadReadings(Place),
    NoProfile,
    ListLength,
}

impl Refusal {
    // The number by which the refusal is handed on and stored.
    pub fn number(self) -> usize
        ensures { result ≡ number_of (refusal_in self) }
    {
        match self {
            Refusal::NoSize => 1,
            Refusal::TooLarge => 2,
            Refusal::TableLength => 3,
            Refusal::ULength => 4,
            Refusal::VLength => 5,
            Refusal::OverLimit => 6,
            Refusal::UnfitBounds => 7,
            Refusal::BadReadings(_) => 8,
            Refusal::NoProfile => 10,
            Refusal::ListLength => 11,
        }
    }

    // The place that it carries: zeros with all but one.
    pub fn place(self) -> Place
        ensures { place_in result ≡ place_of (refusal_in self) }
    {
        match self {
            Refusal::BadReadings(place) => place,
            _ => Place::nowhere(),
        }
    }
}

// Kept: a function for each test; one for two, with the comparison as a closure, is longer than both.
fn no_size(rows: usize, cols: usize) -> bool
    ensures { result ≡ (eqb rows 0 || eqb cols 0) }
{
    rows == 0 || cols == 0
}

fn too_large(rows: usize, cols: usize) -> bool
    ensures { result ≡ (ltb most_size rows || ltb most_size cols) }
{
    rows > MOST_SIZE || cols > MOST_SIZE
}

// A list that the call keeps has another length than it must.
// Kept: table and list of values say `true`, since every call keeps them: one test serves all four lists.
// Kept: a flag says whether U and V are kept, as the definitions `length_checks` and `refusal_of` take it.
fn wrong_length(kept: bool, len: usize, whole: usize) -> bool
    ensures { result ≡ (kept && not (eqb len whole)) }
{
    kept && len != whole
}

fn over_limit(s: Settings) -> bool
    ensures { result ≡ (ltb most_limit s.limit || ltb most_credit s.credit) }
{
    s.limit > Settings::MOST_LIMIT || s.credit > Settings::MOST_CREDIT
}

// Finite and not below zero.
fn bound_fit(x: f64) -> bool
    ensures { result ≡ bound_fit x }
{
    is_finite(x) && !(x < 0.0)
}

// Finite and above zero.
fn floor_fit(x: f64) -> bool
    ensures { result ≡ floor_fit x }
{
    is_finite(x) && 0.0 < x
}

fn bounds_unfit(s: Settings) -> bool
    ensures { result ≡ not (bound_fit s.tolerance && bound_fit s.absolute && floor_fit s.floor) }
{
    !(bound_fit(s.tolerance) && bound_fit(s.absolute) && floor_fit(s.floor))
}

// ---- one function a segment of the table

fn size_refusal(rows: usize, cols: usize) -> Result<(), Refusal>
    ensures { checked result ≡ first_of (size_checks rows cols) }
{
    if no_size(rows, cols) {
        return Err(Refusal::NoSize);
    }
    if too_large(rows, cols) {
        return Err(Refusal::TooLarge);
    }
    Ok(())
}

// The plain call keeps no factors, and has no 4 and 5.
fn length_refusal(
    b: &[f64],
    u: &[f64],
    v: &[f64],
    kept: bool,
    rows: usize,
    cols: usize,
) -> Result<(), Refusal>
    requires { (rows ≤ most_size) × (cols ≤ most_size) }
    ensures { checked result
        ≡ first_of (length_checks kept rows cols (work b.now u.now v.now)) }
{
    if wrong_length(true, b.len(), rows * cols) {
        return Err(Refusal::TableLength);
    }
    if wrong_length(kept, u.len(), rows * rows) {
        return Err(Refusal::ULength);
    }
    if wrong_length(kept, v.len(), cols * cols) {
        return Err(Refusal::VLength);
    }
    Ok(())
}

fn setting_refusal(s: Settings) -> Result<(), Refusal>
    ensures { checked result ≡ first_of (setting_checks (settings_of s)) }
{
    if over_limit(s) {
        return Err(Refusal::OverLimit);
    }
    if bounds_unfit(s) {
        return Err(Refusal::UnfitBounds);
    }
    Ok(())
}

fn reading_refusal(b: &[f64], rows: usize, cols: usize) -> Result<(), Refusal>
    requires { (length b.now ≡ rows * cols) × (rows ≤ most_size) × (cols ≤ most_size) }
    ensures { checked result ≡ first_of (reading_checks rows cols b.now) }
{
    let place = bad_readings(b, rows, cols);
    if place.bad > 0 {
        return Err(Refusal::BadReadings(place));
    }
    Ok(())
}

// The first refusal that applies to what the plain or the accumulating call is lent: of the sizes, and then
// of the lengths.
pub fn table_refusal(
    b: &[f64],
    u: &[f64],
    v: &[f64],
    kept: bool,
    rows: usize,
    cols: usize,
) -> Result<(), Refusal>
    ensures { checked result
        ≡ first_of (table_checks kept rows cols (work b.now u.now v.now)) }
{
    size_refusal(rows, cols)?;
    length_refusal(b, u, v, kept, rows, cols)
}

// The first refusal that applies: of the sizes and the lengths, of the settings, of the readings.
pub fn first_refusal(
    b: &[f64],
    u: &[f64],
    v: &[f64],
    kept: bool,
    rows: usize,
    cols: usize,
    s: Settings,
) -> Result<(), Refusal>
    ensures { checked result
        ≡ refusal_of kept rows cols (settings_of s) (work b.now u.now v.now) }
{
    table_refusal(b, u, v, kept, rows, cols)?;
    setting_refusal(s)?;
    reading_refusal(b, rows, cols)
}

// The list of the ordered call has as many entries as the smaller of rows and columns.
fn list_refusal(list: &[f64], rows: usize, cols: usize) -> Result<(), Refusal>
    ensures { checked result ≡ first_of (list_checks rows cols list.now) }
{
    let whole = smaller_size(rows, cols);
    if wrong_length(true, list.len(), whole) {
        return Err(Refusal::ListLength);
    }
    Ok(())
}

// The first refusal that applies to what the ordered call is lent: of the sizes, of the lengths, of
// the list. What it refuses besides it refuses as the accumulating call does.
pub fn lent_refusal(
    b: &[f64],
    u: &[f64],
    v: &[f64],
    list: &[f64],
    rows: usize,
    cols: usize,
) -> Result<(), Refusal>
    ensures { checked result
        ≡ first_of (lent_checks rows cols (work b.now u.now v.now) list.now) }
{
    table_refusal(b, u, v, true, rows, cols)?;
    list_refusal(list, rows, cols)
}
