// What an app links: the calls beneath under plain C names. A lent slice is a pointer and a length,
// one after the other. Each promise is that of the call beneath it: nothing is asked of the caller
// but that the pointers are good, what is unfit is refused by number, and a call that is refused before
// its run writes nothing.
// Kept: flat structs, numbers for refusals, words, profiles and sides, and zeros for none: the C interface.
// Kept: a function for each exported name, with its own clause, which takes lists and settings one by one.
#![tactic(auto)]

ghost use Rattle.std.specs.Prelude.{◌≡◌, [], Ok, Err};
ghost use Rattle.std.specs.Float.{binary64};
ghost use Rattle.method.specs.Root.{square_root};
ghost use Rattle.method.specs.Work.{work};
ghost use Rattle.method.specs.Defaults.{defaults};
ghost use Rattle.method.specs.Fill.{filled, fill_outcome};
ghost use Rattle.method.specs.Outcome.{full_outcome, plain_outcome};
ghost use Rattle.method.specs.Ordered.{ordered_outcome};
ghost use Rattle.method.specs.Profiles.{picked, profile_plain, profile_full, profile_ordered};
ghost use Rattle.float.specs.Root.{RootIs};
ghost use Rattle.checks.specs.Values.{settings_of};
ghost use Rattle.svd.specs.Values.{report_of};
ghost use Rattle.order.specs.Values.{ordered_report};
ghost use Rattle.profiles.specs.Values.{picked_in};
ghost use Rattle.app.specs.Values.{answer_of, numbered, answered, told, listed, told_in_order};
ghost use Rattle.app.specs.Values.{chosen, of_choice, picked_by, layout};
ghost use Rattle.app.specs.Row.{part_of};

use by_profile::{
    profile_full_svd_decomposition, profile_ordered_svd_decomposition, profile_svd_decomposition,
};
use checks::refusal::Refusal;
use checks::settings::Settings;
use factors::identity::identity_flat;
use factors::view::row_view;
use order::ordered::{Unordered, ordered_svd_decomposition};
use profiles::pick;
use svd::interface::{full_svd_decomposition, svd_decomposition};
use svd::report::{Report, word_number};

// What a call answers. With number 8 the row and the column are those of the first reading that is
// infinite or NaN, and `bad` is how many there are; with any other number the three are 0. The word is 0 in
// a refusal before the run, 1 where the table settled, 2 where the walk stopped at its limit and 3
// where what it left is quiet.
#[repr(C)]
#[derive(Clone, Copy, Debug, PartialEq)]
pub struct Answer {
    pub number: u64,
    pub row: u64,
    pub column: u64,
    pub bad: u64,
    pub word: u64,
    pub passes: u64,
    pub sweeps: u64,
    pub drops: u64,
    pub range: u64,
    pub rotations: u64,
}

// Where a row lies in U or V: its first entry, and how many there are.
#[repr(C)]
#[derive(Clone, Copy, Debug, PartialEq)]
pub struct Part {
    pub start: u64,
    pub length: u64,
}

// The five settings.
#[repr(C)]
#[derive(Clone, Copy, Debug, PartialEq)]
pub struct Choice {
    pub limit: u64,
    pub credit: u64,
    pub tolerance: f64,
    pub absolute: f64,
    pub floor: f64,
}

// What a profile's number picks: 0 and its five settings, or 10 and zeros where there is no such profile.
#[repr(C)]
#[derive(Clone, Copy, Debug, PartialEq)]
pub struct ProfileAnswer {
    pub number: u64,
    pub limit: u64,
    pub credit: u64,
    pub tolerance: f64,
    pub absolute: f64,
    pub floor: f64,
}

impl From<Settings> for Choice {
    ghost from_gives = { λ s c. of_choice c ≡ settings_of s };

    fn from(settings: Settings) -> Choice {
        Choice {
            limit: settings.limit as u64,
            credit: settings.credit as u64,
            tolerance: settings.tolerance,
            absolute: settings.absolute,
            floor: settings.floor,
        }
    }
}

impl Answer {
    // A run's report, laid out flat, with the number of what it was refused by after it.
    fn of_run(number: u64, report: Report) -> Answer
        ensures { result ≡ answer_of (numbered number (report_of (Ok report))) }
    {
        let code = word_number(Some(report.word));
        Answer {
            number,
            row: 0,
            column: 0,
            bad: 0,
            word: code,
            passes: report.tally.passes as u64,
            sweeps: report.tally.sweeps as u64,
            drops: report.tally.drops as u64,
            range: report.tally.range as u64,
            rotations: report.tally.rotations as u64,
        }
    }
}

impl From<Refusal> for Answer {
    ghost from_gives = { λ e a. a ≡ answer_of (report_of (Err e)) };

    fn from(refusal: Refusal) -> Answer {
        let place = refusal.place();
        Answer {
            number: refusal.number() as u64,
            row: place.row as u64,
            column: place.column as u64,
            bad: place.bad as u64,
            word: word_number(None),
            passes: 0,
            sweeps: 0,
            drops: 0,
            range: 0,
            rotations: 0,
        }
    }
}

impl From<Result<Report, Refusal>> for Answer {
    ghost from_gives = { λ r a. a ≡ answer_of (report_of r) };

    fn from(answer: Result<Report, Refusal>) -> Answer {
        match answer {
            Ok(report) => Answer::of_run(0, report),
            Err(refusal) => Answer::from(refusal),
        }
    }
}

impl From<Result<Report, Unordered>> for Answer {
    ghost from_gives = { λ r a. a ≡ answer_of (ordered_report r) };

    fn from(answer: Result<Report, Unordered>) -> Answer {
        match answer {
            Ok(report) => Answer::of_run(0, report),
            Err(Unordered::Refused(refusal)) => Answer::from(refusal),
            Err(Unordered::NotSettled(report)) => Answer::of_run(12, report),
            Err(Unordered::NotFinite(report)) => Answer::of_run(13, report),
        }
    }
}

impl From<Result<Settings, Refusal>> for ProfileAnswer {
    ghost from_gives = { λ r a. picked_by a ≡ picked_in r };

    fn from(picked: Result<Settings, Refusal>) -> ProfileAnswer {
        match picked {
            Ok(own) => ProfileAnswer {
                number: 0,
                limit: own.limit as u64,
                credit: own.credit as u64,
                tolerance: own.tolerance,
                absolute: own.absolute,
                floor: own.floor,
            },
            Err(none) => ProfileAnswer {
                number: none.number() as u64,
                limit: 0,
                credit: 0,
                tolerance: 0.0,
                absolute: 0.0,
                floor: 0.0,
            },
        }
    }
}

fn choose(limit: usize, credit: usize, tolerance: f64, absolute: f64, floor: f64) -> Settings
    ensures { settings_of result ≡ chosen limit credit tolerance absolute floor }
{
    Settings {
        limit,
        credit,
        tolerance,
        absolute,
        floor,
    }
}

// The split of the table alone.
#[unsafe(no_mangle)]
pub extern "C" fn merotunki_svd(
    matrix: &mut [f64],
    rows: usize,
    cols: usize,
    limit: usize,
    credit: usize,
    tolerance: f64,
    absolute: f64,
    floor: f64,
) -> Answer
    ensures { answered result (work matrix.new [] [])
        ≡ told (plain_outcome binary64 rows cols (chosen limit credit tolerance absolute floor)
        matrix.old) }
{
    let settings = choose(limit, credit, tolerance, absolute, floor);
    let report = svd_decomposition(matrix, rows, cols, settings);
    Answer::from(report)
}

// The split with U and V kept, each multiplied from the right as it stands.
#[unsafe(no_mangle)]
pub extern "C" fn merotunki_full_svd(
    matrix: &mut [f64],
    u: &mut [f64],
    v: &mut [f64],
    rows: usize,
    cols: usize,
    limit: usize,
    credit: usize,
    tolerance: f64,
    absolute: f64,
    floor: f64,
) -> Answer
    ensures { answered result (work matrix.new u.new v.new)
        ≡ told (full_outcome binary64 rows cols (chosen limit credit tolerance absolute floor)
        (work matrix.old u.old v.old)) }
{
    let settings = choose(limit, credit, tolerance, absolute, floor);
    let report = full_svd_decomposition(matrix, u, v, rows, cols, settings);
    Answer::from(report)
}

// The split with U and V kept, and its values in a list, largest first; the columns of U and V move with
// them, and the sign of a value goes to its column of U. 12 and 13 come after the run: they leave the
// table, U and V as the run has them, and the list as it was.
#[unsafe(no_mangle)]
pub extern "C" fn merotunki_ordered_svd(
    matrix: &mut [f64],
    u: &mut [f64],
    v: &mut [f64],
    values: &mut [f64],
    rows: usize,
    cols: usize,
    limit: usize,
    credit: usize,
    tolerance: f64,
    absolute: f64,
    floor: f64,
) -> Answer
    ensures { listed (answered result (work matrix.new u.new v.new))
        values.new
        ≡ told_in_order (ordered_outcome binary64 rows cols (chosen limit credit tolerance absolute floor)
        (work matrix.old u.old v.old) values.old) }
{
    let settings = choose(limit, credit, tolerance, absolute, floor);
    let report = ordered_svd_decomposition(matrix, u, v, values, rows, cols, settings);
    Answer::from(report)
}

// The split of the table alone, with the settings of a profile: 1 is a vane's, 2 a hot wire's, 3 an
// ultrasonic anemometer's, 4 a smoke tube's. Any other number is refused by 10, in the place of 6 and 7.
#[unsafe(no_mangle)]
pub extern "C" fn merotunki_profile_svd(
    matrix: &mut [f64],
    rows: usize,
    cols: usize,
    profile: usize,
) -> Answer
    ensures { answered result (work matrix.new [] [])
        ≡ told (profile_plain binary64 rows cols profile matrix.old) }
{
    let report = profile_svd_decomposition(matrix, rows, cols, profile);
    Answer::from(report)
}

// The same with U and V kept.
#[unsafe(no_mangle)]
pub extern "C" fn merotunki_profile_full_svd(
    matrix: &mut [f64],
    u: &mut [f64],
    v: &mut [f64],
    rows: usize,
    cols: usize,
    profile: usize,
) -> Answer
    ensures { answered result (work matrix.new u.new v.new)
        ≡ told (profile_full binary64 rows cols profile
        (work matrix.old u.old v.old)) }
{
    let report = profile_full_svd_decomposition(matrix, u, v, rows, cols, profile);
    Answer::from(report)
}

// The same with U and V kept, and its values in a list, largest first.
#[unsafe(no_mangle)]
pub extern "C" fn merotunki_profile_ordered_svd(
    matrix: &mut [f64],
    u: &mut [f64],
    v: &mut [f64],
    values: &mut [f64],
    rows: usize,
    cols: usize,
    profile: usize,
) -> Answer
    ensures { listed (answered result (work matrix.new u.new v.new))
        values.new
        ≡ told_in_order (profile_ordered binary64 rows cols profile
        (work matrix.old u.old v.old) values.old) }
{
    let report = profile_ordered_svd_decomposition(matrix, u, v, values, rows, cols, profile);
    Answer::from(report)
}

// The settings of a profile.
#[unsafe(no_mangle)]
pub extern "C" fn merotunki_profile(profile: usize) -> ProfileAnswer
    ensures { picked_by result ≡ picked binary64 profile }
{
    ProfileAnswer::from(pick(profile))
}

// Fills a with the identity of n rows and n columns. Answers 0, or the number of a refusal, which
// writes nothing: 1, 2 or 4.
#[unsafe(no_mangle)]
pub extern "C" fn merotunki_identity(a: &mut [f64], n: usize) -> u64
    ensures { filled result a.new ≡ fill_outcome n a.old }
{
    match identity_flat(a, n) {
        Ok(()) => 0,
        Err(unfit) => unfit.number(),
    }
}

// Where row `row` of U (side 0) or of V (side 1) lies; no entries where that is not fit.
#[unsafe(no_mangle)]
pub extern "C" fn merotunki_row<'a>(
    u: &'a [f64],
    v: &'a [f64],
    rows: usize,
    cols: usize,
    side: usize,
    row: usize,
) -> Part
    ensures { result ≡ part_of rows cols u.now v.now side row }
{
    let view = row_view(rows, cols, u, v, side, row);
    let size = view.len();
    if size == 0 {
        return Part {
            start: 0,
            length: 0,
        };
    }
    let start = row * size;
    Part {
        start: start as u64,
        length: size as u64,
    }
}

// The root of x, the nearest double to it.
#[unsafe(no_mangle)]
pub extern "C" fn merotunki_square_root(x: f64) -> f64
    ensures value { result ≡ square_root binary64 x }
    ensures nearest { RootIs x result }
{
    float::square_root(x)
}

// The default settings.
#[unsafe(no_mangle)]
pub extern "C" fn merotunki_defaults() -> Choice
    ensures { of_choice result ≡ defaults }
{
    Choice::from(Settings::new())
}

// The number of the layout of the structs above. It rises whenever one of them changes, so that a
// program can tell whether the library it was linked with is the one it was written for.
#[unsafe(no_mangle)]
pub extern "C" fn merotunki_layout() -> u64
    ensures { result ≡ layout }
{
    3
}
