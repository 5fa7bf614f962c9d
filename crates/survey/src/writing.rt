// Lines written on the page that is printed.
// Kept: no Display: `split_text` promises the bytes of a lent array, and `Writes` says what each puts there.
// Kept: each takes what its definition in specs does: `report_text` an id, `rows_text` r, c and readings.
ghost use Rattle.std.specs.Prelude.{Ok, Err, [], ◌∷◌, ◌*◌, ◌<◌, ◌≤◌, length, take};
ghost use Rattle.method.specs.Work.{work};
ghost use Rattle.method.specs.Outcome.{outcome_of};
ghost use Rattle.svd.specs.Values.{report_of, word_in};
ghost use Rattle.text.specs.Text.{space};
ghost use Rattle.text.specs.Page.{Writes};
ghost use Rattle.survey.specs.Print.{row_text, rows_text, word_text};
ghost use Rattle.survey.specs.Print.{report_text, refused_text, outcome_text, malformed_text};

use crate::reading::Entry;
use checks::refusal::Refusal;
use svd::report::{Report, Word};
use text::page::Page;

// A space, and the report's word.
fn put_word(page: &mut Page, word: Word)
    ensures { Writes page.old (space ∷ word_text (word_in word)) page.new }
{
    match word {
        Word::Settled => page.put(b" settled"),
        Word::Stopped => page.put(b" stopped"),
        Word::Quiet => page.put(b" quiet"),
    }
}

// A line of readings.
fn put_row(page: &mut Page, row: &[f64])
    ensures { Writes page.old (row_text row.now) page.new }
{
    for (k, x) in row.iter().enumerate() {
        page.put_hex(16, float::to_bits(*x));
        if k + 1 < row.len() {
            page.put(b" ");
        } else {
            page.put(b"\n");
        }
    }
}

// r lines of c readings.
fn put_rows(page: &mut Page, m: &[f64], r: usize, c: usize)
    requires { r * c ≤ length m.now }
    ensures { Writes page.old (rows_text r c m.now) page.new }
{
    let mut left = m;
    for _ in 0..r {
        let (row, rest) = left.split_at(c);
        put_row(page, row);
        left = rest;
    }
}

// The line of an accepted survey: `id word passes sweeps drops range rotations`.
// Kept: a line for each field: a loop over an array of them says the same in more words.
fn put_report(page: &mut Page, id: u64, report: Report)
    ensures { Writes page.old (report_text id (report_of (Ok report))) page.new }
{
    page.put_decimal(id);
    put_word(page, report.word);
    page.put_field(report.tally.passes as u64);
    page.put_field(report.tally.sweeps as u64);
    page.put_field(report.tally.drops as u64);
    page.put_field(report.tally.range as u64);
    page.put_field(report.tally.rotations as u64);
    page.put(b"\n");
}

// The line of a survey that the call refuses: `id refused number row column count`.
fn put_refused(page: &mut Page, id: u64, refusal: Refusal)
    ensures { Writes page.old (refused_text id (report_of (Err refusal))) page.new }
{
    let place = refusal.place();
    page.put_decimal(id);
    page.put(b" refused");
    page.put_field(refusal.number() as u64);
    page.put_field(place.row as u64);
    page.put_field(place.column as u64);
    page.put_field(place.bad as u64);
    page.put(b"\n");
}

// What the call says of a survey, whose matrix are the first readings of m.
pub(crate) fn put_outcome(page: &mut Page, e: Entry, answer: Result<Report, Refusal>, m: &[f64])
    requires { e.rows * e.cols ≤ length m.now }
    ensures { Writes page.old
        (outcome_text e.id e.rows e.cols
        (outcome_of (report_of answer) (work (take (e.rows * e.cols) m.now) [] [])))
        page.new }
{
    match answer {
        Ok(report) => {
            put_report(page, e.id, report);
            put_rows(page, m, e.rows, e.cols);
        }
        Err(refusal) => put_refused(page, e.id, refusal),
    }
}

// The line of a text whose first malformed line is line n: `refused 9 n`.
// Kept: 9 is the number of no refusal of a call; `malformed_text` alone has it.
pub(crate) fn put_malformed(page: &mut Page, n: usize)
    requires { 0 < n }
    ensures { Writes page.old (malformed_text n) page.new }
{
    page.put(b"refused");
    page.put_field(9);
    page.put_field(n as u64);
    page.put(b"\n");
}
