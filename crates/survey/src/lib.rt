// The survey text, and what the program `split` prints of it.
#![tactic(auto)]

ghost use Rattle.std.specs.Prelude.{◌≡◌, [], ◌*◌, ◌<◌, ◌≤◌, IfErr, length, take};
ghost use Rattle.std.specs.Float.{binary64};
ghost use Rattle.method.specs.Work.{work};
ghost use Rattle.method.specs.Outcome.{outcome_of, plain_outcome};
ghost use Rattle.method.specs.Defaults.{defaults};
ghost use Rattle.svd.specs.Values.{report_of};
ghost use Rattle.survey.specs.Print.{survey_text};
ghost use Rattle.text.specs.Page.{Writes};
ghost use Rattle.survey.specs.Code.{survey_of, line_of, LeavesLine};
ghost use Rattle.survey.specs.Found.{InRange};
ghost use Rattle.survey.specs.Answers.{Promised, InputPromised};

use crate::reading::{Entry, Malformed, READINGS, body, contents};
use crate::writing::{put_malformed, put_outcome};
use checks::refusal::Refusal;
use checks::settings::Settings;
use svd::report::Report;
use text::page::Page;

mod reading;
mod writing;

// How many bytes of an input settle what is printed of it: one more than the longest well-formed
// text has.
// Kept: this number and the next are written out, as in specs/Sizes, whose theorems are on them.
pub const ENOUGH: usize = 313443;

// Room for whatever is printed.
pub const ROOM: usize = 314000;

// The plain call at default settings on the first rows x cols readings of m.
// Kept: rows and cols stand apart, as `plain_outcome` and svd_decomposition take them.
fn decomposed(m: &mut [f64], rows: usize, cols: usize) -> Result<Report, Refusal>
    requires { (rows ≤ 48) × (cols ≤ 48) × (rows * cols ≤ length m.old) }
    ensures { (outcome_of (report_of result) (work (take (rows * cols) m.new) [] [])
        ≡ plain_outcome binary64 rows cols defaults (take (rows * cols) m.old))
        × (length m.new ≡ length m.old) }
{
    let n = rows * cols;
    svd::interface::svd_decomposition(&mut m[..n], rows, cols, Settings::new())
}

// What is printed of the survey whose readings stand first in m.
// Kept: m has room for the largest survey, and e says how much of it is used: there is no Vec.
fn put_survey(page: &mut Page, e: Entry, m: &mut [f64; READINGS])
    requires { InRange e }
    ensures { Writes page.old (survey_text (survey_of e (take (e.rows * e.cols) m.old))) page.new }
{
    let answer = decomposed(m, e.rows, e.cols);
    put_outcome(page, e, answer, m);
}

// Writes what is printed of each survey that is complete before the first malformed line; or answers
// that line. Built into the program `split` its readings would take stack, 20 KB, before the input is read.
#[inline(never)]
fn put_surveys(page: &mut Page, text: &[u8]) -> Result<(), Malformed>
    requires { page.old.at ≡ 0 }
    ensures line { LeavesLine text.now page.old page.new (line_of result) }
    ensures malformed { IfErr result (λ e. 0 < e.line) }
{
    let head = contents(text)?;
    let mut m = [0.0; READINGS];
    let mut left = head.bodies;
    for e in &head.es[..head.count] {
        left = body(left, e.rows, e.cols - 1, &mut m)?;
        put_survey(page, *e, &mut m);
    }
    if !left.text.is_empty() {
        return Err(Malformed { line: left.line });
    }
    Ok(())
}

// The whole of what `split` prints of the bytes `text`, written into out from its first byte on, where there is
// always room; how many bytes it has. What follows them in out stays as it was.
// Kept: a count beside the lent array, as `Promised` has it: there is no heap for a text to hand back.
pub fn split_text(text: &[u8], out: &mut [u8; ROOM]) -> usize
    ensures { Promised text.now out.old out.new result }
{
    let mut page = Page::new(out);
    if let Err(malformed) = put_surveys(&mut page, text) {
        put_malformed(&mut page, malformed.line);
    }
    page.at
}

// What `split` prints of an input whose first bytes are the first n of `read`: either n are all that
// it has, or `read` is full of them. The promise is of every such input, however long it is.
// Kept: n beside the array that was read, as the clause has it (`take n read.now`).
pub fn split_input(read: &[u8; ENOUGH], n: usize, out: &mut [u8; ROOM]) -> usize
    ensures { InputPromised (take n read.now) out.old out.new result }
{
    split_text(&read[..n.min(ENOUGH)], out)
}
