// Reflections (francis/primitives.rs): how one is made of a run of entries, and what it does to a
// row-major table from the left and from the right, sums in the Rust's order.
// Kept: a window's rows go by index: of what `chunks_mut` lends no entry is known.
// Kept: of two slices one goes by index: zipped with `iter_mut`, no invariant can name the entries written.
// Kept: a vector has room for 48 entries, however many are used, since there is no Vec.
ghost use Rattle.std.specs.Prelude.{◌≡◌, ◌+◌, ◌*◌, ◌≤◌, ◌<◌, length};
ghost use Rattle.std.specs.Float.{binary64};
ghost use Rattle.method.specs.Reflection.{blank, line_copied, line_cleared, times_from};
ghost use Rattle.method.specs.Reflection.{largest_of, scaled, squares_of, reflection_of};
ghost use Rattle.method.specs.Reflection.{row_times, row_less, row_reflected, reflected_right};
ghost use Rattle.method.specs.Reflection.{row_added, column_sums, row_less_all, row_less_times, rows_less, reflected_left};
ghost use Rattle.method.specs.Settings.{most_size};
ghost use Rattle.svd.specs.Values.{reflected, Framed};

use crate::window::Window;
use checks::sizes::MOST_SIZE;

// A reflection: its vector, whose head is 1, and its tau. Where tau is 0 it leaves all as it is.
// Kept: made in a lent blank one: handed back by value it is copied, and a call takes 1,900 bytes of stack more.
// Kept: tau 0 and no Option, as `column_matrix`, `row_matrix` and `factor_reflected` of method test it.
#[derive(Clone, Copy, Debug, PartialEq)]
pub struct Reflection {
    pub vector: [f64; MOST_SIZE],
    pub tau: f64,
}

impl Reflection {
    // One that nothing has been made of.
    pub(crate) fn blank() -> Reflection
        ensures { result.vector ≡ blank }
    {
        Reflection {
            vector: [0.0; MOST_SIZE],
            tau: 0.0,
        }
    }
}

// The line of n entries from `at` on, `step` apart, in a vector that comes blank.
pub(crate) fn copy_line(a: &[f64], w: &mut [f64; MOST_SIZE], at: usize, step: usize, n: usize)
    requires { (at + n * step < length a.now + step) × (n ≤ most_size) × (w.old ≡ blank) }
    ensures { w.new ≡ line_copied at step n a.now }
{
    // Kept: with `iter().step_by(step)` the invariant has no k and follows three adapters, one in another.
    for k in 0..n {
        let i = at + k * step;
        w[k] = a[i];
    }
}

// That line, set to 0.
// Kept: `at`, `step` and n, as `line_cleared` takes them and two edits (refused_call_writes) hand them.
pub(crate) fn clear_line(a: &mut [f64], at: usize, step: usize, n: usize)
    requires { at + n * step < length a.old + step }
    ensures { a.new ≡ line_cleared at step n a.old }
{
    // Kept: entries `step` apart, which `iter_mut().step_by(step)` lends with no clause on what is written.
    for k in 0..n {
        let i = at + k * step;
        a[i] = 0.0;
    }
}

// The entries, times x.
fn scale(w: &mut [f64], x: f64)
    ensures { w.new ≡ times_from binary64 x 0 (length w.old) w.old }
{
    for entry in w.iter_mut() {
        *entry *= x;
    }
}

// The largest magnitude among the entries.
fn largest(entries: &[f64]) -> f64
    ensures { result ≡ largest_of entries.now 0 (length entries.now) }
{
    let mut max = 0.0;
    for entry in entries {
        let x = float::magnitude(*entry);
        if x > max {
            max = x;
        }
    }
    max
}

// The entries, times x, into a blank vector.
// Kept: with the vector handed back by value the plain call of 48 x 48 takes 0.4 % more instructions.
// Kept: not `copy_from_slice` and then `scale`, which is one pass more; the definition `scaled` is of one.
fn scale_into(entries: &[f64], w: &mut [f64], x: f64)
    requires { (length entries.now ≤ most_size) × (w.old ≡ blank) }
    ensures { w.new ≡ scaled binary64 entries.now 0 x (length entries.now) }
{
    for (k, entry) in entries.iter().enumerate() {
        w[k] = entry * x;
    }
}

// The sum of the squares of the entries.
fn squares(entries: &[f64]) -> f64
    ensures { result ≡ squares_of binary64 entries.now (length entries.now) }
{
    let mut sum = 0.0;
    for entry in entries {
        sum += entry * entry;
    }
    sum
}

// Makes the reflection of the entries, and leaves in them what it makes of them.
pub(crate) fn params(entries: &mut [f64], made: &mut Reflection, floor: f64)
    requires { (1 ≤ length entries.old) × (length entries.old ≤ most_size) × (made.old.vector ≡ blank) }
    ensures { reflected entries.new made.new ≡
        reflection_of binary64 floor 0 (length entries.old) entries.old }
{
    let max = largest(entries);
    if max < floor {
        made.vector[0] = 1.0;
        made.tau = 0.0;
    } else {
        let n = entries.len();
        scale_into(entries, &mut made.vector, 1.0 / max);
        entries.fill(0.0);
        let sum = squares(&made.vector[..n]);
        let head = made.vector[0];
        let g = float::sign(head) * float::square_root(sum);
        let scaling = head + g;
        scale(&mut made.vector[1..n], 1.0 / scaling);
        entries[0] = (-g) * max;
        made.vector[0] = 1.0;
        made.tau = scaling / g;
    }
}

// The row times p, whose head counts as 1.
fn row_times(row: &[f64], p: &[f64]) -> f64
    requires { (1 ≤ length row.now) × (length row.now ≤ length p.now) }
    ensures { result ≡ row_times binary64 p.now 0 (length row.now) row.now }
{
    let mut sum = row[0];
    // Kept: with a zip of the tails `loop-x-preserved` stays open until an invariant follows both iterators.
    for k in 1..row.len() {
        sum += row[k] * p[k];
    }
    sum
}

// The row, less x times p, whose head counts as 1.
fn row_less(row: &mut [f64], p: &[f64], x: f64)
    requires { (1 ≤ length row.old) × (length row.old ≤ length p.now) }
    ensures { row.new ≡ row_less binary64 p.now x 0 (length row.old) row.old }
{
    row[0] -= x;
    row_less_times(&mut row[1..], &p[1..], x);
}

// The row, reflected.
fn reflect_row(row: &mut [f64], r: &Reflection)
    requires { (1 ≤ length row.old) × (length row.old ≤ most_size) }
    ensures { row.new ≡ row_reflected binary64 r.now.vector r.now.tau 0 (length row.old) row.old }
{
    let x = row_times(row, &r.vector) * r.tau;
    row_less(row, &r.vector, x);
}

// From the right: each row of the window by itself.
pub(crate) fn rapply_householder(a: &mut [f64], r: &Reflection, window: Window)
    requires { (1 ≤ window.cols) × (window.cols ≤ most_size) × Framed window a.old }
    ensures { a.new ≡ reflected_right binary64 r.now.vector r.now.tau
        window.stride window.row window.column window.rows window.cols a.old }
{
    for k in 0..window.rows {
        let start = window.start(k);
        reflect_row(&mut a[start..start + window.cols], r);
    }
}

// w plus x times the row.
// Kept: apart from `row_less_times`, as `row_added` of method is: one adds to w, one takes off the row.
fn add_row(w: &mut [f64], row: &[f64], x: f64)
    requires { length row.now ≤ length w.old }
    ensures { w.new ≡ row_added binary64 row.now x 0 (length row.now) w.old }
{
    for (l, y) in row.iter().enumerate() {
        w[l] += x * y;
    }
}

// The window's first row plus entry k of r's vector times its row k, for each k from 1 on, into a blank
// vector.
// Kept: with the vector handed back by value the plain call of 48 x 48 takes 0.2 % more instructions.
fn sum_columns(a: &[f64], r: &Reflection, w: &mut [f64], window: Window)
    requires { (1 ≤ window.rows) × (window.cols ≤ most_size) × Framed window a.now × (w.old ≡ blank) }
    ensures { w.new ≡ column_sums binary64 r.now.vector
        window.stride window.row window.column window.rows window.cols a.now }
{
    let first = window.start(0);
    w[..window.cols].copy_from_slice(&a[first..first + window.cols]);
    for k in 1..window.rows {
        let start = window.start(k);
        add_row(w, &a[start..start + window.cols], r.vector[k]);
    }
}

// The row, less w.
// Kept: not the next with x = 1: the definition multiplies nothing, and std has no law 1 * w = w of floats.
fn row_less_all(row: &mut [f64], w: &[f64])
    requires { length row.old ≤ length w.now }
    ensures { row.new ≡ row_less_all binary64 w.now 0 (length row.old) row.old }
{
    for (l, y) in row.iter_mut().enumerate() {
        *y -= w[l];
    }
}

// The row, less x times w.
fn row_less_times(row: &mut [f64], w: &[f64], x: f64)
    requires { length row.old ≤ length w.now }
    ensures { row.new ≡ row_less_times binary64 w.now x 0 (length row.old) row.old }
{
    for (l, y) in row.iter_mut().enumerate() {
        *y -= x * w[l];
    }
}

// The window's first row less w, and its row k less entry k of r's vector times w.
fn rows_less(a: &mut [f64], r: &Reflection, w: &[f64], window: Window)
    requires { (1 ≤ window.rows) × (window.cols ≤ length w.now) × Framed window a.old }
    ensures { a.new ≡ rows_less binary64 r.now.vector w.now
        window.stride window.row window.column window.rows window.cols a.old }
{
    let first = window.start(0);
    row_less_all(&mut a[first..first + window.cols], w);
    for k in 1..window.rows {
        let start = window.start(k);
        row_less_times(&mut a[start..start + window.cols], w, r.vector[k]);
    }
}

// From the left: the window's rows together.
// Kept: apart from the right, as `reflected_left` and `reflected_right`: here the rows' sums come first.
pub(crate) fn lapply_householder(a: &mut [f64], r: &Reflection, window: Window)
    requires { (1 ≤ window.rows) × (window.cols ≤ most_size) × Framed window a.old }
    ensures { a.new ≡ reflected_left binary64 r.now.vector r.now.tau
        window.stride window.row window.column window.rows window.cols a.old }
{
    let mut w = [0.0f64; MOST_SIZE];
    sum_columns(a, r, &mut w, window);
    scale(&mut w[..window.cols], r.tau);
    rows_less(a, r, &w, window);
}
