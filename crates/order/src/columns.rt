// The first columns of a square table moved in place, row by row, by way of 48 floats of scratch.
ghost use Rattle.std.specs.Prelude.{◌≡◌, ◌+◌, ◌*◌, ◌≤◌, length, get_or, set};
ghost use Rattle.std.specs.Float.{nan};
ghost use Rattle.method.specs.Floats.{signed_if};
ghost use Rattle.method.specs.Repeated.{repeated};
ghost use Rattle.method.specs.Settings.{most_size};
ghost use Rattle.method.specs.Order.{columns_moved};
ghost use Rattle.order.specs.Room.{Within, listed, signs_by};

use crate::diagonal::Diagonal;
use checks::sizes::MOST_SIZE;
use float::negative;

// x, negated where signs are asked for and d has its sign bit set.
// Kept: `copysign` gives x the sign of d, and here x is negated by it.
fn signed_if(signs: bool, d: f64, x: f64) -> f64
    ensures { result ≡ signed_if signs d x }
{
    if signs && negative(d) { -x } else { x }
}

// Entry `at` + k of a: entry p[k] of w, with the sign of the diagonal's entry p[k] where signs are
// asked for.
fn write_row(a: &mut [f64], at: usize, p: &[usize], w: &[f64], d: Diagonal<'_>, signs: bool)
    requires { Within d.c p.now × (at + d.c ≤ length a.old) × (d.c ≤ length w.now) }
    ensures { a.new
        ≡ repeated 0 d.entry.c
        (λ k s. set s (at + k) (signs_by signs d.entry.cols d.entry.c p.now d.entry.b.now k
        (get_or w.now (listed d.entry.c p.now k) nan))) a.old }
{
    for k in 0..d.c {
        let q = p[k];
        a[at + k] = signed_if(signs, d.at(q), w[q]);
    }
}

// Column k becomes column p[k], for each k below the diagonal's c, with its sign where signs are asked
// for.
// Kept: p and `Within` by themselves: a struct of both would be made once and taken apart by all three of its users.
// Kept: `signs` is a flag, as the definition `signs_by` and two must-fail edits have it.
pub(crate) fn columns(a: &mut [f64], n: usize, p: &[usize], d: Diagonal<'_>, signs: bool)
    requires { Within d.c p.now × (n ≤ most_size) × (d.c ≤ n) × (length a.old ≡ n * n) }
    ensures { a.new
        ≡ columns_moved n d.entry.c (listed d.entry.c p.now)
        (signs_by signs d.entry.cols d.entry.c p.now d.entry.b.now) a.old }
{
    let mut w = [0.0; MOST_SIZE];
    for i in 0..n {
        let at = i * n;
        w[..d.c].copy_from_slice(&a[at..at + d.c]);
        write_row(a, at, p, &w, d, signs);
    }
}
