// Whether what a walk left of a table is quiet: every coupling inside its live corner is +0 or -0.
#![tactic(auto)]

ghost use Rattle.std.specs.Prelude.{◌≡◌, get_or};
ghost use Rattle.std.specs.Float.{nan};
ghost use Rattle.method.specs.Floats.{is_zero};
ghost use Rattle.method.specs.Quiet.{quiet_corner};

// Whether x is +0 or -0.
// Kept: a function for `==`, since its clause says of the comparison that it is the definition `is_zero`.
fn zero(x: f64) -> bool
    ensures { result ≡ is_zero x }
{
    x == 0.0
}

// Whether a zero stands at a place of the list; there is none behind its end.
fn zero_at(b: &[f64], at: usize) -> bool
    ensures { result ≡ is_zero (get_or b.now at nan) }
{
    b.get(at).is_some_and(|x| zero(*x))
}

// Whether the corner of a range is quiet, in a table whose rows start `stride` entries apart. Its
// couplings stand right of the diagonal in the upper form and below it in the lower, from one to the
// next a row and an entry further. One that lies behind the end of the list is not zero.
// Kept: `upper` is a flag and b has its stride beside it, as the definition `quiet_corner` takes them.
pub fn is_quiet(b: &[f64], stride: usize, upper: bool, range: usize) -> bool
    ensures { result ≡ quiet_corner upper stride range b.now }
{
    let mut at = if upper { 1 } else { stride };
    for _ in 1..range {
        if !zero_at(b, at) {
            return false;
        }
        at = at.saturating_add(stride).saturating_add(1);
    }
    true
}
