// The identity fill (svd/primitives.rs), which a caller runs on U and V before the accumulating call.
ghost use Rattle.std.specs.Prelude.{◌≡◌, ◌*◌, ◌≤◌, replicate};
ghost use Rattle.method.specs.Floats.{plus_zero};
ghost use Rattle.method.specs.Settings.{most_size};
ghost use Rattle.method.specs.Fill.{identity, filled, fill_outcome};
ghost use Rattle.factors.specs.Fill.{unfit_number, fill_number_of};

use crate::MOST_SIZE;

// Why a fill is refused.
#[derive(Clone, Copy, Debug, PartialEq, Eq)]
pub enum Unfit {
    NoSize,
    TooLarge,
    WrongLength,
}

impl Unfit {
    // The number by which the refusal is handed on.
    pub fn number(self) -> u64
        ensures { result ≡ unfit_number self }
    {
        match self {
            Unfit::NoSize => 1,
            Unfit::TooLarge => 2,
            Unfit::WrongLength => 4,
        }
    }
}

// 1 down the diagonal of n x n zeros.
// Kept: of what `iter_mut().step_by(n + 1)` lends a proof knows no entry, and the clause says each.
fn ones(a: &mut [f64], n: usize)
    requires { (n ≤ most_size) × (a.old ≡ replicate (n * n) plus_zero) }
    ensures { a.new ≡ identity n }
{
    for i in 0..n {
        let at = i * n + i;
        a[at] = 1.0;
    }
}

// Fills a with the identity of n rows and n columns. It is refused, and nothing is written, where n is
// 0, where n is above 48 and where a has another length than n x n.
// Kept: n goes beside a, as the definition `fill_outcome` takes both and refuses a wrong length.
pub fn identity_flat(a: &mut [f64], n: usize) -> Result<(), Unfit>
    ensures { filled (fill_number_of result) a.new ≡ fill_outcome n a.old }
{
    if n == 0 {
        return Err(Unfit::NoSize);
    }
    if n > MOST_SIZE {
        return Err(Unfit::TooLarge);
    }
    if a.len() != n * n {
        return Err(Unfit::WrongLength);
    }
    a.fill(0.0);
    ones(a, n);
    Ok(())
}
