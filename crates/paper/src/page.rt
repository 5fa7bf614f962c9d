// The page of a number: what its root starts with, every turn, the rounding, the result, and the two
// comparisons that show it nearest. The numbers of the turns are those of float::paper.
use float::paper::{Start, TURNS};
use std::fmt;
use std::num::FpCategory;
use text::numerals::places;

fn yes_or_no(yes: bool) -> &'static str {
    if yes { "yes" } else { "no" }
}

// The bits of a number.
// Kept: limits prints bits in lower case and survey by a clause: a format is all that they could share.
#[derive(Clone, Copy)]
struct Pattern(f64);

impl fmt::Display for Pattern {
    fn fmt<W: fmt::Write>(&self, f: &mut fmt::Formatter<W>) -> fmt::Result {
        write!(f, "pattern {:016X}", float::to_bits(self.0))
    }
}

// The columns: their heads, the line before the first turn, and the line after each. A trial was taken
// where the root grew.
// Kept: the widths stand in the strings, side by side; with names each would be an argument and a `$`.
#[derive(Clone, Copy)]
struct Turns(f64);

impl fmt::Display for Turns {
    fn fmt<W: fmt::Write>(&self, f: &mut fmt::Formatter<W>) -> fmt::Result {
        let x = self.0;
        writeln!(
            f,
            "{:>6}{:>19}{:>19}{:>6}{:>19}{:>19}",
            "turn", "bit", "trial", "taken", "remainder", "root"
        )?;
        let mut before = float::paper::page(x, 0);
        writeln!(
            f,
            "{:6}{:19}{:>25}{:19}{:19}",
            0, before.bit, "-", before.remainder, before.root
        )?;
        for turn in 1..=TURNS {
            let line = float::paper::page(x, turn);
            let taken = yes_or_no(before.root < line.root);
            writeln!(
                f,
                "{turn:6}{:19}{:19}{taken:>6}{:19}{:19}",
                line.bit, line.trial, line.remainder, line.root
            )?;
            before = line;
        }
        Ok(())
    }
}

// 2^52. A root of so many last places is a power of two, and the double before it is only half as far
// away as the one after it.
// Kept: float has the same number for the first bit of what the root is taken of, not for a root.
const POWER_OF_TWO: u64 = 1 << 52;

fn square(n: u64) -> u128 {
    u128::from(n) * u128::from(n)
}

// The number lies between the squares of the two midpoints. A root has 53 binary digits: no midpoint
// is below zero, or too large.
#[derive(Clone, Copy)]
struct Nearest {
    number: u64,
    rounded: u64,
}

impl fmt::Display for Nearest {
    fn fmt<W: fmt::Write>(&self, f: &mut fmt::Formatter<W>) -> fmt::Result {
        let Nearest { number, rounded } = *self;
        let down = if rounded == POWER_OF_TWO { 1 } else { 2 };
        let first = square((rounded << 2).saturating_sub(down));
        let second = u128::from(number) << 56;
        let third = square((rounded << 2).saturating_add(2));
        // A root has 16 digits: with 21 columns for the number all lines are as long up to the equals sign.
        let spaces = 21usize.saturating_sub(places(number));
        writeln!(f, "  nearest, in quarters of the last place:")?;
        writeln!(f, "    (4 * {rounded} - {down})^2 = {first}")?;
        writeln!(f, "    {number} * 2^56{:spaces$} = {second}", "")?;
        writeln!(f, "    (4 * {rounded} + 2)^2 = {third}")?;
        writeln!(
            f,
            "    the first is below the second: {}",
            yes_or_no(first < second)
        )?;
        writeln!(
            f,
            "    the second is below the third: {}",
            yes_or_no(second < third)
        )
    }
}

// The page of a positive finite number. The root is that of number * 2^52, times 2^power smallest
// values of 2^-1074 each: so it is that of the number, times 2^(power - 1048).
// Kept: each exponent stands once, behind the 2^ that it belongs to; a name would say no more.
#[derive(Clone, Copy)]
struct Root(f64);

impl fmt::Display for Root {
    fn fmt<W: fmt::Write>(&self, f: &mut fmt::Formatter<W>) -> fmt::Result {
        let x = self.0;
        let Start { number, power } = float::paper::halved(x);
        let power = i128::from(power);
        let root = float::paper::page(x, TURNS).root;
        let rounded = float::paper::rounded(root);
        writeln!(
            f,
            "  x = {number} * 2^{}, its root is that of {number}, times 2^{}",
            2 * power - 2096,
            power - 1048
        )?;
        write!(f, "{}", Turns(x))?;
        writeln!(f, "  rounded ({root} + 2) / 4 = {rounded}")?;
        writeln!(
            f,
            "  root {rounded} * 2^{}, {}",
            power - 1074,
            Pattern(float::square_root(x))
        )?;
        write!(f, "{}", Nearest { number, rounded })
    }
}

// The pattern of a number, and its page where it has one.
#[derive(Clone, Copy)]
pub(crate) struct Page(pub(crate) f64);

impl fmt::Display for Page {
    fn fmt<W: fmt::Write>(&self, f: &mut fmt::Formatter<W>) -> fmt::Result {
        let x = self.0;
        let root = Pattern(float::square_root(x));
        writeln!(f, "  {}", Pattern(x))?;
        match x.classify() {
            FpCategory::Nan => writeln!(f, "  no number: the root is NaN, {root}"),
            FpCategory::Zero => writeln!(f, "  a zero: the root is itself, {root}"),
            _ if x < 0.0 => writeln!(f, "  below zero: the root is NaN, {root}"),
            FpCategory::Infinite => writeln!(f, "  infinite: the root is itself, {root}"),
            _ => write!(f, "{}", Root(x)),
        }
    }
}
