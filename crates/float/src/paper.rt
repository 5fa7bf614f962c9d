// The square root as it is found on paper (docs/ROOT.md): one binary digit a turn, the remainder in
// plain view. Additions, subtractions, comparisons and shifts of whole numbers are all that is used.
// `Line` is one line of the page and `turn` makes the next one. Before the first turn the exponent is
// halved, after the last one the last bit is rounded. `page`, `halved` and `rounded` show each step of
// any double, by the same functions that the root itself is made of.
ghost use Rattle.std.specs.Prelude.{◌≡◌, ◌+◌, ◌*◌, ◌^◌, ◌<◌, ◌≤◌};
ghost use Rattle.std.specs.Float.{binary64};
ghost use Rattle.std.specs.Float.Ieee.{of_bits};
ghost use Rattle.method.specs.Root.{rooted, count, square};
ghost use Rattle.method.specs.Root.Paper.{first as first_of, turn as turn_of, turns as turnsOf};
ghost use Rattle.method.specs.Root.Paper.{rounded as roundedOf, halved as halvedOf, page as page_of};
ghost use Rattle.float.specs.Values.{line_in, start_in};

// How many turns find all digits.
pub const TURNS: u64 = 54;

// The leading one of a value's 53 digits, which its pattern leaves out.
const LEADING: u64 = 1 << 52;

// What remains, what was tried last, the root so far, and the bit that goes with them. The square of
// the root and 4 * bit * remainder are together number * 2^56, whose root is sought.
// Kept: before the first turn the trial is 0 and no None, as the definition `first` has it.
#[derive(Clone, Copy, Debug, PartialEq, Eq)]
pub struct Line {
    pub remainder: u64,
    pub trial: u64,
    pub root: u64,
    pub bit: u64,
}

impl Line {
    // Before the first turn nothing is found, and all of the number remains.
    fn first(number: u64) -> Line
        ensures { line_in result ≡ first_of 54 number }
    {
        Line {
            remainder: number,
            trial: 0,
            root: 0,
            bit: 1 << TURNS,
        }
    }

    // One turn: the bit is halved, the remainder doubled, and the root so far and the bit are tried. A
    // trial that the remainder has room for is taken off it, and the root goes up to the trial and a
    // bit further. Written so, both are chosen by a select and not by a branch.
    fn turn(self) -> Line
        requires { (self.remainder < 2 ^ 63) × (self.root + self.bit < 2 ^ 63) }
        ensures { line_in result ≡ turn_of (line_in self) }
    {
        let bit = self.bit >> 1;
        let mut remainder = self.remainder + self.remainder;
        let trial = self.root + bit;
        let mut root = self.root;
        if trial <= remainder {
            remainder = remainder - trial;
            root = trial + bit;
        }
        Line {
            remainder,
            trial,
            root,
            bit,
        }
    }

    // The line after so many turns.
    fn after(number: u64, many: u64) -> Line
        requires { (number < 2 ^ 54) × (many ≤ 54) }
        ensures { line_in result ≡ turnsOf many (first_of 54 number) }
    {
        let mut line = Line::first(number);
        for _ in 0..many {
            line = line.turn();
        }
        line
    }
}

// The last bit is rounded: the root counts quarters of the last place that is kept, and half of a
// place is rounded up.
pub fn rounded(root: u64) -> u64
    ensures { result ≡ roundedOf root }
{
    ((root >> 1) + 1) >> 1
}

// A number of 53 binary digits, and the power of two that it is times.
// Kept: not one type with `Start`, since the power is the value's here and the root's there.
#[derive(Clone, Copy, Debug, PartialEq, Eq)]
struct Scaled {
    digits: u64,
    power: u64,
}

impl Scaled {
    // The value of the pattern `bits`, times 2^1022, in units of the smallest value.
    // Kept: no count of leading zeros, since docs/ROOT.md promises sums, differences, comparisons and shifts alone.
    // Kept: the exponents are numbers, as the clause has them: a name would have to be looked up beside it.
    fn of(bits: u64) -> Scaled
        requires { (0 < bits) × (bits < 2047 * 2 ^ 52) }
        ensures { (2 ^ 52 ≤ result.digits) × (result.digits < 2 ^ 53) × (result.power < 3068)
            × (result.digits * 2 ^ result.power ≡ count binary64 (of_bits binary64 bits) * 2 ^ 1022) }
    {
        let field = bits >> 52;
        let mut digits = bits - (field << 52);
        let mut power: u64 = 1022;
        if field > 0 {
            digits += LEADING;
            power = field + 1021;
        }
        while digits < LEADING {
            digits += digits;
            power -= 1;
        }
        Scaled { digits, power }
    }

    // The exponent is halved: where it is odd, one 2 stays with the number.
    fn halve(self) -> Start
        requires { (2 ^ 52 ≤ self.digits) × (self.digits < 2 ^ 53) × (self.power < 3068) }
        ensures { (2 ^ 52 ≤ result.number) × (result.number < 2 ^ 54) × (result.power < 1534)
            × (self.digits * 2 ^ self.power ≡ result.number * 2 ^ (result.power + result.power)) }
    {
        let power = self.power >> 1;
        let mut number = self.digits;
        if power + power < self.power {
            number += number;
        }
        Start { number, power }
    }
}

// A number, and the power of two that its root is times: the root sought is that of number * 2^52,
// times 2^power, in units of the smallest value. By default nothing is to be found.
// Kept: the bounds stand in the clauses: with a ghost field for them no Default can be derived.
#[derive(Clone, Copy, Debug, Default, PartialEq, Eq)]
pub struct Start {
    pub number: u64,
    pub power: u64,
}

impl Start {
    // What the page of the value of a pattern starts with.
    // Kept: three functions, one within the other, ask this of bits: a type for it would be opened at once.
    fn of(bits: u64) -> Start
        requires { (0 < bits) × (bits < 2047 * 2 ^ 52) }
        ensures { (result.number < 2 ^ 54) × (result.power < 1534) × (0 < count binary64 (of_bits binary64 bits))
            × (start_in result ≡ halvedOf binary64 (of_bits binary64 bits)) }
    {
        Scaled::of(bits).halve()
    }
}

// The pattern of the root of the value whose pattern is `bits`.
pub(crate) fn root_bits(bits: u64) -> u64
    requires { (0 < bits) × (bits < 2047 * 2 ^ 52) }
    ensures { (result < 2047 * 2 ^ 52)
        × (of_bits binary64 result ≡ rooted binary64 (square binary64 (of_bits binary64 bits))) }
{
    let start = Start::of(bits);
    let last = Line::after(start.number, TURNS);
    (start.power << 52) + rounded(last.root)
}

// What the page of x starts with. The sign is left out; of an infinity and a NaN the number is 0, as
// of a zero.
// Kept: number 0 and no None where there is no page, as the definitions `halved` and `page` have it.
// Kept: square_root sorts out the same values, but answers x or NaN where this has nothing to find.
pub fn halved(x: f64) -> Start
    ensures { start_in result ≡ halvedOf binary64 x }
{
    let size = x.abs();
    if size == 0.0 || !size.is_finite() {
        return Start::default();
    }
    Start::of(size.to_bits())
}

// The line of the page of x after so many turns. After 54 all digits are found, and no further turn is
// made.
pub fn page(x: f64, many: u64) -> Line
    ensures { line_in result ≡ page_of binary64 x many }
{
    let start = halved(x);
    Line::after(start.number, many.min(TURNS))
}
