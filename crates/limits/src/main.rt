// Runs both calls at the bounds of what they accept, and with two faults at a time for every pair of
// neighbouring numbers. Prints for each the report (number, place, word, passes, sweeps, drops,
// range and rotations) and the entries of each list that are not +0, by place and bit pattern, as the call leaves
// them. Beside's program `limits` says what it has to print.
#![tactic(auto)]

use crate::Call::{Full, Plain};
use checks::place::Place;
use checks::refusal::Refusal;
use checks::settings::Settings;
use console::{print_decimal, print_hex};
use std::io;
use std::io::Write;
use svd::interface::{full_svd_decomposition, svd_decomposition};
use svd::report::{Report, Word};
use svd::tally::Tally;

// Which call is made, and how many entries the lists have: the matrix, or matrix, U and V.
#[derive(Clone, Copy)]
enum Call {
    Plain(usize),
    Full([usize; 3]),
}

// One call, by its name. The entries are the matrix's first and fourth.
#[derive(Clone, Copy)]
struct Case {
    name: &'static str,
    rows: usize,
    cols: usize,
    call: Call,
    entries: [f64; 2],
    settings: Settings,
}

// Room for a table of 49 x 49.
const LONGEST: usize = 49 * 49;

// Zeros, but for the first and the fourth.
// Kept: as long as the largest list, of which a case uses the first entries: there is no Vec.
fn table(entries: [f64; 2]) -> [f64; LONGEST] {
    let mut list = [0.0; LONGEST];
    list[0] = entries[0];
    list[3] = entries[1];
    list
}

// The entries of a list that are not +0, each with its place.
#[derive(Clone, Copy)]
struct Entries<'a>(&'a [f64]);

impl Entries<'_> {
    // A line of the list's name and these entries.
    // Kept: no Display: `print_decimal` and `print_hex` of console, with their clauses, print to an io::Write.
    fn print<W: Write>(self, out: &mut W, name: &[u8]) -> io::Result<()> {
        out.write_all(name)?;
        for (place, x) in self.0.iter().enumerate() {
            let bits = float::to_bits(*x);
            if bits != 0 {
                out.write_all(b" ")?;
                print_decimal(out, place as u64)?;
                out.write_all(b":")?;
                print_hex(out, bits, 16)?;
            }
        }
        out.write_all(b"\n")
    }
}

// Numbers, each behind a space.
fn print_numbers<W: Write>(out: &mut W, numbers: &[usize]) -> io::Result<()> {
    for number in numbers {
        out.write_all(b" ")?;
        print_decimal(out, *number as u64)?;
    }
    Ok(())
}

// The counts of a walk.
fn print_tally<W: Write>(out: &mut W, tally: Tally) -> io::Result<()> {
    let Tally {
        range,
        passes,
        sweeps,
        drops,
        rotations,
    } = tally;
    print_numbers(out, &[passes, sweeps, drops, range, rotations])
}

// A line of the name and the report: number, place, word and counts.
// Kept: survey has these words too, but as bytes that its clauses tie to `word_text` of its specs.
fn print_report<W: Write>(
    out: &mut W,
    name: &str,
    answer: Result<Report, Refusal>,
) -> io::Result<()> {
    out.write_all(name.as_bytes())?;
    out.write_all(b":")?;
    match answer {
        Ok(Report { word, tally }) => {
            print_numbers(out, &[0; 4])?;
            let word = match word {
                Word::Settled => " settled",
                Word::Stopped => " stopped",
                Word::Quiet => " quiet",
            };
            out.write_all(word.as_bytes())?;
            print_tally(out, tally)?;
        }
        Err(refusal) => {
            let Place { row, column, bad } = refusal.place();
            print_numbers(out, &[refusal.number(), row, column, bad])?;
            out.write_all(b" none")?;
            print_tally(out, Tally::default())?;
        }
    }
    out.write_all(b"\n")
}

impl Case {
    fn new(
        name: &'static str,
        [rows, cols]: [usize; 2],
        call: Call,
        entries: [f64; 2],
        settings: Settings,
    ) -> Case {
        Case {
            name,
            rows,
            cols,
            call,
            entries,
            settings,
        }
    }

    // Makes the call, and prints what it answers and leaves. U and V start with ones for the first and
    // the fourth entry.
    fn print<W: Write>(self, out: &mut W) -> io::Result<()> {
        let Case {
            name,
            rows,
            cols,
            call,
            entries,
            settings,
        } = self;
        let mut b = table(entries);
        let mut u = table([1.0, 1.0]);
        let mut v = table([1.0, 1.0]);
        match call {
            Plain(n) => {
                if let Some(b) = b.get_mut(..n) {
                    let report = svd_decomposition(b, rows, cols, settings);
                    print_report(out, name, report)?;
                    Entries(b).print(out, b"  b")?;
                }
            }
            Full(long) => {
                let [n, nu, nv] = long;
                if let Some(b) = b.get_mut(..n)
                    && let Some(u) = u.get_mut(..nu)
                    && let Some(v) = v.get_mut(..nv)
                {
                    let report = full_svd_decomposition(b, u, v, rows, cols, settings);
                    print_report(out, name, report)?;
                    Entries(b).print(out, b"  b")?;
                    Entries(u).print(out, b"  u")?;
                    Entries(v).print(out, b"  v")?;
                }
            }
        }
        Ok(())
    }
}

// The defaults with another limit.
fn settings(limit: usize) -> Settings {
    Settings {
        limit,
        ..Settings::new()
    }
}

// Those with a tolerance that is refused.
fn intolerant(limit: usize) -> Settings {
    Settings {
        tolerance: -1.0,
        ..settings(limit)
    }
}

// The entries of a matrix that is accepted, of another, and of one that is not.
const ONES: [f64; 2] = [1.0, 1.0];

const GOOD: [f64; 2] = [2.0, 1.0];

const BAD: [f64; 2] = [2.0, 1.0 / 0.0];

// How many entries U and V have at the greatest size, and a matrix with one row or column more.
const SQUARE: usize = 48 * 48;

const OBLONG: usize = 49 * 48;

// The greatest sizes, and one more.
fn sizes() -> [Case; 6] {
    let s = settings(0);
    [
        Case::new("plain 48 x 48", [48, 48], Plain(SQUARE), ONES, s),
        Case::new("plain 49 x 48", [49, 48], Plain(OBLONG), ONES, s),
        Case::new("plain 48 x 49", [48, 49], Plain(OBLONG), ONES, s),
        Case::new(
            "full 48 x 48",
            [48, 48],
            Full([SQUARE, SQUARE, SQUARE]),
            ONES,
            s,
        ),
        Case::new(
            "full 49 x 48",
            [49, 48],
            Full([OBLONG, LONGEST, SQUARE]),
            ONES,
            s,
        ),
        Case::new(
            "full 48 x 49",
            [48, 49],
            Full([OBLONG, SQUARE, LONGEST]),
            ONES,
            s,
        ),
    ]
}

// Limits: none, one, the greatest and one more.
// Kept: the bounds are written out: taken from Settings, they would pass whatever it says.
fn counts() -> [Case; 12] {
    let none = settings(0);
    let one = settings(1);
    let top = settings(100000);
    let over = settings(100001);
    let zeros = [0.0, 0.0];
    [
        Case::new("plain limit 0", [2, 2], Plain(4), GOOD, none),
        Case::new("plain limit 0 on zeros", [2, 2], Plain(4), zeros, none),
        Case::new("plain limit 100000", [2, 2], Plain(4), GOOD, top),
        Case::new("plain limit 100001", [2, 2], Plain(4), GOOD, over),
        Case::new("plain 4 x 4, limit 1", [4, 4], Plain(16), GOOD, one),
        Case::new("plain 4 x 4, limit 100000", [4, 4], Plain(16), GOOD, top),
        Case::new("full limit 0", [2, 2], Full([4; 3]), GOOD, none),
        Case::new("full limit 0 on zeros", [2, 2], Full([4; 3]), zeros, none),
        Case::new("full limit 100000", [2, 2], Full([4; 3]), GOOD, top),
        Case::new("full limit 100001", [2, 2], Full([4; 3]), GOOD, over),
        Case::new("full 4 x 4, limit 1", [4, 4], Full([16; 3]), GOOD, one),
        Case::new("full 4 x 4, limit 100000", [4, 4], Full([16; 3]), GOOD, top),
    ]
}

// Lists that are one short and one long.
fn lengths() -> [Case; 8] {
    let s = settings(0);
    [
        Case::new("plain table one short", [2, 2], Plain(3), GOOD, s),
        Case::new("plain table one long", [2, 2], Plain(5), GOOD, s),
        Case::new("full table one short", [2, 2], Full([3, 4, 4]), GOOD, s),
        Case::new("full table one long", [2, 2], Full([5, 4, 4]), GOOD, s),
        Case::new("full U one short", [2, 2], Full([4, 3, 4]), GOOD, s),
        Case::new("full U one long", [2, 2], Full([4, 5, 4]), GOOD, s),
        Case::new("full V one short", [2, 2], Full([4, 4, 3]), GOOD, s),
        Case::new("full V one long", [2, 2], Full([4, 4, 5]), GOOD, s),
    ]
}

// Each has the faults of two numbers that follow one another; then bad readings alone, and two numbers
// of the plain call.
fn order() -> [Case; 11] {
    let s = settings(0);
    let over = settings(100001);
    let both = intolerant(100001);
    let below = intolerant(0);
    let twice = [-1.0 / 0.0, 1.0 / 0.0];
    [
        Case::new("1 and 2", [0, 49], Full([0, 0, LONGEST]), GOOD, s),
        Case::new("2 and 3", [49, 1], Full([48, LONGEST, 1]), GOOD, s),
        Case::new("3 and 4", [2, 2], Full([3, 3, 4]), GOOD, s),
        Case::new("4 and 5", [2, 2], Full([4, 3, 3]), GOOD, s),
        Case::new("5 and 6", [2, 2], Full([4, 4, 3]), GOOD, over),
        Case::new("6 and 7", [2, 2], Full([4, 4, 4]), GOOD, both),
        Case::new("7 and 8", [2, 2], Full([4, 4, 4]), BAD, below),
        Case::new("8 alone", [2, 2], Full([4, 4, 4]), BAD, s),
        Case::new("8 in row 1", [2, 3], Full([6, 4, 9]), BAD, s),
        Case::new("8 twice", [2, 3], Full([6, 4, 9]), twice, s),
        Case::new("plain 3 and 6", [2, 2], Plain(3), GOOD, over),
    ]
}

fn main(rt: HostRuntime) -> io::Result<()> {
    let cases = sizes()
        .into_iter()
        .chain(counts())
        .chain(lengths())
        .chain(order());
    let mut out = rt.stdout();
    for case in cases {
        case.print(&mut out)?;
    }
    Ok(())
}
