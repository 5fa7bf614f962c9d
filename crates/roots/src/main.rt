// Runs the float helpers on known answers: the rows of its standard input, made by tools/roots.py.
// `row` says how a row is stored. Prints each row that differs and each that is wrong on purpose and
// was not found, and how many it compared.
#![tactic(auto)]

mod row;

use crate::row::{LENGTH, agrees, is_wrong};
use console::{print_decimal, read_full};
use score::Score;
use std::io;
use std::io::Write;

// Compares every row, and prints those that are not as told; a rest that is no row counts as one that
// differs.
fn compare<W: Write>(out: &mut W, list: &[u8]) -> io::Result<Score> {
    let mut score = Score::new();
    let (rows, rest) = list.as_chunks::<LENGTH>();
    for row in rows {
        let wrong = is_wrong(row);
        let same = agrees(row);
        if same == wrong {
            out.write_all(row)?;
        }
        score = score.counted(wrong, same);
    }
    if !rest.is_empty() {
        out.write_all(rest)?;
        score = score.counted(false, false);
    }
    Ok(score)
}

fn main(rt: HostRuntime) -> io::Result<()> {
    // Room for the rows and more: a list that filled it would end within a row.
    // Kept: read_full answers a count, as a read of std does, and it cuts the list: there is no Vec.
    let mut list = [0; 200000];
    let n = read_full(&mut rt.stdin(), &mut list)?;
    let mut out = rt.stdout();
    let score = compare(&mut out, &list[..n])?;
    print_decimal(&mut out, score.right)?;
    out.write_all(b" rows compared, ")?;
    score.print(&mut out)
}
