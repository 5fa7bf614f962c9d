// Replays the runs of its standard input, made by beside's program `vectors` from the answers of the
// original Rust, and compares the whole of what the calls answer and leave, bit for bit, all NaNs
// alike. `stored` says how a run is stored. Prints the number of each run that differs and of each
// that is wrong on purpose and was not found, and a summary; a rest that is no run counts as one that
// differs.
#![tactic(auto)]

mod bits;
mod lists;
mod replay;
mod stored;
mod totals;

use crate::bits::Stop;
use crate::replay::{Rooms, replayed};
use crate::stored::Head;
use crate::totals::Totals;
use std::io;
use std::io::{Read, Write};

// Replays the next run and counts it; whether the input goes on.
fn step<R: Read, W: Write>(
    input: &mut R,
    out: &mut W,
    rooms: &mut Rooms,
    totals: &mut Totals,
) -> io::Result<bool> {
    let (wrong, run) = match Head::read(input) {
        Ok(None) => return Ok(false),
        Ok(Some(head)) => (head.is_wrong(), replayed(input, &head, rooms)),
        Err(stop) => (false, Err(stop)),
    };
    match run {
        Ok(made) => {
            totals.count(out, made)?;
            Ok(true)
        }
        Err(Stop::Malformed) => {
            totals.judge(out, wrong, false)?;
            Ok(false)
        }
        Err(Stop::Io(error)) => Err(error),
    }
}

// A proved loop has to end, and nothing says that the input does: so there are no more turns than a
// number that no input uses up.
// Kept: so a `for` to that number with a break stands for a `loop`.
fn main(rt: HostRuntime) -> io::Result<()> {
    let mut input = rt.stdin();
    let mut out = rt.stdout();
    let mut rooms = Rooms::new();
    let mut totals = Totals::default();
    for _ in 0..u64::MAX {
        if !step(&mut input, &mut out, &mut rooms, &mut totals)? {
            break;
        }
    }
    totals.print(&mut out)
}
