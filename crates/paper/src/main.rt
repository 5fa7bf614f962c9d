// Prints the square root of each number of its standard input as it is found on paper: every turn,
// the rounding, the result, and the two comparisons that show it nearest. A line of the input is one
// number, which `reading` tells; a line that is none gets one line of output that says so. An input that
// has no room, and an output that cannot be written, are told on standard error.
#![tactic(auto)]

mod page;
mod reading;

use crate::page::Page;
use crate::reading::read;
use console::read_full;
use std::io;

// Room for the input and one byte more: an input that fills it is too long.
// Kept: read_full promises a count and no kind, so a full room stands for an input that is too long.
const ROOM: usize = 65536;

// What there is to say of a line: the line as it was given, the page of the number that it says and an
// empty line, or what is wrong with it.
fn print_line(rt: &impl Print, number: u64, line: &[u8]) -> io::Result<()> {
    match read(line) {
        Ok((text, x)) => println!(rt; "{text}\n{}", Page(x)),
        Err(fault) => println!(rt; "line {number}: {fault}"),
    }
}

// One line after the other, the last with or without a line end.
fn print_lines(rt: &impl Print, input: &[u8]) -> io::Result<()> {
    for (number, line) in (1..).zip(input.split_inclusive(|byte| *byte == b'\n')) {
        print_line(rt, number, line.strip_suffix(b"\n").unwrap_or(line))?;
    }
    Ok(())
}

fn main(rt: HostRuntime) -> io::Result<()> {
    let mut input = [0; ROOM];
    let n = read_full(&mut rt.stdin(), &mut input)?;
    // Where standard error cannot be written either, nobody is left to be told.
    if n == ROOM {
        let _ = eprintln!(rt;
            "paper: the input is too long: at most {} bytes are read",
            ROOM - 1
        );
    } else if print_lines(&rt, &input[..n]).is_err() {
        let _ = eprintln!(rt; "paper: the output could not be written");
    }
    Ok(())
}
