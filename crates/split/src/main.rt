// Reads a survey text from standard input and prints what `survey::split_input` says of it. Where
// the input cannot be read, nothing is printed; what failed is said on standard error.
#![tactic(auto)]

ghost use Rattle.split.specs.Printing.{Prints, Reads};
ghost use Rattle.std.specs.Prelude.{◌≡◌, OnOk, Err};

use console::read_full;
use std::fmt;
use std::io::{Read, Write};
use survey::{ENOUGH, ROOM, split_input};

// What failed.
#[derive(Clone, Copy)]
enum Failure {
    Input,
    Output,
}

impl fmt::Display for Failure {
    fn fmt<W: fmt::Write>(&self, f: &mut fmt::Formatter<W>) -> fmt::Result {
        match self {
            Failure::Input => write!(f, "the input could not be read"),
            Failure::Output => write!(f, "the output could not be written"),
        }
    }
}

// Reads the input to its end, or as much of it as settles what is printed, and prints that.
fn split<R: Read, W: Write>(input: &mut R, output: &mut W) -> Result<(), Failure>
    ensures ok { OnOk result (Prints (R.remaining input.old) (W.contents output.old) (W.contents output.new)) }
    ensures reads { Reads result (R.remaining input.old) (R.remaining input.new) }
    ensures unread { result ≡ Err Failure.Input → W.contents output.new ≡ W.contents output.old }
{
    let mut text = [0; ENOUGH];
    let n = read_full(input, &mut text).map_err(|_| Failure::Input)?;
    let mut out = [0; ROOM];
    let k = split_input(&text, n, &mut out);
    output.write_all(&out[..k]).map_err(|_| Failure::Output)
}

fn main(rt: HostRuntime) {
    if let Err(failure) = split(&mut rt.stdin(), &mut rt.stdout()) {
        // Where that cannot be written either, nobody is left to be told. The line is written at once, so that
        // nothing comes between its words where others write to the same place.
        let _ = eprintln!(rt; "split: {failure}");
    }
}
