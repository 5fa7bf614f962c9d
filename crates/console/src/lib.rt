// What the programs share of reading and printing: a buffer filled from a reader, and a number
// printed to a writer. Nothing here allocates.
#![tactic(auto)]

ghost use Rattle.console.specs.Padded.{zero_padded};
ghost use Rattle.std.specs.Fmt.{digits};
ghost use Rattle.std.specs.Prelude.{◌<◌, min, false, length, take, IfOk, OnOk, decimal};
ghost use Rattle.std.specs.Io.{ReadsAtMost};
ghost use Rattle.std.specs.Io.KnownBytes.{Appends, Consumes, IsAtEnd};

use std::io::{Read, Result, Write};

// Reads until buf is full or the input ends, and answers how many bytes stand at the start of buf.
// On an empty buf it reads nothing. A read that fails, or that a signal interrupts, is an error.
// Kept: `read_exact` of std fails where the input ends early; its other calls fill a Vec or read byte by byte.
pub fn read_full<R: Read>(input: &mut R, buf: &mut [u8]) -> Result<usize>
    ensures bound { ReadsAtMost result buf.new }
    ensures bytes { IfOk result (λ n. Consumes (R.remaining input.old) (R.remaining input.new) (take n buf.new)) }
    ensures end { IfOk result (λ n. n < length buf.new → IsAtEnd (R.remaining input.new)) }
{
    let mut done = 0;
    while done < buf.len() {
        let n = input.read(&mut buf[done..])?;
        if n == 0 {
            break;
        }
        done += n;
    }
    Ok(done)
}

// Prints n in decimal, with no line end.
// Kept: a function for a format, since its clause says which bytes are printed; so with `print_hex`.
pub fn print_decimal<W: Write>(out: &mut W, n: u64) -> Result<()>
    ensures { OnOk result (Appends (W.contents out.old) (W.contents out.new) (decimal n)) }
{
    write!(out, "{n}")
}

// Prints n in lower-case hexadecimal, with no line end, and with zeros in front up to `width` digits.
// A width above 16 counts as 16.
pub fn print_hex<W: Write>(out: &mut W, n: u64, width: usize) -> Result<()>
    ensures { OnOk result (Appends (W.contents out.old) (W.contents out.new) (zero_padded (min width 16) (digits 16 false n))) }
{
    let width = width.min(16);
    write!(out, "{n:0width$x}")
}
