// What the programs that compare stored rows with the library count. A row is right and has to agree,
// or it is wrong on purpose and has to be found: so a comparison that sees nothing shows.
#![tactic(auto)]

ghost use Rattle.std.specs.Io.KnownBytes.{Appends};
ghost use Rattle.std.specs.Prelude.{◌≡◌, OnOk};
ghost use Rattle.score.specs.Counts.{none, counted, judged, summed};

use console::print_decimal;
use std::io;
use std::io::Write;

#[derive(Clone, Copy, Debug, Default, PartialEq, Eq)]
pub struct Score {
    // Rows that are right, and those of them that differ.
    pub right: u64,
    pub differ: u64,
    // Rows that are wrong on purpose, and those of them that were found.
    pub wrong: u64,
    pub found: u64,
}

impl Score {
    // Of no rows.
    pub fn new() -> Score
        ensures { result ≡ none }
    {
        Score::default()
    }

    // With one row more: whether it is wrong on purpose, and whether it agrees. No count goes beyond
    // the largest number.
    // Kept: two flags, as the definition `counted` takes them: each of the four pairs counts something else.
    pub fn counted(mut self, wrong: bool, agrees: bool) -> Score
        ensures { result ≡ counted self wrong agrees }
    {
        match (wrong, agrees) {
            (false, true) => self.right = self.right.saturating_add(1),
            (false, false) => {
                self.right = self.right.saturating_add(1);
                self.differ = self.differ.saturating_add(1);
            }
            (true, true) => self.wrong = self.wrong.saturating_add(1),
            (true, false) => {
                self.wrong = self.wrong.saturating_add(1);
                self.found = self.found.saturating_add(1);
            }
        }
        self
    }

    // Counts one row more, and prints its number, among the right or the wrong ones, where it is not as
    // told.
    pub fn judge<W: Write>(&mut self, out: &mut W, wrong: bool, agrees: bool) -> io::Result<()>
        ensures counts { self.new ≡ counted self.old wrong agrees }
        ensures prints { OnOk result (Appends (W.contents out.old) (W.contents out.new) (judged self.new wrong agrees)) }
    {
        *self = self.counted(wrong, agrees);
        match (wrong, agrees) {
            (true, true) => writeln!(out, "{} is wrong on purpose and was not found", self.wrong),
            (false, false) => writeln!(out, "{} differs", self.right),
            _ => Ok(()),
        }
    }

    // Prints the counts in a line, but for the right rows, of which each program says what they are: as in
    // "0 differ; 5 wrong on purpose, 5 found".
    // Kept: no Display: `print_decimal` of console, whose clause says which digits, prints to an io::Write.
    pub fn print<W: Write>(self, out: &mut W) -> io::Result<()>
        ensures { OnOk result (Appends (W.contents out.old) (W.contents out.new) (summed self)) }
    {
        print_decimal(out, self.differ)?;
        out.write_all(b" differ; ")?;
        print_decimal(out, self.wrong)?;
        out.write_all(b" wrong on purpose, ")?;
        print_decimal(out, self.found)?;
        out.write_all(b" found\n")
    }
}
