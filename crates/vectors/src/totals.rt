// What has been counted of the runs, from what the calls answered, and how it is printed.
use crate::replay::Made;
use console::print_decimal;
use score::Score;
use std::io;
use std::io::Write;
use svd::report::Word;

// Kept: a counter by its name for each word; in an array each would be found by a number.
#[derive(Clone, Copy, Default)]
pub(crate) struct Totals {
    score: Score,
    // Of the runs that are not wrong on purpose.
    refused: u64,
    settled: u64,
    stopped: u64,
    quiet: u64,
    passes: u64,
    in_order: u64,
    by_profile: u64,
}

impl Totals {
    // One run more.
    pub(crate) fn count<W: Write>(&mut self, out: &mut W, made: Made) -> io::Result<()> {
        if !made.wrong {
            self.add(made);
        }
        self.judge(out, made.wrong, made.agrees)
    }

    // One run more, of which only this is known.
    // Kept: two bools, as the clause of `Score::judge` takes them.
    pub(crate) fn judge<W: Write>(
        &mut self,
        out: &mut W,
        wrong: bool,
        agrees: bool,
    ) -> io::Result<()> {
        self.score.judge(out, wrong, agrees)
    }

    // What the library answered in a run that is not wrong on purpose.
    fn add(&mut self, made: Made) {
        let count = match made.answer {
            Err(_) => &mut self.refused,
            Ok(report) => {
                self.passes = self.passes.saturating_add(report.tally.passes as u64);
                match report.word {
                    Word::Settled => &mut self.settled,
                    Word::Stopped => &mut self.stopped,
                    Word::Quiet => &mut self.quiet,
                }
            }
        };
        *count = count.saturating_add(1);
        self.in_order = self.in_order.saturating_add(u64::from(made.in_order));
        self.by_profile = self.by_profile.saturating_add(u64::from(made.by_profile));
    }

    // Prints a line: as in "9 runs: 2 refused, 4 settled, 2 stopped, 1 quiet, 70 passes, 3 in order, 2 by
    // profile, 0 differ; 5 wrong on purpose, 5 found".
    // Kept: no Display, as `Score::print` has none.
    pub(crate) fn print<W: Write>(&self, out: &mut W) -> io::Result<()> {
        let Totals {
            score,
            refused,
            settled,
            stopped,
            quiet,
            passes,
            in_order,
            by_profile,
        } = *self;
        let counts = [
            (score.right, " runs: "),
            (refused, " refused, "),
            (settled, " settled, "),
            (stopped, " stopped, "),
            (quiet, " quiet, "),
            (passes, " passes, "),
            (in_order, " in order, "),
            (by_profile, " by profile, "),
        ];
        for (count, words) in counts {
            print_decimal(out, count)?;
            out.write_all(words.as_bytes())?;
        }
        score.print(out)
    }
}
