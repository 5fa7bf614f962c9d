// What a call answers that is not refused.
ghost use Rattle.std.specs.Prelude.{◌≡◌, [], Ok};
ghost use Rattle.method.specs.Work.{work};
ghost use Rattle.method.specs.Walk.{stands};
ghost use Rattle.method.specs.Report.{word_number, reported};
ghost use Rattle.method.specs.Outcome.{is_upper};
ghost use Rattle.svd.specs.Values.{report_of, walk_of, worded};

use crate::primitives::Walk;
use crate::shape::Shape;
use crate::tally::Tally;

// Settled: one entry of the diagonal is left, every coupling was found negligible. Where more are left,
// the limit ran out: quiet where every coupling inside the live corner is +0 or -0, and else stopped.
#[derive(Clone, Copy, Debug, PartialEq, Eq)]
pub enum Word {
    Settled,
    Stopped,
    Quiet,
}

// The number by which the word is handed on and stored; a refused call has none, and 0 is stored.
// Kept: no From, since neither Option nor u64 is of this crate; 0 is what the definition `word_number` has.
pub fn word_number(word: Option<Word>) -> u64
    ensures { result ≡ word_number (worded word) }
{
    match word {
        None => 0,
        Some(Word::Settled) => 1,
        Some(Word::Stopped) => 2,
        Some(Word::Quiet) => 3,
    }
}

// The word, and what the walk counted.
#[derive(Clone, Copy, Debug, PartialEq, Eq)]
pub struct Report {
    pub word: Word,
    pub tally: Tally,
}

impl Report {
    // The report of the state that a walk came to: its record, and the table as it stands.
    pub(crate) fn accepted(walk: Walk, b: &[f64], z: Shape) -> Report
        ensures { report_of (Ok result) ≡ reported (is_upper z.rows z.cols) z.stride
            (stands (walk_of walk) (work b.now [] [])) }
    {
        let tally = walk.tally;
        let word = if tally.range == 1 {
            Word::Settled
        } else if corner::is_quiet(b, z.stride, z.is_upper(), tally.range) {
            Word::Quiet
        } else {
            Word::Stopped
        };
        Report { word, tally }
    }
}
