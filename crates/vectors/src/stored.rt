// How a run is stored. Words of 8 bytes, the lowest byte first; a double is the word of its bits:
//   rows, columns, limit, credit, tolerance, absolute, floor,
//   kept: 0 for the plain call, 1 for the accumulating one beside it, 2 for the ordered one as well; 3,
//     4 and 5 for the same by a profile, whose number stands in the place of the limit, with 0 for
//     the four other settings,
//   start: 0 where U and V start as the identity, or there are none; 1 where they are stored,
//   how long matrix, U, V and the list of values are, each at most 49 x 49; with kept 0 or 3, U and V
//     have length 0, and with kept 0, 1, 3 or 4 the list of values has;
//   differ: how many of the run's calls have to differ from what follows; 0, or 1 to 3 where the run
//     is wrong on purpose;
//   the matrix, and with start 1, U and V; the list of values is not stored;
//   the answer: the report's words, in the order of `Answer`;
//   with number 0 the matrix, U and V afterwards; else they are as they were;
//   with kept 2 or 5 the ordered call's answer likewise;
//   with number 0 the list of values, U and V after it, where the matrix is the accumulating call's;
//   with 12 or 13 matrix, U and V are the accumulating call's; else they are as they were.
use crate::bits::{Stop, read_words};
use crate::lists::{List, Lists, Sizes};
use checks::place::Place;
use checks::refusal::Refusal;
use checks::settings::Settings;
use factors::identity::identity_flat;
use order::ordered::Unordered;
use std::io::Read;
use svd::report::{Report, word_number};

// What the calls are made by: settings, or a profile's number.
#[derive(Clone, Copy)]
pub(crate) enum By {
    Settings(Settings),
    Profile(usize),
}

// The calls, each beside those before it.
#[derive(Clone, Copy, PartialEq, Eq)]
pub(crate) enum Call {
    Plain,
    Full,
    Ordered,
}

impl TryFrom<u64> for Call {
    type Error = Stop;

    fn try_from(word: u64) -> Result<Call, Stop> {
        match word {
            0 => Ok(Call::Plain),
            1 => Ok(Call::Full),
            2 => Ok(Call::Ordered),
            _ => Err(Stop::Malformed),
        }
    }
}

// What U and V start as.
#[derive(Clone, Copy)]
pub(crate) enum Start {
    Identity,
    Stored,
}

impl TryFrom<u64> for Start {
    type Error = Stop;

    fn try_from(word: u64) -> Result<Start, Stop> {
        match word {
            0 => Ok(Start::Identity),
            1 => Ok(Start::Stored),
            _ => Err(Stop::Malformed),
        }
    }
}

// What is asked of the calls, of which kept is the last that is made, and how long the lists are.
#[derive(Clone, Copy)]
pub(crate) struct Head {
    pub(crate) rows: usize,
    pub(crate) cols: usize,
    pub(crate) by: By,
    pub(crate) kept: Call,
    start: Start,
    sizes: Sizes,
    // How many of the calls have to differ.
    pub(crate) differ: u64,
}

// By the profile whose number stands in the place of the limit, with 0 for the other settings.
// Kept: compared with a Settings of zeros, as many zeros would stand here.
fn profile_in(settings: Settings) -> Result<By, Stop> {
    let Settings {
        limit,
        credit,
        tolerance,
        absolute,
        floor,
    } = settings;
    if credit == 0 && tolerance == 0.0 && absolute == 0.0 && floor == 0.0 {
        Ok(By::Profile(limit))
    } else {
        Err(Stop::Malformed)
    }
}

impl TryFrom<[u64; 14]> for Head {
    type Error = Stop;

    fn try_from(words: [u64; 14]) -> Result<Head, Stop> {
        let [
            rows,
            cols,
            limit,
            credit,
            tolerance,
            absolute,
            floor,
            kept,
            start,
            matrix,
            u,
            v,
            values,
            differ,
        ] = words;
        let settings = Settings {
            limit: limit as usize,
            credit: credit as usize,
            tolerance: float::from_bits(tolerance),
            absolute: float::from_bits(absolute),
            floor: float::from_bits(floor),
        };
        let (by, kept) = if kept < 3 {
            (By::Settings(settings), kept)
        } else {
            (profile_in(settings)?, kept - 3)
        };
        let head = Head {
            rows: rows as usize,
            cols: cols as usize,
            by,
            kept: Call::try_from(kept)?,
            start: Start::try_from(start)?,
            sizes: Sizes {
                matrix: matrix as usize,
                u: u as usize,
                v: v as usize,
                values: values as usize,
            },
            differ,
        };
        if head.is_fit() {
            Ok(head)
        } else {
            Err(Stop::Malformed)
        }
    }
}

impl Head {
    // Reads the next head; None where the input has ended.
    pub(crate) fn read<R: Read>(input: &mut R) -> Result<Option<Head>, Stop> {
        read_words(input)?.map(Head::try_from).transpose()
    }

    // Whether there are no more lists than the calls are lent: the plain call has no U and V, and only
    // the ordered one has a list of values.
    fn is_fit(&self) -> bool {
        let Sizes { u, v, values, .. } = self.sizes;
        match (self.kept, self.start) {
            (Call::Plain, Start::Identity) => u == 0 && v == 0 && values == 0,
            (Call::Plain, Start::Stored) => false,
            (Call::Full, _) => values == 0,
            (Call::Ordered, _) => true,
        }
    }

    // Whether the run is wrong on purpose.
    pub(crate) fn is_wrong(&self) -> bool {
        self.differ > 0
    }

    // Reads what the lists are before the calls.
    pub(crate) fn read_lists<R: Read>(&self, input: &mut R, lists: &mut Lists) -> Result<(), Stop> {
        lists.blank(self.sizes)?;
        lists.matrix.read(input)?;
        match (self.kept, self.start) {
            (Call::Plain, _) => Ok(()),
            (_, Start::Identity) => {
                fill(&mut lists.u, self.rows)?;
                fill(&mut lists.v, self.cols)
            }
            (_, Start::Stored) => lists.read_factors(input),
        }
    }
}

// Fills the list with the identity, which has to be as long.
fn fill(list: &mut List, size: usize) -> Result<(), Stop> {
    identity_flat(list.as_mut_slice(), size).map_err(|_| Stop::Malformed)
}

// The words of a report as they are stored, the number first.
// Kept: words and no enum, since each may be wrong on purpose and then say what no call answers.
// Kept: the Answer of app is a struct of C; limits and survey lay the same words out as text.
#[derive(Clone, Copy, PartialEq, Eq)]
pub(crate) struct Answer([u64; 10]);

impl From<Result<Report, Unordered>> for Answer {
    fn from(answer: Result<Report, Unordered>) -> Answer {
        match answer {
            Ok(report) => Answer::of_run(0, report),
            Err(Unordered::Refused(refusal)) => Answer::of_refusal(refusal),
            Err(Unordered::NotSettled(report)) => Answer::of_run(12, report),
            Err(Unordered::NotFinite(report)) => Answer::of_run(13, report),
        }
    }
}

impl Answer {
    // Of a run, with the number of what it was refused by after it.
    fn of_run(number: u64, report: Report) -> Answer {
        let Report { word, tally } = report;
        Answer([
            number,
            0,
            0,
            0,
            word_number(Some(word)),
            tally.passes as u64,
            tally.sweeps as u64,
            tally.drops as u64,
            tally.range as u64,
            tally.rotations as u64,
        ])
    }

    // Of a call that was refused before the run.
    fn of_refusal(refusal: Refusal) -> Answer {
        let Place { row, column, bad } = refusal.place();
        let number = refusal.number() as u64;
        let word = word_number(None);
        Answer([
            number,
            row as u64,
            column as u64,
            bad as u64,
            word,
            0,
            0,
            0,
            0,
            0,
        ])
    }

    // Reads the next answer.
    pub(crate) fn read<R: Read>(input: &mut R) -> Result<Answer, Stop> {
        read_words(input)?.map(Answer).ok_or(Stop::Malformed)
    }

    // The refusal's number, 0 where there is none.
    pub(crate) fn number(&self) -> u64 {
        self.0[0]
    }
}

// What a call answers, and what it leaves.
// Kept: the lists are lent: held here, each would be copied with its whole room.
#[derive(Clone, Copy)]
pub(crate) struct Outcome<'a> {
    pub(crate) answer: Answer,
    pub(crate) lists: &'a Lists,
}

impl<'a> Outcome<'a> {
    // Reads what the first call on these lists comes to: the accumulating one, or the plain one where
    // that alone is made.
    pub(crate) fn read_first<R: Read>(
        input: &mut R,
        before: &Lists,
        lists: &'a mut Lists,
    ) -> Result<Outcome<'a>, Stop> {
        let answer = Answer::read(input)?;
        lists.copy_from(before);
        if answer.number() == 0 {
            lists.matrix.read(input)?;
            lists.read_factors(input)?;
        }
        Ok(Outcome { answer, lists })
    }

    // Reads what the ordered call comes to, where these are the lists before it and those that the
    // accumulating call leaves.
    pub(crate) fn read_ordered<R: Read>(
        input: &mut R,
        before: &Lists,
        lists: &'a mut Lists,
    ) -> Result<Outcome<'a>, Stop> {
        let answer = Answer::read(input)?;
        match answer.number() {
            0 => {
                lists.values.read(input)?;
                lists.read_factors(input)?;
            }
            12 | 13 => {}
            _ => lists.copy_from(before),
        }
        Ok(Outcome { answer, lists })
    }
}
