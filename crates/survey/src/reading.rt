// The survey text read line by line: the contents, and a body after the other.
ghost use Rattle.std.specs.Prelude.{◌≡◌, [], ◌+◌, ◌*◌, ◌<◌, ◌≤◌, IfOk, IfErr};
ghost use Rattle.text.specs.Code.{option_of};
ghost use Rattle.survey.specs.Form.{named as named_in, entry_line as entryIn, contents as contentsIn, head as headIn};
ghost use Rattle.survey.specs.Code.{stored, row_stored, placed, body_stored, HeadIs, LineIs};

use checks::sizes::MOST_SIZE;
use text::fields::cut;
use text::numerals::{pattern, whole};

// The most readings of a survey.
pub(crate) const READINGS: usize = MOST_SIZE * MOST_SIZE;

// The most surveys of a text.
const MOST_SURVEYS: usize = 8;

// A survey's line of the contents.
#[derive(Clone, Copy, Default)]
pub(crate) struct Entry {
    pub(crate) id: u64,
    pub(crate) rows: usize,
    pub(crate) cols: usize,
}

// The number of the line that is malformed.
#[derive(Clone, Copy)]
pub(crate) struct Malformed {
    pub(crate) line: usize,
}

// What is left of a text, and the number of the line that it begins with.
#[derive(Clone, Copy)]
pub(crate) struct Rest<'a> {
    pub(crate) text: &'a [u8],
    pub(crate) line: usize,
}

impl<'a> Rest<'a> {
    // That line without its LF, and what is left after it.
    fn next_line(self) -> Result<(&'a [u8], Rest<'a>), Malformed>
        requires { self.line < 1000000 }
        ensures { LineIs result self.entry.text.now self.entry.line }
    {
        match cut(self.text, b'\n') {
            Some((line, text)) => Ok((
                line,
                Rest {
                    text,
                    line: self.line + 1,
                },
            )),
            None => Err(Malformed { line: self.line }),
        }
    }
}

// The contents, and the bodies that follow.
// Kept: entries and their count, since there is no Vec to hold them.
// Kept: here and in vectors a `Head` is what comes before the rest of the input, whatever that is.
#[derive(Clone, Copy)]
pub(crate) struct Head<'a> {
    pub(crate) es: [Entry; MOST_SURVEYS],
    pub(crate) count: usize,
    pub(crate) bodies: Rest<'a>,
}

// Whether one of the entries has this id.
fn named(es: &[Entry], id: u64) -> bool
    ensures { result ≡ named_in id es.now }
{
    es.iter().any(|e| e.id == id)
}

// A line of the contents, after those of the entries es.
// Kept: `as usize` of at most 48 loses nothing; usize::try_from would add an error that never comes.
fn entry_line(l: &[u8], es: &[Entry]) -> Option<Entry>
    ensures { option_of result ≡ entryIn es.now l.now }
{
    let (id, sizes) = cut(l, b' ')?;
    let (rows, cols) = cut(sizes, b' ')?;
    let id = whole(id, 65535)?;
    let rows = whole(rows, MOST_SIZE as u64)?;
    let cols = whole(cols, MOST_SIZE as u64)?;
    if named(es, id) {
        return None;
    }
    Some(Entry {
        id,
        rows: rows as usize,
        cols: cols as usize,
    })
}

// A line of c + 1 readings, stored from `at` on.
// Kept: the whole of m and a place in it, as `row_stored` takes them, and `body_stored` for a body.
fn row_line(l: &[u8], c: usize, m: &mut [f64; READINGS], at: usize) -> Option<()>
    requires { at + c < 2304 }
    ensures { stored result m.new ≡ row_stored c l.now m.old at }
{
    let mut left = l;
    for k in 0..c {
        let (reading, rest) = cut(left, b' ')?;
        let bits = pattern(reading)?;
        m[at + k] = float::from_bits(bits);
        left = rest;
    }
    let last = pattern(left)?;
    m[at + c] = float::from_bits(last);
    Some(())
}

// A body of `rows` rows of c + 1 readings, stored in m; and what is left after it.
pub(crate) fn body<'a>(
    from: Rest<'a>,
    rows: usize,
    c: usize,
    m: &mut [f64; READINGS],
) -> Result<Rest<'a>, Malformed>
    requires { (from.line + rows < 1000000) × (c < 48) × (rows * (c + 1) ≤ 2304) }
    ensures body { placed result m.new ≡ body_stored rows c from.entry.line from.entry.text.now m.old 0 }
    ensures line { IfOk result (λ r. r.line ≡ from.entry.line + rows) }
    ensures malformed { IfErr result (λ e. from.entry.line ≤ e.line) }
{
    let mut left = from;
    let mut at = 0;
    for j in 0..rows {
        let (row, rest) = left.next_line()?;
        let malformed = Malformed {
            line: from.line + j,
        };
        row_line(row, c, m, at).ok_or(malformed)?;
        at += c + 1;
        left = rest;
    }
    Ok(left)
}

// The lines of the contents, `count` of them.
fn entries(from: Rest, count: usize) -> Result<Head, Malformed>
    requires { (from.line ≡ 2) × (0 < count) × (count ≤ 8) }
    ensures { HeadIs result (contentsIn count [] 2 from.entry.text.now) }
{
    let mut es = [Entry::default(); MOST_SURVEYS];
    let mut left = from;
    for i in 0..count {
        let (line, rest) = left.next_line()?;
        let malformed = Malformed { line: i + 2 };
        es[i] = entry_line(line, &es[..i]).ok_or(malformed)?;
        left = rest;
    }
    Ok(Head {
        es,
        count,
        bodies: left,
    })
}

// The count and the contents of a text.
pub(crate) fn contents(text: &[u8]) -> Result<Head, Malformed>
    ensures { HeadIs result (headIn 1 text.now) }
{
    let all = Rest { text, line: 1 };
    let (first, rest) = all.next_line()?;
    let malformed = Malformed { line: 1 };
    let count = whole(first, MOST_SURVEYS as u64).ok_or(malformed)?;
    entries(rest, count as usize)
}
