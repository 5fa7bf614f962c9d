// Replays the survey texts of its standard input, made by beside's program `texts`, and compares the
// whole of what is printed of each with the stored answer. A text and its answer are stored behind a
// line such as `= 000042 000052`, which has the sizes of both; `!` stands in place of `=` where they
// are wrong on purpose. Prints the number of each right text that differs and of each wrong one that
// was not found, and how many were compared.
#![tactic(auto)]

ghost use Rattle.std.specs.Prelude.{◌<◌, IfSome, length};

use console::{print_decimal, read_full};
use score::Score;
use std::io;
use std::io::Write;
use survey::ROOM;
use text::numerals::value;

// Room for the list and more: one that filled it would end within a text.
const WHOLE: usize = 500000;

// How many bytes the line before a text has.
const HEAD: usize = 16;

// A text and its answer, and the line that has their sizes.
#[derive(Clone, Copy)]
struct Piece<'a> {
    head: &'a [u8; HEAD],
    text: &'a [u8],
    answer: &'a [u8],
}

impl Piece<'_> {
    // The piece that the list begins with, and what follows it; None where no sizes stand there or the
    // list ends before they do.
    fn cut(list: &[u8]) -> Option<(Piece<'_>, &[u8])>
        ensures { IfSome result (λ r. length r.1.now < length list.now) }
    {
        let (head, rest) = list.split_first_chunk::<HEAD>()?;
        let (text, rest) = rest.split_at_checked(value(&head[2..8], 10)? as usize)?;
        let (answer, rest) = rest.split_at_checked(value(&head[9..15], 10)? as usize)?;
        Some((Piece { head, text, answer }, rest))
    }

    // Whether the line is well formed and what is printed of the text is the answer.
    fn agrees(self) -> bool {
        let Piece { head, text, answer } = self;
        if [head[1], head[8], head[15]] != *b"  \n" {
            return false;
        }
        let mut out = [0; ROOM];
        let n = survey::split_text(text, &mut out);
        &out[..n] == answer
    }
}

// Compares every text of the list; a rest that is no text with its answer counts as one that differs.
// Kept: a while: each piece says how long it is, so no iterator of std cuts the list.
fn compare<W: Write>(out: &mut W, list: &[u8]) -> io::Result<Score> {
    let mut score = Score::new();
    let mut left = list;
    while !left.is_empty() {
        let wrong = left[0] == b'!';
        let (same, rest) = match Piece::cut(left) {
            Some((piece, rest)) => (piece.agrees(), rest),
            None => (false, &left[left.len()..]),
        };
        score.judge(out, wrong, same)?;
        left = rest;
    }
    Ok(score)
}

fn main(rt: HostRuntime) -> io::Result<()> {
    let mut list = [0; WHOLE];
    let n = read_full(&mut rt.stdin(), &mut list)?;
    let mut out = rt.stdout();
    let score = compare(&mut out, &list[..n])?;
    print_decimal(&mut out, score.right)?;
    out.write_all(b" texts compared, ")?;
    score.print(&mut out)
}
