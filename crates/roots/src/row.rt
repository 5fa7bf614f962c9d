// One stored row: a helper, x, y and the answer, as in
//   r 4000000000000000 0000000000000000 = 3FF6A09E667F3BCD
// The helper is `m` for magnitude, `s` for sign, `<` for smaller, `>` for larger and `r` for the root;
// those of one argument pass y over. Numbers are bit patterns in upper-case hex. In a row that is
// wrong on purpose `!` stands in place of `=`. Each is 54 bytes and an LF.
use text::numerals::pattern;

// How many bytes a row has.
pub(crate) const LENGTH: usize = 55;

#[derive(Clone, Copy, Debug, PartialEq, Eq)]
enum Helper {
    Magnitude,
    Sign,
    Smaller,
    Larger,
    Root,
}

impl Helper {
    // The helper of a letter.
    fn from_letter(letter: u8) -> Option<Helper> {
        match letter {
            b'm' => Some(Helper::Magnitude),
            b's' => Some(Helper::Sign),
            b'<' => Some(Helper::Smaller),
            b'>' => Some(Helper::Larger),
            b'r' => Some(Helper::Root),
            _ => None,
        }
    }

    fn call(self, x: f64, y: f64) -> f64 {
        match self {
            Helper::Magnitude => float::magnitude(x),
            Helper::Sign => float::sign(x),
            Helper::Smaller => float::smaller(x, y),
            Helper::Larger => float::larger(x, y),
            Helper::Root => float::square_root(x),
        }
    }
}

// What a well-formed row says.
#[derive(Clone, Copy, Debug)]
struct Fields {
    helper: Helper,
    x: f64,
    y: f64,
    answer: u64,
}

impl Fields {
    // None where the helper is none, a number is none, or a space or the LF stands elsewhere.
    fn parse(row: &[u8; LENGTH]) -> Option<Fields> {
        let helper = Helper::from_letter(row[0])?;
        if [row[1], row[18], row[35], row[37], row[54]] != *b"    \n" {
            return None;
        }
        Some(Fields {
            helper,
            x: float::from_bits(pattern(&row[2..18])?),
            y: float::from_bits(pattern(&row[19..35])?),
            answer: pattern(&row[38..54])?,
        })
    }

    // Kept: compared by bits, since == takes +0 for -0 and no NaN for itself.
    fn agrees(self) -> bool {
        float::to_bits(self.helper.call(self.x, self.y)) == self.answer
    }
}

// Whether the row is well formed and its helper gives its answer.
pub(crate) fn agrees(row: &[u8; LENGTH]) -> bool {
    Fields::parse(row).is_some_and(|fields| fields.agrees())
}

// Whether the row is wrong on purpose.
// Kept: a bool and no enum: with whatever else than `!` there, the row counts as right.
pub(crate) fn is_wrong(row: &[u8; LENGTH]) -> bool {
    row[36] == b'!'
}
