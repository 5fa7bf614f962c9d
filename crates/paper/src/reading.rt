// What a line of the input says: the 16 hex digits of a double's pattern, or a decimal number. A
// decimal is read only where its double is exact arithmetic away: its digits without the point are a
// whole number of at most 2^53, and 10 to the number of digits behind the point, at most 22, is a
// double as well. One division of the two then gives the double nearest to what is written.
use std::error::Error;
use std::str::Utf8Error;
use std::{fmt, str};
use text::numerals::pattern;

// What is wrong with a line.
#[derive(Clone, Copy, Debug, PartialEq, Eq)]
pub(crate) enum Fault {
    Empty,
    NoNumber,
    // A decimal, but of more digits than are read exactly.
    TooLong,
}

impl fmt::Display for Fault {
    fn fmt<W: fmt::Write>(&self, f: &mut fmt::Formatter<W>) -> fmt::Result {
        f.write_str(match self {
            Fault::Empty => "empty",
            Fault::NoNumber => "neither a decimal number nor 16 hex digits",
            Fault::TooLong =>
                "more digits than a decimal is read exactly with; give the 16 hex digits",
        })
    }
}

impl Error for Fault {}

// What is no text is no number.
impl From<Utf8Error> for Fault {
    fn from(_e: Utf8Error) -> Fault {
        Fault::NoNumber
    }
}

// 2^53. Every whole number up to it is a double.
const MOST: u64 = 1 << 53;

// Whether the text is one digit from 0 to 9 or more.
fn are_digits(text: &str) -> bool {
    !text.is_empty() && text.bytes().all(|byte| byte.is_ascii_digit())
}

// The digits of the text as one whole number.
// Kept: `value` of text takes digits alone, and str::parse a sign besides: here a point between is passed over.
fn whole(text: &str) -> Option<u64> {
    text.chars()
        .filter_map(|c| c.to_digit(10))
        .map(u64::from)
        .try_fold(0u64, |n, digit| n.checked_mul(10)?.checked_add(digit))
}

// 10 to the power k, exact up to k = 22.
// Kept: here each product is exact; of `powi`, which takes an i32, Rust leaves the precision open.
fn power_of_ten(k: usize) -> f64 {
    (0..k).fold(1.0, |power, _| power * 10.0)
}

// A decimal without a sign.
// Kept: str::parse rounds what it is given; here what exact arithmetic does not give is refused.
fn decimal(text: &str) -> Result<f64, Fault> {
    let (front, behind) = match text.split_once('.') {
        Some((front, behind)) if are_digits(behind) => (front, behind),
        Some(_) => return Err(Fault::NoNumber),
        None => (text, ""),
    };
    if !are_digits(front) {
        return Err(Fault::NoNumber);
    }
    match whole(text) {
        Some(n) if n <= MOST && behind.len() <= 22 => {
            Ok(std::num::nearest_u64_to_f64(n) / power_of_ten(behind.len()))
        }
        _ => Err(Fault::TooLong),
    }
}

// The double of a line, its line end left out.
fn double(text: &str) -> Result<f64, Fault> {
    if text.is_empty() {
        return Err(Fault::Empty);
    }
    if let Some(bits) = pattern(text.as_bytes()) {
        return Ok(float::from_bits(bits));
    }
    match text.strip_prefix('-') {
        Some(rest) => Ok(-decimal(rest)?),
        None => decimal(text),
    }
}

// A line as text, and the double that it says.
pub(crate) fn read(line: &[u8]) -> Result<(&str, f64), Fault> {
    let text = str::from_utf8(line)?;
    Ok((text, double(text)?))
}
