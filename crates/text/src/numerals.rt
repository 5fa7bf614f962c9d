// Digits and numerals.
ghost use Rattle.std.specs.Prelude.{◌≡◌, ◌<◌, IfSome, unwrap_or};
ghost use Rattle.text.specs.Text.{worth as worthOf, numeral, number, pattern as patternIn};
ghost use Rattle.text.specs.Text.{digit as digitOf, places_by};
ghost use Rattle.text.specs.Code.{option_of};

// What a byte is worth as a digit: 0 to 9, or A to F.
// Kept: char::to_digit takes lower case too, and char::from_digit gives it; digits are upper case here.
#[tactic(auto, unfolding(crate::specs::Text::worth))]
pub fn worth(b: u8) -> Option<u64>
    ensures value { unwrap_or result 16 ≡ worthOf b }
    ensures digit { IfSome result (λ d. d < 16) }
{
    match b {
        b'0'..=b'9' => Some((b - b'0') as u64),
        b'A'..=b'F' => Some((b - b'A') as u64 + 10),
        _ => None,
    }
}

// The value of the digits l in a base of at most 16; of no digits it is 0. None where a byte is no
// digit of the base, where the value is 2^64 or more, and where the base is above 16.
// Kept: u64::from_str_radix takes a sign and lower case, and refuses no digits, which are 0 here.
pub fn value(l: &[u8], base: u64) -> Option<u64>
    ensures { option_of result ≡ numeral base l.now }
{
    if base > 16 {
        return None;
    }
    let mut v: u64 = 0;
    for b in l {
        let d = worth(*b)?;
        if base <= d {
            return None;
        }
        v = v.checked_mul(base)?.checked_add(d)?;
    }
    Some(v)
}

// The number from 1 to `most` that l says in decimal, with no zero before it.
pub fn whole(l: &[u8], most: u64) -> Option<u64>
    ensures { option_of result ≡ number most l.now }
{
    if *l.first()? == b'0' {
        return None;
    }
    value(l, 10).filter(|v| *v <= most)
}

// The 64 bits that l says in 16 digits of base 16.
// Kept: bits and no double: this crate stands on no other, and so not on float.
pub fn pattern(l: &[u8]) -> Option<u64>
    ensures { option_of result ≡ patternIn l.now }
{
    if l.len() == 16 { value(l, 16) } else { None }
}

// The byte of a digit.
#[tactic(auto, unfolding(crate::specs::Text::digit))]
pub(crate) fn digit(d: u64) -> u8
    requires { d < 16 }
    ensures { result ≡ digitOf d }
{
    if d < 10 {
        b'0' + d as u8
    } else {
        b'A' + (d - 10) as u8
    }
}

// How many digits n has in decimal.
pub fn places(n: u64) -> usize
    ensures { result ≡ places_by n n }
{
    n.checked_ilog10().unwrap_or(0) as usize + 1
}
