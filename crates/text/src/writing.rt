// Bytes and numerals written into a slice. Each public function writes its bytes from `at` on and
// answers where they end. Where they have no room it writes nothing and answers the length and one
// more, so that whatever is written from there on has no room either: one test after the last of
// them, whether the answer is within the length, tells whether all were written.
// Kept: no Option: `put_at` says where a text without room ends, past the length, and the next goes on there.
// Kept: `out` and `at` stand apart, as `put_at` and `sets` take them; a `page::Page` has both in one.
// Kept: no write! into the slice: of a text that has no room `put_at` writes no part.
ghost use Rattle.std.specs.Prelude.{◌≡◌, ◌∷◌, ◌+◌, ◌<◌, ◌≤◌, leb, length};
ghost use Rattle.std.proofs.lemmas.List.Edits.{sets};
ghost use Rattle.text.specs.Text.{space, digits as digitsOf, shown, leaves, put_at};

use crate::numerals::{digit, places};

// Whether a slice of n bytes has room for k of them from `at` on.
fn room(n: usize, at: usize, k: usize) -> bool
    ensures { result ≡ leb (at + k) n }
{
    at <= n && k <= n - at
}

// Stores the bytes s.
fn store(out: &mut [u8], at: usize, s: &[u8])
    requires { at + length s.now ≤ length out.old }
    ensures { out.new ≡ sets out.old at s.now }
{
    out[at..at + s.len()].copy_from_slice(s);
}

// Stores the last k digits of n.
// Kept: base, k and n stand apart, as `digits` of specs takes them.
fn store_digits(out: &mut [u8], at: usize, base: u64, k: usize, n: u64)
    requires { (at + k ≤ length out.old) × (0 < base) × (base ≤ 16) }
    ensures { out.new ≡ sets out.old at (digitsOf base k n) }
{
    let mut rest = n;
    for j in (0..k).rev() {
        out[at + j] = digit(rest % base);
        rest /= base;
    }
}

// The bytes s.
pub fn put(out: &mut [u8], at: usize, s: &[u8]) -> usize
    ensures { leaves out.new result ≡ put_at at s.now out.old }
{
    if room(out.len(), at, s.len()) {
        store(out, at, s);
        at + s.len()
    } else {
        out.len() + 1
    }
}

// The last k digits of n.
fn put_digits(out: &mut [u8], at: usize, base: u64, k: usize, n: u64) -> usize
    requires { (0 < base) × (base ≤ 16) }
    ensures { leaves out.new result ≡ put_at at (digitsOf base k n) out.old }
{
    if room(out.len(), at, k) {
        store_digits(out, at, base, k, n);
        at + k
    } else {
        out.len() + 1
    }
}

// The last k digits of n in base 16.
pub fn put_hex(out: &mut [u8], at: usize, k: usize, n: u64) -> usize
    ensures { leaves out.new result ≡ put_at at (digitsOf 16 k n) out.old }
{
    put_digits(out, at, 16, k, n)
}

// n in decimal.
#[tactic(auto, unfolding(crate::specs::Text::shown))]
pub fn put_decimal(out: &mut [u8], at: usize, n: u64) -> usize
    ensures { leaves out.new result ≡ put_at at (shown n) out.old }
{
    put_digits(out, at, 10, places(n), n)
}

// A space, and n in decimal.
// Kept: not a space and then put_decimal: where the space alone has room, `put_at` writes nothing.
pub fn put_field(out: &mut [u8], at: usize, n: u64) -> usize
    ensures { leaves out.new result ≡ put_at at (space ∷ shown n) out.old }
{
    let k = places(n) + 1;
    if room(out.len(), at, k) {
        out[at] = b' ';
        store_digits(out, at + 1, 10, k - 1, n);
        at + k
    } else {
        out.len() + 1
    }
}
