// Fields and lines: where the byte that ends one stands.
ghost use Rattle.std.specs.Prelude.{◌≡◌, ◌<◌, ◌≤◌, length, IfSome, unwrap_or};
ghost use Rattle.text.specs.Text.{found, cut as cut_at};
ghost use Rattle.text.specs.Code.{parts_of, lie_in};

// Where the first byte `stop` from `at` on stands. None where there is none, and where `at` is past
// the end.
// Kept: `at` stands beside the bytes, as `found` takes it; `cut` hands on what is left.
pub fn find(s: &[u8], at: usize, stop: u8) -> Option<usize>
    ensures found { unwrap_or result (length s.now) ≡ found stop at s.now }
    ensures within { IfSome result (λ i. (at ≤ i) × (i < length s.now)) }
{
    let rest = s.get(at..)?;
    let i = rest.iter().position(|b| *b == stop)?;
    Some(at + i)
}

// What stands before the first byte `stop`, and what follows that byte.
pub fn cut(s: &[u8], stop: u8) -> Option<(&[u8], &[u8])>
    ensures parts { parts_of result ≡ cut_at stop s.now }
    ensures place { IfSome result (lie_in s.entry.ref_ptr) }
{
    let i = find(s, 0, stop)?;
    Some((&s[..i], &s[i + 1..]))
}
