// A page: a slice that is written from its start on, one text after the other.
ghost use Rattle.std.specs.Prelude.{◌≡◌, ◌∷◌};
ghost use Rattle.text.specs.Text.{space, digits as digitsOf, shown};
ghost use Rattle.text.specs.Page.{Puts};

use crate::writing;

// The slice, and where what was written ends. A text that has no room is left out, and `at` is the
// length and one more then, so that whatever comes after it has no room either: one test after the
// last of them, whether `at` is within the length, tells whether all were written.
#[derive(Drop)]
pub struct Page<'a> {
    pub out: &'a mut [u8],
    pub at: usize,
}

impl<'a> Page<'a> {
    pub fn new(out: &'a mut [u8]) -> Page<'a>
        ensures same_reference { result.out.ghost_name ≡ out.entry.ghost_name }
        ensures out { result.out.now ≡ out.old }
        ensures at { result.at ≡ 0 }
    {
        Page { out, at: 0 }
    }

    // The bytes s.
    pub fn put(&mut self, s: &[u8])
        ensures { Puts self.old s.now self.new }
    {
        self.at = writing::put(self.out, self.at, s);
    }

    // The last k digits of n in base 16.
    pub fn put_hex(&mut self, k: usize, n: u64)
        ensures { Puts self.old (digitsOf 16 k n) self.new }
    {
        self.at = writing::put_hex(self.out, self.at, k, n);
    }

    // n in decimal.
    pub fn put_decimal(&mut self, n: u64)
        ensures { Puts self.old (shown n) self.new }
    {
        self.at = writing::put_decimal(self.out, self.at, n);
    }

    // A space, and n in decimal.
    pub fn put_field(&mut self, n: u64)
        ensures { Puts self.old (space ∷ shown n) self.new }
    {
        self.at = writing::put_field(self.out, self.at, n);
    }
}
