// The lists of a run.
ghost use Rattle.std.specs.Prelude.{◌≡◌, ◌≤◌, length};
ghost use Rattle.vectors.specs.declared.lists.TheConstants.{LONGEST};

use crate::bits::Stop;
use console::read_full;
use std::io::Read;

// The longest list that is stored.
const LONGEST: usize = 49 * 49;

// Room for it.
#[derive(Drop)]
struct Room([f64; LONGEST]);

impl Room {
    // The first of its entries.
    fn first_mut(&mut self, len: usize) -> &mut [f64]
        requires { len ≤ LONGEST }
        ensures { length result.now ≡ len }
    {
        &mut self.0[..len]
    }
}

// A list of doubles, which stand at the start of its room.
// Kept: room for the longest list and a length beside it, since there is no Vec.
// Kept: no Copy and no Clone, which would be of the whole room: `copy_from` copies the entries alone.
#[derive(Drop)]
pub(crate) struct List {
    room: Room,
    len: usize,
    ghost fits: { len ≤ LONGEST },
}

impl List {
    // An empty list.
    fn new() -> List {
        List {
            room: Room([0.0; LONGEST]),
            len: 0,
        }
    }

    // Becomes a blank list of this length, filled with what is never written among the values: a
    // magnitude is not below zero.
    // Kept: the calls are lent plain doubles, so no Option says that an entry was not written.
    fn blank(&mut self, len: usize) -> Result<(), Stop> {
        if len > LONGEST {
            return Err(Stop::Malformed);
        }
        self.len = len;
        self.as_mut_slice().fill(-1.0);
        Ok(())
    }

    // Becomes the same as the other list.
    fn copy_from(&mut self, other: &List) {
        self.len = other.len;
        self.as_mut_slice().copy_from_slice(other.as_slice());
    }

    pub(crate) fn as_slice(&self) -> &[f64]
        ensures { length result.now ≡ self.now.len }
    {
        &self.room.0[..self.len]
    }

    pub(crate) fn as_mut_slice(&mut self) -> &mut [f64]
        ensures { length result.now ≡ self.old.len }
    {
        let len = self.len;
        self.room.first_mut(len)
    }

    // Reads the list from the next words.
    pub(crate) fn read<R: Read>(&mut self, input: &mut R) -> Result<(), Stop> {
        let mut room = [[0; 8]; LONGEST];
        let words = &mut room[..self.len];
        let bytes = words.as_flattened_mut();
        if read_full(input, bytes)? < bytes.len() {
            return Err(Stop::Malformed);
        }
        for (entry, word) in self.as_mut_slice().iter_mut().zip(words.iter()) {
            *entry = float::from_bits(u64::from_le_bytes(*word));
        }
        Ok(())
    }

    // Whether the other list is the same, bit for bit, all NaNs alike.
    // Kept: no PartialEq, since == takes +0 for -0 and no NaN for itself.
    pub(crate) fn same_as(&self, other: &List) -> bool {
        self.len == other.len
            && self
                .as_slice()
                .iter()
                .zip(other.as_slice())
                .all(|(x, y)| float::to_bits(*x) == float::to_bits(*y))
    }
}

// How long matrix, U, V and the list of values are.
#[derive(Clone, Copy)]
pub(crate) struct Sizes {
    pub(crate) matrix: usize,
    pub(crate) u: usize,
    pub(crate) v: usize,
    pub(crate) values: usize,
}

// Matrix, U, V and the list of values.
#[derive(Drop)]
pub(crate) struct Lists {
    pub(crate) matrix: List,
    pub(crate) u: List,
    pub(crate) v: List,
    pub(crate) values: List,
}

impl Lists {
    // Empty lists.
    pub(crate) fn new() -> Lists {
        Lists {
            matrix: List::new(),
            u: List::new(),
            v: List::new(),
            values: List::new(),
        }
    }

    // Become blank lists of these lengths.
    pub(crate) fn blank(&mut self, sizes: Sizes) -> Result<(), Stop> {
        self.matrix.blank(sizes.matrix)?;
        self.u.blank(sizes.u)?;
        self.v.blank(sizes.v)?;
        self.values.blank(sizes.values)
    }

    // Become the same as the others.
    pub(crate) fn copy_from(&mut self, other: &Lists) {
        self.matrix.copy_from(&other.matrix);
        self.u.copy_from(&other.u);
        self.v.copy_from(&other.v);
        self.values.copy_from(&other.values);
    }

    // Reads U and V.
    pub(crate) fn read_factors<R: Read>(&mut self, input: &mut R) -> Result<(), Stop> {
        self.u.read(input)?;
        self.v.read(input)
    }

    // Whether each list is the same as the other's.
    pub(crate) fn same_as(&self, other: &Lists) -> bool {
        self.matrix.same_as(&other.matrix) && self.same_beside(other)
    }

    // Whether each list beside the matrix is the same as the other's.
    pub(crate) fn same_beside(&self, other: &Lists) -> bool {
        self.u.same_as(&other.u) && self.v.same_as(&other.v) && self.values.same_as(&other.values)
    }
}
