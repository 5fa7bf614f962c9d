// The diagonal of a table.
ghost use Rattle.std.specs.Prelude.{◌≡◌, ◌<◌};
ghost use Rattle.method.specs.Order.{diagonal};
ghost use Rattle.method.specs.Ordered.{all_finite};
ghost use Rattle.order.specs.Room.{Room};

use float::is_finite;

// The first c entries of the diagonal of a table of this many columns.
#[derive(Clone, Copy)]
pub(crate) struct Diagonal<'a> {
    pub b: &'a [f64],
    pub cols: usize,
    pub c: usize,
    ghost room: { Room cols c b.now },
}

impl Diagonal<'_> {
    // Entry k.
    pub(crate) fn at(self, k: usize) -> f64
        requires { k < self.c }
        ensures { result ≡ diagonal self.entry.cols self.entry.b.now k }
    {
        self.b[k * self.cols + k]
    }

    // Whether each entry is finite.
    pub(crate) fn all_finite(self) -> bool
        ensures { result ≡ all_finite self.entry.c (diagonal self.entry.cols self.entry.b.now) }
    {
        (0..self.c).all(|i| is_finite(self.at(i)))
    }
}
