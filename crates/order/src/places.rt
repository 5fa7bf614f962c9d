// The old positions in their new order: each is written at its new place, which is how many positions
// come before it.
ghost use Rattle.std.specs.Prelude.{◌≡◌, ◌<◌, ◌≤◌, length, take};
ghost use Rattle.method.specs.Order.{diagonal, ahead, new_place, old_positions, values_by};
ghost use Rattle.method.specs.Order.Sizes.{Finite};
ghost use Rattle.order.specs.Room.{Within, listed};

use crate::diagonal::Diagonal;
use float::magnitude;

impl Diagonal<'_> {
    // Whether position i comes before position j.
    #[tactic(auto, unfolding(method::specs::Order::ahead))]
    fn comes_before(self, i: usize, j: usize) -> bool
        requires { (i < self.c) × (j < self.c) }
        ensures { result ≡ ahead (diagonal self.entry.cols self.entry.b.now) i j }
    {
        let x = magnitude(self.at(i));
        let y = magnitude(self.at(j));
        y < x || x == y && i < j
    }

    // How many of the positions come before position i.
    fn new_place(self, i: usize) -> usize
        requires { i < self.c }
        ensures { result ≡ new_place self.entry.c (ahead (diagonal self.entry.cols self.entry.b.now)) i }
    {
        (0..self.c).filter(|j| self.comes_before(*j, i)).count()
    }

    // The order, in the first c entries of p.
    pub(crate) fn positions(self, p: &mut [usize])
        requires { Finite self.c (diagonal self.cols self.b.now) × (self.c ≤ length p.old) }
        ensures { (length p.new ≡ length p.old)
            × (take self.entry.c p.new ≡ old_positions self.entry.c (diagonal self.entry.cols self.entry.b.now)) }
    {
        for i in 0..self.c {
            let k = self.new_place(i);
            p[k] = i;
        }
    }

    // The c magnitudes in the order that p holds.
    pub(crate) fn values(self, p: &[usize], list: &mut [f64])
        requires { Within self.c p.now × (self.c ≤ length list.old) }
        ensures { list.new
            ≡ values_by self.entry.c (listed self.entry.c p.now) (diagonal self.entry.cols self.entry.b.now) list.old }
    {
        for k in 0..self.c {
            list[k] = magnitude(self.at(p[k]));
        }
    }
}
