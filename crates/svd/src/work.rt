// What the kernels work on.
ghost use Rattle.method.specs.Work.{work};
ghost use Rattle.svd.specs.Values.{sizes, Lending};

use crate::shape::Shape;

// The table and both factors, lent, how large they are, and whether the bidiagonal form is the upper
// one. The lists are long enough for the sizes.
// Kept: `floor` is handed down and is no field: the walk, whose methods are of Work too, has no floor.
#[derive(Drop)]
pub(crate) struct Work<'a> {
    pub b: &'a mut [f64],
    pub u: &'a mut [f64],
    pub v: &'a mut [f64],
    pub shape: Shape,
    pub upper: bool,
    ghost lending: { Lending (sizes shape) (work b.now u.now v.now) },
}
