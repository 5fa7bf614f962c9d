// Where the first bad reading stands, and how many there are.
ghost use Rattle.std.specs.Prelude.{◌≡◌, ◌*◌, ◌<◌};
ghost use Rattle.method.specs.Settings.{most_size};
ghost use Rattle.method.specs.Checks.{nowhere, counted, looked};
ghost use Rattle.checks.specs.Values.{place_in};

use float::is_finite;

// The station (row) and the pass (column) of the first reading that is infinite or NaN, from 0, and
// how many such readings there are in all; zeros where there is none.
// Kept: no Option: the definitions `nowhere`, `counted` and `bad_readings` say by zeros that there is none.
#[derive(Clone, Copy, Debug, Default, PartialEq, Eq)]
pub struct Place {
    pub row: usize,
    pub column: usize,
    pub bad: usize,
}

impl Place {
    // No reading is bad.
    pub fn nowhere() -> Place
        ensures { place_in result ≡ nowhere }
    {
        Place::default()
    }

    // One bad reading more, at that row and column: the first says where it is, and each is counted.
    fn counted(self, row: usize, column: usize) -> Place
        requires { self.bad < most_size * most_size }
        ensures { place_in result ≡ counted row column (place_in self) }
    {
        if self.bad == 0 {
            return Place {
                row,
                column,
                bad: 1,
            };
        }
        Place {
            bad: self.bad + 1,
            ..self
        }
    }

    // Reading (row, column) is x.
    // Kept: no `&mut self`: the definition `looked` makes a place of a place, and so the loop reads.
    pub(crate) fn looked(self, row: usize, column: usize, x: f64) -> Place
        requires { self.bad < most_size * most_size }
        ensures { place_in result ≡ looked row column x (place_in self) }
    {
        if is_finite(x) {
            return self;
        }
        self.counted(row, column)
    }
}
