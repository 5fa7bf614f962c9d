// The settings of a call. All defaults and bounds are constants of the type itself.
ghost use Rattle.std.specs.Prelude.{◌≡◌};
ghost use Rattle.method.specs.Defaults.{defaults};
ghost use Rattle.checks.specs.Values.{settings_of};

// A call refuses a limit above 100,000 or a credit above 1,000 (number 6), and a tolerance or an
// absolute bound that is not finite or is below zero, or a floor that is not finite or not above
// zero (number 7).
#[derive(Clone, Copy, Debug, PartialEq)]
pub struct Settings {
    // How far the counter may rise: it rises by 1 a pass.
    pub limit: usize,
    // How far it falls at a drop.
    pub credit: usize,
    // A coupling below this times its diagonal neighbours' magnitudes is negligible,
    pub tolerance: f64,
    // if it is below this too.
    pub absolute: f64,
    // Entries whose largest magnitude is below this are not reflected.
    pub floor: f64,
}

impl Settings {
    pub const LIMIT: usize = 100;

    pub const CREDIT: usize = 50;

    pub const TOLERANCE: f64 = 1e-10;

    pub const ABSOLUTE: f64 = 1e-12;

    pub const FLOOR: f64 = 1e-21;

    // The greatest limit and the greatest credit: `most_limit` and `most_credit` of method.
    pub const MOST_LIMIT: usize = 100000;

    pub const MOST_CREDIT: usize = 1000;

    // The defaults, as `Default` has them, too.
    pub fn new() -> Settings
        ensures { settings_of result ≡ defaults }
    {
        Settings {
            limit: Settings::LIMIT,
            credit: Settings::CREDIT,
            tolerance: Settings::TOLERANCE,
            absolute: Settings::ABSOLUTE,
            floor: Settings::FLOOR,
        }
    }
}

impl Default for Settings {
    ghost is_default = { λ s. settings_of s ≡ defaults };

    fn default() -> Settings {
        Settings::new()
    }
}
