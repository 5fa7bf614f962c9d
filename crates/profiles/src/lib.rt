// One profile per instrument: the settings that a surveyor picks by the instrument's number.
#![tactic(auto)]

ghost use Rattle.std.specs.Prelude.{◌≡◌};
ghost use Rattle.std.specs.Float.{binary64};
ghost use Rattle.method.specs.Profiles.{no_profile, picked};
ghost use Rattle.profiles.specs.Values.{picked_in};

use checks::refusal::Refusal;
use checks::settings::Settings;

// What an instrument is given; the floor is the default one for all.
// Kept: not Settings, since `Profile` of method has these four, and one floor for all.
#[derive(Clone, Copy, Debug, PartialEq)]
struct Profile {
    limit: usize,
    credit: usize,
    tolerance: f64,
    absolute: f64,
}

// The profiles, from number 1 on.
// Kept: a profile goes by its number, as the C caller and the definition `picked` have it.
// Kept: the first has the defaults' numbers, but as its own, as the definition `profiles` writes them.
const PROFILES: [Profile; 4] = [
    // 1, vane.
    Profile {
        limit: 100,
        credit: 50,
        tolerance: 1e-10,
        absolute: 1e-12,
    },
    // 2, hot wire.
    Profile {
        limit: 200,
        credit: 50,
        tolerance: 1e-12,
        absolute: 1e-13,
    },
    // 3, ultrasonic.
    Profile {
        limit: 400,
        credit: 100,
        tolerance: 1e-13,
        absolute: 1e-14,
    },
    // 4, smoke tube.
    Profile {
        limit: 50,
        credit: 25,
        tolerance: 1e-6,
        absolute: 1e-8,
    },
];

// There is no profile of this number: they are counted from 1.
// Kept: a test of its own, as the definition `no_profile` is: `PROFILES.get` would say it a second way.
fn no_profile(profile: usize) -> bool
    ensures { result ≡ no_profile profile }
{
    profile == 0 || profile > PROFILES.len()
}

// The settings of the profile of this number.
// Kept: no From<Profile>, which would be called here alone and say the same five lines.
pub fn pick(profile: usize) -> Result<Settings, Refusal>
    ensures { picked_in result ≡ picked binary64 profile }
{
    if no_profile(profile) {
        return Err(Refusal::NoProfile);
    }
    let entry = PROFILES[profile - 1];
    Ok(Settings {
        limit: entry.limit,
        credit: entry.credit,
        tolerance: entry.tolerance,
        absolute: entry.absolute,
        floor: Settings::FLOOR,
    })
}
