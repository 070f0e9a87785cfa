// The data of a bench run.
ghost use Rattle.std.specs.Prelude.{◌≡◌, map};
ghost use Rattle.units.specs.Hours.{age_ticks};
ghost use Rattle.sources.specs.BenchRules.{valid};

use units::Age;

// The units on test, the ages at which some failed, in order, and the age at which the run was stopped.
// A bench made of data that break the rules is void: nothing was watched in it.
#[derive(Clone, Copy)]
pub struct BenchRun<'a> {
    pub(crate) units: u32,
    pub(crate) ages: &'a [Age],
    pub(crate) stop: Age,
    // Whether the data keep the rules, tested once. A flag, and no `Option` of the ages, since a void bench too says what it was made of.
    pub(crate) kept: bool,
    ghost tested: { kept ≡ valid (record { units = units; ages = map age_ticks ages.now; stop = stop.0 }) },
}
