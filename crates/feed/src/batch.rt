// The data of a batch.
ghost use Rattle.std.specs.Prelude.{◌≡◌, true};
ghost use Rattle.feed.specs.BatchRules.{bounded};

use units::Age;

// So many units put in service together at age 0, all of which failed at one age.
#[derive(Clone, Copy, PartialEq, Eq, Debug)]
pub struct Batch {
    pub(crate) units: u32,
    pub(crate) age: Age,
    ghost within: { bounded units age.0 ≡ true },
}
