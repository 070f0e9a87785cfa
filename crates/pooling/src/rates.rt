// A rate: failures over an exposure of at least one unit-tick.
ghost use Rattle.std.specs.Prelude.{◌≤◌};

use units::Exposure;

#[derive(Clone, Copy, PartialEq, Eq, Debug)]
pub struct Rate {
    pub failures: u32,
    pub exposure: Exposure,
    ghost exposed: { 1 ≤ exposure.0 },
}
