// The steps of a curve.
ghost use Rattle.std.specs.Prelude.{Some};
ghost use Rattle.curves.specs.Texts.{step_text};

use std::fmt;
use units::{Age, Exposure};

// From one age to another the failure rate is failures over exposure.
#[derive(Clone, Copy, PartialEq, Eq, Default, Debug)]
pub struct Step {
    pub from: Age,
    pub to: Age,
    pub failures: u32,
    pub exposure: Exposure,
}

impl fmt::Display for Step {
    ghost output = { λ step. Some (step_text step) };

    fn fmt<W: fmt::Write>(&self, f: &mut fmt::Formatter<W>) -> fmt::Result {
        write!(
            f,
            "{} {} {} {}",
            self.from.0, self.to.0, self.failures, self.exposure.0
        )
    }
}
