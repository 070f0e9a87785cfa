// Steps of growth.
ghost use Rattle.std.specs.Prelude.{Some};
ghost use Rattle.releases.specs.Steps.{step_text};

use std::fmt;

// A step of growth: the rows from `first` to `last`, and their successes and trials added up.
#[derive(Clone, Copy, PartialEq, Eq, Default, Debug)]
pub struct GrowthStep {
    pub first: u32,
    pub last: u32,
    pub successes: u32,
    pub trials: u32,
}

impl fmt::Display for GrowthStep {
    ghost output = { λ step. Some (step_text step) };

    fn fmt<W: fmt::Write>(&self, f: &mut fmt::Formatter<W>) -> fmt::Result {
        write!(
            f,
            "{} {} {} {}",
            self.first, self.last, self.successes, self.trials
        )
    }
}

// The number of steps, and their score.
#[derive(Clone, Copy, PartialEq, Eq, Default, Debug)]
pub struct Growth {
    pub steps: usize,
    pub score: i64,
}
