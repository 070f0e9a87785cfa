// Rates compare by their exact ratio and pool by adding failures and exposure.
ghost use Rattle.std.specs.Prelude.{◌≡◌, Some};
ghost use Rattle.std.specs.Option.{option_map};
ghost use Rattle.pooling.specs.Ratios.{none_of_one};
ghost use Rattle.pooling.specs.Texts.{ratio_text};
ghost use Rattle.pooling.specs.Kinds.{rate_part, rate_whole, rate_bulk, rate_sum, rate_ratio, rate_made};
ghost use Rattle.pooling.specs.Same.{rates_add};

use super::fractions::Fraction;
use super::rates::Rate;
use std::fmt;
use units::Exposure;

impl Rate {
    // The rate of these failures over this exposure; none without exposure.
    pub fn new(failures: u32, exposure: Exposure) -> Option<Rate>
        ensures { option_map rate_ratio result ≡ rate_made failures exposure.0 }
    {
        if exposure == Exposure(0) {
            None
        } else {
            Some(Rate { failures, exposure })
        }
    }
}

// 0 over one unit-tick.
impl Default for Rate {
    ghost is_default = { λ rate. rate_ratio rate ≡ none_of_one };

    fn default() -> Rate {
        Rate {
            failures: 0,
            exposure: Exposure(1),
        }
    }
}

impl Fraction for Rate {
    const MOST: usize = 1024;

    ghost MOST = { 1024 };

    ghost parts = { rate_part };

    ghost wholes = { rate_whole };

    ghost weights = { rate_bulk };

    ghost sums = { rate_sum };

    ghost adds = { rates_add };

    fn part(&self) -> u32 {
        self.failures
    }

    fn whole(&self) -> u32 {
        self.exposure.0
    }

    fn weight(&self) -> u64 {
        self.failures as u64 + self.exposure.0 as u64
    }

    fn plus(self, other: Rate) -> Rate {
        Rate {
            failures: self.failures + other.failures,
            exposure: Exposure(self.exposure.0 + other.exposure.0),
        }
    }
}

impl fmt::Display for Rate {
    ghost output = { λ rate. Some (ratio_text (rate_ratio rate)) };

    fn fmt<W: fmt::Write>(&self, f: &mut fmt::Formatter<W>) -> fmt::Result {
        write!(f, "{}/{}", self.failures, self.exposure.0)
    }
}
