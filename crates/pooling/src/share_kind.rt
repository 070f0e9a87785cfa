// Shares compare by their exact ratio and pool by adding successes and trials.
ghost use Rattle.std.specs.Prelude.{◌≡◌, Some};
ghost use Rattle.std.specs.Option.{option_map};
ghost use Rattle.pooling.specs.Ratios.{none_of_one};
ghost use Rattle.pooling.specs.Texts.{ratio_text};
ghost use Rattle.pooling.specs.Kinds.{share_part, share_whole, share_bulk, share_sum, share_ratio, share_made};
ghost use Rattle.pooling.specs.Same.{shares_add};

use super::fractions::Fraction;
use super::shares::Share;
use std::fmt;

impl Share {
    // The share of these successes among these trials; none without a trial, or where the successes pass the trials.
    pub fn new(successes: u32, trials: u32) -> Option<Share>
        ensures { option_map share_ratio result ≡ share_made successes trials }
    {
        if trials == 0 || successes > trials {
            None
        } else {
            Some(Share { successes, trials })
        }
    }
}

// 0 of 1.
impl Default for Share {
    ghost is_default = { λ share. share_ratio share ≡ none_of_one };

    fn default() -> Share {
        Share {
            successes: 0,
            trials: 1,
        }
    }
}

impl Fraction for Share {
    const MOST: usize = 64;

    ghost MOST = { 64 };

    ghost parts = { share_part };

    ghost wholes = { share_whole };

    ghost weights = { share_bulk };

    ghost sums = { share_sum };

    ghost adds = { shares_add };

    fn part(&self) -> u32 {
        self.successes
    }

    fn whole(&self) -> u32 {
        self.trials
    }

    fn weight(&self) -> u64 {
        self.trials as u64
    }

    fn plus(self, other: Share) -> Share {
        Share {
            successes: self.successes + other.successes,
            trials: self.trials + other.trials,
        }
    }
}

impl fmt::Display for Share {
    ghost output = { λ share. Some (ratio_text (share_ratio share)) };

    fn fmt<W: fmt::Write>(&self, f: &mut fmt::Formatter<W>) -> fmt::Result {
        write!(f, "{}/{}", self.successes, self.trials)
    }
}
