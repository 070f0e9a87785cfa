// Kinds whose elements have a score.
ghost use Rattle.std.specs.Prelude.{◌≡◌, ◌*◌, ℤ};
ghost use Rattle.arith.specs.Log.{squarings};
ghost use Rattle.arith.specs.Scores.{log_term};
ghost use Rattle.pooling.specs.Scores.{unit_bound, Within, Modest, rate_score, share_score};
ghost use Rattle.pooling.specs.Terms.{rates_modest, shares_modest};
ghost use Rattle.std.proofs.Common.{rules};

use super::kinds::{Poolable, Turned};
use super::rates::Rate;
use super::shares::Share;
use arith::scaled_log2;

// A kind whose elements have a score, so bounded that the scores of a list add up in 64 bits.
pub trait Scored: Poolable {
    ghost scores: { Self → ℤ };

    fn score(&self) -> i64
        ensures { result ≡ scores self.now };

    // No score passes 2^21 for each unit of bulk, up or down.
    ghost modest: { Modest Self.Poolable.bulks scores };
}

// part (S(part) - S(whole)), for the logarithm S; 0 where the part is 0.
fn term(part: u32, whole: u32) -> i64
    ensures value { result ≡ log_term squarings part whole }
    ensures bound { Within (unit_bound * part) result }
{
    let above = scaled_log2(part) as i64;
    let below = scaled_log2(whole) as i64;
    part as i64 * (above - below)
}

impl Scored for Rate {
    ghost scores = { rate_score };

    ghost modest = { rates_modest };

    fn score(&self) -> i64 {
        term(self.failures, self.exposure.0)
    }
}

impl Scored for Share {
    ghost scores = { share_score };

    ghost modest = { shares_modest };

    fn score(&self) -> i64 {
        let failed = self.trials - self.successes;
        term(self.successes, self.trials) + term(failed, self.trials)
    }
}

impl<K: Scored> Scored for Turned<K> {
    ghost scores = { λ x. K.Scored.scores x.0 };

    ghost modest = { Prim.search rules };

    fn score(&self) -> i64 {
        self.0.score()
    }
}
