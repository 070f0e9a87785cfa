// The upper bound on the failure rate of a bench run that was stopped at its last failure.
ghost use Rattle.std.specs.Prelude.{◌≡◌, ◌<◌, ◌≤◌, IfOk};
ghost use Rattle.units.specs.Refusals.{answer};
ghost use Rattle.sources.specs.Benches.{plain_bench};
ghost use Rattle.sources.specs.Bounds.{BoundMeans, bound_answer, bound_denominator, bound_numerator, percentile_answer, rounded_up};

use crate::gaps::total_time_on_test;
use crate::run::BenchRun;
use units::{Exposure, Refusal};

// The level of confidence of a bound.
#[derive(Clone, Copy, PartialEq, Eq, Debug)]
pub enum Confidence {
    Percent95,
    Percent90,
}

const MOST_FAILURES: usize = 10;

// A bound is per million unit-ticks, and a percentile in thousandths.
const TICKS_OF_BOUND: u64 = 1_000_000;

const PARTS_OF_PERCENTILE: u64 = 1_000;

// The percentiles for 1 to 10 failures.
const PERCENTILES_95: [u32; MOST_FAILURES] = [
    5991, 9488, 12592, 15507, 18307, 21026, 23685, 26296, 28869, 31410,
];

const PERCENTILES_90: [u32; MOST_FAILURES] = [
    4605, 7779, 10645, 13362, 15987, 18549, 21064, 23542, 25989, 28412,
];

impl BenchRun<'_> {
    // Percentile / (2 x total time on test), per million unit-ticks, rounded up.
    pub fn bound(&self, confidence: Confidence) -> Result<u64, Refusal>
        ensures answer { answer result ≡ bound_answer confidence (plain_bench self.now) }
        ensures least { IfOk result (λ q. BoundMeans confidence (plain_bench self.now) q) }
    {
        let Some(ages) = self.valid_ages() else {
            return Err(Refusal::NothingThere);
        };
        let Some(last) = ages.last() else {
            return Err(Refusal::NothingThere);
        };
        if *last != self.stop {
            return Err(Refusal::NotStoppedAtFailure);
        }
        let percentile = confidence.percentile(ages.len())?;
        Ok(per_million(percentile, total_time_on_test(self)))
    }
}

impl Confidence {
    fn percentile(self, failures: usize) -> Result<u32, Refusal>
        requires { 1 ≤ failures }
        ensures { answer result ≡ percentile_answer self failures }
    {
        if failures > MOST_FAILURES {
            return Err(Refusal::TooManyFailures);
        }
        Ok(match self {
            Confidence::Percent95 => PERCENTILES_95[failures - 1],
            Confidence::Percent90 => PERCENTILES_90[failures - 1],
        })
    }
}

fn per_million(thousandths: u32, total: Exposure) -> u64
    requires { 0 < total.0 }
    ensures { result ≡ rounded_up (bound_numerator thousandths) (bound_denominator total.0) }
{
    let numerator = thousandths as u64 * TICKS_OF_BOUND;
    let denominator = 2 * total.0 as u64 * PARTS_OF_PERCENTILE;
    (numerator + (denominator - 1)) / denominator
}
