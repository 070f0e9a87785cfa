// A bench run is a source: units put on test together at age 0 and watched until they fail or the run is stopped.
ghost use Rattle.std.specs.Prelude.{◌≡◌, ◌-◌, ◌≤◌, min, true, false, map, MatchOption};
ghost use Rattle.units.specs.Hours.{age_ticks};
ghost use Rattle.units.specs.Refusals.{answer};
ghost use Rattle.sources.specs.BenchLaws.{bench_laws};
ghost use Rattle.sources.specs.Benches.{bench_counts, check_answer, in_order, plain_bench, sizes_valid, valid};

use crate::run::BenchRun;
use crate::source::Source;
use units::{Age, Exposure, Refusal};

const MOST_UNITS: u32 = 1_024;

impl<'a> BenchRun<'a> {
    pub fn new(units: u32, ages: &'a [Age], stop: Age) -> BenchRun<'a>
        ensures { plain_bench result ≡ record { units = units; ages = map age_ticks ages.now; stop = stop.0 } }
    {
        let kept = keep_rules(units, ages, stop);
        BenchRun {
            units,
            ages,
            stop,
            kept,
        }
    }

    // Refuses data that break the rules of a bench run.
    pub fn check(&self) -> Result<(), Refusal>
        ensures { answer result ≡ check_answer (plain_bench self.now) }
    {
        if self.kept {
            Ok(())
        } else {
            Err(Refusal::BadBench)
        }
    }

    // The failure ages of a bench that is not void.
    pub(crate) fn valid_ages(&self) -> Option<&'a [Age]>
        ensures { MatchOption result (valid (plain_bench self.now) ≡ false) (λ ages. (valid (plain_bench self.now) ≡ true) × (ages.now ≡ self.now.ages.now)) }
    {
        self.kept.then_some(self.ages)
    }
}

impl<'a> Source for BenchRun<'a> {
    ghost counts = { λ b. bench_counts (plain_bench b) };

    ghost laws = { λ b. bench_laws (plain_bench b) };

    fn next_failure(&self, above: Age) -> Option<Age> {
        self.valid_ages()?.iter().copied().find(|age| *age > above)
    }

    fn failures_at(&self, age: Age) -> u32 {
        let Some(ages) = self.valid_ages() else {
            return 0;
        };
        ages.iter().filter(|failed| **failed == age).count() as u32
    }

    fn exposure_between(&self, from: Age, to: Age) -> Exposure {
        let Some(ages) = self.valid_ages() else {
            return Exposure(0);
        };
        let high = to.min(self.stop);
        let low = from.min(high);
        let unfailed = self.units - ages.len() as u32;
        let failed: u32 = ages.iter().map(|age| ticks_before(*age, low, high)).sum();
        Exposure(unfailed * (high.0 - low.0) + failed)
    }

    fn oldest_age(&self) -> Age {
        let Some(ages) = self.valid_ages() else {
            return Age(0);
        };
        if ages.len() < self.units as usize {
            return self.stop;
        }
        ages.last().copied().unwrap_or_default()
    }
}

// Whether bench data keep the rules.
fn keep_rules(units: u32, ages: &[Age], stop: Age) -> bool
    ensures { result ≡ valid (record { units = units; ages = map age_ticks ages.now; stop = stop.0 }) }
{
    are_sizes_valid(units, ages.len(), stop) && are_in_order(ages, stop)
}

fn are_sizes_valid(units: u32, failures: usize, stop: Age) -> bool
    ensures { result ≡ sizes_valid units failures stop.0 }
{
    (1..=MOST_UNITS).contains(&units)
        && (Age(1)..=Age::LAST).contains(&stop)
        && failures <= units as usize
}

fn are_in_order(ages: &[Age], stop: Age) -> bool
    ensures { result ≡ in_order 1 stop.0 (map age_ticks ages.now) }
{
    let (Some(first), Some(last)) = (ages.first(), ages.last()) else {
        return true;
    };
    // Ages that rise lie between the first and the last, so that they are read once.
    *first >= Age(1) && *last <= stop && ages.is_sorted()
}

// What a unit that failed at an age ran from one age to another.
fn ticks_before(age: Age, low: Age, high: Age) -> u32
    requires { low.0 ≤ high.0 }
    ensures { result ≡ min age.0 high.0 - min age.0 low.0 }
{
    age.min(high).0 - age.min(low).0
}
