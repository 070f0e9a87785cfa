// A batch is a source: its units were watched in each tick up to the age at which they failed.
ghost use Rattle.std.specs.Prelude.{◌≡◌};
ghost use Rattle.std.specs.Option.{option_map};
ghost use Rattle.feed.specs.Batches.{batch_counts, batch_made, plain_batch};
ghost use Rattle.feed.specs.BatchLaws.{batch_laws};

use crate::batch::Batch;
use sources::Source;
use units::{Age, Exposure};

const MOST_UNITS: u32 = 1_024;

impl Batch {
    // None outside the bounds: 1 to 1,024 units, and an age from 1 to the last.
    pub fn new(units: u32, age: Age) -> Option<Batch>
        ensures { option_map plain_batch result ≡ batch_made units age.0 }
    {
        if !(1..=MOST_UNITS).contains(&units) || !(Age(1)..=Age::LAST).contains(&age) {
            return None;
        }
        Some(Batch { units, age })
    }
}

impl Source for Batch {
    ghost counts = { λ b. batch_counts (plain_batch b) };

    ghost laws = { λ b. batch_laws b };

    fn next_failure(&self, above: Age) -> Option<Age> {
        (above < self.age).then_some(self.age)
    }

    fn failures_at(&self, age: Age) -> u32 {
        if age == self.age { self.units } else { 0 }
    }

    fn exposure_between(&self, from: Age, to: Age) -> Exposure {
        let high = to.min(self.age);
        let low = from.min(high);
        Exposure(self.units * (high.0 - low.0))
    }

    fn oldest_age(&self) -> Age {
        self.age
    }
}
