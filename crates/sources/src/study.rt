// A sealed study is a source: its lives that are not struck, each watched from its entry age to its exit age.
ghost use Rattle.std.specs.Prelude.{◌≡◌, ◌≤◌, map, length};
ghost use Rattle.lives.specs.Lives.{plain};
ghost use Rattle.lives.specs.Studies.{sealed};
ghost use Rattle.sources.specs.Counts.{most_failures};
ghost use Rattle.sources.specs.Questions.{Next, Oldest, sooner};
ghost use Rattle.sources.specs.Studies.{failure_above, has_failed, last_age_of, study_counts, study_failed, study_watched, ticks_of};
ghost use Rattle.sources.specs.StudyLaws.{sealed_laws};
ghost use Rattle.sources.specs.Ticks.{between};

use crate::source::Source;
use lives::{Place, SealedStudy, Status};
use units::{Age, Exposure};

impl<'a> Source for SealedStudy<'a> {
    ghost counts = { λ s. study_counts (sealed s).places };

    ghost laws = { λ s. sealed_laws s };

    fn next_failure(&self, above: Age) -> Option<Age> {
        next_failure_in(self.places(), above)
    }

    fn failures_at(&self, age: Age) -> u32 {
        failures_in(self.places(), age)
    }

    fn exposure_between(&self, from: Age, to: Age) -> Exposure {
        exposure_in(self.places(), from, to)
    }

    fn oldest_age(&self) -> Age {
        oldest_in(self.places())
    }
}

// The chains map each life and filter none, and tests are joined by `&`: a branch on what a life holds is guessed wrong at every second of lives in no order.
fn next_failure_in(places: &[Place], above: Age) -> Option<Age>
    ensures { Next (study_failed (map plain places.now)) above.0 result }
{
    places
        .iter()
        .map(|place| failure_above(*place, above))
        .fold(None, earlier)
}

fn failures_in(places: &[Place], age: Age) -> u32
    requires { length places.now ≤ most_failures }
    ensures { result ≡ study_failed (map plain places.now) age.0 }
{
    places
        .iter()
        .map(|place| u32::from(has_failed(*place) & (place.life.exit == age)))
        .sum()
}

fn exposure_in(places: &[Place], from: Age, to: Age) -> Exposure
    requires { length places.now ≤ most_failures }
    ensures { result.0 ≡ between (study_watched (map plain places.now)) from.0 to.0 }
{
    Exposure(places.iter().map(|place| ticks(*place, from, to)).sum())
}

fn oldest_in(places: &[Place]) -> Age
    ensures { Oldest (study_watched (map plain places.now)) result.0 }
{
    places
        .iter()
        .map(|place| last_age(*place))
        .max()
        .unwrap_or_default()
}

// Whether a life failed and is not struck.
fn has_failed(place: Place) -> bool
    ensures { result ≡ has_failed (plain place) }
{
    !place.struck & (place.life.status == Status::Failed)
}

// The age at which a life failed, where it did, is not struck, and is above another age.
fn failure_above(place: Place, above: Age) -> Option<Age>
    ensures { result ≡ failure_above above.0 (plain place) }
{
    (has_failed(place) & (place.life.exit > above)).then_some(place.life.exit)
}

// The earlier of two ages, each of which may be none.
fn earlier(one: Option<Age>, other: Option<Age>) -> Option<Age>
    ensures { result ≡ sooner one other }
{
    match (one, other) {
        (Some(one), Some(other)) => Some(one.min(other)),
        (Some(one), None) => Some(one),
        (None, other) => other,
    }
}

// The last age at which a life was watched, or 0 where it is struck.
fn last_age(place: Place) -> Age
    ensures { result.0 ≡ last_age_of (plain place) }
{
    if place.struck {
        Age(0)
    } else {
        place.life.exit
    }
}

fn ticks(place: Place, from: Age, to: Age) -> u32
    ensures { result ≡ ticks_of (plain place) from.0 to.0 }
{
    if place.struck {
        return 0;
    }
    let low = place.life.entry.max(from);
    let high = place.life.exit.min(to);
    high.0.saturating_sub(low.0)
}
