// The trait of four questions, by what a source means.
ghost use Rattle.std.specs.Prelude.{◌≡◌};
ghost use Rattle.sources.specs.Ages.{next_failure, oldest};
ghost use Rattle.sources.specs.Counts.{Counts, Lawful};
ghost use Rattle.sources.specs.Questions.{QuestionsStand};
ghost use Rattle.sources.specs.Ticks.{between};

use units::{Age, Exposure};

// A source means two counts for each tick: the units watched in it, and the failures at its end.
// Every question is answered by the counts, for any ages, and changes nothing.
pub trait Source {
    ghost counts: { Self → Counts };

    // What each source owes.
    ghost laws: { (s : Self) → Lawful (counts s).watched (counts s).failed };

    // The next failure age above an age, or none.
    fn next_failure(&self, above: Age) -> Option<Age>
        ensures { result ≡ next_failure (counts self.now).failed above.0 };

    // The failures at an age.
    fn failures_at(&self, age: Age) -> u32
        ensures { result ≡ (counts self.now).failed age.0 };

    // The unit-ticks after one age and up to another; 0 where the first is not below the second.
    fn exposure_between(&self, from: Age, to: Age) -> Exposure
        ensures { result.0 ≡ between (counts self.now).watched from.0 to.0 };

    // The oldest age at which a unit was watched; 0, as the rules have it, where none was.
    fn oldest_age(&self) -> Age
        ensures { result.0 ≡ oldest (counts self.now).watched };
}

// What the next failure age and the oldest age are, for the counts of any source.
pub fn questions_stand()
    ensures { QuestionsStand }
{}
