// What is done to the life memory of a study.
ghost use Rattle.std.specs.Prelude.{◌≡◌, ◌<◌, ◌≤◌, false, length, is_ok, Ok, MatchResult};
ghost use Rattle.units.specs.declared.refusals.Refusal.TheVariants.{StudyInUse, NoPlaceLeft};
ghost use Rattle.units.specs.Refusals.{answer};
ghost use Rattle.lives.specs.Lives.{plain_life};
ghost use Rattle.lives.specs.Studies.{enter_after, enter_answer, held};

use crate::studies::{MOST_PLACES, OpenStudy};
use crate::types::{Life, Place};
use units::Refusal;

impl OpenStudy<'_> {
    // The life takes the next place.
    pub(crate) fn put(&mut self, life: Life) -> Result<usize, Refusal>
        ensures answer { answer result ≡ enter_answer (held self.old) (Ok (plain_life life)) }
        ensures after { held self.new ≡ enter_after (held self.old) (Ok (plain_life life)) }
        ensures refused { is_ok result ≡ false → self.new ≡ self.old }
        ensures named { self.new.memory.ghost_name ≡ self.old.memory.ghost_name }
    {
        let next = self.used;
        if next >= MOST_PLACES || next >= self.memory.len() {
            return Err(Refusal::NoPlaceLeft);
        }
        self.memory[next] = Place {
            life,
            struck: false,
        };
        self.used = next + 1;
        Ok(next)
    }

    // Whether no place is used.
    pub(crate) fn unused(&self) -> Result<(), Refusal>
        ensures { MatchResult result (λ _. self.now.used ≡ 0) (λ e. (e ≡ StudyInUse) × (0 < self.now.used)) }
    {
        if self.used > 0 {
            return Err(Refusal::StudyInUse);
        }
        Ok(())
    }

    // Whether the memory has so many places.
    pub(crate) fn room_for(&self, count: usize) -> Result<(), Refusal>
        ensures { MatchResult result (λ _. count ≤ length self.now.memory.now) (λ e. (e ≡ NoPlaceLeft) × (length self.now.memory.now < count)) }
    {
        if count > self.memory.len() {
            return Err(Refusal::NoPlaceLeft);
        }
        Ok(())
    }
}
