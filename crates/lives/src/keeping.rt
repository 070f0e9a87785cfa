// Opening a study, entering and striking lives, sealing.
ghost use Rattle.std.specs.Prelude.{◌≡◌, false, map, is_ok};
ghost use Rattle.units.specs.Refusals.{answer};
ghost use Rattle.lives.specs.Lives.{judge, plain};
ghost use Rattle.lives.specs.Studies.{enter_after, enter_answer, held, opened, sealed, strike_after, strike_answer};

use crate::studies::{OpenStudy, SealedStudy};
use crate::types::{Life, Place, UncheckedLife};
use units::Refusal;

impl<'a> OpenStudy<'a> {
    // An empty study over life memory. It uses at most 1,024 places of it.
    pub fn open(memory: &'a mut [Place]) -> OpenStudy<'a>
        ensures held { held result ≡ opened (map plain memory.old) }
        ensures named { result.memory.ghost_name ≡ memory.entry.ghost_name }
    {
        OpenStudy { memory, used: 0 }
    }

    // Enters a life, and answers its place, counted from 0.
    pub fn enter(&mut self, unchecked: UncheckedLife) -> Result<usize, Refusal>
        ensures answer { answer result ≡ enter_answer (held self.old) (judge unchecked) }
        ensures after { held self.new ≡ enter_after (held self.old) (judge unchecked) }
        ensures refused { is_ok result ≡ false → self.new ≡ self.old }
        ensures named { self.new.memory.ghost_name ≡ self.old.memory.ghost_name }
    {
        let life = Life::try_from(unchecked)?;
        self.put(life)
    }

    // Strikes the life at a place: it keeps its place and counts in no fit.
    #[tactic(auto, using(crate::proofs::Places::unstruck_past, crate::proofs::Places::length_used, crate::proofs::Places::struck_is, crate::proofs::Places::held_struck))]
    pub fn strike(&mut self, place: usize) -> Result<(), Refusal>
        ensures answer { answer result ≡ strike_answer (held self.old) place }
        ensures after { held self.new ≡ strike_after (held self.old) place }
        ensures refused { is_ok result ≡ false → self.new ≡ self.old }
        ensures named { self.new.memory.ghost_name ≡ self.old.memory.ghost_name }
    {
        if place >= self.used {
            return Err(Refusal::NothingToStrike);
        }
        if self.memory[place].struck {
            return Err(Refusal::NothingToStrike);
        }
        self.memory[place].struck = true;
        Ok(())
    }

    // Uses up the open study. It is never refused.
    pub fn seal(self) -> SealedStudy<'a>
        ensures held { sealed result ≡ held self.entry }
        ensures named { result.memory.ghost_name ≡ self.entry.memory.ghost_name }
    {
        let OpenStudy { memory, used } = self;
        SealedStudy { memory, used }
    }
}

impl SealedStudy<'_> {
    // The places in use, in order.
    pub fn places(&self) -> &[Place]
        ensures { map plain result.now ≡ (sealed self.now).places }
    {
        &self.memory[0..self.used]
    }
}
