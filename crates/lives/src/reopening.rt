// Going on from a sealed study: its archive is written, and loaded into a new study.
ghost use Rattle.std.specs.Prelude.{◌≡◌};
ghost use Rattle.units.specs.Refusals.{answer};
ghost use Rattle.lives.specs.RoundTrip.{OnlyWritten, ReadsBack, take_over_after, take_over_answer, take_over_words};
ghost use Rattle.lives.specs.Studies.{held, sealed};

use crate::studies::{OpenStudy, SealedStudy};
use units::Refusal;

impl OpenStudy<'_> {
    // An empty study takes over the places of a sealed one, through its archive. It answers their number.
    pub fn take_over(&mut self, from: &SealedStudy, words: &mut [u32]) -> Result<usize, Refusal>
        ensures answer { answer result ≡ take_over_answer (held self.old) (sealed from.now).places words.old }
        ensures after { held self.new ≡ take_over_after (held self.old) (sealed from.now).places words.old }
        ensures words { words.new ≡ take_over_words (held self.old) (sealed from.now).places words.old }
        ensures named { self.new.memory.ghost_name ≡ self.old.memory.ghost_name }
    {
        self.unused()?;
        self.room_for(from.used)?;
        let length = from.write(words)?;
        self.load(&words[0..length])
    }
}

// What is written reads back, and no other words are taken for the same places.
pub fn archive_laws()
    ensures { (ReadsBack) × (OnlyWritten) }
{}
