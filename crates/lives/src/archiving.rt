// Writing the archive of a sealed study.
ghost use Rattle.std.specs.Prelude.{◌≡◌, ◌≤◌, map, length, take, IfOk, Ok};
ghost use Rattle.units.specs.Refusals.{answer};
ghost use Rattle.lives.specs.Archive.{place_words, status_mark, write_after, write_answer};
ghost use Rattle.lives.specs.Decode.{decode};
ghost use Rattle.lives.specs.Lives.{plain};
ghost use Rattle.lives.specs.Studies.{most_places, sealed};

use crate::studies::SealedStudy;
use crate::types::{Place, Status};
use crate::words::{FORM, STRUCK, WordKind, check_word, word};
use units::Refusal;

impl SealedStudy<'_> {
    // Writes the archive into the front of the words, and answers its length. What is written reads back.
    pub fn write(&self, words: &mut [u32]) -> Result<usize, Refusal>
        ensures answer { answer result ≡ write_answer (sealed self.now).places words.old }
        ensures after { words.new ≡ write_after (sealed self.now).places words.old }
        ensures read { IfOk result (λ n. decode (take n words.new) ≡ Ok (sealed self.now).places) }
    {
        write_places(&self.memory[0..self.used], words)
    }
}

// The status as an archive has it: with 4 added if struck.
fn mark(status: Status, struck: bool) -> u32
    ensures { result ≡ status_mark status struck }
{
    let code = u32::from(status);
    if struck { code + STRUCK } else { code }
}

fn life_words(place: &Place) -> [u32; 4]
    ensures { result ≡ place_words (plain place.now) }
{
    let life = place.life;
    [
        word(WordKind::Serial, life.serial),
        word(WordKind::Entry, life.entry.0),
        word(WordKind::Exit, life.exit.0),
        word(WordKind::Status, mark(life.status, place.struck)),
    ]
}

fn write_places(places: &[Place], words: &mut [u32]) -> Result<usize, Refusal>
    requires { length places.now ≤ most_places }
    ensures answer { answer result ≡ write_answer (map plain places.now) words.old }
    ensures after { words.new ≡ write_after (map plain places.now) words.old }
{
    let count = places.len();
    let end = 2 + 4 * count;
    if words.len() <= end {
        return Err(Refusal::MemoryTooShort);
    }
    words[0] = word(WordKind::Form, FORM);
    words[1] = word(WordKind::Count, count as u32);
    // By index: the library does not say what words that `as_chunks_mut` cuts end as.
    for (i, place) in places.iter().enumerate() {
        let at = 2 + 4 * i;
        words[at..at + 4].copy_from_slice(&life_words(place));
    }
    words[end] = check_word(&words[0..end]);
    Ok(end + 1)
}
