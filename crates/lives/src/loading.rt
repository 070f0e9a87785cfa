// Loading an archive into an empty study. Nothing is written before all words are checked.
ghost use Rattle.std.specs.Prelude.{◌≡◌, ◌≤◌, true, false, map, length, drop, is_ok, None, Ok, Err, MatchResult};
ghost use Rattle.units.specs.declared.refusals.Layer.TheVariants.{Frame};
ghost use Rattle.units.specs.Refusals.{answer, told};
ghost use Rattle.lives.specs.Archive.{archive_of};
ghost use Rattle.lives.specs.Decode.{Checked, FramedLives, decode, error_of, frame_of, load_after, load_answer, places_in};
ghost use Rattle.lives.specs.Lives.{plain};
ghost use Rattle.lives.specs.Studies.{held, most_places};

use crate::reading::read_place;
use crate::studies::{MOST_PLACES, OpenStudy};
use crate::words::{FORM, WordKind, check_word, has_kind, payload, word};
use units::{Layer, Refusal, WordPlace};

impl OpenStudy<'_> {
    // Loads an archive, and answers the number of its lives. No other words are taken for them.
    pub fn load(&mut self, words: &[u32]) -> Result<usize, Refusal>
        ensures answer { answer result ≡ load_answer (held self.old) words.now }
        ensures after { held self.new ≡ load_after (held self.old) words.now }
        ensures refused { is_ok result ≡ false → self.new ≡ self.old }
        ensures only { is_ok result ≡ true → words.now ≡ archive_of (held self.new).places }
        ensures named { self.new.memory.ghost_name ≡ self.old.memory.ghost_name }
    {
        self.unused()?;
        let lives = check_archive(words)?;
        self.room_for(lives.len())?;
        self.fill(lives);
        Ok(lives.len())
    }
}

impl OpenStudy<'_> {
    // The first places hold the lives, each of four words. They are at most 1,024 (`few`, here and in two more workers): a type around the slice would say it no shorter.
    fn fill(&mut self, lives: &[[u32; 4]])
        requires few { length lives.now ≤ most_places }
        requires room { length lives.now ≤ length self.old.memory.now }
        requires good { error_of (places_in 2 lives.now) ≡ None }
        ensures places { places_in 2 lives.now ≡ Ok (held self.new).places }
        ensures spare { (held self.new).spare ≡ map plain (drop (length lives.now) self.old.memory.now) }
        ensures named { self.new.memory.ghost_name ≡ self.old.memory.ghost_name }
    {
        for (i, life) in lives.iter().enumerate() {
            self.memory[i] = read_place(life).unwrap();
        }
        self.used = lives.len();
    }
}

// The words of each life of an archive, or its first damage.
fn check_archive(words: &[u32]) -> Result<&[[u32; 4]], Refusal>
    ensures { MatchResult result (λ lives. Checked words.now lives.now) (λ e. decode words.now ≡ Err (told e)) }
{
    let lives = check_frame(words)?;
    if let Some(place) = bad_life_word(lives) {
        return Err(Refusal::BadWord(WordPlace {
            layer: Layer::Life,
            place,
        }));
    }
    let last = words.len() - 1;
    if check_word(&words[0..last]) != words[last] {
        return Err(Refusal::BadCheck(in_frame(last)));
    }
    Ok(lives)
}

// The words of each of the lives that the frame names.
fn check_frame(words: &[u32]) -> Result<&[[u32; 4]], Refusal>
    ensures { MatchResult result (λ lives. FramedLives words.now lives.now) (λ e. frame_of words.now ≡ Err (told e)) }
{
    if words.len() < 3 {
        return Err(Refusal::BadLength(in_frame(words.len())));
    }
    let count = payload(words[1]) as usize;
    if count > MOST_PLACES || words.len() != 3 + 4 * count {
        return Err(Refusal::BadLength(in_frame(words.len())));
    }
    if words[0] != word(WordKind::Form, FORM) {
        return Err(Refusal::BadWord(in_frame(0)));
    }
    if !has_kind(words[1], WordKind::Count) {
        return Err(Refusal::BadWord(in_frame(1)));
    }
    let (lives, _) = words[2..].as_chunks();
    Ok(lives)
}

// A place in the frame.
fn in_frame(place: usize) -> WordPlace
    ensures { result ≡ record { layer = Frame; place = place } }
{
    WordPlace {
        layer: Layer::Frame,
        place,
    }
}

// The place of the first bad word of the lives. Their words begin at place 2.
fn bad_life_word(lives: &[[u32; 4]]) -> Option<usize>
    requires { length lives.now ≤ most_places }
    ensures { result ≡ error_of (places_in 2 lives.now) }
{
    for (i, life) in lives.iter().enumerate() {
        if let Err(bad) = read_place(life) {
            return Some(2 + 4 * i + bad.place());
        }
    }
    None
}
