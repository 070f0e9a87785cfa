// Why a call was refused. The numbers are part of the rules.
ghost use Rattle.std.specs.Prelude.{◌≡◌, Some};
ghost use Rattle.units.specs.Refusals.{number_of, place_of, told};
ghost use Rattle.units.specs.Texts.{layer_text, place_text, refusal_text};

use std::fmt;

// The part of an archive that a word belongs to: the frame around the lives, or a life.
#[derive(Clone, Copy, PartialEq, Eq, Debug)]
pub enum Layer {
    Frame,
    Life,
}

impl fmt::Display for Layer {
    ghost output = { λ layer. Some (layer_text layer) };

    fn fmt<W: fmt::Write>(&self, f: &mut fmt::Formatter<W>) -> fmt::Result {
        f.write_str(match self {
            Layer::Frame => "frame",
            Layer::Life => "life",
        })
    }
}

// Where an archive is damaged: the place of a word, counted from 0 (for a bad length: the number of words), and its layer.
#[derive(Clone, Copy, PartialEq, Eq, Debug)]
pub struct WordPlace {
    pub layer: Layer,
    pub place: usize,
}

impl fmt::Display for WordPlace {
    ghost output = { λ at. Some (place_text at) };

    fn fmt<W: fmt::Write>(&self, f: &mut fmt::Formatter<W>) -> fmt::Result {
        write!(f, "{} {}", self.layer, self.place)
    }
}

#[derive(Clone, Copy, PartialEq, Eq, Debug)]
pub enum Refusal {
    // The status is none of the three.
    UnknownStatus,
    // A row's hours are no allowed quarter-hours.
    NotQuarterHours,
    // The entry age is not below the exit age, or the exit age is too high.
    BadAges,
    // The serial is 0 or too high.
    BadSerial,
    // A load meets a study with places used.
    StudyInUse,
    // The words are too few, name too many lives, or their number differs.
    BadLength(WordPlace),
    // A word before the last has the wrong kind or a payload forbidden there.
    BadWord(WordPlace),
    // The check word differs.
    BadCheck(WordPlace),
    // No place is left, or too few for the load.
    NoPlaceLeft,
    // The place to strike is unused, or is struck.
    NothingToStrike,
    // Bench data break their rules.
    BadBench,
    // Nothing is there: no counted failure, no failure, no trial, no piece.
    NothingThere,
    // Step, work, block, gap or word memory is too short.
    MemoryTooShort,
    // The bench did not stop at its last failure.
    NotStoppedAtFailure,
    // The bound has over ten failures.
    TooManyFailures,
    // A note names no row, has successes above trials, or takes a row past its trials.
    BadNote,
    // A list to pool is longer than its kind allows, or its bulks pass the limit.
    TooMuchToPool,
}

impl Refusal {
    // The number of the rules. A method with this name: `u32::from` would not say which number.
    pub fn number(self) -> u32
        ensures { result ≡ number_of (told self) }
    {
        match self {
            Refusal::UnknownStatus => 1,
            Refusal::NotQuarterHours => 2,
            Refusal::BadAges => 3,
            Refusal::BadSerial => 4,
            Refusal::StudyInUse => 5,
            Refusal::BadLength(_) => 6,
            Refusal::BadWord(_) => 7,
            Refusal::BadCheck(_) => 8,
            Refusal::NoPlaceLeft => 9,
            Refusal::NothingToStrike => 10,
            Refusal::BadBench => 11,
            Refusal::NothingThere => 12,
            Refusal::MemoryTooShort => 13,
            Refusal::NotStoppedAtFailure => 14,
            Refusal::TooManyFailures => 15,
            Refusal::BadNote => 16,
            Refusal::TooMuchToPool => 17,
        }
    }

    // Where the archive is damaged, for the three refusals that say it.
    pub fn word_place(self) -> Option<WordPlace>
        ensures { result ≡ place_of (told self) }
    {
        match self {
            Refusal::BadLength(at) | Refusal::BadWord(at) | Refusal::BadCheck(at) => Some(at),
            _ => None,
        }
    }
}

// The number in two digits, and where an archive is damaged its layer and place.
impl fmt::Display for Refusal {
    ghost output = { λ refusal. Some (refusal_text (told refusal)) };

    fn fmt<W: fmt::Write>(&self, f: &mut fmt::Formatter<W>) -> fmt::Result {
        write!(f, "{:02}", self.number())?;
        match self.word_place() {
            Some(at) => write!(f, " {at}"),
            None => Ok(()),
        }
    }
}
