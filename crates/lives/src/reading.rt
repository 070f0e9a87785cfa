// What the four words of a life say.
ghost use Rattle.std.specs.Prelude.{◌≡◌, ◌%◌, ◌<◌, nat_le};
ghost use Rattle.std.specs.Bool.{then_some};
ghost use Rattle.lives.specs.Archive.{payload_of};
ghost use Rattle.lives.specs.Decode.{entry_word, exit_above, place_in, serial_word, status_mark_word, viewed};
ghost use Rattle.lives.specs.Lives.{age_of, status_of};
ghost use Rattle.lives.specs.Words.{place_within};

use crate::types::{Life, Place, Status};
use crate::words::{STRUCK, WordKind, payload_as};
use units::Age;

// The four words of a life, in their order.
#[derive(Clone, Copy, PartialEq, Eq, Debug)]
pub(crate) enum LifeWord {
    Serial,
    Entry,
    Exit,
    Status,
}

impl LifeWord {
    // Which of the four words it is, counted from 0.
    pub(crate) fn place(self) -> usize
        ensures place { result ≡ place_within self }
        ensures within { result < 4 }
    {
        self as usize
    }
}

// The place that four words say, or the first bad one of them.
pub(crate) fn read_place(words: &[u32; 4]) -> Result<Place, LifeWord>
    ensures { viewed result ≡ place_in words.now }
{
    let serial = serial_in(words[0]).ok_or(LifeWord::Serial)?;
    let entry = entry_in(words[1]).ok_or(LifeWord::Entry)?;
    let exit = exit_in(words[2], entry).ok_or(LifeWord::Exit)?;
    let (status, struck) = mark_in(words[3]).ok_or(LifeWord::Status)?;
    let life = Life {
        serial,
        entry,
        exit,
        status,
    };
    Ok(Place { life, struck })
}

// A serial is not 0.
fn serial_in(word: u32) -> Option<u32>
    ensures { result ≡ then_some (serial_word word) (payload_of word) }
{
    payload_as(WordKind::Serial, word).filter(|serial| *serial > 0)
}

// An entry age leaves room for an exit age.
fn entry_in(word: u32) -> Option<Age>
    ensures { result ≡ then_some (entry_word word) (age_of (payload_of word)) }
{
    let entry = Age(payload_as(WordKind::Entry, word)?);
    (entry < Age::LAST).then_some(entry)
}

// An exit age is above the entry age, and not too high.
fn exit_in(word: u32, entry: Age) -> Option<Age>
    ensures { result ≡ then_some (exit_above entry.0 word) (age_of (payload_of word)) }
{
    let exit = Age(payload_as(WordKind::Exit, word)?);
    (entry < exit && exit <= Age::LAST).then_some(exit)
}

// A status, and whether 4 is added to it.
fn mark_in(word: u32) -> Option<(Status, bool)>
    ensures { result ≡ then_some (status_mark_word word) (status_of (payload_of word % 4), nat_le 4 (payload_of word)) }
{
    let mark = payload_as(WordKind::Status, word)?;
    if mark >= 2 * STRUCK {
        return None;
    }
    let status = Status::try_from(mark % STRUCK).ok()?;
    Some((status, mark >= STRUCK))
}
