// The answers to lines, as they are printed.
use crate::failures::Failure;
use crate::requests::Room;
use curves::Fit;
use std::{fmt, io};

// How many words of an archive stand on a line.
const WORDS_TO_A_LINE: usize = 8;

// An answer of one line.
#[derive(Clone, Copy)]
pub enum Answer {
    Open(u32),
    Place(usize),
    Struck(u32),
    Loaded(usize),
    Sealed(usize),
    Room(Room, u32),
    Noted(u32),
    Growth(usize, i64),
    Blocks(usize),
    Bench,
    Bound(u64),
    Curve(Fit),
}

impl fmt::Display for Answer {
    fn fmt<W: fmt::Write>(&self, f: &mut fmt::Formatter<W>) -> fmt::Result {
        match self {
            Answer::Open(places) => write!(f, "open {places}"),
            Answer::Place(place) => write!(f, "place {place}"),
            Answer::Struck(place) => write!(f, "struck {place}"),
            Answer::Loaded(count) => write!(f, "loaded {count}"),
            Answer::Sealed(count) => write!(f, "sealed {count}"),
            Answer::Room(room, places) => write!(f, "room {room} {places}"),
            Answer::Noted(release) => write!(f, "noted {release}"),
            Answer::Growth(steps, score) => write!(f, "growth {steps} {score}"),
            Answer::Blocks(count) => write!(f, "blocks {count}"),
            Answer::Bench => f.write_str("bench"),
            Answer::Bound(bound) => write!(f, "bound {bound}"),
            Answer::Curve(fit) => write!(
                f,
                "curve {} {} {} {} {} {}",
                fit.steps,
                fit.turning_gap,
                fit.score,
                fit.counted,
                fit.set_aside,
                fit.time_on_test.0
            ),
        }
    }
}

// Prints what a line came to. What ends the program is handed on.
pub fn print_answer(rt: &HostRuntime, outcome: Result<Answer, Failure>) -> io::Result<()> {
    match outcome {
        Ok(answer) => rt.println(answer),
        Err(Failure::Io(error)) => Err(error),
        Err(failure) => rt.println(failure),
    }
}

// Some words of an archive on one line, in hexadecimal, parted by one blank.
#[derive(Clone, Copy)]
struct ArchiveLine<'a> {
    words: &'a [u32],
}

impl fmt::Display for ArchiveLine<'_> {
    fn fmt<W: fmt::Write>(&self, f: &mut fmt::Formatter<W>) -> fmt::Result {
        let Some((first, rest)) = self.words.split_first() else {
            return Ok(());
        };
        write!(f, "{first:08x}")?;
        for word in rest {
            write!(f, " {word:08x}")?;
        }
        Ok(())
    }
}

// The words of an archive, eight to a line.
pub fn print_words(rt: &HostRuntime, words: &[u32]) -> io::Result<()> {
    for words in words.chunks(WORDS_TO_A_LINE) {
        rt.println(ArchiveLine { words })?;
    }
    Ok(())
}
