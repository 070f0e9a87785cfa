// What a ledger keeps beside its studies: the memory that it lends, the release sheet and the bench run.
use crate::answers::Answer;
use crate::failures::Failure;
use crate::fitting::fit_and_print;
use crate::requests::{Bench, Note, Request, Room};
use curves::Shape;
use isotonic::Block;
use pooling::{Poolable, pool_rising};
use releases::{GrowthStep, ReleaseSheet};
use sources::{BenchRun, Confidence, Source};
use std::{fmt, io};
use units::Refusal;

// The memory that is lent at the start.
const FIRST_WORDS: u32 = 4099;

const FIRST_BLOCKS: u32 = 1024;

const FIRST_STEPS: u32 = 1025;

const FIRST_WORK: u32 = 1025;

#[derive(Drop)]
pub struct Desk {
    pub words: u32,
    blocks: u32,
    steps: u32,
    work: u32,
    sheet: ReleaseSheet,
    bench: Option<Bench>,
}

impl Desk {
    pub fn new() -> Desk {
        Desk {
            words: FIRST_WORDS,
            blocks: FIRST_BLOCKS,
            steps: FIRST_STEPS,
            work: FIRST_WORK,
            sheet: ReleaseSheet::new(),
            bench: None,
        }
    }

    // Does what is asked. Blocks and steps are printed before the answer.
    pub fn answer(&mut self, rt: &HostRuntime, request: Request) -> Result<Answer, Failure> {
        match request {
            Request::Lend(room, places) => Ok(self.lend(room, places)),
            Request::Note(note) => Ok(self.note(note)?),
            Request::Growth => self.growth(rt),
            Request::PoolRates(rates) => print_blocks(rt, rates.as_slice(), self.blocks),
            Request::PoolShares(shares) => print_blocks(rt, shares.as_slice(), self.blocks),
            Request::Bench(bench) => Ok(self.take_bench(bench)?),
            Request::Bound(confidence) => self.bound(confidence),
            Request::Fit(shape) => self.fit_bench(rt, shape),
        }
    }

    fn lend(&mut self, room: Room, places: u32) -> Answer {
        match room {
            Room::Words => self.words = places,
            Room::Blocks => self.blocks = places,
            Room::Steps => self.steps = places,
            Room::Work => self.work = places,
        }
        Answer::Room(room, places)
    }

    fn note(&mut self, note: Note) -> Result<Answer, Refusal> {
        self.sheet.note(note.release, note.successes, note.trials)?;
        Ok(Answer::Noted(note.release))
    }

    fn growth(&self, rt: &HostRuntime) -> Result<Answer, Failure> {
        let mut steps = vec![in rt.alloc(); GrowthStep::default(); self.steps as usize]?;
        let growth = self.sheet.growth(steps.as_mut_slice())?;
        steps.truncate(growth.steps);
        print_lines(rt, steps.as_slice())?;
        Ok(Answer::Growth(growth.steps, growth.score))
    }

    // The bench is made of any data, and is void where they break the rules.
    fn take_bench(&mut self, bench: Bench) -> Result<Answer, Refusal> {
        let checked = BenchRun::new(bench.units, bench.ages.as_slice(), bench.stop).check();
        self.bench = Some(bench);
        checked?;
        Ok(Answer::Bench)
    }

    fn bound(&self, confidence: Confidence) -> Result<Answer, Failure> {
        let Some(bench) = &self.bench else {
            return Err(Failure::NotNow);
        };
        let run = BenchRun::new(bench.units, bench.ages.as_slice(), bench.stop);
        Ok(Answer::Bound(run.bound(confidence)?))
    }

    fn fit_bench(&self, rt: &HostRuntime, shape: Shape) -> Result<Answer, Failure> {
        let Some(bench) = &self.bench else {
            return Err(Failure::NotNow);
        };
        let run = BenchRun::new(bench.units, bench.ages.as_slice(), bench.stop);
        self.fit(rt, &run, shape)
    }

    // Fits a curve to a source in the memory that is lent, and prints its steps.
    pub fn fit<S: Source>(
        &self,
        rt: &HostRuntime,
        source: &S,
        shape: Shape,
    ) -> Result<Answer, Failure> {
        fit_and_print(rt, source, shape, self.steps, self.work)
    }
}

// Pools a list, and prints its blocks.
fn print_blocks<K: Poolable + Default + fmt::Display>(
    rt: &HostRuntime,
    pieces: &[K],
    room: u32,
) -> Result<Answer, Failure> {
    let mut blocks = vec![in rt.alloc(); Block::<K>::default(); room as usize]?;
    let count = pool_rising(pieces, blocks.as_mut_slice())?;
    blocks.truncate(count);
    print_lines(rt, blocks.as_slice())?;
    Ok(Answer::Blocks(count))
}

// Prints each on a line of its own.
pub fn print_lines<T: Copy + fmt::Display>(rt: &HostRuntime, items: &[T]) -> io::Result<()> {
    for item in items {
        rt.println(*item)?;
    }
    Ok(())
}
