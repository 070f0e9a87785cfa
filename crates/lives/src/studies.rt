// The two studies. Each holds the life memory that was lent to it (the library has no heap), and how many places of it are used.
// Each has these fields itself: with a struct within both (tried), each clause is one step longer, and a call that writes through it needs a worker of that struct with the same four clauses.
// They are no one type with a state as its parameter: definitions of other crates name both types, and an alias has no such name.
ghost use Rattle.std.specs.Prelude.{◌≤◌, length};
ghost use Rattle.lives.specs.declared.studies.TheConstants.{MOST_PLACES};

use crate::types::Place;

pub(crate) const MOST_PLACES: usize = 1024;

// Takes lives and strikings.
// Each call that makes or changes a study says that it keeps the same memory (`named`): only so does the lender know what became of it.
// Each that can be refused says that a refusal leaves the very value (`refused`): a promise of each call, which no invariant of the type can hold.
#[derive(Drop)]
pub struct OpenStudy<'a> {
    pub(crate) memory: &'a mut [Place],
    pub(crate) used: usize,
    ghost ok: { (used ≤ MOST_PLACES) × (used ≤ length memory.now) },
}

// Takes no more changes: it is archived, and asked as a source.
#[derive(Drop)]
pub struct SealedStudy<'a> {
    pub(crate) memory: &'a mut [Place],
    pub(crate) used: usize,
    ghost ok: { (used ≤ MOST_PLACES) × (used ≤ length memory.now) },
}
