// The failure ages of any source: how many there are, their failures, and the table of gaps.
ghost use Rattle.std.specs.Prelude.{◌≡◌, ◌≤◌, ◌++◌, length, drop, nat_le};
ghost use Rattle.units.specs.Refusals.{answer};
ghost use Rattle.std.specs.Iterator.{YieldsFirstBy, item_count};
ghost use Rattle.units.specs.Hours.{age_ticks};
ghost use Rattle.sources.specs.Ages.{ages};
ghost use Rattle.sources.specs.Gaps.{ages_left, gap, gaps, list_answer, list_memory};
ghost use Rattle.sources.specs.Ticks.{upto, whole};

use crate::source::Source;
use units::{Age, Exposure, Refusal};

// A gap runs from the failure age before it, or from 0, to its own failure age.
#[derive(Clone, Copy, PartialEq, Eq, Default, Debug)]
pub struct Gap {
    pub age: Age,
    // The failures at that age.
    pub failures: u32,
    // The exposure between the two ages.
    pub exposure: Exposure,
}

// The failure ages of a source above an age and up to the last, in order.
#[derive(Drop)]
struct FailureAges<'a, S> {
    source: &'a S,
    above: Age,
    last: Age,
}

impl<'a, S: Source> Iterator for FailureAges<'a, S> {
    type Item = Age;

    ghost next_gives = { YieldsFirstBy age_ticks (ages_left S.counts) };

    ghost remaining = { item_count (ages_left S.counts) };

    fn next(&mut self) -> Option<Age> {
        let next = self.source.next_failure(self.above)?;
        if next > self.last {
            return None;
        }
        self.above = next;
        Some(next)
    }
}

// The failure ages of a source up to the last.
fn failure_ages<S: Source>(source: &S, last: Age) -> FailureAges<'_, S>
    ensures { ages_left S.counts result ≡ ages (S.counts source.now).failed last.0 }
{
    FailureAges {
        source,
        above: Age(0),
        last,
    }
}

// All exposure of a source.
pub fn total_time_on_test<S: Source>(source: &S) -> Exposure
    ensures { result.0 ≡ whole (S.counts source.now).watched }
{
    source.exposure_between(Age(0), Age::LAST)
}

// How many ages up to the last have failures.
pub fn count_failure_ages<S: Source>(source: &S, last: Age) -> usize
    ensures { result ≡ length (ages (S.counts source.now).failed last.0) }
{
    failure_ages(source, last).count()
}

// The failures at all ages up to the last.
pub fn failures_up_to<S: Source>(source: &S, last: Age) -> u32
    ensures { result ≡ upto (S.counts source.now).failed last.0 }
{
    failure_ages(source, last)
        .map(|age| source.failures_at(age))
        .sum()
}

// The most failure ages of a source, since it has no more failures.
const MOST_AGES: usize = 1_024;

// Writes the gaps of the failure ages up to the last, and answers their number.
pub fn list_gaps<S: Source>(source: &S, last: Age, memory: &mut [Gap]) -> Result<usize, Refusal>
    ensures answer { answer result ≡ list_answer (length (ages (S.counts source.now).failed last.0)) memory.old }
    ensures memory { memory.new ≡ list_memory (length (ages (S.counts source.now).failed last.0)) (gaps (S.counts source.now).watched (S.counts source.now).failed last.0) memory.old }
{
    if !has_room(source, last, memory.len()) {
        return Err(Refusal::MemoryTooShort);
    }
    Ok(write_gaps(source, last, memory))
}

// Whether there is room for the gaps of the failure ages up to the last. They are counted only where there might be none.
fn has_room<S: Source>(source: &S, last: Age, room: usize) -> bool
    ensures { result ≡ nat_le (length (ages (S.counts source.now).failed last.0)) room }
{
    MOST_AGES <= room || count_failure_ages(source, last) <= room
}

// Writes the gaps, and answers their number.
fn write_gaps<S: Source>(source: &S, last: Age, memory: &mut [Gap]) -> usize
    requires { length (ages (S.counts source.now).failed last.0) ≤ length memory.old }
    ensures count { result ≡ length (ages (S.counts source.now).failed last.0) }
    ensures memory { memory.new ≡ gaps (S.counts source.now).watched (S.counts source.now).failed last.0 ++ drop (length (ages (S.counts source.now).failed last.0)) memory.old }
{
    let mut count = 0;
    let mut from = Age(0);
    // Written by index: of memory that `iter_mut` went over a proof knows the length alone.
    for (i, age) in failure_ages(source, last).enumerate() {
        memory[i] = gap_between(source, from, age);
        from = age;
        count = i + 1;
    }
    count
}

// The gap from one age to another: the failures at its end, and its exposure.
pub fn gap_between<S: Source>(source: &S, from: Age, to: Age) -> Gap
    ensures { result ≡ gap (S.counts source.now).watched (S.counts source.now).failed from.0 to.0 }
{
    Gap {
        age: to,
        failures: source.failures_at(to),
        exposure: source.exposure_between(from, to),
    }
}
