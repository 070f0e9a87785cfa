// The curve call, for every source.
ghost use Rattle.std.specs.Prelude.{◌≡◌, ◌+◌, ◌-◌, ◌<◌, ◌≤◌, length, take, drop, IfOk, IfErr};
ghost use Rattle.units.specs.Refusals.{answer};
ghost use Rattle.pooling.specs.Pooling.{answered};
ghost use Rattle.sources.specs.Ages.{ages, oldest};
ghost use Rattle.curves.specs.Curves.{aside, fit_refusal, last_counted};
ghost use Rattle.curves.specs.Faults.{Fault};
ghost use Rattle.curves.specs.Fits.{fit_result, fit_steps, fit_work, shown, work_places};
ghost use Rattle.curves.specs.Tables.{AllLight, table, table_turning};
ghost use Rattle.curves.specs.declared.shapes.Shape.TheVariants.{UShaped};

use crate::shapes::Shape;
use crate::split::Split;
use crate::step::Step;
use crate::table::Table;
use crate::turning::LightTable;
use pooling::{Block, Rate, Turned};
use sources::{Gap, Source, gap_between, list_gaps, total_time_on_test};
use units::{Age, Exposure, Refusal};

// A fitted curve; its steps stand in the step memory.
#[derive(Clone, Copy, PartialEq, Eq, Default, Debug)]
pub struct Fit {
    // The number of steps.
    pub steps: usize,
    // The turning gap, counted from 1.
    pub turning_gap: usize,
    pub score: i64,
    // The failures counted, and those set aside.
    pub counted: u32,
    pub set_aside: u32,
    pub time_on_test: Exposure,
}

// The work memory of a fit: as many work places as the shortest row has. Three rows of the caller's, since the library has no heap.
#[derive(Drop)]
pub struct Work<'a> {
    pub gaps: &'a mut [Gap],
    pub blocks: &'a mut [Block<Turned<Rate>>],
    pub scores: &'a mut [i64],
}

impl Work<'_> {
    // The number of work places.
    pub fn places(&self) -> usize
        ensures { result ≡ work_places self.now }
    {
        self.gaps
            .len()
            .min(self.blocks.len().min(self.scores.len()))
    }
}

// The last age at which failures are counted.
fn last_counted_age<S: Source>(source: &S, shape: Shape) -> Age
    ensures { result.0 ≡ last_counted (S.counts source.now) shape }
{
    let oldest = source.oldest_age();
    match shape {
        Shape::Falling => oldest,
        Shape::Rising | Shape::UShaped => Age(oldest.0.saturating_sub(1)),
    }
}

// The failures set aside.
fn failures_aside<S: Source>(source: &S, shape: Shape) -> u32
    ensures { result ≡ aside (S.counts source.now) shape }
{
    match shape {
        Shape::Falling => 0,
        Shape::Rising | Shape::UShaped => source.failures_at(source.oldest_age()),
    }
}

// Writes the gaps of the counted ages, and last the gap from there to the oldest age, and answers the number of counted ages. Refused as a fit with so many steps and work places is; a refusal changes nothing.
fn list_table<S: Source>(
    source: &S,
    last: Age,
    steps: usize,
    works: usize,
    gaps: &mut [Gap],
) -> Result<usize, Refusal>
    requires { works ≤ length gaps.old }
    ensures answer { answer result ≡ answered (fit_refusal (length (ages (S.counts source.now).failed last.0)) steps works) (length (ages (S.counts source.now).failed last.0)) }
    ensures table { IfOk result (λ count. take (count + 1) gaps.new ≡ table (S.counts source.now).watched (S.counts source.now).failed (ages (S.counts source.now).failed last.0) (oldest (S.counts source.now).watched)) }
    ensures rest { IfOk result (λ count. drop (count + 1) gaps.new ≡ drop (count + 1) gaps.old) }
    ensures refused { IfErr result (λ _. gaps.new ≡ gaps.old) }
{
    // One place is kept for the last gap.
    let room = steps.min(works);
    let count = list_gaps(source, last, &mut gaps[..room.saturating_sub(1)])?;
    if count == 0 {
        return Err(Refusal::NothingThere);
    }
    let from = gaps[count - 1].age;
    gaps[count] = gap_between(source, from, source.oldest_age());
    Ok(count)
}

// The left pieces before the turning gap of the shape.
fn turn_of(
    shape: Shape,
    table: &Table,
    blocks: &mut [Block<Turned<Rate>>],
    scores: &mut [i64],
) -> usize
    requires room { (table.now.count ≤ length blocks.old) × (table.now.count < length scores.old) }
    requires light { shape ≡ UShaped → AllLight table.now.gaps.now table.now.count }
    ensures turn { result + 1 ≡ table_turning table.now.gaps.now table.now.count shape }
    ensures rest { (drop (table.now.count + 1) scores.new ≡ drop (table.now.count + 1) scores.old) × (drop table.now.count blocks.new ≡ drop table.now.count blocks.old) }
{
    match shape {
        Shape::Falling => table.count,
        Shape::Rising => 0,
        Shape::UShaped => LightTable { table: *table }.find_turn(blocks, scores),
    }
}

// Fits a curve of a shape to a source, and writes its steps. Refused without a counted failure, or where steps or work places are fewer than the counted ages and one.
pub fn fit_curve<S: Source>(
    source: &S,
    shape: Shape,
    steps: &mut [Step],
    work: Work,
) -> Result<Fit, Refusal>
    ensures answer { answer result ≡ fit_result (S.counts source.now) shape (length steps.old) (work_places work.entry) }
    ensures steps { steps.new ≡ fit_steps (S.counts source.now) shape (length steps.old) (work_places work.entry) steps.old }
    ensures gaps { work.exit.0.now ≡ fit_work (S.counts source.now) shape (length steps.old) (work_places work.entry) work.entry.gaps.now work.exit.0.now }
    ensures blocks { work.exit.1.0.now ≡ fit_work (S.counts source.now) shape (length steps.old) (work_places work.entry) work.entry.blocks.now work.exit.1.0.now }
    ensures scores { work.exit.1.1.0.now ≡ fit_work (S.counts source.now) shape (length steps.old) (work_places work.entry) work.entry.scores.now work.exit.1.1.0.now }
    ensures faultless { IfOk result (λ a. Fault (S.counts source.now) shape (shown a steps.new) → ⊥) }
{
    let last = last_counted_age(source, shape);
    let works = work.places();
    let Work {
        gaps,
        blocks,
        scores,
    } = work;
    let count = list_table(source, last, steps.len(), works, gaps)?;
    let table = Table { gaps, count };
    let turn = turn_of(shape, &table, blocks, scores);
    let split = Split { table, turn };
    let curve = split.write(blocks, steps);
    Ok(Fit {
        steps: curve.steps,
        turning_gap: turn + 1,
        score: curve.score,
        counted: table.failures(),
        set_aside: failures_aside(source, shape),
        time_on_test: total_time_on_test(source),
    })
}
