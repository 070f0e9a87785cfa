// The steps of a curve, written from the table of gaps once the turning gap is known.
ghost use Rattle.std.specs.Prelude.{◌≡◌, ◌+◌, ◌-◌, ◌<◌, ◌≤◌, length, drop, sum_by, slice_index_or};
ghost use Rattle.isotonic.specs.Laws.{limit};
ghost use Rattle.isotonic.specs.Stacks.{mirrored};
ghost use Rattle.isotonic.specs.Theorems.{Inside};
ghost use Rattle.pooling.specs.Kinds.{rate_bulk};
ghost use Rattle.pooling.specs.Pooling.{laid_at, written};
ghost use Rattle.pooling.specs.Scores.{blocks_score, rate_score};
ghost use Rattle.curves.specs.Splits.{all_steps, split_blocks, split_score, split_size, split_stack, split_step, split_steps, split_trough};
ghost use Rattle.curves.specs.Tables.{piled};
ghost use Rattle.curves.specs.declared.side.Side.{Side};

use crate::piling::unturned;
use crate::side::Side;
use crate::split::Split;
use crate::step::Step;
use pooling::{Block, Rate, Scored, Stack, Turned};

// How many steps were written, and their score.
#[derive(Clone, Copy, Debug, PartialEq, Eq)]
pub(crate) struct Written {
    pub(crate) steps: usize,
    pub(crate) score: i64,
}

// A block counted from the other end of so many pieces.
fn mirror(block: Block<Rate>, size: usize) -> Block<Rate>
    requires { Inside size block }
    ensures { result ≡ mirrored size block }
{
    Block {
        first: size - 1 - block.last,
        last: size - 1 - block.first,
        element: block.element,
    }
}

impl Split<'_> {
    // The number of pieces of a side.
    fn size(&self, side: Side) -> usize
        ensures { result ≡ split_size self.now side }
    {
        match side {
            Side::Left => self.turn,
            Side::Right => self.table.count - self.turn,
        }
    }

    // Puts the pieces of a side on a stack in the block memory. Answers its height.
    fn stack_side(&self, side: Side, blocks: &mut [Block<Turned<Rate>>]) -> usize
        requires room { self.now.table.count ≤ length blocks.old }
        ensures low { result ≤ split_size self.now side }
        ensures pile { piled blocks.new result ≡ split_stack self.now side }
        ensures rest { drop self.now.table.count blocks.new ≡ drop self.now.table.count blocks.old }
    {
        let mut stack = Stack::new(blocks);
        // Counted: a piece of a side goes by its number, since on the right the last comes first.
        for i in 0..self.size(side) {
            self.table.push_piece(side, i, &mut stack);
        }
        stack.height()
    }

    // A block of a side's stack, by its number in order of age: on the right the top comes first, and its pieces are counted from the other end.
    fn block_at(&self, side: Side, stack: &[Block<Turned<Rate>>], i: usize) -> Block<Rate>
        requires low { i < length stack.now }
        requires pile { piled stack.now (length stack.now) ≡ split_stack self.now side }
        ensures inside { Inside (split_size self.now side) result }
        ensures is { result ≡ slice_index_or (split_blocks self.now side) i result }
    {
        match side {
            Side::Left => unturned(stack[i]),
            Side::Right => mirror(unturned(stack[stack.len() - 1 - i]), self.size(side)),
        }
    }

    // A block of a side as a step. On the left the pieces begin at the age 0, and on the right where the turning gap ends.
    fn step_of(&self, side: Side, block: Block<Rate>) -> Step
        requires { Inside (split_size self.now side) block }
        ensures { result ≡ split_step self.now side block }
    {
        let start = match side {
            Side::Left => 0,
            Side::Right => self.turn + 1,
        };
        Step {
            from: self.table.age_at(start + block.first),
            to: self.table.age_at(start + block.last + 1),
            failures: block.element.failures,
            exposure: block.element.exposure,
        }
    }

    // Writes the blocks of a side's stack as steps, in order of age, from a place on (and not into a slice that begins there: the clauses speak of all step memory).
    // The crate `releases` has a loop much like this one, over blocks in another order and to other steps: the two share two lines.
    fn write_side(
        &self,
        side: Side,
        stack: &[Block<Turned<Rate>>],
        steps: &mut [Step],
        at: usize,
    ) -> Written
        requires pile { piled stack.now (length stack.now) ≡ split_stack self.now side }
        requires room { at + length stack.now ≤ length steps.old }
        ensures all { result.steps ≡ length stack.now }
        ensures count { result.steps ≡ length (split_blocks self.now side) }
        ensures score { result.score ≡ blocks_score rate_score (split_blocks self.now side) }
        ensures steps { steps.new ≡ laid_at at (split_steps self.now side) steps.old }
    {
        let mut score: i64 = 0;
        // Counted: the left goes up the stack and the right down, which no one iterator does.
        for i in 0..stack.len() {
            let block = self.block_at(side, stack, i);
            steps[at + i] = self.step_of(side, block);
            score += block.element.score();
        }
        Written {
            steps: stack.len(),
            score,
        }
    }

    // The fit of a side, written as steps from a place on.
    fn fit_side(
        &self,
        side: Side,
        blocks: &mut [Block<Turned<Rate>>],
        steps: &mut [Step],
        at: usize,
    ) -> Written
        requires room { (self.now.table.count ≤ length blocks.old) × (at + split_size self.now side ≤ length steps.old) }
        ensures count { result.steps ≡ length (split_blocks self.now side) }
        ensures few { result.steps ≤ split_size self.now side }
        ensures score { result.score ≡ blocks_score rate_score (split_blocks self.now side) }
        ensures steps { steps.new ≡ laid_at at (split_steps self.now side) steps.old }
        ensures rest { drop self.now.table.count blocks.new ≡ drop self.now.table.count blocks.old }
    {
        let height = self.stack_side(side, blocks);
        self.write_side(side, &blocks[..height], steps, at)
    }

    // Writes the turning gap as a step, unless it is empty. Answers how many steps are written then.
    fn write_trough(&self, steps: &mut [Step], at: usize) -> usize
        requires room { at < length steps.old }
        ensures count { result ≡ at + length (split_trough self.now) }
        ensures steps { steps.new ≡ laid_at at (split_trough self.now) steps.old }
    {
        let from = self.table.age_at(self.turn);
        let gap = self.table.gaps[self.turn];
        if from == gap.age {
            return at;
        }
        steps[at] = Step {
            from,
            to: gap.age,
            failures: 0,
            exposure: gap.exposure,
        };
        at + 1
    }

    // Writes the steps of the curve.
    pub(crate) fn write(&self, blocks: &mut [Block<Turned<Rate>>], steps: &mut [Step]) -> Written
        requires room { (self.now.table.count ≤ length blocks.old) × (self.now.table.count < length steps.old) }
        ensures count { result.steps ≡ length (all_steps self.now) }
        ensures score { result.score ≡ split_score self.now }
        ensures steps { steps.new ≡ written (all_steps self.now) steps.old }
        ensures rest { drop self.now.table.count blocks.new ≡ drop self.now.table.count blocks.old }
    {
        let left = self.fit_side(Side::Left, blocks, steps, 0);
        let at = self.write_trough(steps, left.steps);
        let right = self.fit_side(Side::Right, blocks, steps, at);
        Written {
            steps: at + right.steps,
            score: left.score + right.score,
        }
    }
}
