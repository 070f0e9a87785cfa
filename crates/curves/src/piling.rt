// The pieces of a side, put on a stack that keeps their rates falling towards the turning gap.
ghost use Rattle.std.specs.Prelude.{◌≡◌, ◌+◌, ◌<◌, ◌≤◌, length, drop, ◌+ℤ◌};
ghost use Rattle.pooling.specs.Scores.{rate_score};
ghost use Rattle.curves.specs.Tables.{piled, side_stack, stack_score, unturn};

use crate::side::Side;
use crate::table::Table;
use pooling::{Block, Rate, Stack, Turned};

// A block with its element in its own order.
// A function, since no `From` between two types of other crates can be written here.
pub(crate) fn unturned(block: Block<Turned<Rate>>) -> Block<Rate>
    ensures { result ≡ unturn block }
{
    Block {
        first: block.first,
        last: block.last,
        element: block.element.0,
    }
}

impl Table<'_> {
    // Puts the next piece of a side on the stack of those before it. Answers the block at the top, which the piece is in.
    // Each pass counts its pieces and calls this: in a closure that writes the row of scores, nothing bounds what the row holds, so no sum of scores is proved.
    pub(crate) fn push_piece(
        &self,
        side: Side,
        i: usize,
        stack: &mut Stack<Turned<Rate>>,
    ) -> Block<Rate>
        requires within { i < self.now.count }
        requires room { (stack.old.height ≤ i) × (i < length stack.old.blocks.now) }
        requires pile { piled stack.old.blocks.now stack.old.height ≡ side_stack self.now.gaps.now self.now.count side i }
        ensures pile { piled stack.new.blocks.now stack.new.height ≡ side_stack self.now.gaps.now self.now.count side (i + 1) }
        ensures places { (result.first ≤ result.last) × (result.last ≡ i) }
        ensures score { stack_score self.now.gaps.now self.now.count side (i + 1) ≡ stack_score self.now.gaps.now self.now.count side result.first +ℤ rate_score result.element }
        ensures low { stack.new.height ≤ i + 1 }
        ensures rest { drop (i + 1) stack.new.blocks.now ≡ drop (i + 1) stack.old.blocks.now }
        ensures long { length stack.new.blocks.now ≡ length stack.old.blocks.now }
        ensures named { stack.new.blocks.ghost_name ≡ stack.old.blocks.ghost_name }
    {
        stack.push(i, Turned(self.piece(side, i))).unwrap();
        unturned(stack.top().unwrap())
    }
}
