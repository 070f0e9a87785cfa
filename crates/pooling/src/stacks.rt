// A stack of blocks over memory handed in.
ghost use Rattle.std.specs.Prelude.{◌≡◌, ◌+◌, ◌<◌, ◌≤◌, length};
ghost use Rattle.units.specs.Refusals.{answer};
ghost use Rattle.isotonic.specs.Stacks.{merged, pushed, stack_in, top_of, laid_in};
ghost use Rattle.pooling.specs.Pooling.{answered, stack_after, push_refusal, push_height, push_memory};

use super::kinds::Poolable;
use isotonic::Block;
use units::Refusal;

// Two neighbouring blocks as one.
fn merge<K: Poolable>(low: Block<K>, high: Block<K>) -> Block<K>
    ensures { result ≡ merged K.joined low high }
{
    Block {
        first: low.first,
        last: high.last,
        element: low.element.pool(high.element),
    }
}

// Puts a block on the stack in the first `height` places, merged with the blocks at the top that it does not rise above. Answers the new height.
fn pool_onto<K: Poolable>(blocks: &mut [Block<K>], mut height: usize, mut block: Block<K>) -> usize
    requires room { height < length blocks.old }
    ensures height { result ≡ length (pushed K.leq K.joined (stack_in blocks.old height) block) }
    ensures memory { blocks.new ≡ laid_in (pushed K.leq K.joined (stack_in blocks.old height) block) blocks.old }
{
    // The height is the stack's, and is counted down whatever takes the top: `while let Some(top) = ..` counts it too, and copies each top at 8 % more instructions.
    while height > 0 && block.element.at_most(&blocks[height - 1].element) {
        block = merge(blocks[height - 1], block);
        height -= 1;
    }
    blocks[height] = block;
    height + 1
}

// Blocks in memory handed in, of which the first `height` places are in use, the top last: a slice of the caller's, and no list of our own.
// Each call that makes or changes a stack says that it keeps the same memory (`named`): only so does the lender know what became of it.
#[derive(Drop)]
pub struct Stack<'a, K> {
    blocks: &'a mut [Block<K>],
    height: usize,
    ghost within: { height ≤ length blocks.now },
}

impl<'a, K: Poolable> Stack<'a, K> {
    // An empty stack.
    pub fn new(blocks: &'a mut [Block<K>]) -> Stack<'a, K>
        ensures height { result.height ≡ 0 }
        ensures memory { result.blocks.now ≡ blocks.old }
        ensures named { result.blocks.ghost_name ≡ blocks.entry.ghost_name }
    {
        Stack { blocks, height: 0 }
    }

    pub fn height(&self) -> usize
        ensures { result ≡ self.now.height }
    {
        self.height
    }

    // The block at the top, if there is one.
    pub fn top(&self) -> Option<Block<K>>
        ensures { result ≡ top_of (stack_in self.now.blocks.now self.now.height) }
    {
        self.blocks[..self.height].last().copied()
    }

    // Puts a piece on a stack with a place left.
    pub(crate) fn put(&mut self, piece: usize, element: K)
        requires room { self.old.height < length self.old.blocks.now }
        ensures height { self.new.height ≡ length (stack_after K.leq K.joined self.old.blocks.now self.old.height piece element) }
        ensures memory { self.new.blocks.now ≡ laid_in (stack_after K.leq K.joined self.old.blocks.now self.old.height piece element) self.old.blocks.now }
        ensures named { self.new.blocks.ghost_name ≡ self.old.blocks.ghost_name }
    {
        let block = Block {
            first: piece,
            last: piece,
            element,
        };
        self.height = pool_onto(self.blocks, self.height, block);
    }

    // Puts a piece on the stack; refused where the stack fills its memory.
    pub fn push(&mut self, piece: usize, element: K) -> Result<(), Refusal>
        ensures answer { answer result ≡ answered (push_refusal self.old.height (length self.old.blocks.now)) tt }
        ensures height { self.new.height ≡ push_height K.leq K.joined self.old.blocks.now self.old.height piece element }
        ensures memory { self.new.blocks.now ≡ push_memory K.leq K.joined self.old.blocks.now self.old.height piece element }
        ensures named { self.new.blocks.ghost_name ≡ self.old.blocks.ghost_name }
    {
        if self.height >= self.blocks.len() {
            return Err(Refusal::MemoryTooShort);
        }
        self.put(piece, element);
        Ok(())
    }
}
