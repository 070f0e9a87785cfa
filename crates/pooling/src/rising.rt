// The rising fit of a list of pieces.
ghost use Rattle.std.specs.Prelude.{◌≡◌, ◌<◌, ◌≤◌, length, sum_by, nat_le};
ghost use Rattle.units.specs.Refusals.{answer};
ghost use Rattle.isotonic.specs.Laws.{limit, Commutes};
ghost use Rattle.isotonic.specs.MaxMin.{rising_blocks};
ghost use Rattle.isotonic.specs.Theorems.{RulesAgree, BlocksTile, FallingTurns, RisingMirrors, FrontsNest};
ghost use Rattle.pooling.specs.Pooling.{answered, list_refusal, fitted_memory, pool_answer, pool_memory};
ghost use Rattle.pooling.specs.Turns.{TurnedFalls};
ghost use Rattle.pooling.specs.Kinds.{rate_joined, rate_bulk, share_joined, share_bulk};

use super::fractions::fractions_commute;
use super::kinds::{BULK_LIMIT, Poolable};
use super::rates::Rate;
use super::shares::Share;
use super::stacks::Stack;
use isotonic::Block;
use units::Refusal;

// Whether the bulks add up to the limit at most. A `try_fold` would say it no plainer: its closure tests and adds, and its answer is turned into a flag.
fn within_limit<K: Poolable>(pieces: &[K]) -> bool
    ensures { result ≡ nat_le (sum_by K.bulks pieces.now) limit }
{
    let mut sum: u64 = 0;
    for piece in pieces {
        let bulk = piece.bulk();
        if bulk > BULK_LIMIT - sum {
            return false;
        }
        sum += bulk;
    }
    true
}

// Whether a list can be pooled with room for so many blocks.
fn check_list<K: Poolable>(pieces: &[K], room: usize) -> Result<(), Refusal>
    ensures { answer result ≡ answered (list_refusal K.MOST (length pieces.now) room (sum_by K.bulks pieces.now)) tt }
{
    if pieces.is_empty() {
        return Err(Refusal::NothingThere);
    }
    if room < pieces.len() {
        return Err(Refusal::MemoryTooShort);
    }
    if pieces.len() > K::MOST || !within_limit(pieces) {
        return Err(Refusal::TooMuchToPool);
    }
    Ok(())
}

// Puts all pieces on a stack in the block memory. Answers the number of blocks.
fn pool_all<K: Poolable>(pieces: &[K], blocks: &mut [Block<K>]) -> usize
    requires room { length pieces.now ≤ length blocks.old }
    requires light { sum_by K.bulks pieces.now ≤ limit }
    ensures count { result ≡ length (rising_blocks K.leq K.joined pieces.now) }
    ensures memory { blocks.new ≡ fitted_memory (rising_blocks K.leq K.joined pieces.now) (length pieces.now) blocks.old blocks.new }
{
    let mut stack = Stack::new(blocks);
    for (i, piece) in pieces.iter().enumerate() {
        stack.put(i, *piece);
    }
    stack.height()
}

// The rising fit of a list, its blocks written into the first places of the block memory. Answers the number of blocks.
pub fn pool_rising<K: Poolable>(pieces: &[K], blocks: &mut [Block<K>]) -> Result<usize, Refusal>
    ensures answer { answer result ≡ pool_answer K.leq K.joined K.bulks K.MOST pieces.now (length blocks.old) }
    ensures memory { blocks.new ≡ pool_memory K.leq K.joined K.bulks K.MOST pieces.now blocks.old blocks.new }
{
    check_list(pieces, blocks.len())?;
    Ok(pool_all(pieces, blocks))
}

// Of every kind: the max-min and the min-max rule agree, the blocks tile the pieces, those of fronts nest, and the falling fit is the rising fit in the turned order and, where pooling commutes, of the list read backwards.
pub fn fits_agree<K: Poolable>()
    ensures agree { RulesAgree K.leq K.joined K.bulks }
    ensures tile { BlocksTile K.leq K.joined K.bulks }
    ensures turns { FallingTurns K.leq K.joined K.bulks }
    ensures turned { TurnedFalls K.leq K.joined K.bulks }
    ensures mirrors { RisingMirrors K.leq K.joined K.bulks }
    ensures nest { FrontsNest K.leq K.joined K.bulks }
{}

// Rates and shares pool alike in either order, so that their rising fits mirror.
pub fn ratios_commute()
    ensures rates { Commutes rate_joined rate_bulk }
    ensures shares { Commutes share_joined share_bulk }
{
    fractions_commute::<Rate>();
    fractions_commute::<Share>();
}
