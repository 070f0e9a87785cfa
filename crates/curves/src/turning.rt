// The turning gap of a U-shaped curve: one pass over the pieces from the left, and one from the right.
ghost use Rattle.std.specs.Prelude.{◌≡◌, ℕ, ◌+◌, ◌-◌, ◌<◌, ◌≤◌, length, drop, pos, ◌≤ℤ◌, ◌<ℤ◌, slice_index_or};
ghost use Rattle.pooling.specs.Scores.{blocks_score, rate_score};
ghost use Rattle.curves.specs.Curves.{best_gap};
ghost use Rattle.curves.specs.Tables.{AllLight, side_blocks, table_score};
ghost use Rattle.curves.specs.declared.side.Side.TheVariants.{Left};

use crate::side::Side;
use crate::table::Table;
use pooling::{Block, Rate, Scored, Stack, Turned};

// A table any gap of which may turn: the pieces of both sides, all of them, stay within the bulk limit.
#[derive(Clone, Copy)]
pub(crate) struct LightTable<'a> {
    pub(crate) table: Table<'a>,
    ghost light: { AllLight table.gaps.now table.count },
}

// A turning gap, by the number of left pieces before it, and the score of its curve.
#[derive(Clone, Copy, Debug, PartialEq, Eq)]
struct Turn {
    left: usize,
    score: i64,
}

// The two rows are lent one beside the other: that they are long enough is a fact of the table and of them. A type of all three would have to say in each clause that it keeps both rows.
impl LightTable<'_> {
    // The score of the falling fit of each front of the left pieces: of the first i at place i.
    fn score_fronts(&self, blocks: &mut [Block<Turned<Rate>>], scores: &mut [i64])
        requires room { let k = self.now.table.count in (k ≤ length blocks.old) × (k < length scores.old) }
        ensures scores { let k = self.now.table.count in (t : ℕ) → t ≤ k → slice_index_or scores.new t (pos 0) ≡ blocks_score rate_score (side_blocks self.now.table.gaps.now k t Left) }
        ensures rest { let k = self.now.table.count in (drop (k + 1) scores.new ≡ drop (k + 1) scores.old) × (drop k blocks.new ≡ drop k blocks.old) }
    {
        scores[0] = 0;
        let mut stack = Stack::new(blocks);
        // Counted: a piece, and two places of the row, go by its number.
        for i in 0..self.table.count {
            let top = self.table.push_piece(Side::Left, i, &mut stack);
            scores[i + 1] = scores[top.first] + top.element.score();
        }
    }

    // The left pieces before the earliest turning gap with the greatest score, where the scores of the fronts stand in the row. The scores of the backs take their places.
    fn best_turn(&self, blocks: &mut [Block<Turned<Rate>>], scores: &mut [i64]) -> usize
        requires room { let k = self.now.table.count in (k ≤ length blocks.old) × (k < length scores.old) }
        requires fronts { let k = self.now.table.count in (t : ℕ) → t ≤ k → slice_index_or scores.old t (pos 0) ≡ blocks_score rate_score (side_blocks self.now.table.gaps.now k t Left) }
        ensures turn { let k = self.now.table.count in result + 1 ≡ best_gap (λ j. table_score self.now.table.gaps.now k (j - 1)) k }
        ensures rest { let k = self.now.table.count in (drop (k + 1) scores.new ≡ drop (k + 1) scores.old) × (drop k blocks.new ≡ drop k blocks.old) }
    {
        let count = self.table.count;
        let mut best = Turn {
            left: count,
            score: scores[count],
        };
        scores[count] = 0;
        let mut stack = Stack::new(blocks);
        // Counted, as above.
        for done in 0..count {
            let left = count - 1 - done;
            let top = self.table.push_piece(Side::Right, done, &mut stack);
            let back = scores[count - top.first] + top.element.score();
            let score = scores[left] + back;
            scores[left] = back;
            // The earlier of two that score alike comes later in this pass.
            if score >= best.score {
                best = Turn { left, score };
            }
        }
        best.left
    }

    // The left pieces before the turning gap of a U-shaped curve, the earliest with the greatest score.
    pub(crate) fn find_turn(&self, blocks: &mut [Block<Turned<Rate>>], scores: &mut [i64]) -> usize
        requires room { let k = self.now.table.count in (k ≤ length blocks.old) × (k < length scores.old) }
        ensures turn { let k = self.now.table.count in result + 1 ≡ best_gap (λ j. table_score self.now.table.gaps.now k (j - 1)) k }
        ensures rest { let k = self.now.table.count in (drop (k + 1) scores.new ≡ drop (k + 1) scores.old) × (drop k blocks.new ≡ drop k blocks.old) }
    {
        self.score_fronts(blocks, scores);
        self.best_turn(blocks, scores)
    }
}
