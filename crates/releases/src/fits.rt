// Growth over the releases.
ghost use Rattle.std.specs.Prelude.{◌≡◌, map, length};
ghost use Rattle.units.specs.Refusals.{answer};
ghost use Rattle.isotonic.specs.MaxMin.{on_element};
ghost use Rattle.isotonic.specs.Theorems.{Inside};
ghost use Rattle.pooling.specs.Kinds.{share_ratio};
ghost use Rattle.pooling.specs.Pooling.{answered, unless_refused, written};
ghost use Rattle.releases.specs.Sheets.{sheet_rows};
ghost use Rattle.releases.specs.Pieces.{piece_shares, piece_releases};
ghost use Rattle.releases.specs.Growths.{tried_shares, tried_releases, share_blocks, growth_step, pieces_refusal, share_growth, growth_answer, growth_memory};

use super::pieces::Pieces;
use super::sheets::{ROWS, ReleaseSheet};
use super::steps::{Growth, GrowthStep};
use isotonic::Block;
use pooling::{Scored, Share, pool_rising};
use units::Refusal;

impl Pieces {
    // A block as a step.
    fn step(&self, block: &Block<Share>) -> GrowthStep
        requires { Inside (length (piece_releases self.now)) block.now }
        ensures { result ≡ growth_step (piece_releases self.now) (on_element share_ratio block.now) }
    {
        let releases = self.releases();
        GrowthStep {
            first: releases[block.first],
            last: releases[block.last],
            successes: block.element.successes,
            trials: block.element.trials,
        }
    }

    // The rising fit of the shares, its blocks written as steps.
    fn fit(&self, steps: &mut [GrowthStep]) -> Result<Growth, Refusal>
        ensures answer { answer result ≡ answered (pieces_refusal (length (piece_shares self.now)) (length steps.old)) (share_growth (map share_ratio (piece_shares self.now))) }
        ensures memory { steps.new ≡ unless_refused (pieces_refusal (length (piece_shares self.now)) (length steps.old)) steps.old (written (map (growth_step (piece_releases self.now)) (share_blocks (map share_ratio (piece_shares self.now)))) steps.old) }
    {
        let shares = self.shares();
        if steps.len() < shares.len() {
            return Err(Refusal::MemoryTooShort);
        }
        let mut blocks = [Block::default(); ROWS];
        let count = pool_rising(shares, &mut blocks)?;
        let mut score: i64 = 0;
        for (i, block) in blocks[..count].iter().enumerate() {
            steps[i] = self.step(block);
            score += block.element.score();
        }
        Ok(Growth {
            steps: count,
            score,
        })
    }
}

impl ReleaseSheet {
    // Puts in the shares of the rows with trials, and the numbers of their releases. (Pieces that are answered would be copied from place to place.)
    fn gather(&self, pieces: &mut Pieces)
        requires { pieces.old.count ≡ 0 }
        ensures shares { map share_ratio (piece_shares pieces.new) ≡ tried_shares (sheet_rows self.now) }
        ensures releases { piece_releases pieces.new ≡ tried_releases (sheet_rows self.now) }
    {
        for (i, row) in self.rows.iter().enumerate() {
            if let Some(share) = row.share() {
                pieces.push(i as u32 + 1, share);
            }
        }
    }

    // The rising fit of the shares of the rows with trials, written as steps. Refused without a trial, or where the step memory is shorter than the rows with trials.
    pub fn growth(&self, steps: &mut [GrowthStep]) -> Result<Growth, Refusal>
        ensures answer { answer result ≡ growth_answer (sheet_rows self.now) (length steps.old) }
        ensures memory { steps.new ≡ growth_memory (sheet_rows self.now) steps.old }
    {
        let mut pieces = Pieces::default();
        self.gather(&mut pieces);
        pieces.fit(steps)
    }
}
