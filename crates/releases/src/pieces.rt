// The pieces of a fit.
ghost use Rattle.std.specs.Prelude.{◌≡◌, ◌+◌, ◌*◌, ◌<◌, ◌≤◌, take, sum_by};
ghost use Rattle.pooling.specs.Kinds.{share_bulk};
ghost use Rattle.releases.specs.Limits.{row_count, most_trials};

use super::sheets::ROWS;
use pooling::Share;

// The shares of rows with trials, and the release of each, in the first `count` places.
// They stand side by side, as pooling reads a slice of shares, and in arrays with a count, as the library has no heap.
#[derive(Drop)]
pub(crate) struct Pieces {
    shares: [Share; ROWS],
    releases: [u32; ROWS],
    count: usize,
    ghost few: { count ≤ row_count },
    ghost light: { sum_by share_bulk (take count shares) ≤ most_trials * count },
}

// There are none at first.
impl Default for Pieces {
    ghost is_default = { λ pieces. pieces.count ≡ 0 };

    fn default() -> Pieces {
        Pieces {
            shares: [Share::default(); ROWS],
            releases: [0; ROWS],
            count: 0,
        }
    }
}

impl Pieces {
    ghost use Rattle.std.specs.Prelude.{[], ◌∷◌, ◌++◌};
    ghost use Rattle.releases.specs.Pieces.{piece_shares, piece_releases};

    // Adds the share of a release behind the others.
    pub(crate) fn push(&mut self, release: u32, share: Share)
        requires room { self.old.count < row_count }
        requires light { share_bulk share ≤ most_trials }
        ensures count { self.new.count ≡ self.old.count + 1 }
        ensures shares { piece_shares self.new ≡ piece_shares self.old ++ (share ∷ []) }
        ensures releases { piece_releases self.new ≡ piece_releases self.old ++ (release ∷ []) }
    {
        self.shares[self.count] = share;
        self.releases[self.count] = release;
        self.count += 1;
    }

    pub(crate) fn shares(&self) -> &[Share]
        ensures { result.now ≡ piece_shares self.now }
    {
        &self.shares[..self.count]
    }

    pub(crate) fn releases(&self) -> &[u32]
        ensures { result.now ≡ piece_releases self.now }
    {
        &self.releases[..self.count]
    }
}
