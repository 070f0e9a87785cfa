// The trials of one release.
ghost use Rattle.std.specs.Prelude.{◌≡◌, ◌≤◌};
ghost use Rattle.std.specs.Option.{option_map};
ghost use Rattle.units.specs.Refusals.{seen};
ghost use Rattle.pooling.specs.Kinds.{share_ratio};
ghost use Rattle.pooling.specs.Pooling.{answered};
ghost use Rattle.releases.specs.Limits.{most_trials};

use pooling::Share;
use units::Refusal;

// The most trials that a row takes.
pub const MOST_TRIALS: u32 = 1_000_000;

// Successes among trials.
#[derive(Clone, Copy, PartialEq, Eq, Debug)]
pub struct Row {
    pub successes: u32,
    pub trials: u32,
    ghost few: { trials ≤ most_trials },
    ghost within: { successes ≤ trials },
}

// A row has no trials at first.
impl Default for Row {
    ghost use Rattle.releases.specs.Sheets.{row_ratio, no_trials};

    ghost is_default = { λ row. row_ratio row ≡ no_trials };

    fn default() -> Row {
        Row {
            successes: 0,
            trials: 0,
        }
    }
}

impl Row {
    ghost use Rattle.releases.specs.Sheets.{row_ratio, row_share, row_refusal, row_noted};

    // The row with a note added; refused where the successes pass the trials, or the row would pass its most trials.
    pub(crate) fn noted(self, successes: u32, trials: u32) -> Result<Row, Refusal>
        ensures { seen row_ratio result ≡ answered (row_refusal (row_ratio self) successes trials) (row_noted (row_ratio self) successes trials) }
    {
        if successes > trials || trials > MOST_TRIALS - self.trials {
            return Err(Refusal::BadNote);
        }
        Ok(Row {
            successes: self.successes + successes,
            trials: self.trials + trials,
        })
    }

    // The share of a row with trials.
    pub(crate) fn share(&self) -> Option<Share>
        ensures { option_map share_ratio result ≡ row_share (row_ratio self.now) }
    {
        if self.trials == 0 {
            return None;
        }
        Some(Share {
            successes: self.successes,
            trials: self.trials,
        })
    }
}
