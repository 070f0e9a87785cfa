// The release sheet.
ghost use Rattle.std.specs.Prelude.{◌≡◌};
ghost use Rattle.units.specs.Refusals.{answer};
ghost use Rattle.pooling.specs.Pooling.{answered};
ghost use Rattle.releases.specs.Sheets.{sheet_rows, note_refusal, noted_rows, empty_rows};

use super::rows::Row;
use units::Refusal;

// Releases are numbered from 1 to this.
pub const ROWS: usize = 64;

// The trials of each release, row by row.
#[derive(Clone, Copy, PartialEq, Eq, Debug)]
pub struct ReleaseSheet {
    pub(crate) rows: [Row; ROWS],
}

impl ReleaseSheet {
    // A sheet without trials.
    pub fn new() -> ReleaseSheet
        ensures { sheet_rows result ≡ empty_rows }
    {
        ReleaseSheet {
            rows: [Row::default(); ROWS],
        }
    }

    // Adds successes and trials to the row of a release. Refused where there is no such row, the successes pass the trials, or the row would pass its most trials.
    pub fn note(&mut self, release: u32, successes: u32, trials: u32) -> Result<(), Refusal>
        ensures answer { answer result ≡ answered (note_refusal (sheet_rows self.old) release successes trials) tt }
        ensures rows { sheet_rows self.new ≡ noted_rows (sheet_rows self.old) release successes trials }
    {
        if release == 0 || release as usize > ROWS {
            return Err(Refusal::BadNote);
        }
        let at = release as usize - 1;
        self.rows[at] = self.rows[at].noted(successes, trials)?;
        Ok(())
    }
}
