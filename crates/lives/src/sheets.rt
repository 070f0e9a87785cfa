// Sheet rows: two hours as binary64 numbers, a status word, and a serial beside them.
ghost use Rattle.std.specs.Prelude.{◌≡◌, false, is_ok};
ghost use Rattle.units.specs.Refusals.{answer, seen};
ghost use Rattle.lives.specs.Lives.{plain_life};
ghost use Rattle.lives.specs.Sheets.{plain_row, row_life, status_word};
ghost use Rattle.lives.specs.Studies.{enter_after, enter_answer, held};

use crate::studies::OpenStudy;
use crate::types::{Life, Status};
use std::str::FromStr;
use units::{Age, Refusal};

// A row of a sheet: the hours from which and to which a unit was watched.
#[derive(Drop)]
pub struct SheetRow<'a> {
    pub serial: u32,
    pub from_hours: f64,
    pub to_hours: f64,
    pub status: &'a str,
}

// The status that a word of a sheet says.
impl FromStr for Status {
    type Err = Refusal;

    ghost from_str_gives = { λ word result. answer result ≡ status_word word };

    fn from_str(word: &str) -> Result<Status, Refusal> {
        match word {
            "FAILED" => Ok(Status::Failed),
            "WITHDRAWN" => Ok(Status::Withdrawn),
            "RUNNING" => Ok(Status::Running),
            _ => Err(Refusal::UnknownStatus),
        }
    }
}

// The life that the row says.
impl TryFrom<&SheetRow<'_>> for Life {
    type Error = Refusal;

    ghost try_from_gives = { λ row result. seen plain_life result ≡ row_life (plain_row row.now) };

    fn try_from(row: &SheetRow) -> Result<Life, Refusal> {
        let status = row.status.parse::<Status>()?;
        let entry = Age::from_hours(row.from_hours)?;
        let exit = Age::from_hours(row.to_hours)?;
        Life::new(row.serial, entry, exit, status)
    }
}

impl OpenStudy<'_> {
    // Enters the life of a row, and answers its place, counted from 0. `enter` does it with four numbers: two calls of the rules, each with its own refusals.
    pub fn enter_row(&mut self, row: &SheetRow) -> Result<usize, Refusal>
        ensures answer { answer result ≡ enter_answer (held self.old) (row_life (plain_row row.now)) }
        ensures after { held self.new ≡ enter_after (held self.old) (row_life (plain_row row.now)) }
        ensures refused { is_ok result ≡ false → self.new ≡ self.old }
        ensures named { self.new.memory.ghost_name ≡ self.old.memory.ghost_name }
    {
        let life = Life::try_from(row)?;
        self.put(life)
    }
}
