// Whether four numbers are a life.
ghost use Rattle.std.specs.Prelude.{◌≡◌};
ghost use Rattle.units.specs.Refusals.{answer, seen};
ghost use Rattle.lives.specs.Lives.{blank_place, judge, plain, plain_life, status_code, status_coded};

use crate::types::{LAST_SERIAL, Life, Place, Status, UncheckedLife};
use units::{Age, Refusal};

// The status as a number: failed 0, withdrawn 1, running 2.
impl From<Status> for u32 {
    ghost from_gives = { λ status number. number ≡ status_code status };

    fn from(status: Status) -> u32 {
        match status {
            Status::Failed => 0,
            Status::Withdrawn => 1,
            Status::Running => 2,
        }
    }
}

// The status that a number says.
impl TryFrom<u32> for Status {
    type Error = Refusal;

    ghost try_from_gives = { λ number result. answer result ≡ status_coded number };

    fn try_from(number: u32) -> Result<Status, Refusal> {
        match number {
            0 => Ok(Status::Failed),
            1 => Ok(Status::Withdrawn),
            2 => Ok(Status::Running),
            _ => Err(Refusal::UnknownStatus),
        }
    }
}

impl Life {
    // A life, if the ages and the serial are allowed.
    pub fn new(serial: u32, entry: Age, exit: Age, status: Status) -> Result<Life, Refusal>
        ensures { seen plain_life result ≡ judge (record { serial = serial; entry = entry.0; exit = exit.0; status = status_code status }) }
    {
        if entry >= exit || exit > Age::LAST {
            return Err(Refusal::BadAges);
        }
        if serial == 0 || serial > LAST_SERIAL {
            return Err(Refusal::BadSerial);
        }
        Ok(Life {
            serial,
            entry,
            exit,
            status,
        })
    }
}

// The life that four numbers are.
impl TryFrom<UncheckedLife> for Life {
    type Error = Refusal;

    ghost try_from_gives = { λ unchecked result. seen plain_life result ≡ judge unchecked };

    fn try_from(unchecked: UncheckedLife) -> Result<Life, Refusal> {
        let status = Status::try_from(unchecked.status)?;
        Life::new(
            unchecked.serial,
            Age(unchecked.entry),
            Age(unchecked.exit),
            status,
        )
    }
}

impl Place {
    // What life memory is filled with before it is lent: no study counts it. No `Default`, since no life is the natural one.
    pub fn blank() -> Place
        ensures { plain result ≡ blank_place }
    {
        Place {
            life: Life {
                serial: 1,
                entry: Age(0),
                exit: Age(1),
                status: Status::Running,
            },
            struck: true,
        }
    }
}
