// The life of a unit, and a place of a study that holds one.
ghost use Rattle.std.specs.Prelude.{◌<◌, ◌≤◌};
ghost use Rattle.lives.specs.declared.types.TheConstants.{LAST_SERIAL};
ghost use Rattle.units.specs.Hours.{last_tick};

use units::Age;

// How the watch on a unit ended. A failed life failed at its exit age.
#[derive(Clone, Copy, PartialEq, Eq, Debug)]
pub enum Status {
    Failed,
    Withdrawn,
    Running,
}

// The highest serial.
pub(crate) const LAST_SERIAL: u32 = 268_435_455;

// A unit was watched from its entry age to its exit age. No life lacks the bounds.
#[derive(Clone, Copy)]
pub struct Life {
    pub serial: u32,
    pub entry: Age,
    pub exit: Age,
    pub status: Status,
    ghost ok: { (1 ≤ serial) × (serial ≤ LAST_SERIAL) × (entry.0 < exit.0) × (exit.0 ≤ last_tick) },
}

// A place of a study. A struck life keeps its place and counts in no fit.
#[derive(Clone, Copy)]
pub struct Place {
    pub life: Life,
    pub struck: bool,
}

// Four numbers that may be a life: the ages in ticks, the status as 0, 1 or 2, as the rules take them.
#[derive(Clone, Copy)]
pub struct UncheckedLife {
    pub serial: u32,
    pub entry: u32,
    pub exit: u32,
    pub status: u32,
}
