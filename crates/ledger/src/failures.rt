// Why a line has no answer of its own.
use std::alloc::AllocError;
use std::{fmt, io};
use units::Refusal;

#[derive(Drop)]
pub enum Failure {
    // The library refused.
    Refused(Refusal),
    // The line asks for what the study that is there, or a bench that is not, can't do.
    NotNow,
    // No such line is known.
    NotUnderstood,
    // Input, output or memory failed, which ends the program.
    Io(io::Error),
}

impl fmt::Display for Failure {
    fn fmt<W: fmt::Write>(&self, f: &mut fmt::Formatter<W>) -> fmt::Result {
        match self {
            Failure::Refused(refusal) => write!(f, "refused {refusal}"),
            Failure::NotNow => f.write_str("not now"),
            Failure::NotUnderstood => f.write_str("not understood"),
            Failure::Io(error) => write!(f, "{error}"),
        }
    }
}

impl From<Refusal> for Failure {
    fn from(refusal: Refusal) -> Failure {
        Failure::Refused(refusal)
    }
}

impl From<io::Error> for Failure {
    fn from(error: io::Error) -> Failure {
        Failure::Io(error)
    }
}

impl From<AllocError> for Failure {
    fn from(error: AllocError) -> Failure {
        Failure::Io(io::Error::from(error))
    }
}
