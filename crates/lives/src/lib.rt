// Lives of fielded units, kept in memory that the caller lends, sealed, and archived.
#![tactic(auto)]

mod archiving;
mod checking;
mod keeping;
mod loading;
mod memory;
mod reading;
mod reopening;
mod sheets;
mod studies;
mod types;
mod words;

pub use reopening::archive_laws;
pub use sheets::SheetRow;
pub use studies::{OpenStudy, SealedStudy};
pub use types::{Life, Place, Status, UncheckedLife};
