// Ages, exposures, and the refusals that every call answers by.
#![tactic(auto)]

mod ages;
mod hours;
mod refusals;

pub use ages::{Age, Exposure};
pub use refusals::{Layer, Refusal, WordPlace};
