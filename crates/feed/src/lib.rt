// A source of another crate's own: a batch of units that were put in service together and all failed at one age. It is fitted by the same curve call as studies and bench runs.
#![tactic(auto)]

mod batch;
mod questions;

pub use batch::Batch;

#[cfg(test)]
mod tests;
