// Exact arithmetic of failure-rate fits: the logarithm that scores are made of, and the theorems that the fits rest on.
#![tactic(auto)]

mod logs;
mod theorems;

pub use logs::{SQUARINGS, scaled_log2};
pub use theorems::{log_is_close, no_rival_is_likelier, scores_tell_products, weighted_mean};
