// Sources of counts: studies and bench runs answer the same four questions. Also the bound of a bench run.
#![tactic(auto)]

mod bench;
mod bound;
mod gaps;
mod run;
mod source;
mod study;

pub use bound::Confidence;
pub use gaps::{
    Gap, count_failure_ages, failures_up_to, gap_between, list_gaps, total_time_on_test,
};
pub use run::BenchRun;
pub use source::{Source, questions_stand};

#[cfg(test)]
mod tests;
