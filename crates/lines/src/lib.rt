// Lines of text: the fields of a line, and numbers as a ledger writes them.
#![tactic(auto)]

pub mod fields;
pub mod numbers;
