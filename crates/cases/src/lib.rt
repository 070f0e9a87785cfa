// Worked cases of the rules.
#![tactic(auto)]

mod worked;

pub use worked::cases_hold;

#[cfg(test)]
mod life_cases;
