// Successions of calls on a study, and that none of them leads to a fault.
#![tactic(auto)]

mod calls;
mod fitting;
mod theorems;

pub use calls::{Call, do_call, do_calls, sealed_after};
pub use fitting::fit_after;
pub use theorems::{no_succession_leads_to_a_fault, taking_over_is_loading};
