// Failure-rate curves: falling, rising and U-shaped, and that they have no fault.
#![tactic(auto)]

mod fits;
mod piling;
mod shapes;
mod side;
mod split;
mod step;
mod table;
mod theorems;
mod turning;
mod writing;

pub use fits::{Fit, Work, fit_curve};
pub use shapes::Shape;
pub use step::Step;
pub use theorems::{curves_stand, no_curve_has_a_fault};
