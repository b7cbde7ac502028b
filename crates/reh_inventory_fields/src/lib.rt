// The fields of an inventory's lines: their names, values and faults, and where in a line a fault is.
#![tactic(auto)]

mod faults;
mod fields;
pub mod members;
mod names;
mod places;

pub use faults::Fault;
pub use fields::Field;
pub use members::{MAX_ENSEMBLE, MAX_NUMBER};
pub use names::{Ensemble, Name};
pub use places::{LineFault, Place, located};
