// How a picture's values are read: members of the kinds and within the bounds that they must have, and names.
#![tactic(auto)]

pub mod faults;
pub mod fields;
pub mod members;
pub mod names;

pub use faults::{FaultName, LedgerFlaw, PictureFault, Repeated};
pub use fields::Field;
