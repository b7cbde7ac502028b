// The picture of the state to which a script leads.
#![tactic(auto)]

mod faults;
mod pictures;
mod plays;

pub use faults::{AfterFault, Unaccepted};
pub use pictures::picture_after;
