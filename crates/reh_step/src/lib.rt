// One event on the state of a cluster: its decision, and its record.
#![tactic(auto)]

mod decisions;
mod records;
mod recoveries;
mod steps;

pub use decisions::check_event;
pub use records::copy_record;
pub use recoveries::find_end;
pub use steps::{decide, step};
