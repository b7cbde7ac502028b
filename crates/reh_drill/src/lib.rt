// Drills: several operators, each with a script of its own, share one rehearsal.
#![tactic(auto)]

mod drills;
mod faults;
mod openings;
mod operators;
mod outcomes;

pub use drills::drill_over;
pub use faults::DrillFault;
pub use reh_crew::MAX_OPERATORS;
