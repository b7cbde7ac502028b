// Plans: which commands bring the ledgers of lost bookies back to full strength, as a script that is accepted.
#![tactic(auto, using(crate::proofs::PlanLaws::works_on, crate::proofs::PlanLaws::works_none, crate::proofs::PlanLaws::works_same, crate::proofs::PlanLaws::works_made, crate::proofs::PlanLaws::works_alone))]

mod ends;
mod faults;
mod fewer;
mod named;
mod needed;
mod objects;
mod planning;
mod plans;
mod racks;
mod reasons;
mod recoveries;
mod repairs;
mod rolls;
mod runbooks;
mod summaries;
mod takers;
mod workers;

pub use faults::PlanFault;
pub use fewer::FewerRacks;
pub use named::{NamedTwice, find_bookies, first_unknown};
pub use objects::plan_json;
pub use planning::{Planned, plan};
pub use plans::Plan;
pub use racks::Racks;
pub use reasons::{Left, Reason};
pub use runbooks::runbook;
pub use summaries::{Share, Summary, plan_summary};
