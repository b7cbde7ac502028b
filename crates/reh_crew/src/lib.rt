// Several workers: those of a survey for what can't be read any more, and replication workers at one desk.
#![tactic(auto)]

mod drives;
mod gates;
mod laws;
mod scanners;
mod shares;
mod surveyors;
mod threads;

pub use drives::drive;
pub use gates::{Gate, OpenGate};
pub use laws::{closed_desks_balance, driven_groups_are_whole};
pub use reh_types::SurveyLine;
pub use surveyors::{BySurvey, Plain, SurveyFault, Surveyor};
pub use threads::{MAX_OPERATORS, MAX_WORKERS, Threads};
