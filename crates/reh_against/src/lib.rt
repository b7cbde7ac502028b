// Which ledgers speak against a stop.
#![tactic(auto)]

mod causes;
mod entries;
mod found;
mod kept;
mod members;
mod picks;
mod stops;
mod weights;
mod worst;

pub use picks::against_of;
pub use stops::Stop;
pub use worst::Worst;
