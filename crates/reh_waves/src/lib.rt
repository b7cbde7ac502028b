// Rounds of a rolling restart, and what the next failures cost.
#![tactic(auto)]

mod fewest;
mod lines;
mod losses;
mod near;
mod objects;
mod orders;
mod printable;
mod reasons;
mod risk;
mod risk_lines;
mod risk_objects;
mod sets;
mod spares;
mod waves;

pub use lines::waves_text;
pub use losses::{Loss, Lost};
pub use objects::waves_json;
pub use orders::{order_by_name, order_of};
pub use printable::are_printable;
pub use risk::{Risk, risk_of};
pub use risk_lines::risk_text;
pub use risk_objects::risk_json;
pub use waves::{Alone, Round, Waves, waves_of};
