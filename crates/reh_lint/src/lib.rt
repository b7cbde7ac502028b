// What is wrong in a script, before it is played.
#![tactic(auto)]

mod findings;
mod laws;
mod ledgers;
mod lints;
mod names;
mod unknown;

pub use findings::Known;
pub use laws::missing_ledgers_are_refused;
pub use ledgers::missing_ledger;
pub use lints::{Linted, answered, lint};
pub use names::bookie_names;
