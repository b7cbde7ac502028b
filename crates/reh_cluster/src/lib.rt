// A cluster: its bookies and which of them are registered, its ledgers, what the bookies hold, the clock and the grace,
// and records of changes to be exchanged with it.
#![tactic(auto)]

mod changes;
mod exchanges;
mod ledgers;
mod names;
mod parts;
mod states;

pub use changes::Changes;
pub use ledgers::Ledger;
pub use names::Names;
pub use states::State;
