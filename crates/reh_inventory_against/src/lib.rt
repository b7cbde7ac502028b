// The ledgers of an inventory that speak against a stop: the inventory is read once more, after it was counted.
#![tactic(auto)]

mod rereading;

pub use rereading::Rereading;
