// Ledger metadata that is well-formed by its type.
#![tactic(auto)]

mod faults;
mod fragments;
mod ledgers;

pub use faults::MetaFault;
pub use fragments::Fragment;
pub use ledgers::{LedgerMeta, Sizes};
