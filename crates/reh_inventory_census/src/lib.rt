// The census of an inventory.
#![tactic(auto)]

mod bookies;
mod census;
mod counted;
mod counter;
mod counts;
mod empties;
mod faults;
mod ledgers;
mod numbers;
mod orders;
mod parts;

pub use census::{CountedLine, InventoryCount};
pub use counted::{end_of, end_told, last_first, stop_of};
pub use counter::LedgerCount;
pub use faults::CountFault;
pub use ledgers::InventoryLedgers;
pub use numbers::{line_fault, number_line};
pub use orders::in_order;
