// Which bookie holds which entry of which ledger.
#![tactic(auto)]

mod held;
mod rows;
mod tables;
mod turns;

pub use held::Held;
pub use rows::is_set;
pub use turns::Turn;
