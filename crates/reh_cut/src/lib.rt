// From ledgers of an inventory to a picture of them.
#![tactic(auto)]

mod checks;
mod chosen;
mod cuts;
mod faults;
mod limits;
mod names;
mod passed;
mod ranges;
mod said;
mod texts;
mod windows;

pub use checks::{bookie_in, names_bookie};
pub use chosen::ChosenLedgers;
pub use cuts::{cut, cut_with};
pub use faults::CutFault;
pub use limits::{LedgerLimit, Limit, Past, Sum, Total, TotalLimit, Twice, WayOut};
pub use names::Others;
pub use said::Assume;
