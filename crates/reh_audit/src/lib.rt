// The auditor: which members of a ledger's ensembles are missing, which of them are lost for long, and which tasks an
// audit publishes.
#![tactic(auto)]

mod audits;
mod laws;
mod members;

pub use audits::{audit, has_news, is_news};
pub use laws::without_delay_the_missing_are_long_lost;
pub use members::{is_under, long_lost, long_lost_of, missing, published_of, under, under_of};
