// What plans for the ledgers of an inventory come to: each ledger that misses a member is planned for by itself.
#![tactic(auto)]

mod asked;
mod faults;
mod flags;
mod inventories;
mod ledgers;
mod objects;
mod others;
mod parts;
mod pictures;
mod planner;
mod tails;
mod texts;
mod totals;

pub use asked::Asked;
pub use faults::Unplanned;
pub use inventories::{InventoryPlan, plan_lines};
pub use ledgers::{LedgerFiles, NamedShare, Outcome, PlannedLedger, Size};
pub use objects::plans_json;
pub use pictures::{racks_of, read_only_of};
pub use tails::{Tails, add_unclosed, tails_of};
pub use texts::plans_text;
pub use totals::{Counted, Given, count_of, fewer_in, given_in, unreadable_in};
