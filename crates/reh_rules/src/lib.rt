// The rules for stopping bookies, over a census.
#![tactic(auto)]

mod copies;
mod entries;
mod members;
mod numbers;
mod places;
mod racks;
mod tails;
mod writers;

pub use copies::{entries_with, most_copies};
pub use entries::{Breaks, breaks_of};
pub use members::takes_some_disk;
pub use numbers::{answer_of, breaks_new_ledgers, numbers_of};
pub use racks::{count_writable, lacks_racks};
