// What is said of a stop: the facts, and how they are printed.
#![tactic(auto)]

mod against;
mod counts;
mod facts;
mod keeps;
mod laws;
mod members;
mod notes;
mod nouns;
mod objects;
mod rows;
mod rules;
mod tables;
mod texts;
mod unasked;
mod verdicts;
mod writers;

pub use against::Against;
pub use counts::{count_entries, count_unknown};
pub use facts::{Facts, facts_of};
pub use laws::keep_1_allows_it;
pub use members::{add_null, add_number, add_text, add_text_or_null};
pub use notes::notes_of;
pub use objects::{json_of, text_in};
pub use tables::Counts;
pub use texts::{push_text, text_of};
pub use unasked::Unasked;
pub use verdicts::status_of;
