// What a step changed, as lines of text.
#![tactic(auto)]

mod fragments;
mod laws;
mod metadata;
mod places;
mod ranges;
mod words;

pub use laws::{changes_are_told, events_keep_ledgers, ranges_are_exact};
pub use places::push_changes;
