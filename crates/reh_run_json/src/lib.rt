// The lines that are answered in a run, as JSON.
#![tactic(auto)]

mod answers;
mod fragments;
mod laws;
mod ledgers;
mod lines;
mod metadata;
mod places;
mod ranges;
mod reports;
mod surveys;
mod values;
mod words;

pub use laws::changes_have_objects;
pub use lines::push_line;
