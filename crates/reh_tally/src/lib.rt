// Censuses, counted by segments: no loop goes over entries.
#![tactic(auto)]

mod census;
mod classes;
mod counts;
mod cursors;
mod few;
mod joins;
mod lines;
mod masks;
mod members;
mod merge;
mod ranges;
mod rounds;
mod segments;
mod tails;

pub use census::{TallyFault, census_of, census_of_few};
pub use counts::{census_of_counts, ensembles_in, entries_in, tails_in};
pub use few::are_few;
pub use merge::{merged, merged_ensembles, merged_tails};
pub use segments::entries_of;
pub use tails::{ensembles_of, tails_of};
