// Whether a question can be asked at the end of a rehearsal: whether what its script went by was told.
#![tactic(auto)]

mod doubts;
mod members;
mod told;

pub use doubts::{Doubt, Doubted, doubt_text, first_doubt};
