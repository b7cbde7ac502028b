// Which names are near a word that is none of them.
#![tactic(auto)]

mod distances;
mod ids;
mod near;

pub use ids::{near_ids, nearest_ids};
pub use near::{MAX_BYTES, Near, near_to};
