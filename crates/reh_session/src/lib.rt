// A session: events on a cluster, with undo and redo.
#![tactic(auto)]

mod laws;
mod sessions;

pub use laws::{posts_are_copies, records_are_unique, stripes_stay, undo_restores};
pub use sessions::Session;
