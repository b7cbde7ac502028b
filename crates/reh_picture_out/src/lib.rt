// From the state of a cluster to the text of a picture that shows it.
#![tactic(auto)]

mod bookies;
mod contents;
mod ledgers;
mod pictures;
mod ranges;
mod told;
mod unshown;

pub use pictures::picture_text;
pub use ranges::is_clear;
pub use unshown::Unshown;
