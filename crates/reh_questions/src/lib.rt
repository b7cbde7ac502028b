// What is asked of files: whether bookies may be stopped, in which rounds, what the next losses cost, and what a census
// counts; and what is wrong with a file or a name.
#![tactic(auto)]

mod afters;
mod against;
mod inputs;
mod inventories;
mod mistaken;
mod names;
mod noted;
mod stops;
mod waves;

pub use afters::text_after;
pub use inputs::{census_over, unfit};
pub use inventories::{
    check_inventory, from_start, read_line, reader_of, refused_line, uncounted_file,
};
pub use mistaken::{end_on, no_picture, picture_of, state_in};
pub use names::{named_again, named_twice, unknown, unknown_among};
pub use stops::stop_over;
pub use waves::{risk_over, waves_over};
