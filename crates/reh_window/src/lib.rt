// The windows of a ledger that has more entries than a picture may have.
#![tactic(auto)]

mod contents;
mod faults;
mod fragments;
mod laws;
mod spans;
mod windows;

pub use faults::WindowFault;
pub use laws::{
    a_window_has_the_same_members, a_window_says_the_same, a_window_stripes_entries_as_the_ledger,
};
pub use spans::width_of;
pub use windows::window_of;
