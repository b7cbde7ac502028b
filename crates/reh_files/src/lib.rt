// Files that are read, and what is said of them: how it is shown, how far the reading is, and why a run ends early.
#![tactic(auto)]

mod faults;
mod files;
mod late;
mod looks;
mod progress;

pub use faults::{RunFault, status_of};
pub use files::{
    INVENTORY_BEGINS, InputBytes, PICTURE_BYTES, open_file, read_input_file, read_on, read_picture,
    read_script, read_scripts, unread, unwritten, write_out,
};
pub use late::LateFile;
pub use looks::{Looks, say_fault, show_answer};
pub use progress::{Progress, Teller};
