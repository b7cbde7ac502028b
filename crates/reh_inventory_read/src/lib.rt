// The lines of an inventory, read one after the other, and counted by several workers.
#![tactic(auto)]

mod batches;
mod counting;
mod faults;
mod limited;
mod lines;
mod naming;
mod passes;

pub use counting::{CountedInventory, count_lines};
pub use faults::ReadFault;
pub use limited::{Limited, MAX_LINE_BYTES};
pub use lines::{LineReader, line_reader, read_line};
pub use naming::names_in;
pub use passes::{Pass, add_all};
