// Texts that come and go in parts: readers and writers, lines, and an input that holds a picture and a script.
#![tactic(auto)]

mod gathered;
mod heads;
mod inputs;
mod readings;
mod streams;

pub use gathered::Gathered;
pub use heads::{Head, Percent, read_head};
pub use inputs::{first_line, front, split_input, whole_lines};
pub use readings::{Progress, TextRead, read_on, read_text};
pub use streams::{FromRead, StreamFault, TextIn, TextOut, ToWrite, write_all};
