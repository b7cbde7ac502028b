// Rehearsals of scripts by the one seat of a book: its transcript, and the input that holds a picture and a script.
#![tactic(auto)]

mod as_json;
mod book_plays;
mod changes;
mod faults;
mod openings;
mod pipes;
mod printed;
mod runs;

pub use as_json::{AsJson, run_as_json, tell_end};
pub use book_plays::play_book;
pub use changes::WithChanges;
pub use faults::PipeFault;
pub use openings::{Opened, open_picture, open_text};
pub use pipes::{pipe, pipe_end};
pub use printed::run_printing;
pub use reh_commands::{
    Command, LineFault, Role, Verb, command_text, parse_line, reply_text, report_text,
};
pub use reh_lines::{FromRead, Gathered, StreamFault, TextIn, TextOut, ToWrite, write_all};
pub use reh_play::{PlayFault, play, play_at_desk, play_by};
pub use runs::run;
