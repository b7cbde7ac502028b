// A player: its hand, its answers to the lines of a script, and plays of scripts by a seat of any counter.
#![tactic(auto)]

mod answers;
mod desk_plays;
mod faults;
mod hand;
mod laws;
mod players;
mod plays;
mod printers;

pub use answers::{LineAnswer, push_answer};
pub use desk_plays::play_at_desk;
pub use faults::PlayFault;
pub use laws::{faults_of_plays_have_causes, plays_that_end_well_are_whole};
pub use plays::{play, play_by, play_on};
pub use printers::{AnswersAlone, Printer};
