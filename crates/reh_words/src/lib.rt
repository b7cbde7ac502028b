// The command line: what its words ask for.
#![tactic(auto)]

mod commands;
mod helps;
mod pictures;
mod questions;
mod requests;
mod styles;
mod tasks;

pub use requests::{Request, request_of};
pub use styles::Style;
pub use tasks::{
    CensusWords, Crew, CutWords, DrillFiles, HelpTopic, Inputs, MAX_FILES, PlanWords, PlayOut,
    PlayWords, Prints, RiskWords, StopWords, Task, WaveWords,
};
