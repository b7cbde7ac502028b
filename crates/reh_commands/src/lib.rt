// Commands and the words of their lines, read and printed, and the texts of replies, reports and surveys.
#![tactic(auto)]

mod commands;
mod parts;
mod reports;
mod scripts;
mod surveys;
mod texts;
mod verbs;
mod words;

pub use commands::{Command, LineFault};
pub use reports::{push_last, push_members, push_names, push_report, report_text, state_word};
pub use scripts::{command_text, parse_line};
pub use surveys::push_survey;
pub use texts::{Named, push_name, reply_text};
pub use verbs::Verb;
pub use words::Role;
