// Pages of help: what the commands of a script do, what each refusal means, and what to look at next.
#![tactic(auto)]

mod advice;
mod commands;
mod pages;
mod refusals;

pub use pages::{command_page, refusal_page, refusals_page, script_page};
pub use refusals::{Topic, topic_named, topic_of};
