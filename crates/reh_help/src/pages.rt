// The pages of help.
ghost use Rattle.std.specs.Prelude.{IfOk, OnOk, string_bytes};
ghost use Rattle.reh_help.specs.Pages.{BeginsWith, HasTitle, IsCommandPageOf, IsCommandPart, IsRefusalLine};
ghost use Rattle.reh_help.specs.Pages.{IsRefusalsPage, IsScriptPage};

use crate::advice::advice;
use crate::commands::effect;
use crate::refusals::{Topic, meaning, topics, value_word};
use reh_commands::Verb;
use std::alloc::{AllocError, Global};

/// What stands above the commands of a script.
const SCRIPT: &str =
    "The commands of a script, one a line. WORKER is the name of the worker's bookie, LEDGER an id,
FRAGMENT and INDEX are counted from 0, VERSION is the one that the metadata has now, and N a
number of ticks. docs/SCRIPT.md has more of each.
";

/// What stands above the refusals.
const REFUSALS: &str =
    "The refusals, each with its number and name, and what its value is, if it has one. The first that
applies is the answer, and nothing is changed. rehearse help 26 says what to look at after that.

";

/// The commands of a script: each with its words, and what happens by it.
pub fn script_page(alloc: Global) -> Result<String, AllocError>
    ensures { IfOk result (λ text. IsScriptPage (string_bytes text)) }
{
    let mut text = String::from_str(alloc, SCRIPT)?;
    for verb in Verb::all() {
        let part = command_part(alloc, verb)?;
        text.push_str(part.as_str())?;
    }
    Ok(text)
}

/// The page of a command, after an empty line.
fn command_part(alloc: Global, verb: Verb) -> Result<String, AllocError>
    ensures { IfOk result (λ part. IsCommandPart verb (string_bytes part)) }
{
    let page = command_page(alloc, verb)?;
    let part = format!(in alloc; "\n{page}")?;
    Ok(part)
}

/// The page of a command of a script: its words, and what happens by it.
pub fn command_page(alloc: Global, verb: Verb) -> Result<String, AllocError>
    ensures { IfOk result (λ text. IsCommandPageOf verb (string_bytes text)) }
{
    let effect = effect(verb);
    let text = format!(in alloc; "{verb}\n    {effect}\n")?;
    Ok(text)
}

/// The refusals, by their numbers: each with its name, and when it is the answer.
pub fn refusals_page(alloc: Global) -> Result<String, AllocError>
    ensures { IfOk result (λ text. IsRefusalsPage (string_bytes text)) }
{
    let mut text = String::from_str(alloc, REFUSALS)?;
    for topic in topics() {
        let line = refusal_line(alloc, &topic)?;
        text.push_str(line.as_str())?;
    }
    Ok(text)
}

/// The line of a refusal.
fn refusal_line(alloc: Global, topic: &Topic) -> Result<String, AllocError>
    ensures { IfOk result (λ line. IsRefusalLine topic.now (string_bytes line)) }
{
    let name = named(alloc, topic)?;
    let meaning = meaning(topic);
    let line = format!(in alloc; "{name:<25}{meaning}\n")?;
    Ok(line)
}

/// A refusal's number and name, and what its value is.
fn named(alloc: Global, topic: &Topic) -> Result<String, AllocError>
    ensures { IfOk result (λ text. HasTitle topic.now (string_bytes text)) }
{
    let (number, name) = (topic.number(), topic.name());
    let mut text = format!(in alloc; "{number} {name}")?;
    push_value(&mut text, topic)?;
    Ok(text)
}

/// Adds what a refusal's value is, if it has one.
fn push_value(text: &mut String, topic: &Topic) -> Result<(), AllocError>
    ensures { OnOk result (BeginsWith (string_bytes text.old) (string_bytes text.new)) }
{
    if let Some(word) = value_word(topic) {
        write!(text, " ({word})")?;
    }
    Ok(())
}

/// The page of a refusal: what it means, and what to look at next.
pub fn refusal_page(alloc: Global, topic: &Topic) -> Result<String, AllocError>
    ensures { IfOk result (λ text. HasTitle topic.now (string_bytes text)) }
{
    let mut text = named(alloc, topic)?;
    let (meaning, advice) = (meaning(topic), advice(topic));
    write!(text, "\n\n    {meaning}\n\n{advice}\n")?;
    Ok(text)
}
