// Help on scripts and refusals.
ghost use Rattle.std.specs.Prelude.{IfOk, string_bytes};
ghost use Rattle.reh_words.specs.Requests.{IsTopic};
ghost use Rattle.rehearse.specs.Helps.{IsPageOn};

use reh_commands::Verb;
use reh_files::{RunFault, write_out};
use reh_help::{command_page, refusal_page, refusals_page, script_page, topic_named};
use reh_words::HelpTopic;
use std::alloc::{AllocError, Global};

/// Prints the page of a topic.
pub(crate) fn help_on(rt: &HostRuntime, topic: &HelpTopic<'_>) -> Result<(), RunFault> {
    let page = page_on(rt.alloc(), topic)?;
    write_out(rt, page.as_bytes())
}

/// Shows on standard error the page that a line which was typed asks for, if it asks for help.
pub(crate) fn say_help(rt: &HostRuntime, line: &[u8]) {
    let Some(topic) = topic_in(line) else {
        return;
    };
    match page_on(rt.alloc(), &topic) {
        Ok(page) => {
            let _ = eprint!(rt; "{page}");
        }
        Err(fault) => {
            let _ = eprintln!(rt; "{fault}");
        }
    }
}

/// The topic that a line asks for, by the word `help` and at most one more, also in a comment: without one, the commands.
fn topic_in(line: &[u8]) -> Option<HelpTopic<'_>> {
    let Ok(text) = str::from_utf8(line) else {
        return None;
    };
    let mut words = text.split_whitespace();
    let first = words.next()?;
    let asks = if first == "#" {
        words.next()?
    } else {
        first.strip_prefix("#").unwrap_or(first)
    };
    if asks != "help" {
        return None;
    }
    match (words.next(), words.next()) {
        (None, _) => Some(HelpTopic::Script),
        (Some(word), None) => Some(topic_of(word)),
        (Some(_), Some(_)) => None,
    }
}

/// What a word asks for: it names a table, a refusal or a command, or nothing.
fn topic_of(word: &str) -> HelpTopic<'_>
    ensures { IsTopic word.now result }
{
    match word {
        "script" => return HelpTopic::Script,
        "refusals" => return HelpTopic::Refusals,
        _ => {}
    }
    if let Some(topic) = topic_named(word) {
        return HelpTopic::Refusal(topic);
    }
    match Verb::of(word.as_bytes()) {
        Some(verb) => HelpTopic::Command(verb),
        None => HelpTopic::Unknown(word),
    }
}

/// The page of a topic, or that there is none.
fn page_on(alloc: Global, topic: &HelpTopic<'_>) -> Result<String, RunFault>
    ensures { IfOk result (λ page. IsPageOn topic.now (string_bytes page)) }
{
    match topic {
        HelpTopic::Script => Ok(script_page(alloc)?),
        HelpTopic::Refusals => Ok(refusals_page(alloc)?),
        HelpTopic::Refusal(refusal) => Ok(refusal_page(alloc, refusal)?),
        HelpTopic::Command(verb) => Ok(command_page(alloc, *verb)?),
        HelpTopic::Unknown(word) => Err(no_help(alloc, word)),
    }
}

/// That there is no help on a word.
fn no_help(alloc: Global, word: &str) -> RunFault {
    match no_help_text(alloc, word) {
        Ok(text) => RunFault::Misnamed(text),
        Err(want) => RunFault::from(want),
    }
}

/// The text of it.
fn no_help_text(alloc: Global, word: &str) -> Result<String, AllocError> {
    format!(in alloc;
        "no help on '{word}': it is no command, not script or refusals, and no number or name of a refusal"
    )
}
