// What the program is asked, by all words of the command line.
ghost use Rattle.std.specs.Prelude.{IfOk, IfSome};
ghost use Rattle.reh_words.specs.Requests as model;

use crate::commands::subcommands;
use crate::helps;
use crate::pictures::asked_task;
use crate::styles::{Style, asked_style, with_style};
use crate::tasks::{HelpTopic, Task};
use clap::error::ErrorKind;
use clap::{ArgMatches, Command, Error};
use reh_commands::Verb;
use reh_help::topic_named;
use std::alloc::{AllocError, Global};
use std::convert::AsStr;

/// What the program is asked, and how it is to show what it says.
#[derive(Drop)]
pub struct Request<'a> {
    pub task: Task<'a>,
    pub style: Style,
}

/// What `--version` says; a picture has the number of its format in itself.
const VERSION: &str = "1.1.0";

const ABOUT: &str =
    "Rehearses Apache BookKeeper AutoRecovery on a picture of a cluster, and not on the cluster.";

/// What these words ask for, the program's own name first; or `clap`'s text of what is wrong with them, or of help.
/// `None` is for words that the parser lets through though they lack what their command needs. There are none.
pub fn request_of<'a>(alloc: Global, words: &'a [String]) -> Result<Option<Request<'a>>, Error>
    ensures { IfOk result (λ found. IfSome found model.IsRequest) }
{
    match command(alloc, helps::PROGRAM)?.try_get_matches_from(words) {
        Ok(matches) => {
            let style = asked_style(&matches);
            match asked_by(alloc, &matches)? {
                Some(task) => Ok(Some(Request { task, style })),
                None => Ok(None),
            }
        }
        Err(error) => {
            if error.kind() == ErrorKind::DisplayHelp {
                show_help(alloc, words)?;
            }
            Err(error)
        }
    }
}

/// What these matches ask for. Help on the program and on a command comes as an error, as by `--help`.
fn asked_by<'a>(alloc: Global, matches: &ArgMatches<'a>) -> Result<Option<Task<'a>>, Error>
    ensures { IfOk result (λ task. IfSome task (model.IsAskedBy matches.now)) }
{
    match matches.subcommand() {
        Some(("help", given)) => match given.get_str("TOPIC") {
            Some(word) => Ok(Some(Task::Help(topic_of(alloc, word)?))),
            None => {
                show_help(alloc, &["rehearse", "--help"])?;
                Ok(None)
            }
        },
        _ => Ok(asked_task(alloc, matches)?),
    }
}

/// What help on a word is on: a table, the refusal that it names, or the command of a script.
fn topic_of<'a>(alloc: Global, word: &'a str) -> Result<HelpTopic<'a>, Error>
    ensures { IfOk result (model.IsTopic word.now) }
{
    match word {
        "script" => Ok(HelpTopic::Script),
        "refusals" => Ok(HelpTopic::Refusals),
        _ => named_topic(alloc, word),
    }
}

/// The refusal that a word names, or the command of a script.
fn named_topic<'a>(alloc: Global, word: &'a str) -> Result<HelpTopic<'a>, Error>
    ensures { IfOk result (model.IsTopic word.now) }
{
    if let Some(topic) = topic_named(word) {
        return Ok(HelpTopic::Refusal(topic));
    }
    if let Some(verb) = Verb::of(word.as_bytes()) {
        return Ok(HelpTopic::Command(verb));
    }
    show_command(alloc, word)?;
    Ok(HelpTopic::Unknown(word))
}

/// Help, as an error, for a word that is a command.
fn show_command(alloc: Global, word: &str) -> Result<(), Error> {
    match command(alloc, helps::PROGRAM)?.find_subcommand(word) {
        Some(_) => show_help(alloc, &["rehearse", word, "--help"]),
        None => Ok(()),
    }
}

/// Help, as an error, for words that ask for it. It has the list of commands, which is made here alone.
fn show_help<S: AsStr>(alloc: Global, words: &[S]) -> Result<(), Error> {
    let ways = all_ways(alloc)?;
    command(alloc, ways.as_str())?.try_get_matches_from(words)?;
    Ok(())
}

/// The ways to call the program, with the commands of a script: each with its words, and what it does.
fn all_ways(alloc: Global) -> Result<String, AllocError> {
    let mut ways = format!(in alloc; "{}\nThe commands of a script:\n\n", helps::PROGRAM)?;
    for verb in Verb::all() {
        let command = format!(in alloc; "{verb}")?;
        let summary = verb.summary();
        write!(ways, "  {command:<43}{summary}\n")?;
    }
    Ok(ways)
}

/// The command line: the program without a command, its commands, each with the words of its table in `commands.rt`, and `help`.
fn command<'a>(alloc: Global, ways: &'a str) -> Result<Command<'a>, AllocError> {
    let commands = subcommands(alloc)?;
    let program = with_style(alloc, program(alloc, ways))?;
    program.subcommands(commands)
}

/// The program, without commands.
fn program<'a>(alloc: Global, ways: &'a str) -> Command<'a> {
    Command::new(alloc, "rehearse")
        .version(VERSION)
        .about(ABOUT)
        .after_help(ways)
        .disable_help_subcommand(true)
}
