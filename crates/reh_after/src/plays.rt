// Scripts whose commands are all accepted.
ghost use Rattle.std.specs.Prelude.{◌≡◌, None, Some, IfErr, OnOk};
ghost use Rattle.reh_commands.specs.Answers.{asked};
ghost use Rattle.reh_lines.specs.Lines.{lines_of};
ghost use Rattle.reh_commands.specs.Texts as texts;
ghost use Rattle.reh_commands.specs.declared.commands.Command.TheVariants as command;
ghost use Rattle.reh_after.specs.After as model;
ghost use Rattle.reh_after.specs.Faults as faults;

use crate::faults::{AfterFault, Unaccepted};
use reh_cluster::Names;
use reh_commands::{Command, LineFault, parse_line, reply_text};
use reh_lines::first_line;
use reh_session::Session;
use reh_types::{Move, Refusal, Reply};
use std::alloc::{AllocError, Global};

/// Plays a script on a session, as far as its commands are accepted. After an `Err` the lines before the one that isn't
/// accepted were played.
pub(crate) fn play_lines(
    alloc: Global,
    names: &Names,
    session: &mut Session,
    script: &[u8],
) -> Result<(), AfterFault>
    ensures played { OnOk result (model.after_lines names.now session.old (lines_of script.now) ≡ Some session.new) }
    ensures fault { IfErr result (faults.IsLineFault names.now session.old (lines_of script.now)) }
{
    let mut rest = script;
    let mut number = 0;
    while !rest.is_empty() {
        number += 1;
        let (line, more) = first_line(rest);
        play_line(alloc, names, session, number, line)?;
        rest = more;
    }
    Ok(())
}

/// Plays the line of that number.
fn play_line(
    alloc: Global,
    names: &Names,
    session: &mut Session,
    number: usize,
    line: &[u8],
) -> Result<(), AfterFault>
    ensures played { OnOk result (model.after_asked session.old (asked names.now line.now) ≡ Some session.new) }
    ensures fault { IfErr result (faults.IsFaultAt number (faults.IsRefusedAt names.now session.old (asked names.now line.now))) }
{
    match parse_line(names, line) {
        Some(Ok(command)) => play_command(alloc, names, session, number, &command),
        Some(Err(fault)) => Err(faulty(alloc, number, fault)),
        None => Ok(()),
    }
}

/// Makes the command of the line of that number.
fn play_command(
    alloc: Global,
    names: &Names,
    session: &mut Session,
    number: usize,
    command: &Command,
) -> Result<(), AfterFault>
    ensures played { OnOk result (model.after_command session.old command.now ≡ Some session.new) }
    ensures fault { IfErr result (faults.IsFaultAt number (faults.IsRefused names.now session.old command.now)) }
{
    match command {
        Command::Make(step) => make(alloc, names, session, number, step),
        Command::Report | Command::Survey => Ok(()),
        Command::Checkout(_) => Err(no_worker(alloc, number)),
        Command::Spend => Err(no_worker(alloc, number)),
        Command::Discard => Err(no_worker(alloc, number)),
    }
}

/// Makes the move of the line of that number.
fn make(
    alloc: Global,
    names: &Names,
    session: &mut Session,
    number: usize,
    step: &Move,
) -> Result<(), AfterFault>
    ensures played { OnOk result (model.after_move session.old step.now ≡ Some session.new) }
    ensures fault { IfErr result (faults.IsFaultAt number (faults.IsRefused names.now session.old (command.Make step.now))) }
{
    let reply = session.perform(step);
    if is_accepted(&reply) {
        Ok(())
    } else {
        Err(refused(alloc, names, number, &reply))
    }
}

/// Whether a reply accepts a move.
fn is_accepted(reply: &Reply) -> bool
    ensures { result ≡ model.is_accepted reply.now }
{
    match reply {
        Reply::Refused(_) => false,
        Reply::Done | Reply::Clock(_) | Reply::Issued(_) | Reply::Discarded => true,
    }
}

/// The fault of a reply that there is no memory.
fn want_of(reply: &Reply) -> Option<AfterFault>
    ensures { result ≡ faults.want_of reply.now }
{
    match reply {
        Reply::Refused(Refusal::NoMemory) => Some(AfterFault::NoMemory),
        _ => None,
    }
}

/// That the line of that number asks for nothing, or that there is no memory.
fn faulty(alloc: Global, number: usize, fault: LineFault) -> AfterFault
    ensures { faults.IsFaultAt number (λ answer. answer ≡ texts.line_fault_text fault) result }
{
    unaccepted(number, format!(in alloc; "{fault}"))
}

/// That the line of that number asks for a ticket, or that there is no memory.
fn no_worker(alloc: Global, number: usize) -> AfterFault
    ensures { faults.IsFaultAt number (λ answer. answer ≡ faults.tickets_text) result }
{
    unaccepted(
        number,
        String::from_str(alloc, "tickets are for workers, and none is at work here"),
    )
}

/// That the move of the line of that number was refused, or that there is no memory.
fn refused(alloc: Global, names: &Names, number: usize, reply: &Reply) -> AfterFault
    ensures { faults.IsFaultAt number (λ answer.
        (faults.want_of reply.now ≡ None) × (answer ≡ texts.reply_text names.now reply.now)) result }
{
    match want_of(reply) {
        Some(want) => want,
        None => unaccepted(number, reply_text(alloc, names, reply)),
    }
}

/// That the command of the line of that number isn't accepted, by its answer.
fn unaccepted(line: usize, answer: Result<String, AllocError>) -> AfterFault
    ensures { result ≡ faults.unaccepted_by line answer }
{
    match answer {
        Ok(answer) => AfterFault::Unaccepted(Unaccepted { line, answer }),
        Err(want) => AfterFault::from(want),
    }
}
