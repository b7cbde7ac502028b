// What is found in the lines of a script.
ghost use Rattle.std.specs.Prelude.{◌≡◌, ◌+◌, ◌^◌, ◌<◌, ◌++◌, cond, false, filter, length, IfOk, OnOk, string_bytes};
ghost use Rattle.reh_commands.specs.Answers.{asked};
ghost use Rattle.reh_lines.specs.Lines.{answered_lines, lines_of};
ghost use Rattle.reh_lint.specs.Lints as model;

use crate::findings::{Known, push_finding, push_missing};
use reh_cluster::State;
use reh_commands::parse_line;
use reh_lines::{first_line, front, whole_lines};
use reh_types::MAX_SCRIPT_BYTES;
use std::alloc::{AllocError, Global};

/// What is found in a script: a line of text for each faulty line, and for each line that names a ledger that isn't there;
/// how many lines ask for a command, and how many are faulty.
#[derive(Drop)]
pub struct Linted {
    pub text: String,
    pub commands: usize,
    pub faulty: usize,
}

/// What is found in the script of a file, on the picture of this state. Each line is named that a play would answer with
/// `too long`, `unknown command`, `bad words` or `unknown name`, with its number, that answer, and what is near its word;
/// and each line that asks for a command which names a ledger that the picture doesn't have, with its number, that ledger,
/// and the ids that are near. No other line is named. As in a play, of a script that is too long the lines are judged that
/// end among its first 1,048,576 bytes.
pub fn lint(alloc: Global, state: &State, path: &str, script: &[u8]) -> Result<Linted, AllocError>
    ensures findings { IfOk result (λ lint. string_bytes lint.text
        ≡ model.findings path.now state.now 1 (answered_lines false script.now)) }
    ensures commands { IfOk result (λ lint. lint.commands
        ≡ length (filter (model.is_command state.now.names) (answered_lines false script.now))) }
    ensures faulty { IfOk result (λ lint. lint.faulty
        ≡ length (filter (model.is_faulty state.now.names) (answered_lines false script.now))) }
{
    match Known::new(alloc, state) {
        Ok(known) => lint_lines(alloc, &known, path, answered(script)),
        Err(want) => Err(want),
    }
}

/// The text of a script whose lines are answered.
pub fn answered(script: &[u8]) -> &[u8]
    ensures { lines_of result.now ≡ answered_lines false script.now }
{
    if script.len() > MAX_SCRIPT_BYTES {
        return whole_lines(front(script, MAX_SCRIPT_BYTES));
    }
    script
}

/// What is found in the lines of a text.
fn lint_lines(
    alloc: Global,
    known: &Known<'_>,
    path: &str,
    text: &[u8],
) -> Result<Linted, AllocError>
    ensures findings { IfOk result (λ lint. string_bytes lint.text
        ≡ model.findings path.now known.now.state.now 1 (lines_of text.now)) }
    ensures commands { IfOk result (λ lint. lint.commands
        ≡ length (filter (model.is_command known.now.state.now.names) (lines_of text.now))) }
    ensures faulty { IfOk result (λ lint. lint.faulty
        ≡ length (filter (model.is_faulty known.now.state.now.names) (lines_of text.now))) }
{
    let mut lint = Linted {
        text: String::new(alloc),
        commands: 0,
        faulty: 0,
    };
    let mut rest = text;
    let mut number = 0;
    while !rest.is_empty() {
        number += 1;
        let (line, more) = first_line(rest);
        lint_line(&mut lint, known, path, number, line)?;
        rest = more;
    }
    Ok(lint)
}

/// Adds what is found in a line.
fn lint_line(
    lint: &mut Linted,
    known: &Known<'_>,
    path: &str,
    number: usize,
    line: &[u8],
) -> Result<(), AllocError>
    requires few { (lint.old.commands + 1 < 2 ^ 64) × (lint.old.faulty + 1 < 2 ^ 64) }
    ensures findings { OnOk result (string_bytes lint.new.text ≡ string_bytes lint.old.text
        ++ model.finding_of path.now known.now.state.now number line.now (asked known.now.state.now.names line.now)) }
    ensures commands { OnOk result (lint.new.commands ≡ lint.old.commands
        + cond (model.is_command known.now.state.now.names line.now) 1 0) }
    ensures faulty { OnOk result (lint.new.faulty ≡ lint.old.faulty
        + cond (model.is_faulty known.now.state.now.names line.now) 1 0) }
{
    match parse_line(known.state.names(), line) {
        Some(Ok(command)) => {
            lint.commands += 1;
            push_missing(&mut lint.text, known, path, number, &command)?;
        }
        Some(Err(fault)) => {
            lint.faulty += 1;
            push_finding(&mut lint.text, known, path, number, line, fault)?;
        }
        None => {}
    }
    Ok(())
}
