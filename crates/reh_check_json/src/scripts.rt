// What is found in the lines of a script, as members of an object.
ghost use Rattle.std.specs.Prelude.{◌≡◌, ◌+◌, ◌^◌, ◌<◌, cond, false, filter, flat_map, length, IfOk, OnOk, codes};
ghost use Rattle.json.specs.Tree.{json_tokens};
ghost use Rattle.reh_answer.specs.Objects.{Adds, list_json, member_tokens};
ghost use Rattle.reh_commands.specs.Answers.{asked};
ghost use Rattle.reh_lines.specs.Lines.{answered_lines, lines_of};
ghost use Rattle.reh_lint.specs.Lints.{is_command, is_faulty};
ghost use Rattle.reh_check_json.specs.Scripts as model;

use crate::findings::{add_fault, add_missing};
use json::Writer;
use reh_answer::add_number;
use reh_commands::parse_line;
use reh_lines::first_line;
use reh_lint::{Known, answered};
use std::alloc::{AllocError, Global};

/// How many lines ask for a command, and how many are faulty.
#[derive(Clone, Copy)]
pub(crate) struct LineCounts {
    pub commands: usize,
    pub faulty: usize,
}

/// Adds what is found in a line.
fn add_line(
    alloc: Global,
    json: &mut Writer<Global>,
    counts: &mut LineCounts,
    known: &Known<'_>,
    number: usize,
    line: &[u8],
) -> Result<(), AllocError>
    requires few { (counts.old.commands + 1 < 2 ^ 64) × (counts.old.faulty + 1 < 2 ^ 64) }
    ensures adds { OnOk result (Adds (flat_map json_tokens
        (model.found_in known.now.state.now number line.now (asked known.now.state.now.names line.now))) json.old json.new) }
    ensures commands { OnOk result (counts.new.commands ≡ counts.old.commands
        + cond (is_command known.now.state.now.names line.now) 1 0) }
    ensures faulty { OnOk result (counts.new.faulty ≡ counts.old.faulty
        + cond (is_faulty known.now.state.now.names line.now) 1 0) }
{
    match parse_line(known.state.names(), line) {
        Some(Ok(command)) => {
            counts.commands += 1;
            add_missing(alloc, json, known, number, &command)?;
        }
        Some(Err(fault)) => {
            counts.faulty += 1;
            add_fault(alloc, json, known, number, line, fault)?;
        }
        None => {}
    }
    Ok(())
}

/// Adds what is found in the lines of a text.
fn add_lines(
    alloc: Global,
    json: &mut Writer<Global>,
    known: &Known<'_>,
    text: &[u8],
) -> Result<LineCounts, AllocError>
    ensures adds { OnOk result (Adds (flat_map json_tokens
        (model.found known.now.state.now 1 (lines_of text.now))) json.old json.new) }
    ensures commands { IfOk result (λ counts. counts.commands
        ≡ length (filter (is_command known.now.state.now.names) (lines_of text.now))) }
    ensures faulty { IfOk result (λ counts. counts.faulty
        ≡ length (filter (is_faulty known.now.state.now.names) (lines_of text.now))) }
{
    let mut counts = LineCounts {
        commands: 0,
        faulty: 0,
    };
    let mut rest = text;
    let mut number = 0;
    while !rest.is_empty() {
        number += 1;
        let (line, more) = first_line(rest);
        add_line(alloc, json, &mut counts, known, number, line)?;
        rest = more;
    }
    Ok(counts)
}

/// Adds the list of what is found in the lines of a text.
fn add_found(
    alloc: Global,
    json: &mut Writer<Global>,
    known: &Known<'_>,
    text: &[u8],
) -> Result<LineCounts, AllocError>
    ensures adds { OnOk result (Adds (member_tokens (codes "lines")
        (list_json (model.found known.now.state.now 1 (lines_of text.now)))) json.old json.new) }
    ensures commands { IfOk result (λ counts. counts.commands
        ≡ length (filter (is_command known.now.state.now.names) (lines_of text.now))) }
    ensures faulty { IfOk result (λ counts. counts.faulty
        ≡ length (filter (is_faulty known.now.state.now.names) (lines_of text.now))) }
{
    json.key("lines")?;
    json.begin_array()?;
    let counts = add_lines(alloc, json, known, text)?;
    json.end_array()?;
    Ok(counts)
}

/// Adds what is found in a script, and says how many of its lines are faulty.
pub(crate) fn add_script(
    alloc: Global,
    json: &mut Writer<Global>,
    known: &Known<'_>,
    script: &[u8],
) -> Result<usize, AllocError>
    ensures adds { OnOk result (Adds (member_tokens (codes "script")
        (model.script_json known.now.state.now (answered_lines false script.now))) json.old json.new) }
    ensures faulty { IfOk result (λ faulty. faulty
        ≡ length (filter (is_faulty known.now.state.now.names) (answered_lines false script.now))) }
{
    json.key("script")?;
    json.begin_object()?;
    let counts = add_found(alloc, json, known, answered(script))?;
    add_number(json, "commands", counts.commands as u64)?;
    add_number(json, "faulty", counts.faulty as u64)?;
    json.end_object()?;
    Ok(counts.faulty)
}
