// The lines that are answered in a run.
ghost use Rattle.std.specs.Prelude.{◌≡◌, ◌++◌, OnOk, All, string_bytes};
ghost use Rattle.std.specs.Option.{option_copied};
ghost use Rattle.json.specs.Json.{string};
ghost use Rattle.json.specs.Tree.{json_tokens};
ghost use Rattle.reh_model.specs.Places.{IsThere};
ghost use Rattle.reh_answer.specs.Objects.{Adds};
ghost use Rattle.reh_run_json.specs.Lines.{IsLineAdded, line_json, line_text};
ghost use Rattle.reh_run_json.specs.Values.{or_null};

use crate::answers::add_answer;
use crate::places::add_list;
use json::Writer;
use reh_answer::{add_number, text_in};
use reh_cluster::State;
use reh_meta::LedgerMeta;
use reh_play::LineAnswer;
use reh_types::Change;
use std::alloc::{AllocError, Global};

/// Adds the command that a line asks for, or null where it asks for none.
fn add_command(json: &mut Writer<Global>, command: Option<&str>) -> Result<(), AllocError>
    ensures { OnOk result (Adds (json_tokens (or_null string (option_copied command.entry))) json.old json.new) }
{
    match command {
        Some(command) => json.string(command),
        None => json.null(),
    }
}

/// Adds the object of an answered line.
fn add_line(
    json: &mut Writer<Global>,
    state: &State,
    number: usize,
    command: Option<&str>,
    answer: &LineAnswer,
    changes: &[Change<LedgerMeta>],
) -> Result<(), AllocError>
    requires { All (IsThere state.now) changes.now }
    ensures { OnOk result (Adds (json_tokens (line_json state.now.names number (option_copied command.entry) state.now
        answer.now changes.now)) json.old json.new) }
{
    json.begin_object()?;
    add_number(json, "line", number as u64)?;
    json.key("command")?;
    add_command(json, command)?;
    add_answer(json, state, answer)?;
    add_list(json, state, changes)?;
    json.end_object()
}

/// Adds the object of an answered line, and an LF: its number, its command, the answer, and what it changed. The state is
/// the one after the line. Where nothing changed the list of changes is empty.
pub fn push_line(
    alloc: Global,
    text: &mut String,
    state: &State,
    number: usize,
    command: Option<&str>,
    answer: &LineAnswer,
    changes: &[Change<LedgerMeta>],
) -> Result<(), AllocError>
    requires { All (IsThere state.now) changes.now }
    ensures text { OnOk result (string_bytes text.new ≡ string_bytes text.old
        ++ line_text state.now.names number (option_copied command.entry) state.now answer.now changes.now) }
    ensures reads_back { OnOk result (IsLineAdded (line_json state.now.names number (option_copied command.entry)
        state.now answer.now changes.now) (string_bytes text.old) (string_bytes text.new)) }
{
    let mut json = Writer::new(Vec::new(alloc));
    add_line(&mut json, state, number, command, answer, changes)?;
    let object = text_in(json)?;
    write!(text, "{object}\n")
}
