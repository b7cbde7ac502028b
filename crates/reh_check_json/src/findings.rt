// A line of a script that is named, as an object.
ghost use Rattle.std.specs.Prelude.{◌≡◌, ◌∷◌, [], OnOk, codes, flat_map, map, string_bytes};
ghost use Rattle.std.specs.Option.{option_map_or};
ghost use Rattle.json.specs.Json.{string};
ghost use Rattle.json.specs.Tree.{json_tokens};
ghost use Rattle.reh_answer.specs.Objects.{Adds, list_json, member_tokens};
ghost use Rattle.reh_commands.specs.Texts.{line_fault_text};
ghost use Rattle.reh_lint.specs.Ledgers.{missing_ledger};
ghost use Rattle.reh_near.specs.Near.{told};
ghost use Rattle.reh_check_json.specs.Scripts as model;

use json::Writer;
use reh_answer::{add_null, add_number, add_text};
use reh_commands::{Command, LineFault};
use reh_lint::{Known, missing_ledger};
use reh_near::Near;
use std::alloc::{AllocError, Global};

/// The text of a fault.
fn fault_text(fault: LineFault) -> &'static str
    ensures { result.now ≡ line_fault_text fault }
{
    match fault {
        LineFault::TooLong => "too long",
        LineFault::UnknownCommand => "unknown command",
        LineFault::BadWords => "bad words",
        LineFault::UnknownName => "unknown name",
    }
}

/// Adds the one name that begins with the word, or null.
fn add_full_name(json: &mut Writer<Global>, near: &Near<'_>) -> Result<(), AllocError>
    ensures { OnOk result (Adds (member_tokens (codes "fullName") (model.full_json (told near.now))) json.old json.new) }
{
    match near {
        Near::Longer(name) => add_text(json, "fullName", name),
        Near::Nothing | Near::One(_) | Near::Two(..) | Near::Three(..) => {
            add_null(json, "fullName")
        }
    }
}

/// Adds the nearest names.
fn add_names(json: &mut Writer<Global>, near: &Near<'_>) -> Result<(), AllocError>
    ensures { OnOk result (Adds (flat_map (λ n. json_tokens (string n)) (model.nearest_of (told near.now))) json.old json.new) }
{
    match near {
        Near::Longer(_) | Near::Nothing => Ok(()),
        Near::One(one) => json.string(one),
        Near::Two(one, two) => {
            json.string(one)?;
            json.string(two)
        }
        Near::Three(one, two, three) => {
            json.string(one)?;
            json.string(two)?;
            json.string(three)
        }
    }
}

/// Adds the list of the nearest names.
fn add_near(json: &mut Writer<Global>, near: &Near<'_>) -> Result<(), AllocError>
    ensures { OnOk result (Adds (member_tokens (codes "near") (model.near_json (told near.now))) json.old json.new) }
{
    json.key("near")?;
    json.begin_array()?;
    add_names(json, near)?;
    json.end_array()
}

/// Adds the object of a line with this fault.
pub(crate) fn add_fault(
    alloc: Global,
    json: &mut Writer<Global>,
    known: &Known<'_>,
    number: usize,
    line: &[u8],
    fault: LineFault,
) -> Result<(), AllocError>
    ensures { OnOk result (Adds (json_tokens (model.fault_json known.now.state.now.names number line.now fault)) json.old json.new) }
{
    let near = known.near(alloc, line, fault)?;
    json.begin_object()?;
    add_number(json, "line", number as u64)?;
    add_text(json, "fault", fault_text(fault))?;
    add_full_name(json, &near)?;
    add_near(json, &near)?;
    json.end_object()
}

/// Adds the object of a line that asks for this command, if it names a ledger that isn't there.
pub(crate) fn add_missing(
    alloc: Global,
    json: &mut Writer<Global>,
    known: &Known<'_>,
    number: usize,
    command: &Command,
) -> Result<(), AllocError>
    ensures { OnOk result (Adds (flat_map json_tokens (option_map_or
        (λ ledger. model.missing_json known.now.state.now number ledger ∷ [])
        (missing_ledger known.now.state.now command.now) [])) json.old json.new) }
{
    match missing_ledger(known.state, command) {
        Some(ledger) => add_absent(alloc, json, known, number, ledger.0),
        None => Ok(()),
    }
}

/// Adds the object of a line that names this ledger, which isn't there.
fn add_absent(
    alloc: Global,
    json: &mut Writer<Global>,
    known: &Known<'_>,
    number: usize,
    ledger: u64,
) -> Result<(), AllocError>
    ensures { OnOk result (Adds (json_tokens (model.missing_json known.now.state.now number ledger)) json.old json.new) }
{
    let near = known.near_ids(alloc, ledger)?;
    json.begin_object()?;
    add_number(json, "line", number as u64)?;
    add_number(json, "missingLedger", ledger)?;
    add_ids(json, &near)?;
    json.end_object()
}

/// Adds the list of the ids that are near.
fn add_ids(json: &mut Writer<Global>, ids: &[String]) -> Result<(), AllocError>
    ensures { OnOk result (Adds (member_tokens (codes "near") (list_json (map string (map string_bytes ids.now)))) json.old json.new) }
{
    json.key("near")?;
    json.begin_array()?;
    add_texts(json, ids)?;
    json.end_array()
}

/// Adds texts.
fn add_texts(json: &mut Writer<Global>, texts: &[String]) -> Result<(), AllocError>
    ensures { OnOk result (Adds (flat_map (λ n. json_tokens (string n)) (map string_bytes texts.now)) json.old json.new) }
{
    for text in texts {
        json.string(text.as_str())?;
    }
    Ok(())
}
