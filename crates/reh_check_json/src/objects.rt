// A picture that is checked, and a script on it, as one object.
ghost use Rattle.std.specs.Prelude.{◌≡◌, false, filter, length, OnOk, IfOk, string_bytes};
ghost use Rattle.json.specs.Tree.{json_tokens};
ghost use Rattle.reh_answer.specs.Objects.{Adds, IsLineOf};
ghost use Rattle.reh_lines.specs.Lines.{answered_lines};
ghost use Rattle.reh_lint.specs.Lints.{is_faulty};
ghost use Rattle.reh_check_json.specs.Objects as model;

use crate::counts::add_counts;
use crate::scripts::add_script;
use json::Writer;
use reh_answer::{add_null, text_in};
use reh_cluster::State;
use reh_lint::Known;
use reh_picture::Counts;
use std::alloc::{AllocError, Global};

/// Adds the object of a picture.
fn add_picture(json: &mut Writer<Global>, counts: &Counts) -> Result<(), AllocError>
    ensures { OnOk result (Adds (json_tokens (model.picture_value counts.now)) json.old json.new) }
{
    json.begin_object()?;
    add_counts(json, counts)?;
    add_null(json, "script")?;
    json.end_object()
}

/// How much a picture shows, as JSON: one object, on one line.
pub fn picture_json(alloc: Global, counts: &Counts) -> Result<String, AllocError>
    ensures text { IfOk result (λ text. string_bytes text ≡ model.picture_text counts.now) }
    ensures reads_back { IfOk result (λ text. IsLineOf (model.picture_value counts.now) (string_bytes text)) }
{
    let mut json = Writer::new(Vec::new(alloc));
    add_picture(&mut json, counts)?;
    let mut text = text_in(json)?;
    text.push_str("\n")?;
    Ok(text)
}

/// Adds the object of a picture and a script, and says how many of the script's lines are faulty.
fn add_checked(
    alloc: Global,
    json: &mut Writer<Global>,
    counts: &Counts,
    known: &Known<'_>,
    script: &[u8],
) -> Result<usize, AllocError>
    ensures adds { OnOk result (Adds (json_tokens (model.checked_value counts.now known.now.state.now
        (answered_lines false script.now))) json.old json.new) }
    ensures faulty { IfOk result (λ faulty. faulty
        ≡ length (filter (is_faulty known.now.state.now.names) (answered_lines false script.now))) }
{
    json.begin_object()?;
    add_counts(json, counts)?;
    let faulty = add_script(alloc, json, known, script)?;
    json.end_object()?;
    Ok(faulty)
}

/// What is found in a script, as text, and how many of its lines are faulty.
#[derive(Drop)]
pub struct CheckedScript {
    pub text: String,
    pub faulty: usize,
}

/// How much a picture shows, and what is found in a script on it, as JSON: one object, on one line. The picture is of this
/// state.
pub fn script_json(
    alloc: Global,
    counts: &Counts,
    state: &State,
    script: &[u8],
) -> Result<CheckedScript, AllocError>
    ensures text { IfOk result (λ checked. string_bytes checked.text
        ≡ model.checked_text counts.now state.now (answered_lines false script.now)) }
    ensures reads_back { IfOk result (λ checked. IsLineOf
        (model.checked_value counts.now state.now (answered_lines false script.now)) (string_bytes checked.text)) }
    ensures faulty { IfOk result (λ checked. checked.faulty
        ≡ length (filter (is_faulty state.now.names) (answered_lines false script.now))) }
{
    match Known::new(alloc, state) {
        Ok(known) => known_json(alloc, counts, &known, script),
        Err(want) => Err(want),
    }
}

/// The same by the names that are known.
fn known_json(
    alloc: Global,
    counts: &Counts,
    known: &Known<'_>,
    script: &[u8],
) -> Result<CheckedScript, AllocError>
    ensures text { IfOk result (λ checked. string_bytes checked.text
        ≡ model.checked_text counts.now known.now.state.now (answered_lines false script.now)) }
    ensures reads_back { IfOk result (λ checked. IsLineOf
        (model.checked_value counts.now known.now.state.now (answered_lines false script.now))
        (string_bytes checked.text)) }
    ensures faulty { IfOk result (λ checked. checked.faulty
        ≡ length (filter (is_faulty known.now.state.now.names) (answered_lines false script.now))) }
{
    let mut json = Writer::new(Vec::new(alloc));
    let faulty = add_checked(alloc, &mut json, counts, known, script)?;
    let mut text = text_in(json)?;
    text.push_str("\n")?;
    Ok(CheckedScript { text, faulty })
}
