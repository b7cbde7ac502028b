// What changed in a ledger's metadata.
ghost use Rattle.std.specs.Prelude.{◌≡◌, ◌∷◌, OnOk, codes};
ghost use Rattle.json.specs.Json.{string};
ghost use Rattle.json.specs.Token as token;
ghost use Rattle.json.specs.Tree.{json_tokens};
ghost use Rattle.reh_answer.specs.Objects.{Adds, member_tokens};
ghost use Rattle.reh_changes.specs.Changes as texts;
ghost use Rattle.reh_run_json.specs.Changes as changes;
ghost use Rattle.reh_run_json.specs.Values as values;
ghost use Rattle.reh_run_json.specs.Values.{tokens_of};

use crate::fragments::add_fragments;
use crate::values::{add_id, add_last, add_state};
use json::Writer;
use reh_answer::{add_number, add_text};
use reh_cluster::{Ledger, Names};
use reh_meta::LedgerMeta;
use reh_types::{LedgerId, LedgerState};
use std::alloc::{AllocError, Global};

/// Begins the object of a change with what has changed.
pub(crate) fn begin_change(json: &mut Writer<Global>, what: &str) -> Result<(), AllocError>
    ensures { OnOk result (Adds (token.begin_object ∷ member_tokens (codes "what") (string what.now))
        json.old json.new) }
{
    json.begin_object()?;
    add_text(json, "what", what)
}

/// Adds the changes of a ledger's metadata, where it was this one: of its version, its state and its fragments.
pub(crate) fn add_metadata(
    json: &mut Writer<Global>,
    names: &Names,
    ledger: &Ledger,
    was: &LedgerMeta,
) -> Result<(), AllocError>
    ensures { OnOk result (Adds (tokens_of
        (changes.metadata_changes names.now ledger.now.id was.now ledger.now.metadata)) json.old json.new) }
{
    let id = ledger.id();
    let now = ledger.metadata();
    add_version(json, id, was.version(), now.version())?;
    add_states(json, id, was.state(), now.state())?;
    add_fragments(json, names, id, was.fragments(), now.fragments())
}

/// Adds the change of a version, if it changed.
fn add_version(
    json: &mut Writer<Global>,
    id: LedgerId,
    was: u64,
    now: u64,
) -> Result<(), AllocError>
    ensures { OnOk result (Adds (tokens_of (changes.version_changes id was now)) json.old json.new) }
{
    if was == now {
        return Ok(());
    }
    add_raised(json, id, was, now)
}

/// Adds the change of a version.
fn add_raised(json: &mut Writer<Global>, id: LedgerId, was: u64, now: u64) -> Result<(), AllocError>
    ensures { OnOk result (Adds (json_tokens (changes.version_change id was now)) json.old json.new) }
{
    begin_change(json, "version")?;
    add_id(json, "ledger", id)?;
    add_number(json, "was", was)?;
    add_number(json, "now", now)?;
    json.end_object()
}

/// Adds the changes of a state and, of a ledger that was or is CLOSED, of the last entry id, if the state changed.
fn add_states(
    json: &mut Writer<Global>,
    id: LedgerId,
    was: LedgerState,
    now: LedgerState,
) -> Result<(), AllocError>
    ensures { OnOk result (Adds (tokens_of (changes.state_changes id was now)) json.old json.new) }
{
    if is_same_state(was, now) {
        return Ok(());
    }
    add_moved(json, id, was, now)
}

/// Adds the changes of a state and, of a ledger that was or is CLOSED, of the last entry id.
fn add_moved(
    json: &mut Writer<Global>,
    id: LedgerId,
    was: LedgerState,
    now: LedgerState,
) -> Result<(), AllocError>
    ensures { OnOk result (Adds (tokens_of (changes.state_change id was now ∷ changes.last_changes id was now))
        json.old json.new) }
{
    add_words(json, id, was, now)?;
    add_ends(json, id, was, now)
}

/// Whether both are the same state.
fn is_same_state(was: LedgerState, now: LedgerState) -> bool
    ensures { result ≡ texts.is_same_state was now }
{
    match (was, now) {
        (LedgerState::Open, LedgerState::Open) => true,
        (LedgerState::InRecovery, LedgerState::InRecovery) => true,
        (LedgerState::Closed { end: was }, LedgerState::Closed { end: now }) => was == now,
        _ => false,
    }
}

/// Adds the change of a state.
fn add_words(
    json: &mut Writer<Global>,
    id: LedgerId,
    was: LedgerState,
    now: LedgerState,
) -> Result<(), AllocError>
    ensures { OnOk result (Adds (json_tokens (changes.state_change id was now)) json.old json.new) }
{
    begin_change(json, "state")?;
    add_id(json, "ledger", id)?;
    add_state(json, "was", was)?;
    add_state(json, "now", now)?;
    json.end_object()
}

/// Adds the change of the last entry id, if the ledger was or is CLOSED.
fn add_ends(
    json: &mut Writer<Global>,
    id: LedgerId,
    was: LedgerState,
    now: LedgerState,
) -> Result<(), AllocError>
    ensures { OnOk result (Adds (tokens_of (changes.last_changes id was now)) json.old json.new) }
{
    if is_closed(was) || is_closed(now) {
        return add_both_ends(json, id, was, now);
    }
    Ok(())
}

/// Whether a state is CLOSED.
fn is_closed(state: LedgerState) -> bool
    ensures { result ≡ values.is_closed state }
{
    matches!(state, LedgerState::Closed { .. })
}

/// Adds the change of a last entry id.
fn add_both_ends(
    json: &mut Writer<Global>,
    id: LedgerId,
    was: LedgerState,
    now: LedgerState,
) -> Result<(), AllocError>
    ensures { OnOk result (Adds (json_tokens (changes.last_change id was now)) json.old json.new) }
{
    begin_change(json, "lastEntryId")?;
    add_id(json, "ledger", id)?;
    add_last(json, "was", was)?;
    add_last(json, "now", now)?;
    json.end_object()
}
