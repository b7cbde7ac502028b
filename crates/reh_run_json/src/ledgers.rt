// A ledger of a report as JSON.
ghost use Rattle.std.specs.Prelude.{OnOk, codes, flat_map, slice_get};
ghost use Rattle.std.specs.List.{enumerate_from};
ghost use Rattle.std.specs.Option.{option_copied};
ghost use Rattle.json.specs.Tree.{json_tokens};
ghost use Rattle.reh_answer.specs.Objects.{Adds, member_tokens};
ghost use Rattle.reh_run_json.specs.Reports as reports;

use crate::fragments::fragment_at;
use crate::values::{add_ensemble, add_entry, add_id, add_last, add_lock, add_state, add_task};
use json::Writer;
use reh_answer::add_number;
use reh_cluster::{Ledger, Names};
use reh_meta::{Fragment, LedgerMeta};
use reh_types::{BookieIx, BookieSet, LedgerId, LedgerState, Lock};
use std::alloc::{AllocError, Global};

/// Adds a ledger.
pub(crate) fn add_ledger_object(
    json: &mut Writer<Global>,
    names: &Names,
    ledger: &Ledger,
) -> Result<(), AllocError>
    ensures { OnOk result (Adds (json_tokens (reports.ledger_json names.now ledger.now)) json.old json.new) }
{
    let metadata = ledger.metadata();
    add_parts(
        json,
        names,
        ledger.id(),
        metadata,
        ledger.task(),
        ledger.lock(),
    )
}

/// Adds a ledger of this id, with its metadata, its task and the task's lock.
fn add_parts(
    json: &mut Writer<Global>,
    names: &Names,
    id: LedgerId,
    metadata: &LedgerMeta,
    task: Option<&BookieSet>,
    lock: Option<Lock>,
) -> Result<(), AllocError>
    ensures { OnOk result (Adds (json_tokens (reports.parts_json names.now id metadata.now (option_copied task.entry)
        lock)) json.old json.new) }
{
    json.begin_object()?;
    add_standing(json, id, metadata)?;
    add_sizes(json, metadata)?;
    add_fragments(json, names, metadata)?;
    add_task(json, "task", names, task)?;
    add_lock(json, "lock", names, lock)?;
    json.end_object()
}

/// Adds a ledger's id and, of its metadata, its state, its version and its last entry id.
fn add_standing(
    json: &mut Writer<Global>,
    id: LedgerId,
    metadata: &LedgerMeta,
) -> Result<(), AllocError>
    ensures { OnOk result (Adds (reports.standing_of id metadata.now) json.old json.new) }
{
    add_state_of(json, id, metadata.state(), metadata.version())
}

/// Adds a ledger's id, its state, its version and its last entry id.
fn add_state_of(
    json: &mut Writer<Global>,
    id: LedgerId,
    state: LedgerState,
    version: u64,
) -> Result<(), AllocError>
    ensures { OnOk result (Adds (reports.state_tokens id state version) json.old json.new) }
{
    add_id(json, "id", id)?;
    add_state(json, "state", state)?;
    add_number(json, "version", version)?;
    add_last(json, "lastEntryId", state)
}

/// Adds the ensemble size and the quorum sizes.
fn add_sizes(json: &mut Writer<Global>, metadata: &LedgerMeta) -> Result<(), AllocError>
    ensures { OnOk result (Adds (reports.sizes_of metadata.now) json.old json.new) }
{
    add_three_sizes(
        json,
        metadata.size(),
        metadata.write_quorum(),
        metadata.ack_quorum(),
    )
}

/// Adds these sizes.
fn add_three_sizes(
    json: &mut Writer<Global>,
    size: u32,
    write_quorum: u32,
    ack_quorum: u32,
) -> Result<(), AllocError>
    ensures { OnOk result (Adds (reports.sizes_tokens size write_quorum ack_quorum) json.old json.new) }
{
    add_number(json, "ensembleSize", size as u64)?;
    add_number(json, "writeQuorumSize", write_quorum as u64)?;
    add_number(json, "ackQuorumSize", ack_quorum as u64)
}

/// Adds the list of a ledger's fragments.
fn add_fragments(
    json: &mut Writer<Global>,
    names: &Names,
    metadata: &LedgerMeta,
) -> Result<(), AllocError>
    ensures { OnOk result (Adds (member_tokens (codes "fragments") (reports.fragments_json names.now metadata.now))
        json.old json.new) }
{
    json.key("fragments")?;
    json.begin_array()?;
    add_each_fragment(json, names, metadata)?;
    json.end_array()
}

/// Adds a ledger's fragments.
fn add_each_fragment(
    json: &mut Writer<Global>,
    names: &Names,
    metadata: &LedgerMeta,
) -> Result<(), AllocError>
    ensures { OnOk result (Adds (flat_map (λ place. json_tokens
        (reports.fragment_json names.now metadata.now place.0 place.1))
        (enumerate_from 0 metadata.now.fragments)) json.old json.new) }
{
    for f in 0..metadata.fragments().len() {
        add_fragment_at(json, names, metadata, f)?;
    }
    Ok(())
}

/// Adds the fragment of that number, if there is one.
fn add_fragment_at(
    json: &mut Writer<Global>,
    names: &Names,
    metadata: &LedgerMeta,
    number: usize,
) -> Result<(), AllocError>
    ensures { OnOk result (Adds (reports.fragment_at names.now metadata.now number
        (slice_get metadata.now.fragments number)) json.old json.new) }
{
    let fragment = fragment_at(metadata.fragments(), number);
    add_found(json, names, metadata, number, fragment)
}

/// Adds the fragment of that number, if this is one.
fn add_found(
    json: &mut Writer<Global>,
    names: &Names,
    metadata: &LedgerMeta,
    number: usize,
    fragment: Option<&Fragment>,
) -> Result<(), AllocError>
    ensures { OnOk result (Adds (reports.fragment_at names.now metadata.now number (option_copied fragment.entry))
        json.old json.new) }
{
    match fragment {
        Some(fragment) => add_fragment(json, names, fragment, metadata.end_of(number)),
        None => Ok(()),
    }
}

/// Adds a fragment, and where it stops.
fn add_fragment(
    json: &mut Writer<Global>,
    names: &Names,
    fragment: &Fragment,
    stop: Option<u32>,
) -> Result<(), AllocError>
    ensures { OnOk result (Adds (json_tokens (reports.stopped_json names.now fragment.now.first stop
        fragment.now.ensemble)) json.old json.new) }
{
    add_stopped(json, names, fragment.first, stop, &fragment.ensemble)
}

/// Adds a fragment's first entry, where it stops, and its ensemble.
fn add_stopped(
    json: &mut Writer<Global>,
    names: &Names,
    first: u32,
    stop: Option<u32>,
    ensemble: &[BookieIx],
) -> Result<(), AllocError>
    ensures { OnOk result (Adds (json_tokens (reports.stopped_json names.now first stop ensemble.now))
        json.old json.new) }
{
    json.begin_object()?;
    add_number(json, "firstEntry", first as u64)?;
    add_entry(json, "stop", stop)?;
    add_ensemble(json, "ensemble", names, ensemble)?;
    json.end_object()
}
