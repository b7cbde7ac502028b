// The ledgers of a picture, as JSON.
ghost use Rattle.std.specs.Prelude.{◌≡◌, map, IfOk};
ghost use Rattle.serde_json.specs.Data.{number};
ghost use Rattle.serde_json.specs.View.{view, items_view};
ghost use Rattle.reh_picture_out.specs.Written.{members_data, fragment_data, fragments_data, last_number};
ghost use Rattle.reh_picture_out.specs.Written.{last_data, state_text, metadata_data, ledger_data, ledgers_data};

use crate::bookies::name_of;
use reh_cluster::{Ledger, Names};
use reh_meta::{Fragment, LedgerMeta};
use reh_types::{BookieIx, LedgerId, LedgerState};
use serde_json::{Map, Value, json, put};
use std::alloc::{AllocError, Global};

/// The names of an ensemble's members.
fn member_values(
    alloc: Global,
    names: &Names,
    members: &[BookieIx],
) -> Result<Vec<Value>, AllocError>
    ensures { IfOk result (λ values. map view values.items ≡ members_data names.now members.now) }
{
    let mut values = Vec::new(alloc);
    for member in members {
        values.push(Value::try_from_str(alloc, name_of(names, *member))?)?;
    }
    Ok(values)
}

/// A fragment.
fn fragment_value(alloc: Global, names: &Names, fragment: &Fragment) -> Result<Value, AllocError>
    ensures { IfOk result (λ v. view v ≡ fragment_data names.now fragment.now) }
{
    let members = member_values(alloc, names, &fragment.ensemble)?;
    json!(in alloc; {"ensemble": members, "firstEntry": fragment.first})
}

/// The fragments of a ledger.
fn fragment_values(
    alloc: Global,
    names: &Names,
    fragments: &[Fragment],
) -> Result<Vec<Value>, AllocError>
    ensures { IfOk result (λ values. map view values.items ≡ fragments_data names.now fragments.now) }
{
    let mut values = Vec::new(alloc);
    for fragment in fragments {
        values.push(fragment_value(alloc, names, fragment)?)?;
    }
    Ok(values)
}

/// The last entry id of a ledger that ends there, one less; -1 where it has no entry.
fn value_before(end: u32) -> Value
    ensures { view result ≡ number (last_number end) }
{
    if end == 0 {
        Value::from(-1i64)
    } else {
        Value::from(end - 1)
    }
}

/// The last entry id of a ledger, -1 unless it is closed.
fn last_value(state: LedgerState) -> Value
    ensures { view result ≡ last_data state }
{
    match state {
        LedgerState::Open => Value::from(-1i64),
        LedgerState::InRecovery => Value::from(-1i64),
        LedgerState::Closed { end } => value_before(end),
    }
}

/// What a picture calls the state of a ledger.
fn state_name(state: LedgerState) -> &'static str
    ensures { result.now ≡ state_text state }
{
    match state {
        LedgerState::Open => "OPEN",
        LedgerState::InRecovery => "IN_RECOVERY",
        LedgerState::Closed { .. } => "CLOSED",
    }
}

/// A ledger.
fn ledger_value(alloc: Global, names: &Names, ledger: &Ledger) -> Result<Value, AllocError>
    ensures { IfOk result (λ v. view v ≡ ledger_data names.now ledger.now) }
{
    let metadata = ledger.metadata();
    let fragments = fragment_values(alloc, names, metadata.fragments())?;
    metadata_value(alloc, ledger.id(), metadata, fragments)
}

/// A ledger with these fragments.
fn metadata_value(
    alloc: Global,
    id: LedgerId,
    metadata: &LedgerMeta,
    fragments: Vec<Value>,
) -> Result<Value, AllocError>
    ensures { IfOk result (λ v. view v ≡ metadata_data id metadata.now (items_view fragments.items)) }
{
    let mut fields = Map::new(alloc);
    put(&mut fields, alloc, "fragments", Value::Array(fragments))?;
    let state = Value::try_from_str(alloc, state_name(metadata.state()))?;
    put(&mut fields, alloc, "state", state)?;
    put(
        &mut fields,
        alloc,
        "lastEntryId",
        last_value(metadata.state()),
    )?;
    put(&mut fields, alloc, "id", Value::from(id.0))?;
    put(
        &mut fields,
        alloc,
        "ensembleSize",
        Value::from(metadata.size()),
    )?;
    put(
        &mut fields,
        alloc,
        "writeQuorumSize",
        Value::from(metadata.write_quorum()),
    )?;
    put(
        &mut fields,
        alloc,
        "ackQuorumSize",
        Value::from(metadata.ack_quorum()),
    )?;
    put(
        &mut fields,
        alloc,
        "version",
        Value::from(metadata.version()),
    )?;
    Ok(Value::Object(fields))
}

/// The ledgers.
pub(crate) fn ledger_values(
    alloc: Global,
    names: &Names,
    ledgers: &[Ledger],
) -> Result<Vec<Value>, AllocError>
    ensures { IfOk result (λ values. map view values.items ≡ ledgers_data names.now ledgers.now) }
{
    let mut values = Vec::new(alloc);
    for ledger in ledgers {
        values.push(ledger_value(alloc, names, ledger)?)?;
    }
    Ok(values)
}
