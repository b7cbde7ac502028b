// What a record of changes leads back to, and what is there now.
ghost use Rattle.std.specs.Prelude.{◌∷◌, [], OnOk, All, codes, flat_map, is_none};
ghost use Rattle.std.specs.Option.{option_copied};
ghost use Rattle.json.specs.Tree.{json_tokens};
ghost use Rattle.reh_model.specs.Cluster.{is_up, lost_tick};
ghost use Rattle.reh_model.specs.Places.{IsThere};
ghost use Rattle.reh_answer.specs.Objects.{Adds, member_tokens};
ghost use Rattle.reh_run_json.specs.Changes as objects;
ghost use Rattle.reh_run_json.specs.Values as values;
ghost use Rattle.reh_run_json.specs.Values.{tokens_of};

use crate::metadata::{add_metadata, begin_change};
use crate::values::{add_id, add_lock, add_named, add_registration, add_task};
use crate::words::add_word;
use json::Writer;
use reh_answer::add_number;
use reh_cluster::{Changes, Ledger, Names, State};
use reh_meta::LedgerMeta;
use reh_types::{BookieIx, BookieSet, Change, LedgerId, Lock, Scalar};
use std::alloc::{AllocError, Global};

/// Adds the list of changes that lead back from this state.
pub(crate) fn add_list(
    json: &mut Writer<Global>,
    state: &State,
    list: &[Change<LedgerMeta>],
) -> Result<(), AllocError>
    requires { All (IsThere state.now) list.now }
    ensures { OnOk result (Adds (member_tokens (codes "changes") (objects.changes_json state.now list.now))
        json.old json.new) }
{
    json.key("changes")?;
    json.begin_array()?;
    add_each_change(json, state, list)?;
    json.end_array()
}

/// Adds the changes in a list.
fn add_each_change(
    json: &mut Writer<Global>,
    state: &State,
    list: &[Change<LedgerMeta>],
) -> Result<(), AllocError>
    requires { All (IsThere state.now) list.now }
    ensures { OnOk result (Adds (flat_map (λ c. tokens_of (objects.change_objects state.now c)) list.now)
        json.old json.new) }
{
    for change in list {
        add_change(json, state, change)?;
    }
    Ok(())
}

/// Adds what changed by a change that holds what was at its place.
fn add_change(
    json: &mut Writer<Global>,
    state: &State,
    change: &Change<LedgerMeta>,
) -> Result<(), AllocError>
    requires { IsThere state.now change.now }
    ensures { OnOk result (Adds (tokens_of (objects.change_objects state.now change.now)) json.old json.new) }
{
    match change {
        Change::Registration { bookie, lost_at } => {
            add_registrations(json, state, *bookie, *lost_at)
        }
        Change::Metadata { place, metadata } => match state.ledgers().get(*place) {
            Some(ledger) => add_metadata(json, state.names(), ledger, metadata),
            None => Ok(()),
        },
        Change::Task { place, task } => match state.ledgers().get(*place) {
            Some(ledger) => add_task_of(json, state.names(), ledger, task.as_ref()),
            None => Ok(()),
        },
        Change::Lock { place, lock } => match state.ledgers().get(*place) {
            Some(ledger) => add_lock_of(json, state.names(), ledger, *lock),
            None => Ok(()),
        },
        Change::Word {
            bookie,
            ledger,
            number,
            bits,
        } => add_word(json, state, *bookie, *ledger, *number, *bits),
        Change::Scalar(scalar) => add_scalar(json, state, *scalar),
    }
}

/// Adds the change of a bookie's registration, where it was lost at that tick, or was registered.
fn add_registrations(
    json: &mut Writer<Global>,
    state: &State,
    bookie: BookieIx,
    lost_at: Option<u64>,
) -> Result<(), AllocError>
    ensures { OnOk result (Adds (json_tokens (objects.registration_change state.now bookie lost_at))
        json.old json.new) }
{
    begin_change(json, "registration")?;
    add_named(json, "bookie", state.names(), bookie)?;
    add_registration_before(json, "was", lost_at)?;
    add_registration_now(json, "now", state, bookie)?;
    json.end_object()
}

/// Adds under a name the registration of a bookie that was lost at that tick, or was registered.
fn add_registration_before(
    json: &mut Writer<Global>,
    name: &str,
    lost_at: Option<u64>,
) -> Result<(), AllocError>
    ensures { OnOk result (Adds (member_tokens name.now (values.registration_json (is_none lost_at) lost_at))
        json.old json.new) }
{
    add_registration(json, name, lost_at.is_none(), lost_at)
}

/// Adds a bookie's registration now under a name.
fn add_registration_now(
    json: &mut Writer<Global>,
    name: &str,
    state: &State,
    bookie: BookieIx,
) -> Result<(), AllocError>
    ensures { OnOk result (Adds (member_tokens name.now (values.registration_json (is_up state.now bookie)
        (lost_tick state.now bookie))) json.old json.new) }
{
    add_registration(json, name, state.is_up(bookie), state.lost_tick(bookie))
}

/// Adds the change of a ledger's task, where it was this one.
fn add_task_of(
    json: &mut Writer<Global>,
    names: &Names,
    ledger: &Ledger,
    was: Option<&BookieSet>,
) -> Result<(), AllocError>
    ensures { OnOk result (Adds (tokens_of (objects.task_change names.now ledger.now.id (option_copied was.entry)
        ledger.now.task ∷ [])) json.old json.new) }
{
    add_tasks(json, names, ledger.id(), was, ledger.task())
}

/// Adds the change of a ledger's task.
fn add_tasks(
    json: &mut Writer<Global>,
    names: &Names,
    id: LedgerId,
    was: Option<&BookieSet>,
    now: Option<&BookieSet>,
) -> Result<(), AllocError>
    ensures { OnOk result (Adds (json_tokens (objects.task_change names.now id (option_copied was.entry)
        (option_copied now.entry))) json.old json.new) }
{
    begin_change(json, "task")?;
    add_id(json, "ledger", id)?;
    add_task(json, "was", names, was)?;
    add_task(json, "now", names, now)?;
    json.end_object()
}

/// Adds the change of a lock, where it was this one.
fn add_lock_of(
    json: &mut Writer<Global>,
    names: &Names,
    ledger: &Ledger,
    was: Option<Lock>,
) -> Result<(), AllocError>
    ensures { OnOk result (Adds (tokens_of (objects.lock_change names.now ledger.now.id was ledger.now.lock ∷ []))
        json.old json.new) }
{
    add_locks(json, names, ledger.id(), was, ledger.lock())
}

/// Adds the change of a lock.
fn add_locks(
    json: &mut Writer<Global>,
    names: &Names,
    id: LedgerId,
    was: Option<Lock>,
    now: Option<Lock>,
) -> Result<(), AllocError>
    ensures { OnOk result (Adds (json_tokens (objects.lock_change names.now id was now)) json.old json.new) }
{
    begin_change(json, "lock")?;
    add_id(json, "ledger", id)?;
    add_lock(json, "was", names, was)?;
    add_lock(json, "now", names, now)?;
    json.end_object()
}

/// Adds the change of a part that is a single value, where it was this one.
fn add_scalar(json: &mut Writer<Global>, state: &State, was: Scalar) -> Result<(), AllocError>
    ensures { OnOk result (Adds (json_tokens (objects.scalar_change state.now.parts.scalars was))
        json.old json.new) }
{
    match was {
        Scalar::Clock(was) => add_clock(json, was, state.clock()),
        Scalar::Enabled(was) => add_enabled(json, was, state.is_enabled()),
    }
}

/// Adds the change of the clock.
fn add_clock(json: &mut Writer<Global>, was: u64, now: u64) -> Result<(), AllocError>
    ensures { OnOk result (Adds (json_tokens (objects.clock_change was now)) json.old json.new) }
{
    begin_change(json, "clock")?;
    add_number(json, "was", was)?;
    add_number(json, "now", now)?;
    json.end_object()
}

/// Adds that AutoRecovery was disabled or enabled.
fn add_enabled(json: &mut Writer<Global>, was: bool, now: bool) -> Result<(), AllocError>
    ensures { OnOk result (Adds (json_tokens (objects.enabled_change was now)) json.old json.new) }
{
    begin_change(json, "autorecovery")?;
    json.key("was")?;
    json.boolean(was)?;
    json.key("now")?;
    json.boolean(now)?;
    json.end_object()
}
