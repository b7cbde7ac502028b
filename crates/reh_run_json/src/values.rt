// Values of a rehearsal as JSON.
ghost use Rattle.std.specs.Prelude.{◌<◌, ◌∷◌, [], OnOk, flat_map, if◌then◌else◌, map};
ghost use Rattle.std.specs.Option.{option_copied};
ghost use Rattle.json.specs.Json.{string};
ghost use Rattle.json.specs.Token as token;
ghost use Rattle.json.specs.Tree.{json_tokens};
ghost use Rattle.reh_types.specs.Sets as set;
ghost use Rattle.reh_answer.specs.Objects.{Adds, member_tokens, number_json};
ghost use Rattle.reh_commands.specs.Texts.{name_of, names_in};
ghost use Rattle.reh_run_json.specs.Values as values;
ghost use Rattle.reh_run_json.specs.Values.{tokens_of};

use json::Writer;
use reh_answer::{add_null, add_number, add_text};
use reh_cluster::Names;
use reh_commands::state_word;
use reh_types::{BookieIx, BookieSet, LedgerId, LedgerState, Lock, MAX_BOOKIES};
use std::alloc::{AllocError, Global};

/// Adds a number under a name, or null where there is none.
pub(crate) fn add_count(
    json: &mut Writer<Global>,
    name: &str,
    number: Option<u64>,
) -> Result<(), AllocError>
    ensures { OnOk result (Adds (member_tokens name.now (values.or_null number_json number)) json.old json.new) }
{
    match number {
        Some(number) => add_number(json, name, number),
        None => add_null(json, name),
    }
}

/// Adds an entry or a count of entries under a name, or null where there is none.
pub(crate) fn add_entry(
    json: &mut Writer<Global>,
    name: &str,
    entry: Option<u32>,
) -> Result<(), AllocError>
    ensures { OnOk result (Adds (member_tokens name.now (values.or_null number_json entry)) json.old json.new) }
{
    match entry {
        Some(entry) => add_number(json, name, entry as u64),
        None => add_null(json, name),
    }
}

/// Adds a ledger's id under a name.
pub(crate) fn add_id(json: &mut Writer<Global>, name: &str, id: LedgerId) -> Result<(), AllocError>
    ensures { OnOk result (Adds (member_tokens name.now (number_json id)) json.old json.new) }
{
    add_number(json, name, id.0)
}

/// Adds a bookie's name, or its number where the names have none for it.
pub(crate) fn add_name(
    json: &mut Writer<Global>,
    names: &Names,
    bookie: BookieIx,
) -> Result<(), AllocError>
    ensures { OnOk result (Adds (json_tokens (values.name_json names.now bookie)) json.old json.new) }
{
    match names.name(bookie) {
        Some(name) => json.string(name),
        None => json.quoted_u64(bookie.0 as u64),
    }
}

/// Adds it under a key.
pub(crate) fn add_named(
    json: &mut Writer<Global>,
    key: &str,
    names: &Names,
    bookie: BookieIx,
) -> Result<(), AllocError>
    ensures { OnOk result (Adds (member_tokens key.now (values.name_json names.now bookie)) json.old json.new) }
{
    json.key(key)?;
    add_name(json, names, bookie)
}

/// Adds whether a bookie is registered, and the tick at which it was lost, or null while it is registered.
pub(crate) fn add_registration_members(
    json: &mut Writer<Global>,
    up: bool,
    lost: Option<u64>,
) -> Result<(), AllocError>
    ensures { OnOk result (Adds (values.registration_tokens up lost) json.old json.new) }
{
    json.key("up")?;
    json.boolean(up)?;
    add_count(json, "lostAt", lost)
}

/// Adds both as an object under a name.
pub(crate) fn add_registration(
    json: &mut Writer<Global>,
    name: &str,
    up: bool,
    lost: Option<u64>,
) -> Result<(), AllocError>
    ensures { OnOk result (Adds (member_tokens name.now (values.registration_json up lost)) json.old json.new) }
{
    json.key(name)?;
    json.begin_object()?;
    add_registration_members(json, up, lost)?;
    json.end_object()
}

/// Adds the names of these bookies.
fn add_each_name(
    json: &mut Writer<Global>,
    names: &Names,
    bookies: &[BookieIx],
) -> Result<(), AllocError>
    ensures { OnOk result (Adds (flat_map (λ b. json_tokens
        (values.name_json names.now b)) bookies.now) json.old json.new) }
{
    for bookie in bookies {
        add_name(json, names, *bookie)?;
    }
    Ok(())
}

/// Adds the list of the names of an ensemble under a name.
pub(crate) fn add_ensemble(
    json: &mut Writer<Global>,
    name: &str,
    names: &Names,
    ensemble: &[BookieIx],
) -> Result<(), AllocError>
    ensures { OnOk result (Adds (member_tokens name.now (values.ensemble_json names.now ensemble.now)) json.old json.new) }
{
    json.key(name)?;
    json.begin_array()?;
    add_each_name(json, names, ensemble)?;
    json.end_array()
}

/// Adds a ledger's state under a name.
pub(crate) fn add_state(
    json: &mut Writer<Global>,
    name: &str,
    state: LedgerState,
) -> Result<(), AllocError>
    ensures { OnOk result (Adds (member_tokens name.now (values.state_json state)) json.old json.new) }
{
    add_text(json, name, state_word(state))
}

/// Adds a ledger's last entry id under a name, or null where it isn't closed.
pub(crate) fn add_last(
    json: &mut Writer<Global>,
    name: &str,
    state: LedgerState,
) -> Result<(), AllocError>
    ensures { OnOk result (Adds (member_tokens name.now (values.last_json state)) json.old json.new) }
{
    match state {
        LedgerState::Open | LedgerState::InRecovery => add_null(json, name),
        LedgerState::Closed { end: 0 } => {
            json.key(name)?;
            json.number("-1")
        }
        LedgerState::Closed { end } => add_number(json, name, (end - 1) as u64),
    }
}

/// Adds the name of the i-th bookie, if it is in the set.
fn add_member(
    json: &mut Writer<Global>,
    names: &Names,
    bookies: &BookieSet,
    i: usize,
) -> Result<(), AllocError>
    requires { i < MAX_BOOKIES }
    ensures { OnOk result (Adds (if set.contains bookies.now i then token.string (name_of names.now i)
        ∷ [] else []) json.old json.new) }
{
    let bookie = BookieIx(i as u8);
    if bookies.contains(bookie) {
        add_name(json, names, bookie)?;
    }
    Ok(())
}

/// Adds the names of a set's bookies in picture order.
fn add_each_member(
    json: &mut Writer<Global>,
    names: &Names,
    bookies: &BookieSet,
) -> Result<(), AllocError>
    ensures { OnOk result (Adds (tokens_of (map string (names_in names.now bookies.now))) json.old json.new) }
{
    for i in 0..names.len() {
        add_member(json, names, bookies, i)?;
    }
    Ok(())
}

/// Adds the list of the names of a set's bookies in picture order, under a name.
fn add_members(
    json: &mut Writer<Global>,
    name: &str,
    names: &Names,
    bookies: &BookieSet,
) -> Result<(), AllocError>
    ensures { OnOk result (Adds (member_tokens name.now (values.task_json names.now bookies.now)) json.old json.new) }
{
    json.key(name)?;
    json.begin_array()?;
    add_each_member(json, names, bookies)?;
    json.end_array()
}

/// Adds the bookies that a task is to replace under a name, or null where there is none.
pub(crate) fn add_task(
    json: &mut Writer<Global>,
    name: &str,
    names: &Names,
    task: Option<&BookieSet>,
) -> Result<(), AllocError>
    ensures { OnOk result (Adds (member_tokens name.now (values.or_null (values.task_json names.now) (option_copied task.entry)))
        json.old json.new) }
{
    match task {
        Some(bookies) => add_members(json, name, names, bookies),
        None => add_null(json, name),
    }
}

/// Adds a lock under a name.
fn add_locked(
    json: &mut Writer<Global>,
    name: &str,
    names: &Names,
    lock: Lock,
) -> Result<(), AllocError>
    ensures { OnOk result (Adds (member_tokens name.now (values.lock_json names.now lock)) json.old json.new) }
{
    json.key(name)?;
    json.begin_object()?;
    add_named(json, "owner", names, lock.owner)?;
    add_count(json, "due", lock.due)?;
    json.end_object()
}

/// Adds a lock under a name, or null where there is none.
pub(crate) fn add_lock(
    json: &mut Writer<Global>,
    name: &str,
    names: &Names,
    lock: Option<Lock>,
) -> Result<(), AllocError>
    ensures { OnOk result (Adds (member_tokens name.now (values.or_null (values.lock_json names.now) lock)) json.old json.new) }
{
    match lock {
        Some(lock) => add_locked(json, name, names, lock),
        None => add_null(json, name),
    }
}

/// Adds the first and the last entry of a range, as a list.
pub(crate) fn add_range(json: &mut Writer<Global>, first: u32, last: u32) -> Result<(), AllocError>
    ensures { OnOk result (Adds (json_tokens (values.range_json (first, last))) json.old json.new) }
{
    json.begin_array()?;
    json.u64(first as u64)?;
    json.u64(last as u64)?;
    json.end_array()
}
