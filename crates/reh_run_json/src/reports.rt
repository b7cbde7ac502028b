// The report of a state as JSON.
ghost use Rattle.std.specs.Prelude.{◌<◌, OnOk, codes, flat_map, slice_get};
ghost use Rattle.std.specs.List.{enumerate_from};
ghost use Rattle.json.specs.Tree.{json_tokens};
ghost use Rattle.reh_answer.specs.Objects.{Adds, member_tokens};
ghost use Rattle.reh_run_json.specs.Reports as reports;

use crate::ledgers::add_ledger_object;
use crate::values::add_registration_members;
use json::Writer;
use reh_answer::{add_number, add_text};
use reh_cluster::{Ledger, Names, State};
use reh_types::{BookieIx, MAX_BOOKIES};
use std::alloc::{AllocError, Global};

/// Adds the report of a state: its clock, grace and delay, whether AutoRecovery is enabled, its bookies, and its ledgers.
pub(crate) fn add_report(json: &mut Writer<Global>, state: &State) -> Result<(), AllocError>
    ensures { OnOk result (Adds (json_tokens (reports.report_json state.now)) json.old json.new) }
{
    json.begin_object()?;
    add_settings(json, state)?;
    add_bookies(json, state)?;
    add_ledgers(json, state)?;
    json.end_object()
}

/// Adds the clock, the grace, the delay, and whether AutoRecovery is enabled.
fn add_settings(json: &mut Writer<Global>, state: &State) -> Result<(), AllocError>
    ensures { OnOk result (Adds (reports.settings_of state.now) json.old json.new) }
{
    add_ticks(
        json,
        state.clock(),
        state.grace(),
        state.delay(),
        state.is_enabled(),
    )
}

/// Adds these settings.
fn add_ticks(
    json: &mut Writer<Global>,
    clock: u64,
    grace: u64,
    delay: u64,
    enabled: bool,
) -> Result<(), AllocError>
    ensures { OnOk result (Adds (reports.settings_tokens clock grace delay enabled) json.old json.new) }
{
    add_number(json, "clock", clock)?;
    add_number(json, "grace", grace)?;
    add_number(json, "delay", delay)?;
    json.key("autorecovery")?;
    json.boolean(enabled)
}

/// Adds the list of all bookies.
fn add_bookies(json: &mut Writer<Global>, state: &State) -> Result<(), AllocError>
    ensures { OnOk result (Adds (member_tokens (codes "bookies") (reports.bookies_json state.now)) json.old json.new) }
{
    json.key("bookies")?;
    json.begin_array()?;
    add_each_bookie(json, state)?;
    json.end_array()
}

/// Adds all bookies.
fn add_each_bookie(json: &mut Writer<Global>, state: &State) -> Result<(), AllocError>
    ensures { OnOk result (Adds (flat_map (λ place. json_tokens (reports.bookie_json state.now place.0 place.1))
        (enumerate_from 0 state.now.names)) json.old json.new) }
{
    for i in 0..state.names().len() {
        add_bookie_at(json, state, i)?;
    }
    Ok(())
}

/// Adds the i-th bookie, if there is one.
fn add_bookie_at(json: &mut Writer<Global>, state: &State, i: usize) -> Result<(), AllocError>
    requires { i < MAX_BOOKIES }
    ensures { OnOk result (Adds (reports.bookie_at state.now i (slice_get state.now.names i)) json.old json.new) }
{
    let bookie = BookieIx(i as u8);
    match state.names().name(bookie) {
        Some(name) => add_bookie(json, state, bookie, name),
        None => Ok(()),
    }
}

/// Adds a bookie of this name.
fn add_bookie(
    json: &mut Writer<Global>,
    state: &State,
    bookie: BookieIx,
    name: &str,
) -> Result<(), AllocError>
    ensures { OnOk result (Adds (json_tokens (reports.bookie_json state.now bookie name.now)) json.old json.new) }
{
    let held = state.count(bookie) as u64;
    add_standing(
        json,
        name,
        state.is_up(bookie),
        state.lost_tick(bookie),
        held,
    )
}

/// Adds a bookie's name, whether it is registered, the tick at which it was lost, and how many entries it holds.
fn add_standing(
    json: &mut Writer<Global>,
    name: &str,
    up: bool,
    lost: Option<u64>,
    held: u64,
) -> Result<(), AllocError>
    ensures { OnOk result (Adds (json_tokens (reports.standing_json name.now up lost held)) json.old json.new) }
{
    json.begin_object()?;
    add_text(json, "name", name)?;
    add_registration_members(json, up, lost)?;
    add_number(json, "held", held)?;
    json.end_object()
}

/// Adds the list of all ledgers.
fn add_ledgers(json: &mut Writer<Global>, state: &State) -> Result<(), AllocError>
    ensures { OnOk result (Adds (member_tokens (codes "ledgers") (reports.ledgers_json state.now)) json.old json.new) }
{
    json.key("ledgers")?;
    json.begin_array()?;
    add_all_ledgers(json, state)?;
    json.end_array()
}

/// Adds all ledgers.
fn add_all_ledgers(json: &mut Writer<Global>, state: &State) -> Result<(), AllocError>
    ensures { OnOk result (Adds (flat_map (λ g. json_tokens (reports.ledger_json state.now.names g))
        state.now.parts.ledgers) json.old json.new) }
{
    add_each_ledger(json, state.names(), state.ledgers())
}

/// Adds the ledgers in a list.
fn add_each_ledger(
    json: &mut Writer<Global>,
    names: &Names,
    ledgers: &[Ledger],
) -> Result<(), AllocError>
    ensures { OnOk result (Adds (flat_map (λ g. json_tokens (reports.ledger_json names.now g)) ledgers.now)
        json.old json.new) }
{
    for ledger in ledgers {
        add_ledger_object(json, names, ledger)?;
    }
    Ok(())
}
