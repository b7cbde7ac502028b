// What changed in a ledger's fragments.
ghost use Rattle.std.specs.Prelude.{◌≡◌, ◌++◌, OnOk, slice_get, codes};
ghost use Rattle.std.specs.Option.{option_copied};
ghost use Rattle.json.specs.Tree.{json_tokens};
ghost use Rattle.reh_answer.specs.Objects.{Adds, member_tokens, number_json};
ghost use Rattle.reh_run_json.specs.Changes as changes;
ghost use Rattle.reh_run_json.specs.Fragments as fragments;
ghost use Rattle.reh_run_json.specs.Values.{or_null, tokens_of};

use crate::metadata::begin_change;
use crate::values::{add_ensemble, add_id, add_named};
use json::Writer;
use reh_answer::{add_null, add_number};
use reh_cluster::Names;
use reh_meta::Fragment;
use reh_types::{BookieIx, LedgerId};
use std::alloc::{AllocError, Global};

/// Adds the changes of a ledger's fragments.
pub(crate) fn add_fragments(
    json: &mut Writer<Global>,
    names: &Names,
    id: LedgerId,
    was: &[Fragment],
    now: &[Fragment],
) -> Result<(), AllocError>
    ensures { OnOk result (Adds (tokens_of (changes.fragment_changes names.now id 0 was.now now.now))
        json.old json.new) }
{
    for f in 0..was.len().max(now.len()) {
        add_fragment(json, names, id, f, fragment_at(was, f), fragment_at(now, f))?;
    }
    Ok(())
}

/// The fragment of that number, if there is one.
pub(crate) fn fragment_at(fragments: &[Fragment], number: usize) -> Option<&Fragment>
    ensures { option_copied result ≡ slice_get fragments.now number }
{
    fragments.get(number)
}

/// Adds the changes of a fragment by its number, where there was one or is one.
fn add_fragment(
    json: &mut Writer<Global>,
    names: &Names,
    id: LedgerId,
    number: usize,
    was: Option<&Fragment>,
    now: Option<&Fragment>,
) -> Result<(), AllocError>
    ensures { OnOk result (Adds (tokens_of (fragments.changes_at names.now id number
        (option_copied was.entry) (option_copied now.entry))) json.old json.new) }
{
    match (was, now) {
        (Some(was), Some(now)) => {
            add_members(json, names, id, number, &was.ensemble, &now.ensemble)
        }
        (Some(_), None) | (None, Some(_)) => add_whole(json, names, id, number, was, now),
        (None, None) => Ok(()),
    }
}

/// Adds the ledger and the number of a fragment.
fn add_place(json: &mut Writer<Global>, id: LedgerId, number: usize) -> Result<(), AllocError>
    ensures { OnOk result (Adds (member_tokens (codes "ledger") (number_json id)
        ++ member_tokens (codes "fragment") (number_json number)) json.old json.new) }
{
    add_id(json, "ledger", id)?;
    add_number(json, "fragment", number as u64)
}

/// Adds the change of a fragment that was added or removed.
fn add_whole(
    json: &mut Writer<Global>,
    names: &Names,
    id: LedgerId,
    number: usize,
    was: Option<&Fragment>,
    now: Option<&Fragment>,
) -> Result<(), AllocError>
    ensures { OnOk result (Adds (json_tokens (fragments.whole_change names.now id number
        (option_copied was.entry) (option_copied now.entry))) json.old json.new) }
{
    begin_change(json, "fragment")?;
    add_place(json, id, number)?;
    add_kept(json, "was", names, was)?;
    add_kept(json, "now", names, now)?;
    json.end_object()
}

/// Adds a fragment's first entry and ensemble under a name, or null where there is no fragment.
fn add_kept(
    json: &mut Writer<Global>,
    name: &str,
    names: &Names,
    fragment: Option<&Fragment>,
) -> Result<(), AllocError>
    ensures { OnOk result (Adds (member_tokens name.now (or_null (changes.fragment_json names.now)
        (option_copied fragment.entry))) json.old json.new) }
{
    match fragment {
        Some(fragment) => add_contents(json, name, names, fragment.first, &fragment.ensemble),
        None => add_null(json, name),
    }
}

/// Adds a fragment's first entry and ensemble under a name.
fn add_contents(
    json: &mut Writer<Global>,
    name: &str,
    names: &Names,
    first: u32,
    ensemble: &[BookieIx],
) -> Result<(), AllocError>
    ensures { OnOk result (Adds (member_tokens name.now (changes.contents_json names.now first ensemble.now)) json.old json.new) }
{
    json.key(name)?;
    json.begin_object()?;
    add_number(json, "firstEntry", first as u64)?;
    add_ensemble(json, "ensemble", names, ensemble)?;
    json.end_object()
}

/// Adds the changes of the members of a fragment's ensemble that changed.
fn add_members(
    json: &mut Writer<Global>,
    names: &Names,
    id: LedgerId,
    fragment: usize,
    was: &[BookieIx],
    now: &[BookieIx],
) -> Result<(), AllocError>
    ensures { OnOk result (Adds (tokens_of (changes.member_changes names.now id fragment 0 was.now now.now))
        json.old json.new) }
{
    for i in 0..was.len().min(now.len()) {
        add_member(json, names, id, fragment, i, was[i], now[i])?;
    }
    Ok(())
}

/// Adds the change of a member by its index, if it changed.
fn add_member(
    json: &mut Writer<Global>,
    names: &Names,
    id: LedgerId,
    fragment: usize,
    index: usize,
    was: BookieIx,
    now: BookieIx,
) -> Result<(), AllocError>
    ensures { OnOk result (Adds (tokens_of (fragments.member_change_at names.now id fragment index was now))
        json.old json.new) }
{
    if was == now {
        return Ok(());
    }
    add_replaced(json, names, id, fragment, index, was, now)
}

/// Adds the change of a member by its index.
fn add_replaced(
    json: &mut Writer<Global>,
    names: &Names,
    id: LedgerId,
    fragment: usize,
    index: usize,
    was: BookieIx,
    now: BookieIx,
) -> Result<(), AllocError>
    ensures { OnOk result (Adds (json_tokens (fragments.member_change names.now id fragment index was now))
        json.old json.new) }
{
    begin_change(json, "member")?;
    add_place(json, id, fragment)?;
    add_number(json, "index", index as u64)?;
    add_named(json, "was", names, was)?;
    add_named(json, "now", names, now)?;
    json.end_object()
}
