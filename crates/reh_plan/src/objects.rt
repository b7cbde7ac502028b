// What a plan comes to, as one object.
ghost use Rattle.std.specs.Prelude.{◌≡◌, OnOk, IfOk, codes, flat_map, string_bytes};
ghost use Rattle.json.specs.Json.{boolean};
ghost use Rattle.json.specs.Tree.{json_tokens};
ghost use Rattle.reh_answer.specs.Objects.{Adds, IsLineOf, member_tokens, number_json};
ghost use Rattle.reh_plan.specs.Objects as model;

use crate::fewer::FewerRacks;
use crate::planning::Planned;
use crate::reasons::Left;
use crate::summaries::Share;
use json::Writer;
use reh_answer::{add_number, add_text, text_in};
use reh_cluster::Names;
use reh_types::{BookieIx, LedgerId};
use std::alloc::{AllocError, Global};

/// Adds a bookie's name, or its number where the names have none for it.
fn add_name(json: &mut Writer<Global>, names: &Names, bookie: BookieIx) -> Result<(), AllocError>
    ensures { OnOk result (Adds (json_tokens (model.name_json names.now bookie)) json.old json.new) }
{
    match names.name(bookie) {
        Some(name) => json.string(name),
        None => json.quoted_u64(bookie.0 as u64),
    }
}

/// Adds what a bookie is given.
fn add_share(json: &mut Writer<Global>, names: &Names, share: &Share) -> Result<(), AllocError>
    ensures { OnOk result (Adds (json_tokens (model.share_json names.now share.now)) json.old json.new) }
{
    json.begin_object()?;
    json.key("name")?;
    add_name(json, names, share.bookie)?;
    add_number(json, "places", share.places as u64)?;
    add_number(json, "entries", share.entries as u64)?;
    json.end_object()
}

/// Adds what these bookies are given.
fn add_each_share(
    json: &mut Writer<Global>,
    names: &Names,
    shares: &[Share],
) -> Result<(), AllocError>
    ensures { OnOk result (Adds (flat_map (λ s. json_tokens (model.share_json names.now s)) shares.now) json.old json.new) }
{
    for share in shares {
        add_share(json, names, share)?;
    }
    Ok(())
}

/// Adds the list of the bookies.
fn add_bookies(json: &mut Writer<Global>, names: &Names, shares: &[Share]) -> Result<(), AllocError>
    ensures { OnOk result (Adds (member_tokens (codes "bookies") (model.bookies_json names.now shares.now))
        json.old json.new) }
{
    json.key("bookies")?;
    json.begin_array()?;
    add_each_share(json, names, shares)?;
    json.end_array()
}

/// Adds a ledger's id.
fn add_ledger(json: &mut Writer<Global>, ledger: LedgerId) -> Result<(), AllocError>
    ensures { OnOk result (Adds (member_tokens (codes "ledger") (number_json ledger)) json.old json.new) }
{
    add_number(json, "ledger", ledger.0)
}

/// Adds a ledger with which something is left to do, and why.
fn add_one_left(json: &mut Writer<Global>, alloc: Global, left: &Left) -> Result<(), AllocError>
    ensures { OnOk result (Adds (json_tokens (model.left_json left.now)) json.old json.new) }
{
    let Left { ledger, reason } = *left;
    let text = format!(in alloc; "{reason}")?;
    json.begin_object()?;
    add_ledger(json, ledger)?;
    add_text(json, "reason", reason.kind())?;
    add_text(json, "text", text.as_str())?;
    json.end_object()
}

/// Adds these ledgers.
fn add_each_left(json: &mut Writer<Global>, alloc: Global, left: &[Left]) -> Result<(), AllocError>
    ensures { OnOk result (Adds (flat_map (λ l. json_tokens (model.left_json l)) left.now) json.old json.new) }
{
    for one in left {
        add_one_left(json, alloc, one)?;
    }
    Ok(())
}

/// Adds the list of the ledgers with which something is left to do.
fn add_ledgers(json: &mut Writer<Global>, alloc: Global, left: &[Left]) -> Result<(), AllocError>
    ensures { OnOk result (Adds (member_tokens (codes "ledgers") (model.ledgers_json left.now)) json.old json.new) }
{
    json.key("ledgers")?;
    json.begin_array()?;
    add_each_left(json, alloc, left)?;
    json.end_array()
}

/// Adds a fragment of which a write set may stand in fewer racks.
fn add_fragment(json: &mut Writer<Global>, fewer: &FewerRacks) -> Result<(), AllocError>
    ensures { OnOk result (Adds (json_tokens (model.fragment_json fewer.now)) json.old json.new) }
{
    json.begin_object()?;
    add_ledger(json, fewer.ledger)?;
    add_number(json, "fragment", fewer.fragment as u64)?;
    add_number(json, "racks", fewer.racks as u64)?;
    json.end_object()
}

/// Adds these fragments.
fn add_each_fragment(json: &mut Writer<Global>, fewer: &[FewerRacks]) -> Result<(), AllocError>
    ensures { OnOk result (Adds (flat_map (λ f. json_tokens (model.fragment_json f)) fewer.now) json.old json.new) }
{
    for fragment in fewer {
        add_fragment(json, fragment)?;
    }
    Ok(())
}

/// Adds the list of the fragments of which a write set may stand in fewer racks.
fn add_fewer_racks(json: &mut Writer<Global>, fewer: &[FewerRacks]) -> Result<(), AllocError>
    ensures { OnOk result (Adds (member_tokens (codes "fewerRacks") (model.fewer_json fewer.now)) json.old json.new) }
{
    json.key("fewerRacks")?;
    json.begin_array()?;
    add_each_fragment(json, fewer)?;
    json.end_array()
}

/// Adds whether the script is full.
fn add_full(json: &mut Writer<Global>, is_full: bool) -> Result<(), AllocError>
    ensures { OnOk result (Adds (member_tokens (codes "full") (boolean is_full)) json.old json.new) }
{
    json.key("full")?;
    json.boolean(is_full)
}

/// Adds the object.
fn add_all(json: &mut Writer<Global>, alloc: Global, planned: &Planned) -> Result<(), AllocError>
    ensures { OnOk result (Adds (json_tokens (model.plan_value planned.now)) json.old json.new) }
{
    let summary = &planned.summary;
    json.begin_object()?;
    add_bookies(json, planned.plan.state().names(), &summary.shares)?;
    add_number(json, "left", summary.left as u64)?;
    add_ledgers(json, alloc, &planned.left)?;
    add_number(json, "lost", summary.unreadable)?;
    add_fewer_racks(json, &planned.fewer)?;
    add_full(json, summary.is_full)?;
    json.end_object()
}

/// What a plan comes to as JSON: one object, on one line.
pub fn plan_json(alloc: Global, planned: &Planned) -> Result<String, AllocError>
    ensures text { IfOk result (λ text. string_bytes text ≡ model.json_of planned.now) }
    ensures reads_back { IfOk result (λ text. IsLineOf (model.plan_value planned.now) (string_bytes text)) }
{
    let mut json = Writer::new(Vec::new(alloc));
    add_all(&mut json, alloc, planned)?;
    let mut text = text_in(json)?;
    text.push_str("\n")?;
    Ok(text)
}
