// What plans for the ledgers of an inventory come to, as one object.
ghost use Rattle.std.specs.Prelude.{◌≡◌, OnOk, IfOk, codes, flat_map, string_bytes};
ghost use Rattle.json.specs.Tree.{json_tokens};
ghost use Rattle.reh_answer.specs.Objects.{Adds, IsLineOf, member_tokens};
ghost use Rattle.reh_inventory_plan.specs.Objects as model;

use crate::faults::Unplanned;
use crate::inventories::InventoryPlan;
use crate::ledgers::Outcome;
use crate::totals::{Counted, Given, count_of, fewer_in, given_in, unplanned_kind, unreadable_in};
use json::Writer;
use reh_answer::{add_number, add_text, text_in};
use reh_inventory::Bookie;
use reh_plan::Left;
use std::alloc::{AllocError, Global};

/// Adds how many ledgers that holds of, under this name.
fn add_count(
    json: &mut Writer<Global>,
    name: &str,
    counted: Counted,
    outcomes: &[Outcome],
) -> Result<(), AllocError>
    ensures { OnOk result (Adds (member_tokens name.now (model.count_json counted outcomes.now)) json.old json.new) }
{
    add_number(json, name, count_of(counted, outcomes) as u64)
}

/// Adds how many ledgers there are, how many were not read, for how many there is a plan, and of how many of these the bytes
/// aren't known.
fn add_inventory(json: &mut Writer<Global>, plan: &InventoryPlan) -> Result<(), AllocError>
    ensures { OnOk result (Adds (member_tokens (codes "inventory") (model.inventory_json plan.now)) json.old json.new) }
{
    let outcomes: &[Outcome] = &plan.outcomes;
    json.key("inventory")?;
    json.begin_object()?;
    add_number(json, "ledgers", plan.ledgers)?;
    add_number(json, "unread", plan.unread)?;
    add_count(json, "plannedFor", Counted::Planned, outcomes)?;
    add_count(json, "withoutLength", Counted::Unsized, outcomes)?;
    json.end_object()
}

/// Adds what the bookie of that name is given.
fn add_given(json: &mut Writer<Global>, name: &str, given: Given) -> Result<(), AllocError>
    ensures { OnOk result (Adds (json_tokens (model.given_json name.now given)) json.old json.new) }
{
    json.begin_object()?;
    add_text(json, "name", name)?;
    add_number(json, "places", given.places)?;
    add_number(json, "entries", given.entries)?;
    add_number(json, "bytes", given.bytes)?;
    json.end_object()
}

/// Adds what a bookie is given by all plans.
#[tactic(auto, unfolding(crate::specs::Objects::bookie_json))]
fn add_bookie(
    json: &mut Writer<Global>,
    outcomes: &[Outcome],
    bookie: &Bookie,
) -> Result<(), AllocError>
    ensures { OnOk result (Adds (json_tokens (model.bookie_json outcomes.now bookie.now)) json.old json.new) }
{
    let name = bookie.name.as_str();
    add_given(json, name, given_in(name, outcomes))
}

/// Adds what these bookies are given.
fn add_each_bookie(
    json: &mut Writer<Global>,
    outcomes: &[Outcome],
    bookies: &[Bookie],
) -> Result<(), AllocError>
    ensures { OnOk result (Adds (flat_map (λ b. json_tokens (model.bookie_json outcomes.now b)) bookies.now)
        json.old json.new) }
{
    for bookie in bookies {
        add_bookie(json, outcomes, bookie)?;
    }
    Ok(())
}

/// Adds the list of the bookies.
fn add_bookies(
    json: &mut Writer<Global>,
    outcomes: &[Outcome],
    bookies: &[Bookie],
) -> Result<(), AllocError>
    ensures { OnOk result (Adds (member_tokens (codes "bookies") (model.bookies_json outcomes.now bookies.now))
        json.old json.new) }
{
    json.key("bookies")?;
    json.begin_array()?;
    add_each_bookie(json, outcomes, bookies)?;
    json.end_array()
}

/// Adds a ledger that is left, and the kind and the text of the reason.
fn add_reason(
    json: &mut Writer<Global>,
    ledger: u64,
    kind: &str,
    text: &str,
) -> Result<(), AllocError>
    ensures { OnOk result (Adds (json_tokens (model.reason_json ledger kind.now text.now)) json.old json.new) }
{
    json.begin_object()?;
    add_number(json, "ledger", ledger)?;
    add_text(json, "reason", kind)?;
    add_text(json, "text", text)?;
    json.end_object()
}

/// Adds a ledger with which something is left to do, and why.
fn add_one_left(json: &mut Writer<Global>, alloc: Global, left: &Left) -> Result<(), AllocError>
    ensures { OnOk result (Adds (json_tokens (model.left_json left.now)) json.old json.new) }
{
    let Left { ledger, reason } = *left;
    let text = format!(in alloc; "{reason}")?;
    add_reason(json, ledger.0, reason.kind(), text.as_str())
}

/// Adds these ledgers.
fn add_each_left(json: &mut Writer<Global>, alloc: Global, left: &[Left]) -> Result<(), AllocError>
    ensures { OnOk result (Adds (flat_map (λ l. json_tokens (model.left_json l)) left.now) json.old json.new) }
{
    for one in left {
        add_one_left(json, alloc, one)?;
    }
    Ok(())
}

/// Adds a ledger that has no plan, and why.
fn add_unplanned(
    json: &mut Writer<Global>,
    alloc: Global,
    ledger: u64,
    reason: &Unplanned,
) -> Result<(), AllocError>
    ensures { OnOk result (Adds (json_tokens (model.unplanned_json ledger reason.now)) json.old json.new) }
{
    let text = format!(in alloc; "{reason}")?;
    add_reason(json, ledger, unplanned_kind(reason), text.as_str())
}

/// Adds a ledger if it is left, and why.
fn add_outcome(
    json: &mut Writer<Global>,
    alloc: Global,
    outcome: &Outcome,
) -> Result<(), AllocError>
    ensures { OnOk result (Adds (model.left_tokens outcome.now) json.old json.new) }
{
    match outcome {
        Outcome::Planned(planned) => add_each_left(json, alloc, &planned.left),
        Outcome::Unplanned(ledger, reason) => add_unplanned(json, alloc, *ledger, reason),
    }
}

/// Adds those of these ledgers that are left.
fn add_each_outcome(
    json: &mut Writer<Global>,
    alloc: Global,
    outcomes: &[Outcome],
) -> Result<(), AllocError>
    ensures { OnOk result (Adds (flat_map model.left_tokens outcomes.now) json.old json.new) }
{
    for outcome in outcomes {
        add_outcome(json, alloc, outcome)?;
    }
    Ok(())
}

/// Adds the list of the ledgers that are left.
fn add_ledgers(
    json: &mut Writer<Global>,
    alloc: Global,
    outcomes: &[Outcome],
) -> Result<(), AllocError>
    ensures { OnOk result (Adds (member_tokens (codes "ledgers") (model.ledgers_json outcomes.now)) json.old json.new) }
{
    json.key("ledgers")?;
    json.begin_array()?;
    add_each_outcome(json, alloc, outcomes)?;
    json.end_array()
}

/// Adds how many entries can't be read in the end.
fn add_lost(json: &mut Writer<Global>, outcomes: &[Outcome]) -> Result<(), AllocError>
    ensures { OnOk result (Adds (member_tokens (codes "lost") (model.lost_json outcomes.now)) json.old json.new) }
{
    add_number(json, "lost", unreadable_in(outcomes))
}

/// Adds how many fragments have a write set that may stand in fewer racks.
fn add_fewer(json: &mut Writer<Global>, outcomes: &[Outcome]) -> Result<(), AllocError>
    ensures { OnOk result (Adds (member_tokens (codes "fragmentsInFewerRacks") (model.fewer_json outcomes.now))
        json.old json.new) }
{
    add_number(json, "fragmentsInFewerRacks", fewer_in(outcomes))
}

/// Adds the object.
fn add_all(json: &mut Writer<Global>, alloc: Global, plan: &InventoryPlan) -> Result<(), AllocError>
    ensures { OnOk result (Adds (json_tokens (model.plans_value plan.now)) json.old json.new) }
{
    let outcomes: &[Outcome] = &plan.outcomes;
    json.begin_object()?;
    add_inventory(json, plan)?;
    add_bookies(json, outcomes, plan.head.bookies.as_slice())?;
    add_count(json, "left", Counted::Left, outcomes)?;
    add_ledgers(json, alloc, outcomes)?;
    add_lost(json, outcomes)?;
    add_count(json, "closedEmpty", Counted::ClosedEmpty, outcomes)?;
    add_count(json, "closedShort", Counted::ClosedShort, outcomes)?;
    add_count(json, "full", Counted::Full, outcomes)?;
    add_fewer(json, outcomes)?;
    json.end_object()
}

/// What the plans come to as JSON: one object, on one line.
pub fn plans_json(alloc: Global, plan: &InventoryPlan) -> Result<String, AllocError>
    ensures text { IfOk result (λ text. string_bytes text ≡ model.json_of plan.now) }
    ensures reads_back { IfOk result (λ text. IsLineOf (model.plans_value plan.now) (string_bytes text)) }
{
    let mut json = Writer::new(Vec::new(alloc));
    add_all(&mut json, alloc, plan)?;
    let mut text = text_in(json)?;
    text.push_str("\n")?;
    Ok(text)
}
