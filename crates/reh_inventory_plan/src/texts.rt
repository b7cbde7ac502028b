// What plans for the ledgers of an inventory come to, in words.
ghost use Rattle.std.specs.Prelude.{◌≡◌, ◌++◌, flat_map, string_bytes, IfOk, OnOk};
ghost use Rattle.reh_plan.specs.Reasons.{reason_text};
ghost use Rattle.reh_inventory_plan.specs.Texts as model;

use crate::inventories::InventoryPlan;
use crate::ledgers::Outcome;
use crate::totals::{Counted, Given, count_kind, count_of, fewer_in, given_in, unreadable_in};
use reh_inventory::Bookie;
use reh_plan::Left;
use std::alloc::{AllocError, Global};

/// What the plans come to: how many ledgers there are and how many were planned for, a line of each bookie that is given
/// something, how many ledgers are left, by the kinds of reasons, how many entries can't be read, and a line of each ledger that
/// is left.
pub fn plans_text(alloc: Global, plan: &InventoryPlan) -> Result<String, AllocError>
    ensures { IfOk result (λ text. string_bytes text ≡ model.plans_text plan.now) }
{
    let mut text = head_text(alloc, plan)?;
    let given = bookies_text(alloc, &plan.outcomes, plan.head.bookies.as_slice())?;
    text.push_str(&given)?;
    let left = left_text(alloc, &plan.outcomes)?;
    text.push_str(&left)?;
    let lost = lost_text(alloc, &plan.outcomes)?;
    text.push_str(&lost)?;
    let rest = rest_text(alloc, &plan.outcomes)?;
    text.push_str(&rest)?;
    let lines = lines_text(alloc, &plan.outcomes)?;
    text.push_str(&lines)?;
    Ok(text)
}

/// How many ledgers there are, how many of them were not read, and how many were planned for.
#[tactic(auto, unfolding(crate::specs::Texts::head_text))]
fn head_text(alloc: Global, plan: &InventoryPlan) -> Result<String, AllocError>
    ensures { IfOk result (λ text. string_bytes text ≡ model.head_text plan.now) }
{
    let mut text = String::new(alloc);
    push_count(&mut text, "ledgers", plan.ledgers)?;
    push_if_some(&mut text, "ledgers unread", plan.unread)?;
    push_count(
        &mut text,
        "ledgers planned for",
        count_of(Counted::Planned, &plan.outcomes) as u64,
    )?;
    Ok(text)
}

/// Adds a line of words and a number.
fn push_count(text: &mut String, words: &str, count: u64) -> Result<(), AllocError>
    ensures { OnOk result (string_bytes text.new ≡ string_bytes text.old ++ model.count_line words.now count) }
{
    write!(text, "{words} {count}\n")
}

/// The same, if the number isn't 0.
fn push_if_some(text: &mut String, words: &str, count: u64) -> Result<(), AllocError>
    ensures { OnOk result (string_bytes text.new ≡ string_bytes text.old ++ model.count_if_some words.now count) }
{
    if count == 0 {
        return Ok(());
    }
    push_count(text, words, count)
}

/// The lines of these bookies that are given something.
fn bookies_text(
    alloc: Global,
    outcomes: &[Outcome],
    bookies: &[Bookie],
) -> Result<String, AllocError>
    ensures { IfOk result (λ text. string_bytes text ≡ flat_map (model.bookie_line outcomes.now) bookies.now) }
{
    let mut text = String::new(alloc);
    for bookie in bookies {
        push_bookie(&mut text, outcomes, bookie)?;
    }
    Ok(text)
}

/// Adds the line of a bookie, if it is given something.
#[tactic(auto, unfolding(crate::specs::Texts::bookie_line))]
fn push_bookie(text: &mut String, outcomes: &[Outcome], bookie: &Bookie) -> Result<(), AllocError>
    ensures { OnOk result (string_bytes text.new
        ≡ string_bytes text.old ++ model.bookie_line outcomes.now bookie.now) }
{
    let name = bookie.name.as_str();
    push_given(text, name, given_in(name, outcomes))
}

/// Adds the line of a bookie that is given this, if that is something.
fn push_given(text: &mut String, name: &str, given: Given) -> Result<(), AllocError>
    ensures { OnOk result (string_bytes text.new ≡ string_bytes text.old ++ model.given_line name.now given) }
{
    if given.is_nothing() {
        return Ok(());
    }
    let Given {
        places,
        entries,
        bytes,
    } = given;
    write!(
        text,
        "bookie {name} places {places} entries {entries} bytes {bytes}\n"
    )
}

/// How many ledgers are left, and a line for each kind of reason that some have.
#[tactic(auto, unfolding(crate::specs::Texts::left_text))]
fn left_text(alloc: Global, outcomes: &[Outcome]) -> Result<String, AllocError>
    ensures { IfOk result (λ text. string_bytes text ≡ model.left_text outcomes.now) }
{
    let mut text = String::new(alloc);
    push_count(
        &mut text,
        "ledgers left",
        count_of(Counted::Left, outcomes) as u64,
    )?;
    let kinds = kinds_text(alloc, outcomes)?;
    text.push_str(&kinds)?;
    push_kind(&mut text, outcomes, "no picture")?;
    push_kind(&mut text, outcomes, "no plan")?;
    Ok(text)
}

/// A line for each kind of reason that a plan has and some ledgers are left for.
#[tactic(auto, unfolding(crate::specs::Texts::kinds_text))]
fn kinds_text(alloc: Global, outcomes: &[Outcome]) -> Result<String, AllocError>
    ensures { IfOk result (λ text. string_bytes text ≡ model.kinds_text outcomes.now) }
{
    let mut text = String::new(alloc);
    push_kind(&mut text, outcomes, "copy refused")?;
    push_kind(&mut text, outcomes, "swap refused")?;
    push_kind(&mut text, outcomes, "seal refused")?;
    push_kind(&mut text, outcomes, "roll refused")?;
    push_kind(&mut text, outcomes, "no worker")?;
    push_kind(&mut text, outcomes, "no room in the script")?;
    Ok(text)
}

/// Adds how many ledgers are left for a reason of that kind, if some are.
#[tactic(auto, unfolding(crate::specs::Texts::kind_line))]
fn push_kind(text: &mut String, outcomes: &[Outcome], kind: &str) -> Result<(), AllocError>
    ensures { OnOk result (string_bytes text.new ≡ string_bytes text.old ++ model.kind_line outcomes.now kind.now) }
{
    let count = count_kind(outcomes, kind);
    if count == 0 {
        return Ok(());
    }
    write!(text, "left: {kind} {count}\n")
}

/// How many entries can't be read in the end, and how many ledgers are closed so that entries may be missing.
#[tactic(auto, unfolding(crate::specs::Texts::lost_text))]
fn lost_text(alloc: Global, outcomes: &[Outcome]) -> Result<String, AllocError>
    ensures { IfOk result (λ text. string_bytes text ≡ model.lost_text outcomes.now) }
{
    let mut text = String::new(alloc);
    push_count(&mut text, "entries lost", unreadable_in(outcomes))?;
    let empty = count_of(Counted::ClosedEmpty, outcomes) as u64;
    push_if_some(&mut text, "closed with an empty last fragment", empty)?;
    let short = count_of(Counted::ClosedShort, outcomes) as u64;
    push_if_some(
        &mut text,
        "closed before an entry that some bookie holds",
        short,
    )?;
    Ok(text)
}

/// How many scripts are full, how many fragments are in fewer racks, and of how many ledgers the bytes aren't known.
#[tactic(auto, unfolding(crate::specs::Texts::rest_text))]
fn rest_text(alloc: Global, outcomes: &[Outcome]) -> Result<String, AllocError>
    ensures { IfOk result (λ text. string_bytes text ≡ model.rest_text outcomes.now) }
{
    let mut text = String::new(alloc);
    push_if_some(
        &mut text,
        "scripts full",
        count_of(Counted::Full, outcomes) as u64,
    )?;
    push_if_some(&mut text, "fragments in fewer racks", fewer_in(outcomes))?;
    let without = count_of(Counted::Unsized, outcomes) as u64;
    push_if_some(&mut text, "ledgers without a length", without)?;
    Ok(text)
}

/// A line of each ledger that is left.
fn lines_text(alloc: Global, outcomes: &[Outcome]) -> Result<String, AllocError>
    ensures { IfOk result (λ text. string_bytes text ≡ flat_map model.left_lines outcomes.now) }
{
    let mut text = String::new(alloc);
    for outcome in outcomes {
        push_left(&mut text, outcome)?;
    }
    Ok(text)
}

/// Adds the lines of a ledger that is left.
fn push_left(text: &mut String, outcome: &Outcome) -> Result<(), AllocError>
    ensures { OnOk result (string_bytes text.new ≡ string_bytes text.old ++ model.left_lines outcome.now) }
{
    match outcome {
        Outcome::Planned(planned) => push_each_left(text, &planned.left),
        Outcome::Unplanned(ledger, reason) => {
            write!(text, "ledger {ledger} is left: {reason}\n")
        }
    }
}

/// Adds a line of each of these.
fn push_each_left(text: &mut String, left: &[Left]) -> Result<(), AllocError>
    ensures { OnOk result (string_bytes text.new ≡ string_bytes text.old ++ model.lines_of_left left.now) }
{
    for one in left {
        push_one_left(text, one)?;
    }
    Ok(())
}

/// Adds its line.
fn push_one_left(text: &mut String, left: &Left) -> Result<(), AllocError>
    ensures { OnOk result (string_bytes text.new
        ≡ string_bytes text.old ++ model.left_line left.now.ledger (reason_text left.now.reason)) }
{
    let Left { ledger, reason } = *left;
    let id = ledger.0;
    write!(text, "ledger {id} is left: {reason}\n")
}
