// The bookies of an inventory that take part in the plan for one of its ledgers.
ghost use Rattle.std.specs.Prelude.{◌≡◌, ◌++◌, ◌∷◌, [], All, Contains, IfOk, IfSome, OnOk};
ghost use Rattle.reh_inventory_plan.specs.Parts as model;

use reh_cut::names_bookie;
use reh_inventory::{Bookie, BookieList, Head, LedgerLine, Name};
use std::alloc::{AllocError, Global};

/// The first line with those of its bookies alone that the ledger's line names, and then with others of it, by their numbers
/// there.
pub(crate) fn part_of(
    alloc: Global,
    head: &Head,
    line: &LedgerLine,
    others: &[usize],
) -> Result<Head, AllocError>
    ensures { IfOk result (model.IsPart head.now line.now) }
{
    let all = head.bookies.as_slice();
    let named = named_in(alloc, line, all)?;
    let others = others_in(alloc, all, others)?;
    let bookies = joined(named, others)?;
    Ok(Head {
        taken: None,
        grace: head.grace,
        delay: head.delay,
        assumes_striped: head.assumes_striped,
        bookies: BookieList::of(bookies),
    })
}

/// Those of these bookies that the ledger's line names.
fn named_in(alloc: Global, line: &LedgerLine, all: &[Bookie]) -> Result<Vec<Bookie>, AllocError>
    ensures { IfOk result (λ named. named.items ≡ model.named_in line.now all.now) }
{
    let mut named = Vec::new(alloc);
    for bookie in all {
        if names_bookie(line, bookie.name.as_str()) {
            push_copy(alloc, &mut named, bookie)?;
        }
    }
    Ok(named)
}

/// Those of these bookies that have these numbers.
fn others_in(alloc: Global, all: &[Bookie], numbers: &[usize]) -> Result<Vec<Bookie>, AllocError>
    ensures { IfOk result (λ others. All (Contains all.now) others.items) }
{
    let mut others = Vec::new(alloc);
    for number in numbers {
        if let Some(bookie) = bookie_at(alloc, all, *number)? {
            others.push(bookie)?;
        }
    }
    Ok(others)
}

/// The same bookie as the one of that number, if there is one.
fn bookie_at(alloc: Global, all: &[Bookie], number: usize) -> Result<Option<Bookie>, AllocError>
    ensures { IfOk result (λ bookie. IfSome bookie (Contains all.now)) }
{
    match all.get(number) {
        Some(bookie) => Ok(Some(copy_of(alloc, bookie)?)),
        None => Ok(None),
    }
}

/// These bookies, and then others.
fn joined(mut bookies: Vec<Bookie>, others: Vec<Bookie>) -> Result<Vec<Bookie>, AllocError>
    ensures { IfOk result (λ all. all.items ≡ bookies.items ++ others.items) }
{
    for other in others {
        bookies.push(other)?;
    }
    Ok(bookies)
}

/// Adds the same bookie.
fn push_copy(alloc: Global, part: &mut Vec<Bookie>, bookie: &Bookie) -> Result<(), AllocError>
    ensures { OnOk result (part.new.items ≡ part.old.items ++ bookie.now ∷ []) }
{
    part.push(copy_of(alloc, bookie)?)?;
    Ok(())
}

/// The same bookie.
fn copy_of(alloc: Global, bookie: &Bookie) -> Result<Bookie, AllocError>
    ensures { IfOk result (λ copy. copy ≡ bookie.now) }
{
    Ok(Bookie {
        name: Name::new(alloc, bookie.name.as_str())?,
        is_up: bookie.is_up,
        is_read_only: bookie.is_read_only,
        is_empty: bookie.is_empty,
        rack: copy_if_there(alloc, &bookie.rack)?,
    })
}

/// The same name, if it is there.
fn copy_if_there(alloc: Global, name: &Option<Name>) -> Result<Option<Name>, AllocError>
    ensures { IfOk result (λ copy. copy ≡ name.now) }
{
    match name {
        Some(name) => Ok(Some(Name::new(alloc, name.as_str())?)),
        None => Ok(None),
    }
}
