// The numbers of bookies: those of the first line, and then members of ensembles that the first line doesn't have.
ghost use Rattle.std.specs.Prelude.{◌≡◌, IfErr, OnOk, fold, length};
ghost use Rattle.reh_census_file.specs.Names.{with_name};
ghost use Rattle.reh_census_file.specs.declared.lists.TheConstants.{MAX_NAMES};
ghost use Rattle.reh_inventory_census.specs.Faults.{of_own};
ghost use Rattle.reh_inventory_census.specs.Numbers as model;

use crate::faults::CountFault;
use reh_census_file::{MAX_NAMES, NameList};
use reh_inventory::{Bookie, Fault, Fragment, Head, InventoryFault, LedgerLine, Line, LineFault};
use reh_inventory_fields::Name;
use std::alloc::AllocError;

/// Why a member can't get a number.
#[derive(Clone, Copy)]
pub(crate) enum NumberFault {
    /// 4,096 bookies have numbers already.
    TooMany,
    /// There is no memory.
    NoMemory,
}

impl From<AllocError> for NumberFault {
    ghost use Rattle.std.specs.Prelude.{◌≡◌};
    ghost use Rattle.reh_inventory_census.specs.declared.numbers.NumberFault.TheVariants.{NoMemory};

    ghost from_gives = { λ _ fault. fault ≡ NoMemory };

    fn from(_want: AllocError) -> NumberFault {
        NumberFault::NoMemory
    }
}

/// Whether a bookie has a number.
fn is_named(names: &NameList, name: &Name) -> bool
    ensures { result ≡ model.is_named names.now name.now }
{
    names.find(name.as_str().as_bytes()).is_some()
}

/// Whether each of these bookies has one.
pub(crate) fn are_named(names: &NameList, bookies: &[Bookie]) -> bool
    ensures { result ≡ model.bookies_named names.now bookies.now }
{
    for bookie in bookies {
        if !is_named(names, &bookie.name) {
            return false;
        }
    }
    true
}

/// Whether each member of a fragment's ensemble has one.
fn has_named_ensemble(names: &NameList, fragment: &Fragment) -> bool
    ensures { result ≡ model.ensemble_named names.now fragment.now }
{
    for name in fragment.ensemble.as_slice() {
        if !is_named(names, name) {
            return false;
        }
    }
    true
}

/// Whether each member of the ledger's ensembles has one.
pub(crate) fn has_named_members(names: &NameList, line: &LedgerLine) -> bool
    ensures { result ≡ model.members_named names.now line.now }
{
    for fragment in line.fragments.as_slice() {
        if !has_named_ensemble(names, fragment) {
            return false;
        }
    }
    true
}

/// Gives a bookie the next number, if it has none.
#[tactic(auto, using(crate::proofs::NumberLemmas::with_name_there))]
pub(crate) fn number_member(names: &mut NameList, name: &Name) -> Result<(), NumberFault>
    ensures named { OnOk result (names.new ≡ with_name names.old name.now) }
    ensures full { IfErr result (λ fault. fault ≡ NumberFault.TooMany
        → length names.new ≡ MAX_NAMES) }
{
    if names.len() < MAX_NAMES {
        names.add(name.as_str())?;
        return Ok(());
    }
    match names.find(name.as_str().as_bytes()) {
        Some(_) => Ok(()),
        None => Err(NumberFault::TooMany),
    }
}

/// Gives each bookie of the first line that has no number the next one: its place among the names. After an `Err` some may
/// have theirs.
fn number_bookies(names: &mut NameList, head: &Head) -> Result<(), NumberFault>
    ensures numbered { OnOk result (names.new ≡ model.with_bookies names.old head.now) }
    ensures full { IfErr result (λ fault. fault ≡ NumberFault.TooMany
        → length names.new ≡ MAX_NAMES) }
{
    for bookie in head.bookies.as_slice() {
        number_member(names, &bookie.name)?;
    }
    Ok(())
}

/// Gives each member of an ensemble that has no number the next one. After an `Err` some may have theirs.
fn number_ensemble(names: &mut NameList, ensemble: &[Name]) -> Result<(), NumberFault>
    ensures numbered { OnOk result (names.new ≡ fold with_name names.old ensemble.now) }
    ensures full { IfErr result (λ fault. fault ≡ NumberFault.TooMany
        → length names.new ≡ MAX_NAMES) }
{
    for name in ensemble {
        number_member(names, name)?;
    }
    Ok(())
}

/// Gives each member of the ledger's ensembles that has no number the next one: its place among the names. After an `Err`
/// some may have theirs.
fn number_members(names: &mut NameList, line: &LedgerLine) -> Result<(), NumberFault>
    ensures numbered { OnOk result (names.new ≡ model.with_members names.old line.now) }
    ensures full { IfErr result (λ fault. fault ≡ NumberFault.TooMany
        → length names.new ≡ MAX_NAMES) }
{
    for fragment in line.fragments.as_slice() {
        number_ensemble(names, fragment.ensemble.as_slice())?;
    }
    Ok(())
}

/// Gives each bookie that a line names, as a bookie or as a member of an ensemble, the next number, if it has none. After an
/// `Err` some may have theirs.
pub fn number_line(names: &mut NameList, line: &Line) -> Result<(), CountFault>
    ensures { OnOk result (names.new ≡ model.with_line names.old line.now) }
{
    match line {
        Line::Head(head) => number_bookies(names, head)?,
        Line::Ledger(ledger) => number_members(names, ledger)?,
        Line::Unread(_) | Line::End(_) => {}
    }
    Ok(())
}

/// A fault of a line by itself, or that there is no memory to read it.
pub fn line_fault(located: LineFault) -> CountFault
    ensures { result ≡ of_own located.fault located }
{
    match located.fault {
        Fault::NoMemory => CountFault::NoMemory,
        _ => CountFault::Line(InventoryFault::Line(located)),
    }
}
