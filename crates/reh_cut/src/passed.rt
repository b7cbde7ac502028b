// Which limits of a picture ledgers of an inventory pass.
ghost use Rattle.std.specs.Prelude.{◌≡◌, option_copied};
ghost use Rattle.reh_cut.specs.Faults.{FailsWith};
ghost use Rattle.reh_cut.specs.Passed as model;

use crate::checks::bound_of;
use crate::faults::CutFault;
use crate::limits::{LedgerLimit, Limit, Past, Sum, Total, TotalLimit, Twice, WayOut};
use reh_inventory::{Fragment, LedgerLine, Name};
use reh_inventory_census::last_first;
use reh_types::{
    ENTRY_END, MAX_ENSEMBLE_SIZE, MAX_ENTRY_ID, MAX_FRAGMENTS, MAX_LEDGER_ID, MAX_LEDGERS,
    MAX_PICTURE_BYTES, MAX_VERSION,
};
use reh_window::width_of;
use std::alloc::Global;

/// The first number of a line, beside its entries and fragments, that is past a limit of a picture.
fn number_limit(line: &LedgerLine) -> Option<Limit>
    ensures { result ≡ model.number_limit line.now }
{
    let version = line.version.unwrap_or(0);
    if line.id > MAX_LEDGER_ID {
        Some(Limit::Ledger(
            line.id,
            Past {
                limit: LedgerLimit::Id,
                number: line.id,
            },
        ))
    } else if line.sizes.ensemble > MAX_ENSEMBLE_SIZE {
        Some(Limit::Ledger(
            line.id,
            Past {
                limit: LedgerLimit::EnsembleSize,
                number: line.sizes.ensemble,
            },
        ))
    } else if version > MAX_VERSION {
        Some(Limit::Ledger(
            line.id,
            Past {
                limit: LedgerLimit::Version,
                number: version,
            },
        ))
    } else {
        None
    }
}

/// The limit of a picture that the line's entries pass, or its fragments.
fn entry_limit(line: &LedgerLine) -> Option<Limit>
    ensures { result ≡ model.entry_limit line.now }
{
    let bound = bound_of(line);
    let first = last_first(line);
    let fragments = line.fragments.as_slice().len();
    if bound > ENTRY_END {
        Some(Limit::Entries(line.id, bound - 1, WayOut(width_of(line))))
    } else if first > MAX_ENTRY_ID {
        Some(Limit::Fragment(line.id, first, WayOut(width_of(line))))
    } else if fragments > MAX_FRAGMENTS {
        Some(Limit::Ledger(
            line.id,
            Past {
                limit: LedgerLimit::Fragments,
                number: fragments as u64,
            },
        ))
    } else {
        None
    }
}

/// Whether more than one of the members has this name.
fn stands_twice(ensemble: &[Name], name: &Name) -> bool
    ensures { result ≡ model.stands_twice ensemble.now name.now }
{
    let mut count: usize = 0;
    for member in ensemble {
        if member.as_str() == name.as_str() {
            count += 1;
        }
    }
    count > 1
}

/// The first member that stands twice in an ensemble, if one does.
fn repeated_in(ensemble: &[Name]) -> Option<&Name>
    ensures { option_copied result ≡ model.repeated_in ensemble.now }
{
    for member in ensemble {
        if stands_twice(ensemble, member) {
            return Some(member);
        }
    }
    None
}

/// Whether a bookie stands twice in the ensemble.
fn repeats(fragment: &Fragment) -> bool
    ensures { result ≡ model.repeats fragment.now }
{
    repeated_in(fragment.ensemble.as_slice()).is_some()
}

/// The first fragment that has a bookie twice in its ensemble, if one does.
fn first_repeating(line: &LedgerLine) -> Option<&Fragment>
    ensures { option_copied result ≡ model.first_repeating line.now }
{
    for fragment in line.fragments.as_slice() {
        if repeats(fragment) {
            return Some(fragment);
        }
    }
    None
}

/// That no number of the line is past a limit of a picture.
fn check_numbers(line: &LedgerLine) -> Result<(), CutFault>
    ensures { FailsWith result (model.as_fault (model.number_limit line.now)) }
{
    match number_limit(line) {
        Some(limit) => Err(CutFault::Limit(limit)),
        None => Ok(()),
    }
}

/// That the line's entries and fragments are within the limits.
fn check_entries(line: &LedgerLine) -> Result<(), CutFault>
    ensures { FailsWith result (model.as_fault (model.entry_limit line.now)) }
{
    match entry_limit(line) {
        Some(limit) => Err(CutFault::Limit(limit)),
        None => Ok(()),
    }
}

/// That the fragment, of the ledger of this id, has no bookie twice in its ensemble.
fn check_ensemble(alloc: Global, id: u64, fragment: &Fragment) -> Result<(), CutFault>
    ensures { FailsWith result (model.as_fault (model.ensemble_limit id fragment.now)) }
{
    match repeated_in(fragment.ensemble.as_slice()) {
        Some(name) => {
            let name = Name::new(alloc, name.as_str())?;
            Err(CutFault::Limit(Limit::Twice(id, Twice(name, fragment.first))))
        }
        None => Ok(()),
    }
}

/// That no ensemble of the line has a bookie twice.
fn check_ensembles(alloc: Global, line: &LedgerLine) -> Result<(), CutFault>
    ensures { FailsWith result (model.as_fault (model.member_limit line.now)) }
{
    match first_repeating(line) {
        Some(fragment) => check_ensemble(alloc, line.id, fragment),
        None => Ok(()),
    }
}

/// That the line passes no limit of a picture.
pub(crate) fn check_limits(alloc: Global, line: &LedgerLine) -> Result<(), CutFault>
    ensures { FailsWith result (model.limits_fault line.now) }
{
    check_numbers(line)?;
    check_ensembles(alloc, line)?;
    check_entries(line)
}

/// That these ledgers, so many, have this number together, which is past a limit.
pub(crate) fn past_total(limit: TotalLimit, number: u64, ledgers: usize) -> CutFault
    ensures { result ≡ model.past_total limit number ledgers }
{
    let sum = Sum { limit, number };
    CutFault::Limit(Limit::Total(Total { sum, ledgers }))
}

/// That a picture may have so many ledgers.
pub(crate) fn check_count(ledgers: usize) -> Result<(), CutFault>
    ensures { FailsWith result (model.count_fault ledgers) }
{
    if ledgers > MAX_LEDGERS {
        return Err(past_total(TotalLimit::Ledgers, ledgers as u64, ledgers));
    }
    Ok(())
}

/// That the picture of so many ledgers may have so many bytes.
pub(crate) fn check_size(bytes: usize, ledgers: usize) -> Result<(), CutFault>
    ensures { FailsWith result (model.size_fault bytes ledgers) }
{
    if bytes > MAX_PICTURE_BYTES {
        return Err(past_total(TotalLimit::Bytes, bytes as u64, ledgers));
    }
    Ok(())
}
