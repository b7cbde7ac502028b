// The ten worst of the ledgers that are found one after the other.
ghost use Rattle.std.specs.Prelude.{◌≡◌, [], ◌∷◌, ◌++◌, All, Contains, IsPermutation, List, OnOk, map};
ghost use Rattle.std.specs.List.Sorted.{IsSortedBy};
ghost use Rattle.reh_against.specs.declared.found.Found.{Found as FoundValue};
ghost use Rattle.reh_against.specs.Worst.{AreWorst, comes_before};
ghost use Rattle.reh_against.specs.Weighed as model;

use crate::found::Found;
use reh_census::Ledger;
use std::alloc::AllocError;

/// How many ledgers are named.
pub(crate) const MOST: usize = 10;

/// A ledger that was found, and the parts of the ledger itself.
#[derive(Drop)]
pub(crate) struct Kept {
    pub(crate) found: Found,
    pub(crate) parts: Vec<Ledger>,
}

/// Whether the first comes before the other.
fn comes_before(one: &Found, other: &Found) -> bool
    ensures { result ≡ comes_before one.now other.now }
{
    one < other
}

/// Adds a ledger, and puts them in their order.
fn insert(kept: &mut Vec<Kept>, more: Kept) -> Result<(), AllocError>
    ensures same { OnOk result (IsPermutation (kept.old.items ++ more ∷ []) kept.new.items) }
    ensures sorted { OnOk result (IsSortedBy model.kept_before kept.new.items) }
{
    kept.push(more)?;
    kept.sort_by(|one, other| one.found.cmp(&other.found))?;
    Ok(())
}

/// Adds a ledger, if it is one of the ten worst. After an `Err` some may be gone.
pub(crate) fn keep(kept: &mut Vec<Kept>, more: Kept) -> Result<(), AllocError>
    ensures worst { OnOk result ((found : List FoundValue) → AreWorst found (map model.found_of kept.old.items)
        → AreWorst (found ++ more.found ∷ []) (map model.found_of kept.new.items)) }
    ensures among { OnOk result (All (Contains (kept.old.items ++ more ∷ [])) kept.new.items) }
{
    if kept.len() < MOST {
        insert(kept, more)?;
        return Ok(());
    }
    let Some(last) = kept.pop() else {
        return Ok(())
    };
    if comes_before(&more.found, &last.found) {
        insert(kept, more)?;
        return Ok(());
    }
    kept.push(last)?;
    Ok(())
}
