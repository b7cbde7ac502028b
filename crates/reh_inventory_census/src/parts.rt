// The parts of a ledger, each of which is counted by itself.
ghost use Rattle.std.specs.Prelude.{◌≡◌, ◌∷◌, [], IfOk, OnOk};
ghost use Rattle.std.specs.Option.{option_map_or};
ghost use Rattle.reh_inventory_census.specs.Parts as model;

use reh_inventory::{Fragment, FragmentList, LedgerLine, LedgerState};
use std::alloc::{AllocError, Global};

/// The state of a ledger that isn't closed, and its last fragment.
#[derive(Drop)]
pub(crate) struct Other {
    state: LedgerState,
    last: Fragment,
}

/// Whether the ledger is counted in two parts: it isn't closed, and has several fragments.
fn has_parts(line: &LedgerLine) -> bool
    ensures { result ≡ model.has_parts line.now }
{
    match line.state {
        LedgerState::Open | LedgerState::InRecovery => line.fragments.as_slice().len() > 1,
        LedgerState::Closed { .. } => false,
    }
}

/// Leaves of a ledger the part that is counted first, and hands back what the second one has, if there is one: what is told
/// they share.
pub(crate) fn split(line: &mut LedgerLine) -> Option<Other>
    ensures { line.new ∷ option_map_or (λ other. model.second line.new other ∷ []) result [] ≡ model.parts_of line.old }
{
    if !has_parts(line) {
        return None;
    }
    let last = line.fragments.pop()?;
    let state = line.state;
    line.state = LedgerState::Closed { end: last.first };
    Some(Other { state, last })
}

/// Makes the second part of the first. After an `Err` it may be neither.
pub(crate) fn make_second(
    alloc: Global,
    line: &mut LedgerLine,
    other: Other,
) -> Result<(), AllocError>
    ensures { OnOk result (line.new ≡ model.second line.old other) }
{
    let Other { state, last } = other;
    line.state = state;
    line.fragments = alone(alloc, last)?;
    Ok(())
}

/// A list of this fragment alone.
fn alone(alloc: Global, fragment: Fragment) -> Result<FragmentList, AllocError>
    ensures { IfOk result (λ fragments. fragments ≡ fragment ∷ []) }
{
    let mut fragments = Vec::new(alloc);
    fragments.push(fragment)?;
    Ok(FragmentList::of(fragments))
}
