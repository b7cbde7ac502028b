// Ledgers that a plan closes so that entries may be missing.
ghost use Rattle.std.specs.Prelude.{◌≡◌, ◌++◌, false, IfOk, OnOk};
ghost use Rattle.std.specs.Option.{option_map_or};
ghost use Rattle.reh_model.specs.Cluster.{ledger_at};
ghost use Rattle.reh_inventory_plan.specs.Tails as model;

use reh_cluster::{Ledger, State};
use reh_scan::last_fragment;
use reh_types::{LedgerId, LedgerState};
use std::alloc::{AllocError, Global};

/// Adds the ledgers that aren't closed, in picture order.
pub fn add_unclosed(open: &mut Vec<LedgerId>, state: &State) -> Result<(), AllocError>
    ensures { OnOk result (open.new.items ≡ open.old.items ++ model.unclosed state.now.parts.ledgers) }
{
    for ledger in state.ledgers() {
        push_unclosed(open, ledger)?;
    }
    Ok(())
}

/// Adds a ledger, if it isn't closed.
fn push_unclosed(open: &mut Vec<LedgerId>, ledger: &Ledger) -> Result<(), AllocError>
    ensures { OnOk result (open.new.items ≡ open.old.items ++ model.unclosed_one ledger.now) }
{
    match ledger.metadata().state() {
        LedgerState::Open | LedgerState::InRecovery => open.push(ledger.id())?,
        LedgerState::Closed { end: _ } => {}
    }
    Ok(())
}

/// Which ledgers of some a plan closes so that entries may be missing.
#[derive(Drop)]
pub struct Tails {
    /// Those whose last fragment is empty then.
    pub empty: Vec<LedgerId>,
    /// Those that are closed before an entry that some bookie holds, be it registered or not.
    pub short: Vec<LedgerId>,
}

/// Which of these ledgers the state has closed so.
pub fn tails_of(alloc: Global, state: &State, open: &[LedgerId]) -> Result<Tails, AllocError>
    ensures empty { IfOk result (λ tails. tails.empty.items ≡ model.closed_empty state.now open.now) }
    ensures short { IfOk result (λ tails. tails.short.items ≡ model.closed_short state.now open.now) }
{
    let mut empty = Vec::new(alloc);
    let mut short = Vec::new(alloc);
    for ledger in open {
        push_if(&mut empty, *ledger, is_empty_in(state, *ledger))?;
        push_if(&mut short, *ledger, is_short_in(state, *ledger))?;
    }
    Ok(Tails { empty, short })
}

/// Adds a ledger, if this is so.
fn push_if(ledgers: &mut Vec<LedgerId>, ledger: LedgerId, is_so: bool) -> Result<(), AllocError>
    ensures { OnOk result (ledgers.new.items ≡ ledgers.old.items ++ model.one_if ledger is_so) }
{
    if is_so {
        ledgers.push(ledger)?;
    }
    Ok(())
}

/// Whether the ledger is closed without an entry of its last fragment.
pub(crate) fn is_empty_in(state: &State, ledger: LedgerId) -> bool
    ensures { result ≡ option_map_or model.is_closed_empty (ledger_at state.now ledger) false }
{
    match state.ledger(ledger) {
        Some(ledger) => is_closed_empty(ledger),
        None => false,
    }
}

/// The same of a ledger of a state.
fn is_closed_empty(ledger: &Ledger) -> bool
    ensures { result ≡ model.is_closed_empty ledger.now }
{
    match ledger.metadata().state() {
        LedgerState::Closed { end } => end <= last_fragment(ledger).first,
        LedgerState::Open | LedgerState::InRecovery => false,
    }
}

/// Whether the ledger is closed before an entry that some bookie holds.
pub(crate) fn is_short_in(state: &State, ledger: LedgerId) -> bool
    ensures { result ≡ option_map_or (model.is_closed_short state.now) (ledger_at state.now ledger) false }
{
    match state.ledger(ledger) {
        Some(ledger) => is_closed_short(state, ledger),
        None => false,
    }
}

/// The same of a ledger of a state.
fn is_closed_short(state: &State, ledger: &Ledger) -> bool
    ensures { result ≡ model.is_closed_short state.now ledger.now }
{
    match (ledger.metadata().state(), state.greatest(ledger.id())) {
        (LedgerState::Closed { end }, Some(greatest)) => end <= greatest,
        _ => false,
    }
}
