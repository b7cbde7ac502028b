// What a plan must not leave, unless its script is full.
ghost use Rattle.std.specs.Prelude.{◌≡◌, ◌≢◌, ℕ, false, IfOk, IfSome, IsFalse, IsTrue, None, OnOk, is_none, is_some};
ghost use Rattle.reh_model.specs.Metadata as meta;
ghost use Rattle.reh_model.specs.Metadata.{is_in_recovery};
ghost use Rattle.reh_model.specs.Refusals.{no_place};
ghost use Rattle.reh_plan.specs.Ends as model;
ghost use Rattle.reh_plan.specs.Plans.{IsThrough};
ghost use Rattle.reh_plan.specs.Workers.{may_work};

use crate::faults::PlanFault;
use crate::needed::are_used;
use crate::plans::Plan;
use crate::recoveries::can_recover;
use crate::rolls::can_roll;
use crate::workers::Workers;
use reh_audit::under_of;
use reh_cluster::{Ledger, State};
use reh_scan::{check_place, first_unreadable};
use reh_types::{Aim, BookieIx, LedgerState, MAX_VERSION};
use std::alloc::{AllocError, Global};

/// Whether the worker of the aim could take its place, if it had the ledger's lock.
pub(crate) fn is_fill_accepted(state: &State, ledger: &Ledger, aim: &Aim) -> bool
    ensures { result ≡ is_none (model.fill_refusal state.now aim.now.worker ledger.now aim.now.fragment aim.now.index) }
{
    match check_place(state, ledger, aim) {
        Ok((fragment, entries)) => {
            first_unreadable(state, ledger, fragment, entries).is_none()
                && ledger.metadata().version() != MAX_VERSION
        }
        Err(_) => false,
    }
}

/// Whether the member at that index of a fragment is registered.
fn has_member(state: &State, ledger: &Ledger, fragment: usize, index: usize) -> bool
    ensures { IsTrue result → (b : ℕ) → no_place state.now b ledger.now fragment index ≢ None }
{
    match ledger.metadata().fragments().get(fragment) {
        Some(fragment) => match fragment.ensemble.get(index) {
            Some(member) => state.is_up(*member),
            None => false,
        },
        None => false,
    }
}

/// A bookie that may work and could take that place, if the place's entries can be copied.
fn taker(
    state: &State,
    workers: &Workers,
    ledger: &Ledger,
    fragment: usize,
    index: usize,
) -> Option<BookieIx>
    ensures none { (b : ℕ) → result ≡ None → IsTrue (may_work workers.now.rules b)
        → no_place state.now b ledger.now fragment index ≢ None }
    ensures some { IfSome result (λ b. no_place state.now b ledger.now fragment index ≡ None) }
{
    if has_member(state, ledger, fragment, index) {
        return None;
    }
    for number in 0..state.names().len() as u8 {
        let bookie = BookieIx(number);
        if workers.is_able(bookie)
            && check_place(state, ledger, &aim_at(bookie, ledger, fragment, index)).is_ok()
        {
            return Some(bookie);
        }
    }
    None
}

/// That place, for a worker.
pub(crate) fn aim_at(worker: BookieIx, ledger: &Ledger, fragment: usize, index: usize) -> Aim
    ensures { result ≡ record { worker = worker; ledger = ledger.now.id; fragment = fragment; index = index } }
{
    Aim {
        worker,
        ledger: ledger.id(),
        fragment: fragment as u64,
        index: index as u64,
    }
}

/// Whether some bookie that may work can take that place.
fn can_fill(
    state: &State,
    workers: &Workers,
    ledger: &Ledger,
    fragment: usize,
    index: usize,
) -> bool
    ensures { IsFalse result → model.IsFilled (may_work workers.now.rules) state.now ledger.now fragment index }
{
    match taker(state, workers, ledger, fragment, index) {
        Some(worker) => is_fill_accepted(state, ledger, &aim_at(worker, ledger, fragment, index)),
        None => false,
    }
}

/// The same of some place of a fragment.
fn can_fill_fragment(state: &State, workers: &Workers, ledger: &Ledger, fragment: usize) -> bool
    ensures { IsFalse result → (i : ℕ) → model.IsFilled (may_work workers.now.rules) state.now ledger.now fragment i }
{
    for index in 0..ledger.metadata().size() as usize {
        if can_fill(state, workers, ledger, fragment, index) {
            return true;
        }
    }
    false
}

/// The same of some place of a ledger.
fn can_fill_ledger(state: &State, workers: &Workers, ledger: &Ledger) -> bool
    ensures { IsFalse result → model.AllFilled (may_work workers.now.rules) state.now ledger.now }
{
    for fragment in 0..ledger.metadata().fragments().len() {
        if can_fill_fragment(state, workers, ledger, fragment) {
            return true;
        }
    }
    false
}

/// Whether the ledger has a task, though each member of its ensembles is registered.
fn is_needless(state: &State, ledger: &Ledger) -> bool
    ensures { result ≡ model.is_needless state.now ledger.now }
{
    ledger.task().is_some() && under_of(state, ledger).is_none()
}

/// Whether each ledger is in recovery, in picture order.
pub(crate) fn recovering_in(alloc: Global, state: &State) -> Result<Vec<bool>, AllocError>
    ensures { IfOk result (λ recovering. recovering.items ≡ model.recovering state.now) }
{
    let mut recovering = Vec::new(alloc);
    for ledger in state.ledgers() {
        recovering.push(is_recovering(ledger))?;
    }
    Ok(recovering)
}

/// Whether a ledger is in recovery.
pub(crate) fn is_recovering(ledger: &Ledger) -> bool
    ensures { result ≡ is_in_recovery ledger.now.metadata.state }
{
    match ledger.metadata().state() {
        LedgerState::InRecovery => true,
        LedgerState::Open => false,
        LedgerState::Closed { end: _ } => false,
    }
}

/// Whether no ledger is in recovery but those that were.
fn is_harmless(state: &State, recovering: &[bool]) -> bool
    ensures { IsTrue result → model.AreAmong (model.recovering state.now) recovering.now }
{
    for (place, ledger) in state.ledgers().iter().enumerate() {
        if is_recovering(ledger) && !is_flagged(recovering, place) {
            return false;
        }
    }
    true
}

/// Whether the flag at that place is there and set.
fn is_flagged(flags: &[bool], place: usize) -> bool
    ensures { result ≡ model.flag_at flags.now place }
{
    match flags.get(place) {
        Some(flag) => *flag,
        None => false,
    }
}

/// Checks that a plan leaves no ledger in recovery but those that were.
pub(crate) fn check_harmless(state: &State, recovering: &[bool]) -> Result<(), PlanFault>
    ensures { OnOk result (model.AreAmong (model.recovering state.now) recovering.now) }
{
    if is_harmless(state, recovering) {
        Ok(())
    } else {
        Err(PlanFault::Unfinished)
    }
}

/// Whether a bookie that may work could be put into the ledger's last ensemble by its writer, if it has one; or else could
/// recover it.
fn can_settle(state: &State, workers: &Workers, ledger: &Ledger) -> bool
    ensures { IsFalse result → model.IsSettled workers.now.rules state.now ledger.now }
{
    if has_writer(workers, ledger) {
        can_roll(state, workers, ledger.id())
    } else {
        can_recover(state, workers, ledger)
    }
}

/// Whether the ledger has a writer that changes its ensemble itself.
pub(crate) fn has_writer(workers: &Workers, ledger: &Ledger) -> bool
    ensures { result ≡ model.has_writer workers.now.rules ledger.now }
{
    workers.do_writers_roll() && is_open(ledger)
}

/// Whether a ledger is open.
pub(crate) fn is_open(ledger: &Ledger) -> bool
    ensures { result ≡ meta.is_open ledger.now.metadata.state }
{
    match ledger.metadata().state() {
        LedgerState::Open => true,
        LedgerState::InRecovery => false,
        LedgerState::Closed { end: _ } => false,
    }
}

/// Whether a ledger has a place that could be filled, could be recovered, or given a bookie by its writer, each by one that may
/// work, is locked, or has a needless task.
fn is_unfinished(state: &State, workers: &Workers, ledger: &Ledger) -> bool
    ensures filled { IsFalse result → model.AllFilled (may_work workers.now.rules) state.now ledger.now }
    ensures settled { IsFalse result → model.IsSettled workers.now.rules state.now ledger.now }
    ensures unlocked { IsFalse result → is_some ledger.now.lock ≡ false }
    ensures needed { IsFalse result → model.is_needless state.now ledger.now ≡ false }
{
    can_fill_ledger(state, workers, ledger)
        || can_settle(state, workers, ledger)
        || ledger.lock().is_some()
        || is_needless(state, ledger)
}

/// Whether some ledger is unfinished.
fn has_unfinished(state: &State, workers: &Workers) -> bool
    ensures { IsFalse result → model.IsDone workers.now.rules state.now }
{
    for ledger in state.ledgers() {
        if is_unfinished(state, workers, ledger) {
            return true;
        }
    }
    false
}

/// Whether a plan leaves a place that could be filled, a ledger that could be recovered, or given a bookie by its writer, each
/// by one that may work, a lock or a needless task, or has a lock, fence, copy or grace that is in vain, as its script is full.
/// Where the script has room, that is a fault.
pub(crate) fn is_cut_off(plan: &Plan, workers: &Workers) -> Result<bool, PlanFault>
    ensures full { IfOk result (λ cut_off. IsTrue cut_off → model.HasNoRoom plan.now.lines) }
    ensures through { IfOk result (λ cut_off. IsFalse cut_off → IsThrough workers.now.rules plan.now) }
{
    if !has_unfinished(plan.state(), workers) && are_used(plan.events()) {
        return Ok(false);
    }
    if plan.is_full() {
        Ok(true)
    } else {
        Err(PlanFault::Unfinished)
    }
}
