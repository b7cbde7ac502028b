// What answers an event: one function for each kind of event, which asks its decision and makes its record of what that
// found.
ghost use Rattle.std.specs.Prelude.{◌≡◌, ◌==◌, [], ◌∷◌, ◌++◌, position, None, IfOk};
ghost use Rattle.reh_types.specs.declared.changes.Change.TheVariants.{Metadata};
ghost use Rattle.reh_types.specs.declared.moves.Event.TheVariants.{Lose, Join, Audit, Acquire, Release, Finish, Expire};
ghost use Rattle.reh_types.specs.declared.moves.Event.TheVariants.{Grace, Tick, Roll, Fence, Seal, Copy, Swap};
ghost use Rattle.reh_types.specs.declared.moves.Event.TheVariants.{Disable, Enable};
ghost use Rattle.reh_model.specs.Cluster.{stripe_at};
ghost use Rattle.reh_model.specs.Recovery.{recovered_end};
ghost use Rattle.reh_model.specs.Records.{due_gone};
ghost use Rattle.reh_model.specs.Step.{refusal_of};
ghost use Rattle.reh_step.specs.Records as records;
ghost use Rattle.reh_step.specs.Records.{IsDecision, IsRecordOf, word_changes};

use crate::decisions::{
    check_acquire, check_audit, check_copy, check_disable, check_enable, check_expire, check_fence,
    check_finish, check_grace, check_join, check_lose, check_release, check_roll, check_seal,
    check_swap, check_tick,
};
use reh_audit::{is_news, published_of};
use reh_cluster::{Changes, Ledger, State};
use reh_held::Turn;
use reh_meta::{Fragment, LedgerMeta};
use reh_scan::{Found, last_fragment};
use reh_stripe::Striped;
use reh_types::{Aim, BookieIx, Change, LedgerId, Lock, Refusal, Scalar};
use std::alloc::{AllocError, Global};

/// The bookie's registration goes, at the tick of the clock.
pub(crate) fn lose(state: &State, bookie: BookieIx) -> Result<Changes, Refusal>
    ensures { IsDecision state.now (Lose bookie) result }
{
    check_lose(state, bookie)?;
    state.assert_well_formed();
    let lost_at = Some(state.clock());
    Ok(Changes::one(Change::Registration { bookie, lost_at }))
}

/// The bookie is registered.
pub(crate) fn join(state: &State, bookie: BookieIx) -> Result<Changes, Refusal>
    ensures { IsDecision state.now (Join bookie) result }
{
    check_join(state, bookie)?;
    state.assert_well_formed();
    let lost_at = None;
    Ok(Changes::one(Change::Registration { bookie, lost_at }))
}

/// Each task that an audit changes names the long-lost members too.
pub(crate) fn audit(alloc: Global, state: &State) -> Result<Changes, Refusal>
    ensures { IsDecision state.now Audit result }
{
    check_audit(state)?;
    let ledgers = state.ledgers();
    let mut list = Vec::new(alloc);
    for (place, ledger) in ledgers.iter().enumerate() {
        if is_news(state, ledger) {
            let task = Some(published_of(state, ledger));
            push(&mut list, Change::Task { place, task })?;
        }
    }
    Ok(Changes::of(list))
}

/// The worker locks the ledger's task.
pub(crate) fn acquire(state: &State, worker: BookieIx, ledger: LedgerId) -> Result<Changes, Refusal>
    ensures { IsDecision state.now (Acquire worker ledger) result }
{
    let found = check_acquire(state, worker, ledger)?;
    let lock = Some(Lock {
        owner: worker,
        due: None,
    });
    let place = found.place;
    Ok(Changes::one(Change::Lock { place, lock }))
}

/// The ledger's lock goes.
pub(crate) fn release(state: &State, worker: BookieIx, ledger: LedgerId) -> Result<Changes, Refusal>
    ensures { IsDecision state.now (Release worker ledger) result }
{
    let found = check_release(state, worker, ledger)?;
    let place = found.place;
    Ok(Changes::one(Change::Lock { place, lock: None }))
}

/// The ledger's task goes, and its lock.
pub(crate) fn finish(
    alloc: Global,
    state: &State,
    worker: BookieIx,
    ledger: LedgerId,
) -> Result<Changes, Refusal>
    ensures { IsDecision state.now (Finish worker ledger) result }
{
    let found = check_finish(state, worker, ledger)?;
    let place = found.place;
    let mut list = Vec::with_capacity(alloc, 2)?;
    push(&mut list, Change::Task { place, task: None })?;
    push(&mut list, Change::Lock { place, lock: None })?;
    Ok(Changes::of(list))
}

/// Each lock of the worker goes.
pub(crate) fn expire(alloc: Global, state: &State, worker: BookieIx) -> Result<Changes, Refusal>
    ensures { IsDecision state.now (Expire worker) result }
{
    check_expire(state, worker)?;
    let ledgers = state.ledgers();
    let mut list = Vec::new(alloc);
    for (place, ledger) in ledgers.iter().enumerate() {
        if ledger.is_locked_by(worker) {
            push(&mut list, Change::Lock { place, lock: None })?;
        }
    }
    Ok(Changes::of(list))
}

/// The due tick of the ledger's lock is set: a grace from now.
pub(crate) fn grace(state: &State, worker: BookieIx, ledger: LedgerId) -> Result<Changes, Refusal>
    ensures { IsDecision state.now (Grace worker ledger) result }
{
    let found = check_grace(state, worker, ledger)?;
    let lock = Some(Lock {
        owner: worker,
        due: Some(state.clock() + state.grace()),
    });
    let place = found.place;
    Ok(Changes::one(Change::Lock { place, lock }))
}

/// The clock goes on.
pub(crate) fn tick(state: &State, ticks: u64) -> Result<Changes, Refusal>
    ensures { IsDecision state.now (Tick ticks) result }
{
    check_tick(state, ticks)?;
    state.assert_well_formed();
    let clock = state.clock() + ticks;
    Ok(Changes::one(Change::Scalar(Scalar::Clock(clock))))
}

/// The bookie takes that index of the last ensemble, in a new fragment from the next entry on, or in the last fragment
/// itself while none of its entries is held. The ledger's metadata goes to its next version, and the due tick of its
/// lock goes.
pub(crate) fn roll(
    alloc: Global,
    state: &State,
    ledger: LedgerId,
    index: u64,
    bookie: BookieIx,
) -> Result<Changes, Refusal>
    ensures { IsDecision state.now (Roll ledger index bookie) result }
{
    let (found, next) = check_roll(state, ledger, index, bookie)?;
    let metadata = found.ledger.metadata();
    if next != last_fragment(found.ledger).first {
        let rolled = metadata.with_fragment(next, index as usize, bookie)?;
        let changes = without_due(alloc, found, rolled)?;
        return Ok(changes);
    }
    let last = metadata.fragments().len() - 1;
    let rolled = metadata.with_member(last, index as usize, bookie)?;
    let changes = without_due(alloc, found, rolled)?;
    Ok(changes)
}

/// The ledger is in recovery, its metadata goes to its next version, and the due tick of its lock goes.
pub(crate) fn fence(
    alloc: Global,
    state: &State,
    worker: BookieIx,
    ledger: LedgerId,
) -> Result<Changes, Refusal>
    ensures { IsDecision state.now (Fence worker ledger) result }
{
    let found = check_fence(state, worker, ledger)?;
    let fenced = found.ledger.metadata().fenced()?;
    let changes = without_due(alloc, found, fenced)?;
    Ok(changes)
}

/// The ledger is closed where its recovery ends it, its metadata goes to its next version, and each entry that the
/// recovery passes is held by all registered members of its write set, word by word. The lock stays.
pub(crate) fn seal(
    alloc: Global,
    state: &State,
    worker: BookieIx,
    ledger: LedgerId,
) -> Result<Changes, Refusal>
    ensures { IsDecision state.now (Seal worker ledger) result }
{
    let (found, end) = check_seal(state, worker, ledger)?;
    let metadata = found.ledger.metadata().sealed(end)?;
    let mut list = Vec::new(alloc);
    let place = found.place;
    push(&mut list, Change::Metadata { place, metadata })?;
    for bookie in 0..state.names().len() {
        let bookie = BookieIx(bookie as u8);
        let entries = recovered_by(state, found.ledger, end, bookie);
        let turns = state.delta_of(alloc, bookie, ledger, &entries)?;
        push_words(&mut list, bookie, ledger, &turns)?;
    }
    Ok(Changes::of(list))
}

/// The entries that the fragment stripes onto the index are held by the worker's bookie.
pub(crate) fn copy(
    alloc: Global,
    state: &State,
    aim: &Aim,
    version: u64,
) -> Result<Changes, Refusal>
    ensures { IsDecision state.now
        (Copy aim.now.worker aim.now.ledger aim.now.fragment aim.now.index version) result }
{
    let entries = check_copy(state, aim, version)?;
    let changes = copy_record(alloc, state, aim, version, entries)?;
    Ok(changes)
}

/// The worker's bookie takes that index of the fragment's ensemble, and the ledger's metadata goes to its next version.
/// BookKeeper's worker does so by `updateEnsembleInfo`, which writes the ledger's metadata conditional on its version.
pub(crate) fn swap(state: &State, aim: &Aim, version: u64) -> Result<Changes, Refusal>
    ensures { IsDecision state.now
        (Swap aim.now.worker aim.now.ledger aim.now.fragment aim.now.index version) result }
{
    let found = check_swap(state, aim, version)?;
    let stored = found.ledger.metadata();
    let metadata = stored.with_member(aim.fragment as usize, aim.index as usize, aim.worker)?;
    let place = found.place;
    Ok(Changes::one(Change::Metadata { place, metadata }))
}

/// AutoRecovery is disabled.
pub(crate) fn disable(state: &State) -> Result<Changes, Refusal>
    ensures { IsDecision state.now Disable result }
{
    check_disable(state)?;
    state.assert_well_formed();
    Ok(Changes::one(Change::Scalar(Scalar::Enabled(false))))
}

/// AutoRecovery is enabled.
pub(crate) fn enable(state: &State) -> Result<Changes, Refusal>
    ensures { IsDecision state.now Enable result }
{
    check_enable(state)?;
    state.assert_well_formed();
    Ok(Changes::one(Change::Scalar(Scalar::Enabled(true))))
}

// Copies

/// The record of a copy of these entries that is accepted: word by word, those that the worker's bookie lacks.
pub fn copy_record(
    alloc: Global,
    state: &State,
    aim: &Aim,
    version: u64,
    entries: Striped,
) -> Result<Changes, AllocError>
    requires accepted { refusal_of state.now
        (Copy aim.now.worker aim.now.ledger aim.now.fragment aim.now.index version) ≡ None }
    requires entries { entries ≡ stripe_at state.now aim.now.ledger aim.now.fragment aim.now.index }
    ensures { IfOk result (IsRecordOf state.now
        (Copy aim.now.worker aim.now.ledger aim.now.fragment aim.now.index version)) }
{
    state.assert_well_formed();
    let turns = state.delta_of(alloc, aim.worker, aim.ledger, &entries)?;
    let mut list = Vec::with_capacity(alloc, turns.len())?;
    push_words(&mut list, aim.worker, aim.ledger, &turns)?;
    Ok(Changes::of(list))
}

// Open ledgers

/// The record of the ledger's metadata that changes, and of its lock, whose due tick goes if it has one.
fn without_due(alloc: Global, found: Found<'_>, metadata: LedgerMeta) -> Result<Changes, AllocError>
    ensures { IfOk result
        (λ changes. changes
        ≡ Metadata found.entry.place metadata ∷ due_gone found.entry.place found.entry.ledger.now) }
{
    let place = found.place;
    let metadata = Change::Metadata { place, metadata };
    match found.ledger.lock() {
        Some(
            Lock {
                owner,
                due: Some(_),
            },
        ) => {
            let lock = Some(Lock { owner, due: None });
            let mut list = Vec::with_capacity(alloc, 2)?;
            list.push(metadata)?;
            list.push(Change::Lock { place, lock })?;
            Ok(Changes::of(list))
        }
        _ => Ok(Changes::one(metadata)),
    }
}

/// The entries that a recovery of the ledger up to this end writes back to the bookie; none for one that isn't
/// registered, or is no member of the last ensemble.
fn recovered_by(state: &State, ledger: &Ledger, end: u32, bookie: BookieIx) -> Striped
    requires { end ≡ recovered_end state.now ledger.now }
    ensures { result ≡ records.recovered_by state.now ledger.now bookie }
{
    let metadata = ledger.metadata();
    let (size, quorum) = (metadata.size(), metadata.write_quorum());
    let last = last_fragment(ledger);
    let Some(index) = registered_index(state, last, bookie) else {
        return Striped::new(last.first, last.first, 0, size, quorum);
    };
    Striped::new(last.first, end, index as u32, size, quorum)
}

/// The index of the bookie in the fragment's ensemble, if it is there and registered.
fn registered_index(state: &State, fragment: &Fragment, bookie: BookieIx) -> Option<usize>
    ensures { result ≡ records.registered_index state.now fragment.now.ensemble bookie }
{
    if state.is_up(bookie) {
        member_index(fragment, bookie)
    } else {
        None
    }
}

/// The index of the bookie in the fragment's ensemble, if it is there.
fn member_index(fragment: &Fragment, bookie: BookieIx) -> Option<usize>
    ensures { result ≡ position (λ member. member == bookie) fragment.now.ensemble }
{
    fragment
        .ensemble
        .iter()
        .position(|member| *member == bookie)
}

// Changes

/// Adds a change.
fn push(list: &mut Vec<Change<LedgerMeta>>, change: Change<LedgerMeta>) -> Result<(), AllocError>
    ensures { IfOk result (λ _. list.new.items ≡ list.old.items ++ change ∷ []) }
{
    list.push(change)?;
    Ok(())
}

/// Adds the words that turn, as changes of what the bookie holds of the ledger.
fn push_words(
    list: &mut Vec<Change<LedgerMeta>>,
    bookie: BookieIx,
    ledger: LedgerId,
    turns: &[Turn],
) -> Result<(), AllocError>
    ensures { IfOk result
        (λ _. list.new.items ≡ list.old.items ++ word_changes bookie ledger turns.now) }
{
    for turn in turns {
        list.push(Change::Word {
            bookie,
            ledger,
            number: turn.number,
            bits: turn.bits,
        })?;
    }
    Ok(())
}
