// What an event makes of the state.
ghost use Rattle.std.specs.Prelude.{◌≡◌, None, IfOk, IfErr};
ghost use Rattle.reh_model.specs.Refusals.{or_no_memory};
ghost use Rattle.reh_model.specs.Step.{refusal_of, after};
ghost use Rattle.reh_step.specs.Records.{IsRecordOf};

use crate::decisions::aim_of;
use crate::records;
use reh_cluster::{Changes, State};
use reh_types::{Event, Refusal};
use std::alloc::Global;

/// The record of the event, one change for each place in which the state differs after it, or the first refusal that
/// applies to it. Exchanged with the state it makes the event, and exchanged again it takes it back.
///
/// Out of memory comes after all other refusals: it is answered only where the event is accepted.
pub fn decide(alloc: Global, state: &State, event: &Event) -> Result<Changes, Refusal>
    ensures accepted { IfOk result (λ _. refusal_of state.now event.now ≡ None) }
    ensures delta { IfOk result (IsRecordOf state.now event.now) }
    ensures err { IfErr result
        (λ refusal. refusal ≡ or_no_memory (refusal_of state.now event.now)) }
{
    match event {
        Event::Lose { bookie } => records::lose(state, *bookie),
        Event::Join { bookie } => records::join(state, *bookie),
        Event::Audit => records::audit(alloc, state),
        Event::Acquire { worker, ledger } => records::acquire(state, *worker, *ledger),
        Event::Release { worker, ledger } => records::release(state, *worker, *ledger),
        Event::Finish { worker, ledger } => records::finish(alloc, state, *worker, *ledger),
        Event::Expire { worker } => records::expire(alloc, state, *worker),
        Event::Grace { worker, ledger } => records::grace(state, *worker, *ledger),
        Event::Tick { ticks } => records::tick(state, *ticks),
        Event::Roll {
            ledger,
            index,
            bookie,
        } => records::roll(alloc, state, *ledger, *index, *bookie),
        Event::Fence { worker, ledger } => records::fence(alloc, state, *worker, *ledger),
        Event::Seal { worker, ledger } => records::seal(alloc, state, *worker, *ledger),
        Event::Copy {
            worker,
            ledger,
            fragment,
            index,
            version,
        } => records::copy(
            alloc,
            state,
            &aim_of(*worker, *ledger, *fragment, *index),
            *version,
        ),
        Event::Swap {
            worker,
            ledger,
            fragment,
            index,
            version,
        } => records::swap(
            state,
            &aim_of(*worker, *ledger, *fragment, *index),
            *version,
        ),
        Event::Disable => records::disable(state),
        Event::Enable => records::enable(state),
    }
}

/// The state after the event, or the first refusal that applies to it; the state that it is made on stays as it was.
///
/// Out of memory comes after all other refusals: it is answered only where the event is accepted. The new
/// state is a copy, on the old one's allocator, with which the event's record is exchanged.
/// The events are those of BookKeeper's AutoRecovery: its auditor publishes tasks, once the delay after a loss is over,
/// and its replication workers lock them, give their locks back, end them, or lose them with their sessions. A worker
/// copies a fragment's entries to its own bookie, and then puts that bookie into the fragment's ensemble. Where an open
/// ledger misses a member of its last ensemble, a worker grants its writer a grace, in which the writer may go on
/// with another bookie; when the grace is over, the worker fences the ledger, and a recovery closes it at its end.
/// Before a maintenance the operator disables AutoRecovery: nothing is published or locked then, and workers go on with
/// the tasks that they have locked.
pub fn step(alloc: Global, state: &State, event: &Event) -> Result<State, Refusal>
    ensures accepted { IfOk result (λ _. refusal_of state.now event.now ≡ None) }
    ensures made { IfOk result (λ next. next ≡ after state.now event.now) }
    ensures err { IfErr result
        (λ refusal. refusal ≡ or_no_memory (refusal_of state.now event.now)) }
{
    let mut changes = decide(alloc, state, event)?;
    let mut next = state.clone_in()?;
    next.exchange(&mut changes);
    Ok(next)
}
