// Whether no lock, fence, copy or grace of a plan is in vain.
ghost use Rattle.std.specs.Prelude.{◌≡◌};
ghost use Rattle.std.specs.List.{list_any};
ghost use Rattle.reh_plan.specs.Needed as model;

use reh_types::{BookieIx, Event, LedgerId};

/// Whether what each of these events does is used after it.
pub(crate) fn are_used(events: &[Event]) -> bool
    ensures { result ≡ model.are_used events.now }
{
    for number in 0..events.len() {
        if !is_used(&events[number], &events[number + 1..]) {
            return false;
        }
    }
    true
}

/// Whether what an event does is used after it: a lock, a fence and a copy at once, and a grace by a fence.
fn is_used(event: &Event, rest: &[Event]) -> bool
    ensures { result ≡ model.is_used event.now rest.now }
{
    match event {
        Event::Acquire { worker, ledger } => match rest {
            [next, ..] => is_by(*worker, *ledger, next),
            [] => false,
        },
        Event::Fence { worker, ledger } => match rest {
            [next, ..] => is_seal(*worker, *ledger, next),
            [] => false,
        },
        Event::Copy {
            worker,
            ledger,
            fragment,
            index,
            version: _,
        } => match rest {
            [next, ..] => is_swap(*worker, *ledger, *fragment, *index, next),
            [] => false,
        },
        Event::Grace { worker, ledger } => has_fence(*worker, *ledger, rest),
        _ => true,
    }
}

/// Whether the worker grants a grace, closes the ledger or copies its entries by the event.
fn is_by(bookie: BookieIx, id: LedgerId, event: &Event) -> bool
    ensures { result ≡ model.is_by bookie id event.now }
{
    match event {
        Event::Grace { worker, ledger } => *worker == bookie && *ledger == id,
        Event::Seal { worker, ledger } => *worker == bookie && *ledger == id,
        Event::Copy { worker, ledger, .. } => *worker == bookie && *ledger == id,
        _ => false,
    }
}

/// Whether the worker closes the ledger by the event.
fn is_seal(bookie: BookieIx, id: LedgerId, event: &Event) -> bool
    ensures { result ≡ model.is_seal bookie id event.now }
{
    match event {
        Event::Seal { worker, ledger } => *worker == bookie && *ledger == id,
        _ => false,
    }
}

/// Whether the worker takes that place by the event.
fn is_swap(bookie: BookieIx, id: LedgerId, number: u64, place: u64, event: &Event) -> bool
    ensures { result ≡ model.is_swap bookie id number place event.now }
{
    match event {
        Event::Swap {
            worker,
            ledger,
            fragment,
            index,
            version: _,
        } => *worker == bookie && *ledger == id && *fragment == number && *index == place,
        _ => false,
    }
}

/// Whether the worker fences the ledger by one of these events.
fn has_fence(bookie: BookieIx, id: LedgerId, events: &[Event]) -> bool
    ensures { result ≡ list_any (model.is_fence bookie id) events.now }
{
    for event in events {
        if is_fence(bookie, id, event) {
            return true;
        }
    }
    false
}

/// Whether the worker fences the ledger by the event.
fn is_fence(bookie: BookieIx, id: LedgerId, event: &Event) -> bool
    ensures { result ≡ model.is_fence bookie id event.now }
{
    match event {
        Event::Fence { worker, ledger } => *worker == bookie && *ledger == id,
        _ => false,
    }
}
