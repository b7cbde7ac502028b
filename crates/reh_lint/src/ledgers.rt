// The ledgers of a picture, and the one that a line names.
ghost use Rattle.std.specs.Prelude.{◌≡◌, IfOk};
ghost use Rattle.reh_lint.specs.Ledgers as model;

use reh_cluster::State;
use reh_commands::Command;
use reh_types::{Event, LedgerId, Move};
use std::alloc::{AllocError, Global};

/// The ids of the ledgers that there are, in picture order.
pub(crate) fn ledger_ids(alloc: Global, state: &State) -> Result<Vec<u64>, AllocError>
    ensures { IfOk result (λ ids. ids.items ≡ model.ids_of state.now) }
{
    let mut ids = Vec::new(alloc);
    for ledger in state.ledgers() {
        ids.push(ledger.id().0)?;
    }
    Ok(ids)
}

/// The ledger that a command names, if there is no ledger of that id.
pub fn missing_ledger(state: &State, command: &Command) -> Option<LedgerId>
    ensures { result ≡ model.missing_ledger state.now command.now }
{
    let id = named_ledger(command)?;
    match state.ledger(id) {
        Some(_) => None,
        None => Some(id),
    }
}

/// The ledger that a command names, if it names one.
fn named_ledger(command: &Command) -> Option<LedgerId>
    ensures { result ≡ model.named_ledger command.now }
{
    match command {
        Command::Make(Move::Do(event)) => event_ledger(*event),
        Command::Checkout(aim) => Some(aim.ledger),
        _ => None,
    }
}

/// The ledger that an event names, if it names one.
fn event_ledger(event: Event) -> Option<LedgerId>
    ensures { result ≡ model.event_ledger event }
{
    match event {
        Event::Acquire { ledger, .. }
        | Event::Release { ledger, .. }
        | Event::Finish { ledger, .. }
        | Event::Grace { ledger, .. }
        | Event::Roll { ledger, .. }
        | Event::Fence { ledger, .. }
        | Event::Seal { ledger, .. }
        | Event::Copy { ledger, .. }
        | Event::Swap { ledger, .. } => Some(ledger),
        Event::Lose { .. }
        | Event::Join { .. }
        | Event::Audit
        | Event::Expire { .. }
        | Event::Tick { .. }
        | Event::Disable
        | Event::Enable => None,
    }
}
