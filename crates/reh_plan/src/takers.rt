// Whether each place of a plan goes to a bookie with which the fewest write sets lack racks.
ghost use Rattle.std.specs.Prelude.{◌≡◌, ◌++◌, ◌-◌, [], length, take, IsTrue};
ghost use Rattle.reh_plan.specs.Racks.{lacking_at};
ghost use Rattle.reh_plan.specs.Takers as model;
ghost use Rattle.reh_plan.specs.Workers.{may_work};

use crate::ends::aim_at;
use crate::racks::Racks;
use crate::workers::Workers;
use reh_cluster::{Ledger, State};
use reh_session::Session;
use reh_types::{Aim, BookieIx, Event};

/// Whether each place that is taken by an event of the session goes to a bookie with which the fewest write sets lack racks, of
/// those that could have taken it then. Each event is looked at in the state in which it was made: all are undone, and made
/// again one by one, so that the same ones survive.
pub(crate) fn are_well_taken(session: &mut Session, workers: &Workers, racks: &Racks) -> bool
    ensures opening { session.new.opening ≡ session.old.opening }
    ensures done { session.new.done ≡ session.old.done }
    ensures taken { IsTrue result
        → model.AreWellTaken (may_work workers.now.rules) racks.now session.old.opening session.old.done }
{
    let count = session.done().len();
    undo_all(session);
    let mut are = true;
    while session.done().len() < count {
        if !is_next_well_taken(session, workers, racks) {
            are = false;
        }
        let _redone = session.redo();
    }
    are
}

/// Undoes all events.
fn undo_all(session: &mut Session)
    ensures opening { session.new.opening ≡ session.old.opening }
    ensures done { session.new.done ≡ [] }
    ensures undone { session.new.undone ≡ session.old.done ++ session.old.undone }
{
    while !session.done().is_empty() {
        let _undone = session.undo();
    }
}

/// Whether a place that is taken by the next event that is undone, if there is one, goes to such a bookie.
fn is_next_well_taken(session: &Session, workers: &Workers, racks: &Racks) -> bool
    ensures { IsTrue result
        → model.AreWellTaken (may_work workers.now.rules) racks.now session.now.opening session.now.done
        → model.AreWellTaken (may_work workers.now.rules) racks.now session.now.opening
        (session.now.done ++ take 1 session.now.undone) }
{
    let state = session.state();
    match session.undone() {
        [event, ..] => is_well_taken(state, workers, racks, event),
        [] => true,
    }
}

/// Whether a place that is taken by the event goes to such a bookie.
fn is_well_taken(state: &State, workers: &Workers, racks: &Racks, event: &Event) -> bool
    ensures { IsTrue result → model.IsWellTaken (may_work workers.now.rules) racks.now state.now event.now }
{
    match event {
        Event::Swap {
            worker,
            ledger,
            fragment,
            index,
            version: _,
        } => match state.ledger(*ledger) {
            Some(ledger) => {
                let aim = aim_at(*worker, ledger, *fragment as usize, *index as usize);
                lacks_least(state, workers, racks, ledger, &aim)
            }
            None => false,
        },
        Event::Roll {
            ledger,
            index,
            bookie,
        } => match state.ledger(*ledger) {
            Some(ledger) => {
                let aim = aim_at(*bookie, ledger, last_number(ledger), *index as usize);
                lacks_least(state, workers, racks, ledger, &aim)
            }
            None => false,
        },
        _ => true,
    }
}

/// The number of the ledger's last fragment.
fn last_number(ledger: &Ledger) -> usize
    ensures { result ≡ length ledger.now.metadata.fragments - 1 }
{
    ledger.metadata().fragments().len().saturating_sub(1)
}

/// Whether with the worker of the aim no more write sets lack racks than with any other bookie that could take the place.
fn lacks_least(state: &State, workers: &Workers, racks: &Racks, ledger: &Ledger, aim: &Aim) -> bool
    ensures { IsTrue result → model.LacksLeastAt (may_work workers.now.rules) racks.now state.now ledger.now
        aim.now.fragment aim.now.index aim.now.worker }
{
    let Some(fragment) = ledger.metadata().fragments().get(aim.fragment as usize) else {
        return false;
    };
    let least = lacking_with(racks, ledger, aim, aim.worker);
    if least == 0 {
        return true;
    }
    for number in 0..state.names().len() as u8 {
        let other = BookieIx(number);
        if workers.could_take(state, fragment, other)
            && lacking_with(racks, ledger, aim, other) < least
        {
            return false;
        }
    }
    true
}

/// How many write sets would lack racks, with that bookie at the place of the aim.
fn lacking_with(racks: &Racks, ledger: &Ledger, aim: &Aim, bookie: BookieIx) -> usize
    ensures { result ≡ lacking_at racks.now ledger.now.metadata aim.now.fragment aim.now.index bookie }
{
    racks.lacking(
        ledger.metadata(),
        aim.fragment as usize,
        aim.index as usize,
        bookie,
    )
}
