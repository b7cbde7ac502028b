// Whether the writer of an open ledger could put another bookie into its ensemble.
ghost use Rattle.std.specs.Prelude.{◌≡◌, ◌≢◌, ℕ, IsFalse, IsTrue, None, is_none};
ghost use Rattle.reh_types.specs.declared.moves.Event.TheVariants.{Roll as RollEvent};
ghost use Rattle.reh_model.specs.Step.{refusal_of};
ghost use Rattle.reh_plan.specs.Workers.{may_work};

use crate::workers::Workers;
use reh_cluster::State;
use reh_step::check_event;
use reh_types::{BookieIx, Event, LedgerId, MAX_ENSEMBLE_SIZE};

/// Whether the ledger's writer could put a bookie that may work in the place of a missing member.
pub(crate) fn can_roll(state: &State, workers: &Workers, ledger: LedgerId) -> bool
    ensures { IsFalse result → (b i : ℕ) → IsTrue (may_work workers.now.rules b)
        → refusal_of state.now (RollEvent ledger i b) ≢ None }
{
    state.assert_well_formed();
    for index in 0..MAX_ENSEMBLE_SIZE as u64 {
        if can_roll_at(state, workers, ledger, index) {
            return true;
        }
    }
    false
}

/// The same of the member at that index of the last ensemble.
fn can_roll_at(state: &State, workers: &Workers, ledger: LedgerId, index: u64) -> bool
    ensures { IsFalse result → (b : ℕ) → IsTrue (may_work workers.now.rules b)
        → refusal_of state.now (RollEvent ledger index b) ≢ None }
{
    for number in 0..state.names().len() as u8 {
        let bookie = BookieIx(number);
        let roll = Event::Roll {
            ledger,
            index,
            bookie,
        };
        if workers.is_able(bookie) && is_accepted(state, &roll) {
            return true;
        }
    }
    false
}

/// Whether the event is accepted.
fn is_accepted(state: &State, event: &Event) -> bool
    ensures { result ≡ is_none (refusal_of state.now event.now) }
{
    check_event(state, event).is_ok()
}
