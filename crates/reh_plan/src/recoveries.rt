// Whether a ledger that isn't closed could be recovered: what a fence and a seal ask, but for the lock and the grace.
ghost use Rattle.std.specs.Prelude.{◌≡◌, ◌≢◌, [], ◌∷◌, ℕ, None, is_none, IsFalse, IsTrue};
ghost use Rattle.reh_model.specs.Checks.{first_reason};
ghost use Rattle.reh_model.specs.Metadata as meta;
ghost use Rattle.reh_model.specs.Recovery as recovery;
ghost use Rattle.reh_model.specs.Refusals.{not_needed, target_down, target_is_member, too_few, undecided};
ghost use Rattle.reh_plan.specs.Ends as model;
ghost use Rattle.reh_plan.specs.Workers.{may_work};

use crate::workers::Workers;
use reh_audit::is_under;
use reh_cluster::{Ledger, State};
use reh_meta::Fragment;
use reh_scan::last_fragment;
use reh_step::find_end;
use reh_types::{BookieIx, LedgerState, MAX_VERSION, Refusal};

/// Whether some bookie that may work could recover the ledger, if it had the ledger's lock and the grace were over.
pub(crate) fn can_recover(state: &State, workers: &Workers, ledger: &Ledger) -> bool
    ensures { IsFalse result → model.IsUnrecoverable (may_work workers.now.rules) state.now ledger.now }
{
    is_recoverable(state, ledger) && has_substitute(state, workers, last_fragment(ledger))
}

/// Whether some bookie that may work could take the place of a member of the fragment.
pub(crate) fn has_substitute(state: &State, workers: &Workers, fragment: &Fragment) -> bool
    ensures yes { IsTrue result → (b : ℕ) × IsTrue (may_work workers.now.rules b)
        × (first_reason (target_down state.now b ∷ target_is_member fragment.now b ∷ []) ≡ None) }
    ensures no { IsFalse result → (b : ℕ) → IsTrue (may_work workers.now.rules b)
        → first_reason (target_down state.now b ∷ target_is_member fragment.now b ∷ []) ≢ None }
{
    for number in 0..state.names().len() as u8 {
        let bookie = BookieIx(number);
        if workers.is_able(bookie) && is_substitute(state, fragment, bookie) {
            return true;
        }
    }
    false
}

/// Whether the bookie is registered and no member of the fragment's ensemble.
fn is_substitute(state: &State, fragment: &Fragment, bookie: BookieIx) -> bool
    ensures { result
        ≡ is_none (first_reason (target_down state.now bookie ∷ target_is_member fragment.now bookie ∷ [])) }
{
    state.is_up(bookie) && !fragment.ensemble.contains(&bookie)
}

/// Whether the last ensemble misses a member, and the ledger could be fenced, if it is open, and then closed.
fn is_recoverable(state: &State, ledger: &Ledger) -> bool
    ensures { result ≡ is_none (first_reason (not_needed state.now ledger.now ∷ model.seal_refusal state.now ledger.now ∷ [])) }
{
    is_under(state, last_fragment(ledger)) && seal_refusal(state, ledger).is_none()
}

/// Why the ledger can't be closed, once it is fenced, if it can't.
pub(crate) fn seal_refusal(state: &State, ledger: &Ledger) -> Option<Refusal>
    ensures { result ≡ model.seal_refusal state.now ledger.now }
{
    match unanswered(state, ledger) {
        None => not_closable(ledger),
        refusal => refusal,
    }
}

/// That the ledger is closed, or has no next version for a fence, if it is open, and for a seal, if it is so.
fn not_closable(ledger: &Ledger) -> Option<Refusal>
    ensures { result ≡ model.not_closable ledger.now.metadata.state ledger.now }
{
    let _well_formed_metadata = ledger.metadata().size();
    let version = ledger.metadata().version();
    let has_next = match ledger.metadata().state() {
        LedgerState::Open => version != MAX_VERSION && version + 1 != MAX_VERSION,
        LedgerState::InRecovery => version != MAX_VERSION,
        LedgerState::Closed { end: _ } => return Some(Refusal::NotRecovering),
    };
    if has_next {
        None
    } else {
        Some(Refusal::VersionEnd)
    }
}

/// That too few registered members answer a recovery, if it is so: fewer than an ack quorum of an entry that it passes, or, of
/// the one where it ends, so few that the others may be an ack quorum.
fn unanswered(state: &State, ledger: &Ledger) -> Option<Refusal>
    ensures { result ≡ first_reason (too_few state.now ledger.now ∷ undecided state.now ledger.now ∷ []) }
{
    match find_end(state, ledger) {
        Ok(_) => None,
        Err(refusal) => Some(refusal),
    }
}
