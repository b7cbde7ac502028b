// The places that a worker's bookie can take, and what is asked of them.
ghost use Rattle.std.specs.Prelude.{◌≡◌, ◌==◌, ◌<◌, [], ◌∷◌, length, None, Some, IfOk, MatchResult, slice_get};
ghost use Rattle.std.specs.List.{list_any};
ghost use Rattle.reh_model.specs.Metadata.{stripe_of};
ghost use Rattle.reh_model.specs.Cluster.{ledger_at};
ghost use Rattle.reh_model.specs.Refusals as model;
ghost use Rattle.reh_model.specs.Refusals.{Decides};
ghost use Rattle.reh_model.specs.Checks.{first_reason};
ghost use Rattle.reh_model.specs.Scan.{aim_refusal};
ghost use Rattle.reh_scan.specs.Places.{IsFound};

use reh_cluster::{Ledger, State};
use reh_meta::Fragment;
use reh_stripe::Striped;
use reh_types::{Aim, BookieIx, LedgerId, Refusal};

/// A ledger that was found, and the place at which it stands in the picture.
#[derive(Clone, Copy)]
pub struct Found<'a> {
    pub place: usize,
    pub ledger: &'a Ledger,
}

/// Whether a worker is given a ticket to scan the fragment of this aim, or else the first refusal that applies: it has
/// to hold the ledger's lock, and its bookie to be able to take the place. It takes no memory.
pub fn aimed(state: &State, aim: &Aim) -> Result<(), Refusal>
    ensures { Decides result (aim_refusal state.now aim.now) }
{
    let found = find_owned(state, aim.worker, aim.ledger)?;
    check_place(state, found.ledger, aim)?;
    Ok(())
}

/// Whether the bookie, or the worker that stands for it, is in the picture.
pub fn check_bookie(state: &State, bookie: BookieIx) -> Result<(), Refusal>
    ensures { Decides result (model.no_bookie state.now bookie) }
{
    if (bookie.0 as usize) < state.names().len() {
        Ok(())
    } else {
        Err(Refusal::NoBookie)
    }
}

/// The ledger of that id, if it is in the picture.
pub fn find_ledger(state: &State, ledger: LedgerId) -> Result<Found<'_>, Refusal>
    ensures { MatchResult result
        (λ found. IsFound state.now ledger found)
        (λ refusal. (ledger_at state.now ledger ≡ None) × (refusal ≡ Refusal.NoLedger)) }
{
    let Some(place) = state.place(ledger) else {
        return Err(Refusal::NoLedger);
    };
    Ok(Found {
        place,
        ledger: &state.ledgers()[place],
    })
}

/// The ledger of that id, if the worker holds its lock.
pub fn find_owned(state: &State, worker: BookieIx, ledger: LedgerId) -> Result<Found<'_>, Refusal>
    ensures { MatchResult result
        (λ found. (model.no_bookie state.now worker ≡ None)
        × IsFound state.now ledger found
        × (model.not_owner worker found.ledger.now ≡ None))
        (λ refusal. first_reason (model.no_bookie state.now worker
        ∷ model.at_ledger state.now ledger (λ g. model.not_owner worker g ∷ [])
        ∷ []) ≡ Some refusal) }
{
    check_bookie(state, worker)?;
    let found = find_ledger(state, ledger)?;
    check_owner(found.ledger, worker)?;
    Ok(found)
}

/// Whether the worker holds the ledger's lock.
pub fn check_owner(ledger: &Ledger, worker: BookieIx) -> Result<(), Refusal>
    ensures { Decides result (model.not_owner worker ledger.now) }
{
    if ledger.is_locked_by(worker) {
        Ok(())
    } else {
        Err(Refusal::NotOwner)
    }
}

/// The aim's fragment of the ledger, and the entries that it stripes onto the index, if the worker's bookie can take
/// that place.
///
/// BookKeeper's replication worker puts its own bookie into the place of a lost member, in a fragment whose entries are
/// fixed.
pub fn check_place<'a>(
    state: &State,
    ledger: &'a Ledger,
    aim: &Aim,
) -> Result<(&'a Fragment, Striped), Refusal>
    ensures { MatchResult result
        (λ place. (model.no_place state.now aim.now.worker ledger.now aim.now.fragment aim.now.index ≡ None)
        × (slice_get ledger.now.metadata.fragments aim.now.fragment ≡ Some place.0.now)
        × (length place.0.now.ensemble ≡ ledger.now.metadata.size)
        × (place.1 ≡ stripe_of ledger.now.metadata aim.now.fragment aim.now.index))
        (λ refusal. model.no_place state.now aim.now.worker ledger.now aim.now.fragment aim.now.index ≡ Some refusal) }
{
    let metadata = ledger.metadata();
    let Some(fragment) = metadata.fragments().get(aim.fragment as usize) else {
        return Err(Refusal::NoFragment);
    };
    check_member(state, ledger, fragment, aim.index, aim.worker)?;
    let Some(stop) = metadata.end_of(aim.fragment as usize) else {
        return Err(Refusal::NoEndpoint);
    };
    let stripe = Striped::new(
        fragment.first,
        stop,
        aim.index as u32,
        metadata.size(),
        metadata.write_quorum(),
    );
    Ok((fragment, stripe))
}

/// Whether the bookie can take that index of the fragment's ensemble from a member that isn't registered.
pub fn check_member(
    state: &State,
    ledger: &Ledger,
    fragment: &Fragment,
    index: u64,
    target: BookieIx,
) -> Result<(), Refusal>
    requires { length fragment.now.ensemble ≡ ledger.now.metadata.size }
    ensures checks { Decides result (first_reason (model.no_index ledger.now index
        ∷ model.member_up state.now fragment.now index
        ∷ model.target_down state.now target
        ∷ model.target_is_member fragment.now target
        ∷ [])) }
    ensures index { IfOk result (λ _. index < ledger.now.metadata.size) }
{
    if index >= ledger.metadata().size() as u64 {
        return Err(Refusal::NoIndex);
    }
    if state.is_up(fragment.ensemble[index as usize]) {
        return Err(Refusal::MemberUp);
    }
    if !state.is_up(target) {
        return Err(Refusal::TargetDown);
    }
    if is_member(fragment, target) {
        return Err(Refusal::TargetIsMember);
    }
    Ok(())
}

/// Whether the bookie is in the fragment's ensemble.
pub fn is_member(fragment: &Fragment, bookie: BookieIx) -> bool
    ensures { result ≡ list_any (λ member. member == bookie) fragment.now.ensemble }
{
    fragment.ensemble.contains(&bookie)
}
