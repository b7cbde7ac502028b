// Where a recovery ends, and whether enough members answer it.
ghost use Rattle.std.specs.Prelude.{◌≡◌, ◌<◌, ℕ, [], ◌∷◌, length, slice_index, count_by};
ghost use Rattle.reh_model.specs.Metadata as meta;
ghost use Rattle.reh_model.specs.Metadata.{IsMetadata};
ghost use Rattle.reh_model.specs.Cluster as cluster;
ghost use Rattle.reh_model.specs.Recovery as recovery;
ghost use Rattle.reh_model.specs.Refusals as model;
ghost use Rattle.reh_model.specs.Refusals.{Finds};
ghost use Rattle.reh_model.specs.Checks.{first_reason};
ghost use Rattle.reh_model.specs.Striping as stripe;
ghost use Rattle.reh_step.specs.Marks.{is_marked};

use reh_cluster::{Ledger, State};
use reh_meta::{Fragment, LedgerMeta};
use reh_scan::{first_unreadable, last_fragment};
use reh_stripe::{Striped, write_set};
use reh_types::{ENTRY_END, MAX_ENSEMBLE_SIZE, Refusal};

/// Where a recovery ends the ledger, the first entry of the last fragment that can't be read, if enough registered
/// members answer it: for each entry that it passes, an ack quorum of its write set, and for the one where it ends,
/// which all that answer lack, so many that the others are no ack quorum.
///
/// BookKeeper's recovery (`LedgerRecoveryOp`) reads on from the last fragment's first entry, writes each entry back, and
/// ends at the first one that no ack quorum can have stored.
pub fn find_end(state: &State, ledger: &Ledger) -> Result<u32, Refusal>
    ensures { Finds result (first_reason
        (model.too_few state.now ledger.now ∷ model.undecided state.now ledger.now ∷ []))
        (λ end. end ≡ recovery.recovered_end state.now ledger.now) }
{
    let metadata = ledger.metadata();
    let last = last_fragment(ledger);
    let end = recovered_end(state, ledger, last);
    let registered = registered_members(state, ledger, last);
    // as many entries as the ensemble has members: from there on write sets repeat
    for entry in last.first..end.min(last.first + metadata.size()) {
        if count_registered(&registered, metadata, entry) < metadata.ack_quorum() {
            return Err(Refusal::TooFew(entry as u64));
        }
    }
    let decisive = metadata.write_quorum() - metadata.ack_quorum() + 1;
    if count_registered(&registered, metadata, end) < decisive {
        return Err(Refusal::Undecided(end as u64));
    }
    Ok(end)
}

/// The first entry of the ledger's last fragment that can't be read.
fn recovered_end(state: &State, ledger: &Ledger, last: &Fragment) -> u32
    requires last { last.now ≡ meta.last_fragment ledger.now.metadata }
    requires whole { length last.now.ensemble ≡ ledger.now.metadata.size }
    ensures { result ≡ recovery.recovered_end state.now ledger.now }
{
    state.assert_well_formed();
    let _well_formed_metadata = ledger.metadata().size();
    // of an ensemble of one member, that member carries each entry
    let entries = Striped::new(last.first, ENTRY_END as u32, 0, 1, 1);
    first_unreadable(state, ledger, last, entries).unwrap_or(ENTRY_END as u32)
}

// The members of an ensemble

/// Whether the bookie at each index of an ensemble is registered.
type Registered = [bool; MAX_ENSEMBLE_SIZE as usize];

/// Which of the fragment's members are registered, by their indexes.
fn registered_members(state: &State, ledger: &Ledger, fragment: &Fragment) -> Registered
    requires { length fragment.now.ensemble ≡ ledger.now.metadata.size }
    ensures well_formed { IsMetadata ledger.now.metadata }
    ensures registered { (index : ℕ) → index < ledger.now.metadata.size
        → is_marked result index
        ≡ cluster.is_up state.now (slice_index fragment.now.ensemble index) }
{
    let mut registered = [false; MAX_ENSEMBLE_SIZE as usize];
    for index in 0..ledger.metadata().size() as usize {
        registered[index] = state.is_up(fragment.ensemble[index]);
    }
    registered
}

/// How many of the members at the indexes of the entry's write set are registered.
fn count_registered(registered: &Registered, metadata: &LedgerMeta, entry: u32) -> u32
    ensures { result ≡ count_by (is_marked registered.now)
        (stripe.write_set entry metadata.now.size metadata.now.write_quorum) }
{
    let mut count = 0;
    for index in write_set(entry, metadata.size(), metadata.write_quorum()) {
        if registered[index as usize] {
            count += 1;
        }
    }
    count
}
