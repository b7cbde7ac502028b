// Where a ledger's writer goes on.
ghost use Rattle.std.specs.Prelude.{◌≡◌, length};
ghost use Rattle.reh_model.specs.Metadata as meta;
ghost use Rattle.reh_model.specs.Recovery as recovery;

use reh_cluster::{Ledger, State};
use reh_meta::Fragment;

/// The last fragment, to which the ledger's writer appends.
pub fn last_fragment(ledger: &Ledger) -> &Fragment
    ensures last { result.now ≡ meta.last_fragment ledger.now.metadata }
    ensures whole { length result.now.ensemble ≡ ledger.now.metadata.size }
{
    let fragments = ledger.metadata().fragments();
    &fragments[fragments.len() - 1]
}

/// The writer's next entry: one more than the greatest that any bookie holds, and no less than the last fragment's
/// first.
pub fn next_entry(state: &State, ledger: &Ledger) -> u32
    ensures { result ≡ recovery.next_entry state.now ledger.now }
{
    state.assert_well_formed();
    let first = last_fragment(ledger).first;
    match state.greatest(ledger.id()) {
        Some(greatest) => first.max(greatest + 1),
        None => first,
    }
}
