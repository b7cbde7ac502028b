// Which bookies are at the end of a ledger, and which have what is striped onto them.
ghost use Rattle.std.specs.Prelude.{◌≡◌, ℕ, ◌<◌, ◌&&◌, nat_eq, not, true, false, is_none, IfSome};
ghost use Rattle.std.specs.List.{list_any};
ghost use Rattle.reh_model.specs.Cluster.{holds};
ghost use Rattle.reh_model.specs.Metadata.{last_fragment, stop_of, stripe_of};
ghost use Rattle.reh_known.specs.Known as model;

use reh_cluster::{Ledger, State};
use reh_meta::LedgerMeta;
use reh_stripe::Striped;
use reh_types::{BookieIx, Event, LedgerId, LedgerState};

// Ends of ledgers

/// Whether the ledger isn't closed, and the bookie is in its last ensemble.
pub(crate) fn is_at_end(metadata: &LedgerMeta, bookie: BookieIx) -> bool
    ensures { result ≡ model.is_at_end metadata.now bookie }
{
    !is_closed(metadata.state()) && is_in_last(metadata, bookie)
}

/// Whether an event that isn't undone changed the end of the ledger.
pub(crate) fn is_end_changed(done: &[Event], ledger: LedgerId) -> bool
    ensures { result ≡ model.is_end_changed done.now ledger }
{
    done.iter().any(|event| changes_end(event, ledger))
}

/// Whether an event begins a fragment at the end of the ledger, changes the last ensemble, or closes the ledger.
fn changes_end(event: &Event, ledger: LedgerId) -> bool
    ensures { result ≡ model.changes_end ledger event.now }
{
    match event {
        Event::Roll { ledger: of, .. } | Event::Seal { ledger: of, .. } => *of == ledger,
        _ => false,
    }
}

/// Whether the bookie is in the last ensemble.
fn is_in_last(metadata: &LedgerMeta, bookie: BookieIx) -> bool
    ensures { result ≡ list_any (λ b. nat_eq bookie b) (last_fragment metadata.now).ensemble }
{
    match metadata.fragments().last() {
        Some(fragment) => fragment.ensemble.contains(&bookie),
        None => false,
    }
}

fn is_closed(state: LedgerState) -> bool
    ensures { result ≡ model.is_closed state }
{
    match state {
        LedgerState::Closed { .. } => true,
        LedgerState::Open | LedgerState::InRecovery => false,
    }
}

// Shares of entries

/// Whether the bookie isn't known to have all entries of the ledger that are striped onto it.
pub(crate) fn lacks_share(state: &State, bookie: BookieIx, ledger: &Ledger) -> bool
    ensures { result ≡ false → model.HasShare state.now bookie ledger.now }
{
    for number in 0..ledger.metadata().fragments().len() {
        if lacks_in(state, bookie, ledger, number) {
            return true;
        }
    }
    false
}

/// Whether it isn't known to have all that the fragment of that number stripes onto it.
fn lacks_in(state: &State, bookie: BookieIx, ledger: &Ledger, number: usize) -> bool
    ensures { result ≡ false → (i : ℕ) → i < ledger.now.metadata.size
        → (model.is_member_at ledger.now.metadata number i bookie
        && model.lacks_at state.now bookie ledger.now number i) ≡ false }
{
    for index in 0..ledger.metadata().size() {
        if is_member_at(ledger.metadata(), number, index, bookie)
            && lacks_at(state, bookie, ledger, number, index)
        {
            return true;
        }
    }
    false
}

/// Whether it isn't known to have all that the fragment of that number stripes onto this index.
fn lacks_at(state: &State, bookie: BookieIx, ledger: &Ledger, number: usize, index: u32) -> bool
    ensures { result ≡ false → model.lacks_at state.now bookie ledger.now number index ≡ false }
{
    match stripe_at(ledger, number, index) {
        Some(entries) => lacks_any(state, bookie, ledger.id(), entries),
        None => true,
    }
}

/// Whether the bookie is the member at that index of the fragment of that number.
fn is_member_at(metadata: &LedgerMeta, number: usize, index: u32, bookie: BookieIx) -> bool
    ensures { result ≡ model.is_member_at metadata.now number index bookie }
{
    match metadata.fragments().get(number) {
        Some(fragment) => fragment.ensemble.get(index as usize) == Some(&bookie),
        None => false,
    }
}

/// The entries that a fragment stripes onto the index, if it has a stop.
fn stripe_at(ledger: &Ledger, number: usize, index: u32) -> Option<Striped>
    ensures { IfSome result (λ entries. (entries ≡ stripe_of ledger.now.metadata number index)
        × (is_none (stop_of ledger.now.metadata number) ≡ false)) }
{
    let metadata = ledger.metadata();
    let fragment = metadata.fragments().get(number)?;
    let stop = metadata.end_of(number)?;
    Some(Striped::new(
        fragment.first,
        stop,
        index,
        metadata.size(),
        metadata.write_quorum(),
    ))
}

/// Whether it lacks one of these entries.
fn lacks_any(state: &State, bookie: BookieIx, ledger: LedgerId, entries: Striped) -> bool
    ensures { result ≡ false → list_any (λ e. not (holds state.now bookie ledger e)) entries ≡ false }
{
    for entry in entries {
        if !state.holds(bookie, ledger, entry) {
            return true;
        }
    }
    false
}
