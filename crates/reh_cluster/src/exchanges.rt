// Exchanges of changes with the parts of a state.
ghost use Rattle.std.specs.Prelude.{◌≡◌, ◌<◌, ◌≤◌, ◌++◌, length, take, drop, All};
ghost use Rattle.std.specs.List.{prefix_len};
ghost use Rattle.reh_model.specs.Places.{put, back, put_all, back_all, IsPlaced};
ghost use Rattle.reh_cluster.specs.Runs as runs;
ghost use Rattle.reh_cluster.specs.Runs.{is_word_of};

use crate::parts::Parts;
use reh_meta::LedgerMeta;
use reh_types::{BookieIx, Change, LedgerId};
use std::mem;

/// Swaps what the change holds with what stands at its place among the parts. It takes no memory.
pub(crate) fn exchange_one(parts: &mut Parts, change: &mut Change<LedgerMeta>)
    requires { IsPlaced parts.old.bookies parts.old.parts change.old }
    ensures parts { parts.new ≡ record parts.old { parts = put parts.old.parts change.old } }
    ensures left { change.new ≡ back parts.old.parts change.old }
{
    match change {
        Change::Registration { bookie, lost_at } => {
            mem::swap(&mut parts.lost_at[bookie.0 as usize], lost_at)
        }
        Change::Metadata { place, metadata } => parts.ledgers[*place].swap_metadata(metadata),
        Change::Task { place, task } => parts.ledgers[*place].swap_task(task),
        Change::Lock { place, lock } => parts.ledgers[*place].swap_lock(lock),
        Change::Word {
            bookie,
            ledger,
            number,
            bits,
        } => parts.held.toggle(*bookie, *ledger, *number, *bits),
        Change::Scalar(scalar) => parts.scalars.exchange(scalar),
    }
}

/// The bookie and the ledger of whose row the change is a word, if it is one.
fn row_of(change: &Change<LedgerMeta>) -> Option<(BookieIx, LedgerId)>
    ensures { result ≡ runs.row_of change.now }
{
    match change {
        Change::Word { bookie, ledger, .. } => Some((*bookie, *ledger)),
        _ => None,
    }
}

/// How many changes at the head are of words of the bookie's row of the ledger.
fn run_length(changes: &[Change<LedgerMeta>], bookie: BookieIx, ledger: LedgerId) -> usize
    ensures { result ≡ prefix_len (is_word_of bookie ledger) changes.now }
{
    changes
        .iter()
        .take_while(|change| match row_of(change) {
            Some((owner, id)) => owner == bookie && id == ledger,
            None => false,
        })
        .count()
}

/// Exchanges the first change, and with a word all that follow it and are of the same row, which is looked up once. It
/// says how many those were.
fn exchange_run(parts: &mut Parts, changes: &mut [Change<LedgerMeta>]) -> usize
    requires some { 0 < length changes.old }
    requires placed { All (IsPlaced parts.old.bookies parts.old.parts) changes.old }
    ensures some { 0 < result }
    ensures within { result ≤ length changes.old }
    ensures parts { parts.new ≡ record parts.old { parts = put_all parts.old.parts (take result changes.old) } }
    ensures left { changes.new ≡ back_all parts.old.parts (take result changes.old) ++ drop result changes.old }
{
    if let Some((bookie, ledger)) = row_of(&changes[0]) {
        let count = run_length(changes, bookie, ledger);
        if count > 1 {
            parts.held.toggle_words(bookie, ledger, &changes[..count]);
            return count;
        }
    }
    exchange_one(parts, &mut changes[0]);
    1
}

/// Swaps what each change holds with what stands at its place among the parts. It takes no memory.
pub(crate) fn exchange_all(parts: &mut Parts, changes: &mut [Change<LedgerMeta>])
    requires { All (IsPlaced parts.old.bookies parts.old.parts) changes.old }
    ensures parts { parts.new ≡ record parts.old { parts = put_all parts.old.parts changes.old } }
    ensures left { changes.new ≡ back_all parts.old.parts changes.old }
{
    let mut done = 0;
    while done < changes.len() {
        done += exchange_run(parts, &mut changes[done..]);
    }
}
