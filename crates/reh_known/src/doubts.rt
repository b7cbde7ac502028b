// Why no question is asked at the end of a rehearsal.
ghost use Rattle.std.specs.Prelude.{◌≡◌, ℕ, true, false, All, IfNone, IfSome, IfOk, slice_get, string_bytes};
ghost use Rattle.std.specs.Option.{IsSomeAnd};
ghost use Rattle.reh_known.specs.Known as model;
ghost use Rattle.reh_known.specs.Texts as texts;
ghost use Rattle.reh_known.specs.declared.doubts.Doubt.TheVariants.{ShownEmpty};

use crate::members::{is_at_end, is_end_changed, lacks_share};
use crate::told::{was_told, was_told_end};
use reh_cluster::{Ledger, State};
use reh_inputs::{check_empties, is_shown_empty};
use reh_picture::Listed;
use reh_picture_out::is_clear;
use reh_types::{BookieIx, Event, LedgerId};
use std::alloc::{AllocError, Global};

/// Why no question is asked after a script, of a bookie and a ledger.
#[derive(Clone, Copy)]
pub enum Doubt {
    /// The picture shows the bookie as one that came back without its disk, and gives it entries.
    ShownEmpty,
    /// The bookie took copies, nothing told what it held before, and it isn't known to have all that is striped onto it.
    TookCopies,
    /// The bookie was in the last ensemble of the ledger, which wasn't closed. The script closed the ledger, ended that
    /// fragment or changed its ensemble, and it wasn't told what this bookie held: neither an assumed content nor a lost disk
    /// tells that.
    OtherEnd,
    /// The bookie came back without its disk, is in such an ensemble, and took copies. A recovery would count on it.
    Refilled,
}

/// A bookie and a ledger of which something wasn't told, and the reason why that matters.
#[derive(Clone, Copy)]
pub struct Doubted {
    pub bookie: BookieIx,
    pub ledger: LedgerId,
    pub doubt: Doubt,
}

/// Why no question can be asked of this state, in words.
pub fn doubt_text(
    alloc: Global,
    doubt: Doubt,
    bookie: &str,
    ledger: u64,
) -> Result<String, AllocError>
    ensures { IfOk result (λ text. string_bytes text ≡ texts.doubt_text doubt bookie.now ledger) }
{
    match doubt {
        Doubt::ShownEmpty => format!(in alloc;
            "bookie {bookie} is empty and has entries of ledger {ledger}"
        ),
        Doubt::TookCopies => format!(in alloc;
            "nothing tells what {bookie} held of ledger {ledger} before it took copies"
        ),
        Doubt::OtherEnd => format!(in alloc;
            "nothing tells for sure what {bookie} held of ledger {ledger} before its end changed"
        ),
        Doubt::Refilled => format!(in alloc;
            "a recovery of ledger {ledger} would count on {bookie} that was empty"
        ),
    }
}

/// Why no question is asked at the end of a rehearsal of this picture, if there is a reason: something that the script went
/// by wasn't told. The state is the one at the end, and `done` are the events that led to it.
///
/// A script takes what nothing tells to be nothing. So where a bookie took copies, its content at the end may tell less than
/// it holds; and a ledger or a fragment that the script closed may in fact go on.
pub fn first_doubt(state: &State, done: &[Event], began: &Listed) -> Option<Doubted>
    ensures none { IfNone result (model.AreKnown state.now done.now began.now) }
    ensures some { IfSome result (λ found. model.IsDoubted state.now done.now began.now found) }
{
    if let Err(held) = check_empties(began) {
        return Some(Doubted {
            bookie: BookieIx(u8::try_from(held.bookie).unwrap_or(u8::MAX)),
            ledger: LedgerId(held.ledger),
            doubt: Doubt::ShownEmpty,
        });
    }
    first_of_ledgers(state, done, began)
}

/// The first reason of any ledger, if there is one.
fn first_of_ledgers(state: &State, done: &[Event], began: &Listed) -> Option<Doubted>
    ensures none { IfNone result
        (All (model.IsKnownSince state.now done.now began.now) began.now.listing.ledgers.items) }
    ensures some { IfSome result (λ found. (k : ℕ)
        × IsSomeAnd (slice_get began.now.listing.ledgers.items k) (model.IsDoubtSince state.now done.now began.now found)) }
    ensures kind { IfSome result (λ found. (found.doubt ≡ ShownEmpty) → ⊥) }
{
    for was in &began.listing.ledgers {
        if let Some(found) = first_of_ledger(state, done, began, was) {
            return Some(found);
        }
    }
    None
}

/// The first reason of the ledger, if there is one.
fn first_of_ledger(state: &State, done: &[Event], began: &Listed, was: &Ledger) -> Option<Doubted>
    ensures none { IfNone result (model.IsKnownSince state.now done.now began.now was.now) }
    ensures some { IfSome result (λ found. model.IsDoubtSince state.now done.now began.now found was.now) }
{
    match state.ledger(was.id()) {
        Some(now) => first_of_bookies(state, done, began, was, now),
        None => None,
    }
}

/// The first reason of the ledger that was so, and is so now, if there is one.
fn first_of_bookies(
    state: &State,
    done: &[Event],
    began: &Listed,
    was: &Ledger,
    now: &Ledger,
) -> Option<Doubted>
    ensures none { IfNone result (model.AreKnownOf state.now done.now began.now was.now now.now) }
    ensures some { IfSome result (λ found. (found.ledger ≡ was.now.id)
        × model.IsDoubtOf state.now done.now began.now was.now now.now found.bookie found.doubt) }
{
    for bookie in 0..state.names().len() {
        let bookie = BookieIx(bookie as u8);
        if let Some(doubt) = doubt_of(state, done, began, was, now, bookie) {
            return Some(Doubted {
                bookie,
                ledger: was.id(),
                doubt,
            });
        }
    }
    None
}

/// Why something that matters wasn't told of the bookie and the ledger, if so.
fn doubt_of(
    state: &State,
    done: &[Event],
    began: &Listed,
    was: &Ledger,
    now: &Ledger,
    bookie: BookieIx,
) -> Option<Doubt>
    ensures none { IfNone result (model.IsKnown state.now done.now began.now was.now now.now bookie) }
    ensures some { IfSome result (λ doubt. model.IsDoubtOf state.now done.now began.now was.now now.now bookie doubt) }
{
    if !is_told(state, began, now, bookie) {
        return Some(Doubt::TookCopies);
    }
    if is_end_guessed(done, began, was, bookie) {
        return Some(Doubt::OtherEnd);
    }
    if is_refilled(state, began, was, bookie) {
        return Some(Doubt::Refilled);
    }
    None
}

/// Whether the picture told what the bookie held of the ledger, or it holds nothing of it or all that is striped onto it.
fn is_told(state: &State, began: &Listed, now: &Ledger, bookie: BookieIx) -> bool
    ensures told { result ≡ true → model.IsTold state.now began.now now.now bookie }
    ensures untold { result ≡ false → model.was_told began.now bookie now.now.id ≡ false }
{
    is_clear(state.row(bookie, now.id()))
        || was_told(began, bookie, now.id())
        || !lacks_share(state, bookie, now)
}

/// Whether the end of the ledger was changed, the bookie was there before, and wasn't told what it held of it.
fn is_end_guessed(done: &[Event], began: &Listed, was: &Ledger, bookie: BookieIx) -> bool
    ensures { result ≡ model.is_end_guessed done.now began.now was.now bookie }
{
    is_at_end(was.metadata(), bookie)
        && !was_told_end(began, bookie, was.id())
        && is_end_changed(done, was.id())
}

/// Whether the bookie came back without its disk, was at the end of the ledger, and holds an entry now.
fn is_refilled(state: &State, began: &Listed, was: &Ledger, bookie: BookieIx) -> bool
    ensures { result ≡ model.is_refilled state.now began.now was.now bookie }
{
    is_shown_empty(began, bookie) && state.count(bookie) != 0 && is_at_end(was.metadata(), bookie)
}
