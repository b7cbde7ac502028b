// Why something is left for a ledger in the end.
ghost use Rattle.std.specs.Prelude.{◌≡◌, ◌++◌, ◌∷◌, [], ℕ, All, Bool, true, false, IfErr, IfOk, OnOk, IfSome, IsFalse, IsTrue, None, Some, bytes_eq, is_none, is_some, length, map, slice_get};
ghost use Rattle.std.specs.List.{list_any};
ghost use Rattle.reh_model.specs.Metadata.{stop_of, stripe_of};
ghost use Rattle.reh_plan.specs.Plans.{IsLeftFor, left_ids};
ghost use Rattle.reh_plan.specs.Workers.{Rules};
ghost use Rattle.reh_plan.specs.Reasons as model;

use crate::ends::{has_writer, is_open, is_recovering};
use crate::faults::PlanFault;
use crate::recoveries::{has_substitute, seal_refusal};
use crate::summaries::is_left;
use crate::workers::Workers;
use reh_audit::is_under;
use reh_cluster::{Ledger, State};
use reh_meta::Fragment;
use reh_scan::{check_member, first_unreadable, last_fragment};
use reh_step::check_event;
use reh_stripe::Striped;
use reh_types::{BookieIx, Event, LedgerId, MAX_VERSION, Refusal};
use std::alloc::{AllocError, Global};
use std::fmt;

/// Why something is left to do for a ledger.
#[derive(Clone, Copy)]
pub enum Reason {
    /// No bookie that may take places is registered and outside of the ensemble of this fragment, and nothing is refused.
    NoWorker {
        fragment: u64,
    },
    /// A place can't be filled: its entries can't be copied, or its swap is refused.
    Place {
        fragment: u64,
        index: u64,
        refusal: Refusal,
    },
    /// Its writer can't put another bookie into its ensemble.
    Roll {
        refusal: Refusal,
    },
    /// It can't be closed.
    Seal {
        refusal: Refusal,
    },
    /// The script has no room for a further command.
    NoRoom,
}

impl Reason {
    /// Its text without the place and the refusal, as `copy refused`: one of six (`kinds`).
    pub fn kind(&self) -> &'static str
        ensures kind { result.now ≡ model.kind_of self.now }
        ensures among { list_any (bytes_eq result.now) model.kinds ≡ true }
    {
        match self {
            Reason::NoWorker { .. } => "no worker",
            Reason::Place {
                refusal: Refusal::VersionEnd,
                ..
            } => "swap refused",
            Reason::Place { .. } => "copy refused",
            Reason::Roll { .. } => "roll refused",
            Reason::Seal { .. } => "seal refused",
            Reason::NoRoom => "no room in the script",
        }
    }
}

impl fmt::Display for Reason {
    ghost use Rattle.std.specs.Prelude.{Some};
    ghost use Rattle.reh_plan.specs.Reasons.{reason_text};

    ghost output = { λ reason. Some (reason_text reason) };

    fn fmt<W: fmt::Write>(&self, f: &mut fmt::Formatter<W>) -> fmt::Result {
        match self {
            Reason::NoWorker { fragment } => write!(f, "fragment {fragment}: no worker"),
            Reason::Place {
                fragment,
                index,
                refusal,
            } => {
                let verb = place_verb(refusal);
                write!(
                    f,
                    "fragment {fragment} index {index}: {verb} refused {refusal}"
                )
            }
            Reason::Roll { refusal } => write!(f, "roll refused {refusal}"),
            Reason::Seal { refusal } => write!(f, "seal refused {refusal}"),
            Reason::NoRoom => f.write_str("no room in the script"),
        }
    }
}

/// The verb of the command that is refused so, of those by which a place is filled.
fn place_verb(refusal: &Refusal) -> &'static str
    ensures { result.now ≡ model.place_verb refusal.now }
{
    match refusal {
        Refusal::VersionEnd => "swap",
        _ => "copy",
    }
}

/// A ledger with which something is left to do, and why.
#[derive(Clone, Copy)]
pub struct Left {
    pub ledger: LedgerId,
    pub reason: Reason,
}

/// The ledgers with which something is left to do, in picture order, and why. `full` says whether the script is full.
pub(crate) fn left_in(
    alloc: Global,
    state: &State,
    workers: &Workers,
    full: bool,
) -> Result<Vec<Left>, PlanFault>
    ensures of { IfOk result (λ left.
        map (λ l. l.ledger) left.items ≡ left_ids state.now state.now.parts.ledgers) }
    ensures why { IfOk result (λ left.
        All (IsLeftFor workers.now.rules full state.now state.now.parts.ledgers) left.items) }
{
    // The check of this loop has to meet the type of a refusal by its name.
    let _refusal: Option<Refusal> = None;
    let mut left = Vec::new(alloc);
    for ledger in state.ledgers() {
        if is_left(state, ledger) {
            let reason = reason_for(state, workers, ledger, full)?;
            push_left(&mut left, ledger.id(), reason)?;
        }
    }
    Ok(left)
}

/// Adds a ledger with which something is left to do, and why.
fn push_left(left: &mut Vec<Left>, ledger: LedgerId, reason: Reason) -> Result<(), AllocError>
    ensures { OnOk result (left.new.items ≡ left.old.items ++ (record { ledger = ledger; reason = reason }) ∷ []) }
{
    left.push(Left { ledger, reason })?;
    Ok(())
}

/// Why something is left for the ledger in the end. `full` says whether the script is full: then there is always a reason.
/// What another bookie wouldn't mend comes before a worker that is missing.
fn reason_for(
    state: &State,
    workers: &Workers,
    ledger: &Ledger,
    full: bool,
) -> Result<Reason, PlanFault>
    ensures reason { IfOk result (model.IsReason workers.now.rules full state.now ledger.now) }
    ensures room { IfErr result (λ fault. full ≡ false) }
{
    if let Some(reason) = unfilled(state, ledger) {
        return Ok(reason);
    }
    if let Some(reason) = unsettled(state, workers, ledger) {
        return Ok(reason);
    }
    if let Some(fragment) = without_worker(state, workers, ledger) {
        return Ok(Reason::NoWorker { fragment });
    }
    if full {
        Ok(Reason::NoRoom)
    } else {
        Err(PlanFault::Unfinished)
    }
}

/// Why the last ensemble of a ledger that isn't closed still misses a member, if it does, whoever works.
fn unsettled(state: &State, workers: &Workers, ledger: &Ledger) -> Option<Reason>
    ensures some { (full : Bool) → IfSome result (model.IsReason workers.now.rules full state.now ledger.now) }
    ensures seal { result ≡ None → model.unsealed_refusal workers.now.rules state.now ledger.now ≡ None }
    ensures roll { result ≡ None → (i b : ℕ) → model.unrolled_refusal workers.now.rules state.now ledger.now i b ≡ None }
{
    if let Some(refusal) = unrolled(state, workers, ledger) {
        return Some(Reason::Roll { refusal });
    }
    let refusal = unsealed(state, workers, ledger)?;
    Some(Reason::Seal { refusal })
}

/// Whether the ledger isn't closed, and its last ensemble misses a member.
fn is_unsettled(state: &State, ledger: &Ledger) -> bool
    ensures { result ≡ model.is_unsettled state.now ledger.now }
{
    (is_open(ledger) || is_recovering(ledger)) && is_under(state, last_fragment(ledger))
}

/// A fragment in which no bookie can take a missing member's place, if there is one.
fn without_worker(state: &State, workers: &Workers, ledger: &Ledger) -> Option<u64>
    ensures some { IfSome result (model.LacksWorkerAt workers.now.rules state.now ledger.now) }
    ensures none { result ≡ None → (f : ℕ) → model.LacksWorkerAt workers.now.rules state.now ledger.now f → ⊥ }
{
    for number in 0..ledger.metadata().fragments().len() {
        if lacks_worker(state, workers, ledger, number) {
            return Some(number as u64);
        }
    }
    None
}

/// Whether no bookie can take a missing member's place in that fragment.
fn lacks_worker(state: &State, workers: &Workers, ledger: &Ledger, number: usize) -> bool
    ensures yes { IsTrue result → model.LacksWorkerAt workers.now.rules state.now ledger.now number }
    ensures no { IsFalse result → model.LacksWorkerAt workers.now.rules state.now ledger.now number → ⊥ }
{
    match ledger.metadata().fragments().get(number) {
        Some(fragment) => { is_under(state, fragment) && !has_substitute(state, workers, fragment) }
        None => false,
    }
}

/// Why an open ledger's writer can't put a bookie in the place of a missing member, if it is so.
fn unrolled(state: &State, workers: &Workers, ledger: &Ledger) -> Option<Refusal>
    ensures some { IfSome result (λ refusal. (i : ℕ) × (b : ℕ)
        × (model.unrolled_refusal workers.now.rules state.now ledger.now i b ≡ Some refusal)) }
    ensures none { result ≡ None → (i b : ℕ) → model.unrolled_refusal workers.now.rules state.now ledger.now i b ≡ None }
{
    for index in 0..ledger.metadata().size() {
        if let Some(refusal) = unrolled_at(state, workers, ledger, index as u64) {
            return Some(refusal);
        }
    }
    None
}

/// The same of the member at that index of the last ensemble.
fn unrolled_at(state: &State, workers: &Workers, ledger: &Ledger, index: u64) -> Option<Refusal>
    ensures some { IfSome result (λ refusal. (b : ℕ)
        × (model.unrolled_refusal workers.now.rules state.now ledger.now index b ≡ Some refusal)) }
    ensures none { result ≡ None → (b : ℕ) → model.unrolled_refusal workers.now.rules state.now ledger.now index b ≡ None }
{
    for number in 0..state.names().len() as u8 {
        if let Some(refusal) = unrolled_by(state, workers, ledger, index, BookieIx(number)) {
            return Some(refusal);
        }
    }
    None
}

/// Why its writer can't put that bookie there, if it is so.
fn unrolled_by(
    state: &State,
    workers: &Workers,
    ledger: &Ledger,
    index: u64,
    bookie: BookieIx,
) -> Option<Refusal>
    ensures { result ≡ model.unrolled_refusal workers.now.rules state.now ledger.now index bookie }
{
    let last = last_fragment(ledger);
    if has_writer(workers, ledger)
        && workers.is_able(bookie)
        && check_member(state, ledger, last, index, bookie).is_ok()
    {
        roll_refusal(state, ledger, index, bookie)
    } else {
        None
    }
}

/// Why the ledger's writer can't put the bookie at that index, if it can't.
fn roll_refusal(state: &State, ledger: &Ledger, index: u64, bookie: BookieIx) -> Option<Refusal>
    ensures { result ≡ model.roll_refusal state.now ledger.now index bookie }
{
    let roll = Event::Roll {
        ledger: ledger.id(),
        index,
        bookie,
    };
    match check_event(state, &roll) {
        Ok(()) => None,
        Err(refusal) => Some(refusal),
    }
}

/// The index of the fragment's first member that isn't registered.
pub(crate) fn first_missing(state: &State, fragment: &Fragment) -> Option<usize> {
    for (index, member) in fragment.ensemble.iter().enumerate() {
        if !state.is_up(*member) {
            return Some(index);
        }
    }
    None
}

/// Why a ledger that isn't closed and has no writer can't be closed, if it can't.
fn unsealed(state: &State, workers: &Workers, ledger: &Ledger) -> Option<Refusal>
    ensures { result ≡ model.unsealed_refusal workers.now.rules state.now ledger.now }
{
    if has_writer(workers, ledger) || !is_unsettled(state, ledger) {
        return None;
    }
    seal_refusal(state, ledger)
}

/// Why some place of the ledger can't be filled, whoever works, if it is so.
fn unfilled(state: &State, ledger: &Ledger) -> Option<Reason>
    ensures some { (rules : Rules) (full : Bool) → IfSome result (model.IsReason rules full state.now ledger.now) }
    ensures none { result ≡ None → (f i : ℕ) → model.unfilled_refusal state.now ledger.now f i ≡ None }
{
    for number in 0..ledger.metadata().fragments().len() {
        if let Some(reason) = unfilled_fragment(state, ledger, number) {
            return Some(reason);
        }
    }
    None
}

/// The same of some place of a fragment.
fn unfilled_fragment(state: &State, ledger: &Ledger, number: usize) -> Option<Reason>
    ensures some { (rules : Rules) (full : Bool) → IfSome result (model.IsReason rules full state.now ledger.now) }
    ensures none { result ≡ None → (i : ℕ) → model.unfilled_refusal state.now ledger.now number i ≡ None }
{
    for index in 0..ledger.metadata().size() {
        if let Some(refusal) = unfilled_at(state, ledger, number, index) {
            return Some(Reason::Place {
                fragment: number as u64,
                index: index as u64,
                refusal,
            });
        }
    }
    None
}

/// Why no bookie can take that place, if a member is missing there, its entries are known, and it is so.
fn unfilled_at(state: &State, ledger: &Ledger, number: usize, index: u32) -> Option<Refusal>
    ensures { result ≡ model.unfilled_refusal state.now ledger.now number index }
{
    if is_missing_at(state, ledger, number, index) {
        place_refusal(state, ledger, number, index)
    } else {
        None
    }
}

/// Whether the fragment has a member at that index, and that isn't registered.
fn is_missing_at(state: &State, ledger: &Ledger, number: usize, index: u32) -> bool
    ensures { result ≡ model.is_missing_at state.now ledger.now number index }
{
    if index >= ledger.metadata().size() {
        return false;
    }
    match ledger.metadata().fragments().get(number) {
        Some(fragment) => match fragment.ensemble.get(index as usize) {
            Some(member) => !state.is_up(*member),
            None => false,
        },
        None => false,
    }
}

/// Why no bookie can take that place, if its entries are known and it is so.
fn place_refusal(state: &State, ledger: &Ledger, number: usize, index: u32) -> Option<Refusal>
    ensures unknown { is_some (stop_of ledger.now.metadata number) ≡ false → result ≡ None }
    ensures known { is_some (stop_of ledger.now.metadata number) ≡ true
        → result ≡ model.place_refusal state.now ledger.now number index }
{
    let (fragment, entries) = stripe_at(ledger, number, index)?;
    match first_unreadable(state, ledger, fragment, entries) {
        Some(entry) => Some(Refusal::NoSource(entry as u64)),
        None if ledger.metadata().version() == MAX_VERSION => Some(Refusal::VersionEnd),
        None => None,
    }
}

/// A fragment, and the entries that it stripes onto the index, if it has a stop.
fn stripe_at<'a>(ledger: &'a Ledger, number: usize, index: u32) -> Option<(&'a Fragment, Striped)>
    ensures some { IfSome result (λ place. (slice_get ledger.now.metadata.fragments number ≡ Some place.0.now)
        × (length place.0.now.ensemble ≡ ledger.now.metadata.size)
        × (place.1 ≡ stripe_of ledger.now.metadata number index)
        × (is_some (stop_of ledger.now.metadata number) ≡ true)) }
    ensures none { is_none result ≡ true → is_some (stop_of ledger.now.metadata number) ≡ false }
{
    let metadata = ledger.metadata();
    let Some(fragment) = metadata.fragments().get(number) else {
        return None;
    };
    let Some(stop) = metadata.end_of(number) else {
        return None;
    };
    let stripe = Striped::new(
        fragment.first,
        stop,
        index,
        metadata.size(),
        metadata.write_quorum(),
    );
    Some((fragment, stripe))
}
