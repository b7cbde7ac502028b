// When an event is refused, and what is found where it isn't: one function for each event, over checks that they share.
ghost use Rattle.std.specs.Prelude.{◌≡◌, [], ◌∷◌, None, Some, MatchResult, not};
ghost use Rattle.reh_types.specs.declared.moves.Event.TheVariants.{Lose, Join, Audit, Acquire, Release, Finish, Expire};
ghost use Rattle.reh_types.specs.declared.moves.Event.TheVariants.{Grace, Tick, Roll, Fence, Seal, Copy, Swap};
ghost use Rattle.reh_types.specs.declared.moves.Event.TheVariants.{Disable, Enable};
ghost use Rattle.std.specs.List.{find, list_any};
ghost use Rattle.reh_model.specs.Cluster as cluster;
ghost use Rattle.reh_model.specs.Cluster.{is_locked_by, stripe_at};
ghost use Rattle.reh_model.specs.Refusals as model;
ghost use Rattle.reh_model.specs.Refusals.{Decides, Finds};
ghost use Rattle.reh_model.specs.Checks.{first_reason};
ghost use Rattle.reh_model.specs.Step.{refusal_of, place_checks};
ghost use Rattle.reh_model.specs.Recovery as recovery;
ghost use Rattle.reh_scan.specs.Places.{IsFound};
ghost use Rattle.reh_step.specs.Places.{IsPlace};

use crate::recoveries::find_end;
use reh_audit::{has_news, is_under, under_of};
use reh_cluster::{Ledger, State};
use reh_meta::Fragment;
use reh_scan::{
    Found, check_bookie, check_member, check_place, find_ledger, find_owned, first_unreadable,
    last_fragment, next_entry,
};
use reh_stripe::{Striped, Word, least_entry, word_at};
use reh_types::{
    Aim, BookieIx, CLOCK_END, ENTRY_END, Event, LedgerId, LedgerState, MAX_FRAGMENTS, MAX_TICKS,
    MAX_VERSION, Refusal,
};

/// Whether the event is accepted, or else the first refusal that applies. It takes no memory.
pub fn check_event(state: &State, event: &Event) -> Result<(), Refusal>
    ensures { Decides result (refusal_of state.now event.now) }
{
    match event {
        Event::Lose { bookie } => check_lose(state, *bookie),
        Event::Join { bookie } => check_join(state, *bookie),
        Event::Audit => check_audit(state),
        Event::Acquire { worker, ledger } => check_acquire(state, *worker, *ledger).map(drop),
        Event::Release { worker, ledger } => check_release(state, *worker, *ledger).map(drop),
        Event::Finish { worker, ledger } => check_finish(state, *worker, *ledger).map(drop),
        Event::Expire { worker } => check_expire(state, *worker),
        Event::Grace { worker, ledger } => check_grace(state, *worker, *ledger).map(drop),
        Event::Tick { ticks } => check_tick(state, *ticks),
        Event::Roll {
            ledger,
            index,
            bookie,
        } => check_roll(state, *ledger, *index, *bookie).map(drop),
        Event::Fence { worker, ledger } => check_fence(state, *worker, *ledger).map(drop),
        Event::Seal { worker, ledger } => check_seal(state, *worker, *ledger).map(drop),
        Event::Copy {
            worker,
            ledger,
            fragment,
            index,
            version,
        } => check_copy(
            state,
            &aim_of(*worker, *ledger, *fragment, *index),
            *version,
        )
        .map(drop),
        Event::Swap {
            worker,
            ledger,
            fragment,
            index,
            version,
        } => check_swap(
            state,
            &aim_of(*worker, *ledger, *fragment, *index),
            *version,
        )
        .map(drop),
        Event::Disable => check_disable(state),
        Event::Enable => check_enable(state),
    }
}

// Events

pub(crate) fn check_lose(state: &State, bookie: BookieIx) -> Result<(), Refusal>
    ensures { Decides result (refusal_of state.now (Lose bookie)) }
{
    check_bookie(state, bookie)?;
    if !state.is_up(bookie) {
        return Err(Refusal::AlreadyDown);
    }
    Ok(())
}

pub(crate) fn check_join(state: &State, bookie: BookieIx) -> Result<(), Refusal>
    ensures { Decides result (refusal_of state.now (Join bookie)) }
{
    check_bookie(state, bookie)?;
    if state.is_up(bookie) {
        return Err(Refusal::AlreadyUp);
    }
    Ok(())
}

pub(crate) fn check_audit(state: &State) -> Result<(), Refusal>
    ensures { Decides result (refusal_of state.now Audit) }
{
    check_enabled(state)?;
    if !has_news(state) {
        return Err(Refusal::NothingToPublish);
    }
    Ok(())
}

pub(crate) fn check_acquire(
    state: &State,
    worker: BookieIx,
    ledger: LedgerId,
) -> Result<Found<'_>, Refusal>
    ensures { Finds result (refusal_of state.now (Acquire worker ledger)) (IsFound state.now ledger) }
{
    check_enabled(state)?;
    check_bookie(state, worker)?;
    let found = find_ledger(state, ledger)?;
    if found.ledger.task().is_none() {
        return Err(Refusal::NoTask);
    }
    if let Some(lock) = found.ledger.lock() {
        return Err(Refusal::Locked(lock.owner));
    }
    Ok(found)
}

pub(crate) fn check_release(
    state: &State,
    worker: BookieIx,
    ledger: LedgerId,
) -> Result<Found<'_>, Refusal>
    ensures { Finds result (refusal_of state.now (Release worker ledger)) (IsFound state.now ledger) }
{
    find_owned(state, worker, ledger)
}

pub(crate) fn check_finish(
    state: &State,
    worker: BookieIx,
    ledger: LedgerId,
) -> Result<Found<'_>, Refusal>
    ensures { Finds result (refusal_of state.now (Finish worker ledger)) (IsFound state.now ledger) }
{
    let found = find_owned(state, worker, ledger)?;
    if let Some(fragment) = under_of(state, found.ledger) {
        return Err(Refusal::StillUnder(fragment));
    }
    Ok(found)
}

pub(crate) fn check_expire(state: &State, worker: BookieIx) -> Result<(), Refusal>
    ensures { Decides result (refusal_of state.now (Expire worker)) }
{
    check_bookie(state, worker)?;
    if !holds_lock(worker, state.ledgers()) {
        return Err(Refusal::NoLocks);
    }
    Ok(())
}

pub(crate) fn check_grace(
    state: &State,
    worker: BookieIx,
    ledger: LedgerId,
) -> Result<Found<'_>, Refusal>
    ensures { Finds result (refusal_of state.now (Grace worker ledger)) (IsFound state.now ledger) }
{
    let found = find_owned(state, worker, ledger)?;
    check_open(found.ledger)?;
    check_needed(state, found.ledger)?;
    if let Some(due) = due_of(found.ledger) {
        return Err(Refusal::GraceSet(due));
    }
    Ok(found)
}

pub(crate) fn check_tick(state: &State, ticks: u64) -> Result<(), Refusal>
    ensures { Decides result (refusal_of state.now (Tick ticks)) }
{
    if ticks == 0 || ticks > MAX_TICKS {
        return Err(Refusal::BadTick);
    }
    if state.clock() + ticks > CLOCK_END {
        return Err(Refusal::ClockEnd);
    }
    Ok(())
}

/// Gives the writer's next entry, too.
pub(crate) fn check_roll(
    state: &State,
    ledger: LedgerId,
    index: u64,
    bookie: BookieIx,
) -> Result<(Found<'_>, u32), Refusal>
    ensures { Finds result (refusal_of state.now (Roll ledger index bookie))
        (λ (found, next). IsFound state.now ledger found × (next ≡ recovery.next_entry state.now found.ledger.now)) }
{
    check_bookie(state, bookie)?;
    let found = find_ledger(state, ledger)?;
    check_open(found.ledger)?;
    check_member(
        state,
        found.ledger,
        last_fragment(found.ledger),
        index,
        bookie,
    )?;
    let next = find_room(state, found.ledger)?;
    check_next_version(found.ledger)?;
    Ok((found, next))
}

pub(crate) fn check_fence(
    state: &State,
    worker: BookieIx,
    ledger: LedgerId,
) -> Result<Found<'_>, Refusal>
    ensures { Finds result (refusal_of state.now (Fence worker ledger)) (IsFound state.now ledger) }
{
    let found = find_owned(state, worker, ledger)?;
    check_open(found.ledger)?;
    check_needed(state, found.ledger)?;
    let Some(due) = due_of(found.ledger) else {
        return Err(Refusal::NoGrace);
    };
    if state.clock() < due {
        return Err(Refusal::GraceRuns(due));
    }
    check_next_version(found.ledger)?;
    Ok(found)
}

/// Gives where the recovery ends the ledger, too.
pub(crate) fn check_seal(
    state: &State,
    worker: BookieIx,
    ledger: LedgerId,
) -> Result<(Found<'_>, u32), Refusal>
    ensures { Finds result (refusal_of state.now (Seal worker ledger))
        (λ (found, end). IsFound state.now ledger found × (end ≡ recovery.recovered_end state.now found.ledger.now)) }
{
    let found = find_owned(state, worker, ledger)?;
    if found.ledger.metadata().state() != LedgerState::InRecovery {
        return Err(Refusal::NotRecovering);
    }
    let end = find_end(state, found.ledger)?;
    check_next_version(found.ledger)?;
    Ok((found, end))
}

/// Gives the entries to copy.
pub(crate) fn check_copy(state: &State, aim: &Aim, version: u64) -> Result<Striped, Refusal>
    ensures { Finds result (refusal_of state.now
        (Copy aim.now.worker aim.now.ledger aim.now.fragment aim.now.index version))
        (λ entries. entries ≡ stripe_at state.now aim.now.ledger aim.now.fragment aim.now.index) }
{
    let place = find_place(state, aim, version)?;
    let entries = place.entries.duplicate();
    if let Some(entry) = first_unreadable(state, place.found.ledger, place.fragment, entries) {
        return Err(Refusal::NoSource(entry as u64));
    }
    Ok(place.entries)
}

pub(crate) fn check_swap<'a>(
    state: &'a State,
    aim: &Aim,
    version: u64,
) -> Result<Found<'a>, Refusal>
    ensures { Finds result (refusal_of state.now
        (Swap aim.now.worker aim.now.ledger aim.now.fragment aim.now.index version))
        (IsFound state.now aim.now.ledger) }
{
    let place = find_place(state, aim, version)?;
    let found = place.found;
    if let Some(entry) = first_lacked(state, aim.worker, found.ledger, place.entries) {
        return Err(Refusal::MissingEntry(entry as u64));
    }
    check_next_version(found.ledger)?;
    Ok(found)
}

pub(crate) fn check_disable(state: &State) -> Result<(), Refusal>
    ensures { Decides result (refusal_of state.now Disable) }
{
    if !state.is_enabled() {
        return Err(Refusal::AlreadyDisabled);
    }
    Ok(())
}

pub(crate) fn check_enable(state: &State) -> Result<(), Refusal>
    ensures { Decides result (refusal_of state.now Enable) }
{
    if state.is_enabled() {
        return Err(Refusal::AlreadyEnabled);
    }
    Ok(())
}

// Checks that events share

/// Whether AutoRecovery is enabled.
fn check_enabled(state: &State) -> Result<(), Refusal>
    ensures { Decides result (model.disabled state.now) }
{
    if state.is_enabled() {
        Ok(())
    } else {
        Err(Refusal::Disabled)
    }
}

/// Whether the ledger's metadata can go to a next version.
fn check_next_version(ledger: &Ledger) -> Result<(), Refusal>
    ensures { Decides result (model.version_end ledger.now) }
{
    if ledger.metadata().version() == MAX_VERSION {
        Err(Refusal::VersionEnd)
    } else {
        Ok(())
    }
}

/// Whether the worker holds the lock of one of these ledgers.
fn holds_lock(worker: BookieIx, ledgers: &[Ledger]) -> bool
    ensures { result ≡ list_any (is_locked_by worker) ledgers.now }
{
    ledgers.iter().any(|ledger| ledger.is_locked_by(worker))
}

// Open ledgers

/// Whether a writer may still append to the ledger.
fn check_open(ledger: &Ledger) -> Result<(), Refusal>
    ensures { Decides result (model.not_open ledger.now) }
{
    if ledger.metadata().state() == LedgerState::Open {
        Ok(())
    } else {
        Err(Refusal::NotOpen)
    }
}

/// Whether some member of the ensemble to which the writer appends isn't registered.
fn check_needed(state: &State, ledger: &Ledger) -> Result<(), Refusal>
    ensures { Decides result (model.not_needed state.now ledger.now) }
{
    if is_under(state, last_fragment(ledger)) {
        Ok(())
    } else {
        Err(Refusal::NotNeeded)
    }
}

/// The tick from which the ledger may be fenced, if its lock has one.
fn due_of(ledger: &Ledger) -> Option<u64>
    ensures { result ≡ cluster.due_of ledger.now }
{
    ledger.lock()?.due
}

/// The writer's next entry, if there is one, and room for the fragment that begins there, where one is needed.
fn find_room(state: &State, ledger: &Ledger) -> Result<u32, Refusal>
    ensures { Finds result (first_reason
        (model.entry_end state.now ledger.now ∷ model.fragments_full state.now ledger.now ∷ []))
        (λ next. next ≡ recovery.next_entry state.now ledger.now) }
{
    let next = next_entry(state, ledger);
    if next as u64 == ENTRY_END {
        return Err(Refusal::EntryEnd);
    }
    let needed = next != last_fragment(ledger).first;
    if needed && ledger.metadata().fragments().len() >= MAX_FRAGMENTS {
        return Err(Refusal::FragmentsFull);
    }
    Ok(next)
}

// Copies and swaps

/// The place that a copy or a swap names, with its worker.
pub(crate) fn aim_of(worker: BookieIx, ledger: LedgerId, fragment: u64, index: u64) -> Aim
    ensures { result
        ≡ record { worker = worker; ledger = ledger; fragment = fragment; index = index } }
{
    Aim {
        worker,
        ledger,
        fragment,
        index,
    }
}

/// A place of an ensemble that a worker's bookie can take: its ledger, its fragment, and the entries that this stripes
/// onto the place's index.
#[derive(Drop)]
struct EnsemblePlace<'a> {
    found: Found<'a>,
    fragment: &'a Fragment,
    entries: Striped,
}

/// What a copy and a swap ask first: the place of the aim in the ledger whose lock the worker holds, at that version,
/// if the worker's bookie can take it.
fn find_place<'a>(state: &'a State, aim: &Aim, version: u64) -> Result<EnsemblePlace<'a>, Refusal>
    ensures { MatchResult result
        (λ place. (model.no_bookie state.now aim.now.worker ≡ None)
        × IsPlace state.now aim.now place
        × (first_reason (place_checks state.now aim.now.worker aim.now.fragment aim.now.index version
        place.found.ledger.now) ≡ None))
        (λ refusal. first_reason (model.no_bookie state.now aim.now.worker
        ∷ model.at_ledger state.now aim.now.ledger
        (place_checks state.now aim.now.worker aim.now.fragment aim.now.index version)
        ∷ []) ≡ Some refusal) }
{
    let found = find_owned(state, aim.worker, aim.ledger)?;
    check_version(found.ledger, version)?;
    let (fragment, entries) = check_place(state, found.ledger, aim)?;
    Ok(EnsemblePlace {
        found,
        fragment,
        entries,
    })
}

/// Whether the ledger's metadata is at that version.
fn check_version(ledger: &Ledger, version: u64) -> Result<(), Refusal>
    ensures { Decides result (model.stale_version ledger.now version) }
{
    let now = ledger.metadata().version();
    if now == version {
        Ok(())
    } else {
        Err(Refusal::Stale(now))
    }
}

/// The least of the entries that the bookie lacks.
fn first_lacked(state: &State, bookie: BookieIx, ledger: &Ledger, entries: Striped) -> Option<u32>
    ensures { result ≡ find (λ e. not (cluster.holds state.now bookie ledger.now.id e)) entries }
{
    let row = state.row(bookie, ledger.id());
    for word in entries.words() {
        let number = word.number;
        let bits = word.bits & !word_at(row, number as usize);
        if let Some(entry) = least_entry(Word { number, bits }) {
            return Some(entry);
        }
    }
    None
}
