// What is done for one ledger, as AutoRecovery does it: its lock, the recovery of an open one, and the places of missing
// members.
ghost use Rattle.std.specs.Prelude.{◌≡◌, ◌⊎◌, IfOk, IfSome, OnOk, false, slice_get, true};
ghost use Rattle.std.specs.Option.{option_copied};
ghost use Rattle.reh_plan.specs.Plans.{Works};
ghost use Rattle.reh_plan.specs.Fills.{Fills, IsChosen, IsSame, Rolls};
ghost use Rattle.reh_plan.specs.Workers as model;
ghost use Rattle.reh_plan.specs.Workers.{Rules, can_work, may_work};

use crate::ends::{aim_at, is_fill_accepted};
use crate::faults::{PlanFault, StepFault, go_on};
use crate::plans::Plan;
use crate::reasons::first_missing;
use crate::workers::{Workers, owner_of};
use reh_cluster::{Ledger, State};
use reh_meta::LedgerMeta;
use reh_scan::{last_fragment, next_entry};
use reh_types::{BookieIx, CLOCK_END, Event, LedgerId, LedgerState, MAX_ENSEMBLE_SIZE};
use std::alloc::{AllocError, Global};

/// A ledger to be repaired, by its place in the picture, and its id.
#[derive(Clone, Copy)]
pub(crate) struct Repair {
    pub place: usize,
    pub ledger: LedgerId,
}

/// The place of a missing member, in an ensemble whose entries are known.
#[derive(Clone, Copy)]
struct Gap {
    fragment: usize,
    index: usize,
}

impl Repair {
    // What there is to do

    /// The ledger as it stands.
    fn ledger_in<'a>(&self, state: &'a State) -> Option<&'a Ledger>
        ensures { option_copied result ≡ slice_get state.now.parts.ledgers self.now.place }
    {
        state.ledgers().get(self.place)
    }

    /// Whether the ledger has a task.
    pub(crate) fn has_task(&self, state: &State) -> bool {
        match self.ledger_in(state) {
            Some(ledger) => ledger.task().is_some(),
            None => false,
        }
    }

    /// Where the ledger stands, and its last fragment with the index of the first member that isn't registered, if the
    /// ledger isn't closed and there is such a member.
    fn unclosed(&self, state: &State) -> Option<(LedgerState, usize, usize)> {
        let metadata = self.ledger_in(state)?.metadata();
        let unclosed = metadata.state();
        if matches!(unclosed, LedgerState::Closed { end: _ }) {
            return None;
        }
        let last = metadata.fragments().len().checked_sub(1)?;
        let index = first_missing(state, metadata.fragments().get(last)?)?;
        Some((unclosed, last, index))
    }

    /// The number of the last fragment, if the ledger is open and the member at the index of its ensemble isn't registered.
    fn fragment_to_roll(&self, state: &State, index: usize) -> Option<usize>
        ensures { IfSome result (λ last. last ≡ model.last_in state.now self.now.place) }
    {
        let ledger = self.ledger_in(state)?;
        let metadata = ledger.metadata();
        let member = last_fragment(ledger).ensemble.get(index)?;
        if metadata.state() != LedgerState::Open || state.is_up(*member) {
            return None;
        }
        metadata.fragments().len().checked_sub(1)
    }

    /// About how many entries a member of the ledger's fragment has, 0 if the fragment's entries aren't known.
    fn share(&self, state: &State, fragment: usize) -> u64
        ensures { result ≡ model.share_in state.now self.now.place fragment }
    {
        match self.ledger_in(state) {
            Some(ledger) => share_at(ledger.metadata(), fragment),
            None => 0,
        }
    }

    /// About how many entries a member of the ledger's last fragment has, if its writer goes on now.
    fn share_to_roll(&self, state: &State) -> u64
        ensures { result ≡ model.share_to_roll state.now self.now.place }
    {
        match self.ledger_in(state) {
            Some(ledger) => share(
                ledger.metadata(),
                next_entry(state, ledger).saturating_sub(last_fragment(ledger).first),
            ),
            None => 0,
        }
    }

    /// The places of missing members.
    fn gaps(&self, alloc: Global, state: &State) -> Result<Vec<Gap>, AllocError> {
        let mut gaps = Vec::new(alloc);
        let Some(ledger) = self.ledger_in(state) else {
            return Ok(gaps);
        };
        for fragment in 0..ledger.metadata().fragments().len() {
            push_gaps(&mut gaps, state, ledger, fragment)?;
        }
        Ok(gaps)
    }

    /// Who holds the lock.
    fn owner(&self, state: &State) -> Option<BookieIx> {
        owner_of(self.ledger_in(state)?)
    }

    /// The version of the ledger's metadata.
    fn version(&self, state: &State) -> u64 {
        match self.ledger_in(state) {
            Some(ledger) => ledger.metadata().version(),
            None => 0,
        }
    }

    // What is tried first

    /// Whether an open ledger that nobody has locked could be recovered, if the worker locked its task, granted a grace and
    /// waited for its end.
    fn check_grant(&self, plan: &mut Plan, worker: BookieIx) -> Result<(), StepFault>
        ensures { plan.new ≡ plan.old }
    {
        if self.owner(plan.state()).is_some() {
            return Ok(());
        }
        let ledger = self.ledger;
        let acquire = Event::Acquire { worker, ledger };
        let grace = Event::Grace { worker, ledger };
        let fence = Event::Fence { worker, ledger };
        let seal = Event::Seal { worker, ledger };
        let ticks = plan.state().grace();
        if ticks == 0 || CLOCK_END.saturating_sub(plan.state().clock()) < ticks {
            return plan.check_all(&[acquire, grace, fence, seal]);
        }
        plan.check_all(&[acquire, grace, Event::Tick { ticks }, fence, seal])
    }

    /// Whether the event would be accepted, if the worker locked the task, and nobody has locked it.
    fn check_locked(
        &self,
        plan: &mut Plan,
        worker: BookieIx,
        event: &Event,
    ) -> Result<(), StepFault>
        ensures { plan.new ≡ plan.old }
    {
        if self.owner(plan.state()).is_some() {
            return Ok(());
        }
        let ledger = self.ledger;
        plan.check_all(&[Event::Acquire { worker, ledger }, *event])
    }

    /// Whether the worker could take the place, if it had the ledger's lock.
    fn check_fill(&self, state: &State, worker: BookieIx, gap: &Gap) -> Result<(), StepFault> {
        let Some(ledger) = self.ledger_in(state) else {
            return Ok(());
        };
        let aim = aim_at(worker, ledger, gap.fragment, gap.index);
        if is_fill_accepted(state, ledger, &aim) {
            Ok(())
        } else {
            Err(StepFault::Left)
        }
    }

    // What is done

    /// Locks the task by this worker. Another worker's lock is given back first.
    fn lock(&self, plan: &mut Plan, worker: BookieIx) -> Result<(), StepFault>
        ensures { (rules : Rules) → may_work rules worker ≡ true → Works rules plan.old plan.new }
    {
        let ledger = self.ledger;
        match self.owner(plan.state()) {
            Some(owner) if owner == worker => return Ok(()),
            Some(owner) => plan.work(&Event::Release {
                worker: owner,
                ledger,
            })?,
            None => {}
        }
        plan.work(&Event::Acquire { worker, ledger })
    }

    /// The worker that is to take the place at the index of the fragment.
    fn chosen(
        &self,
        state: &State,
        workers: &Workers,
        fragment: usize,
        index: usize,
    ) -> Result<BookieIx, StepFault>
        ensures may { IfOk result (λ worker. may_work workers.now.rules worker ≡ true) }
        ensures chosen { IfOk result (IsChosen workers.now state.now self.now.place fragment index) }
    {
        match self.worker(state, workers, fragment, index) {
            Some(worker) => Ok(worker),
            None => Err(StepFault::Left),
        }
    }

    /// Who takes the place at the index of the fragment.
    fn worker(
        &self,
        state: &State,
        workers: &Workers,
        fragment: usize,
        index: usize,
    ) -> Option<BookieIx>
        ensures can { IfSome result (λ worker. can_work (may_work workers.now.rules) state.now worker ≡ true) }
        ensures chosen { IfSome result (IsChosen workers.now state.now self.now.place fragment index) }
    {
        workers.choose(state, self.ledger_in(state)?, fragment, index)
    }

    /// Grants the writer of an open ledger its grace, if it needs another bookie, and its recovery will be accepted.
    pub(crate) fn grant(&self, plan: &mut Plan, workers: &Workers) -> Result<(), StepFault>
        requires { workers.now.rules.writers_roll ≡ false }
        ensures { Works workers.now.rules plan.old plan.new }
    {
        if !self.has_task(plan.state()) {
            return Ok(());
        }
        let Some((LedgerState::Open, last, index)) = self.unclosed(plan.state()) else {
            return Ok(());
        };
        let worker = self.chosen(plan.state(), workers, last, index)?;
        self.check_grant(plan, worker)?;
        self.lock(plan, worker)?;
        let ledger = self.ledger;
        plan.work(&Event::Grace { worker, ledger })
    }

    /// Does what can be done for a ledger that isn't closed, if some member of its last ensemble isn't registered: its writer
    /// puts others into the ensemble, where writers do so, or else it is recovered.
    fn settle(&self, plan: &mut Plan, workers: &mut Workers) -> Result<(), StepFault>
        ensures works { Works workers.old.rules plan.old plan.new }
        ensures rules { workers.new.rules ≡ workers.old.rules }
    {
        match self.unclosed(plan.state()) {
            None => Ok(()),
            Some((LedgerState::Open, last, index)) => {
                if workers.do_writers_roll() {
                    self.roll(plan, workers)
                } else {
                    self.recover(plan, workers, last, index)
                }
            }
            Some((_, last, index)) => self.seal(plan, workers, last, index),
        }
    }

    /// Recovers an open ledger, for which the member at the index of its last fragment isn't registered. It is fenced only
    /// where its recovery is accepted then.
    fn recover(
        &self,
        plan: &mut Plan,
        workers: &Workers,
        last: usize,
        index: usize,
    ) -> Result<(), StepFault>
        requires { workers.now.rules.writers_roll ≡ false }
        ensures { Works workers.now.rules plan.old plan.new }
    {
        let worker = self.chosen(plan.state(), workers, last, index)?;
        self.check_grant(plan, worker)?;
        self.lock(plan, worker)?;
        let ledger = self.ledger;
        let fence = Event::Fence { worker, ledger };
        let seal = Event::Seal { worker, ledger };
        plan.check_all(&[fence, seal])?;
        plan.work(&fence)?;
        plan.work(&seal)
    }

    /// Closes a ledger that was fenced, where that is accepted.
    fn seal(
        &self,
        plan: &mut Plan,
        workers: &Workers,
        last: usize,
        index: usize,
    ) -> Result<(), StepFault>
        ensures { Works workers.now.rules plan.old plan.new }
    {
        let worker = self.chosen(plan.state(), workers, last, index)?;
        let ledger = self.ledger;
        let seal = Event::Seal { worker, ledger };
        self.check_locked(plan, worker, &seal)?;
        self.lock(plan, worker)?;
        plan.work(&seal)
    }

    /// Has the writer of an open ledger put other bookies in the place of the last ensemble's missing members.
    pub(crate) fn roll(&self, plan: &mut Plan, workers: &mut Workers) -> Result<(), StepFault>
        requires { workers.old.rules.writers_roll ≡ true }
        ensures works { Works workers.old.rules plan.old plan.new }
        ensures rules { workers.new.rules ≡ workers.old.rules }
    {
        for index in 0..MAX_ENSEMBLE_SIZE as usize {
            self.roll_at(plan, workers, index)?;
        }
        Ok(())
    }

    /// Has the writer put another bookie at the index of the last ensemble, if the ledger is open and that member isn't
    /// registered: the one that is chosen for that place, and of which it is noted that it has its share of the entries.
    fn roll_at(&self, plan: &mut Plan, workers: &mut Workers, index: usize) -> Result<(), StepFault>
        requires { workers.old.rules.writers_roll ≡ true }
        ensures works { Works workers.old.rules plan.old plan.new }
        ensures rules { workers.new.rules ≡ workers.old.rules }
        ensures rolled { OnOk result (IsSame workers.old plan.old workers.new plan.new
            ⊎ Rolls workers.old plan.old self.now.place self.now.ledger index workers.new plan.new) }
    {
        let Some(last) = self.fragment_to_roll(plan.state(), index) else {
            return Ok(());
        };
        let bookie = self.chosen(plan.state(), workers, last, index)?;
        workers.add(bookie, self.share_to_roll(plan.state()));
        plan.work(&Event::Roll {
            ledger: self.ledger,
            index: index as u64,
            bookie,
        })
    }

    /// Has a worker copy the entries of a missing member's place, and take it, where both are accepted: the one that is
    /// chosen for that place, and of which it is noted that it has its share of the entries.
    fn fill(&self, plan: &mut Plan, workers: &mut Workers, gap: &Gap) -> Result<(), StepFault>
        ensures works { Works workers.old.rules plan.old plan.new }
        ensures rules { workers.new.rules ≡ workers.old.rules }
        ensures filled { OnOk result (Fills workers.old plan.old self.now.place self.now.ledger gap.now.fragment
            gap.now.index workers.new plan.new) }
    {
        let worker = self.chosen(plan.state(), workers, gap.fragment, gap.index)?;
        self.check_fill(plan.state(), worker, gap)?;
        let entries = self.share(plan.state(), gap.fragment);
        let version = self.version(plan.state());
        let ledger = self.ledger;
        let fragment = gap.fragment as u64;
        let index = gap.index as u64;
        let copy = Event::Copy {
            worker,
            ledger,
            fragment,
            index,
            version,
        };
        let swap = Event::Swap {
            worker,
            ledger,
            fragment,
            index,
            version,
        };
        self.lock(plan, worker)?;
        plan.work(&copy)?;
        workers.add(worker, entries);
        plan.work(&swap)
    }

    /// Does all that can be done for the ledger.
    pub(crate) fn work(
        &self,
        alloc: Global,
        plan: &mut Plan,
        workers: &mut Workers,
    ) -> Result<(), PlanFault>
        ensures works { Works workers.old.rules plan.old plan.new }
        ensures rules { workers.new.rules ≡ workers.old.rules }
    {
        let settled = self.settle(plan, workers);
        go_on(settled)?;
        let gaps = self.gaps(alloc, plan.state())?;
        for gap in &gaps {
            let filled = self.fill(plan, workers, gap);
            go_on(filled)?;
        }
        let ended = self.end(plan);
        go_on(ended)
    }

    /// Ends the task, if that can be done, or else gives the lock back.
    fn end(&self, plan: &mut Plan) -> Result<(), StepFault>
        ensures { (rules : Rules) → Works rules plan.old plan.new }
    {
        let Some(worker) = self.owner(plan.state()) else {
            return Ok(());
        };
        let ledger = self.ledger;
        match plan.work(&Event::Finish { worker, ledger }) {
            Err(StepFault::Left) => plan.work(&Event::Release { worker, ledger }),
            ended => ended,
        }
    }
}

/// Adds the places of a fragment's missing members, if its entries are known.
fn push_gaps(
    gaps: &mut Vec<Gap>,
    state: &State,
    ledger: &Ledger,
    number: usize,
) -> Result<(), AllocError> {
    let metadata = ledger.metadata();
    let (Some(fragment), Some(_)) = (metadata.fragments().get(number), metadata.end_of(number))
    else {
        return Ok(());
    };
    for (index, member) in fragment.ensemble.iter().enumerate() {
        if !state.is_up(*member) {
            gaps.push(Gap {
                fragment: number,
                index,
            })?;
        }
    }
    Ok(())
}

/// About how many entries a member of the fragment of that number has, 0 if the fragment's entries aren't known.
fn share_at(metadata: &LedgerMeta, number: usize) -> u64
    ensures { result ≡ model.share_at metadata.now number }
{
    match (metadata.fragments().get(number), metadata.end_of(number)) {
        (Some(fragment), Some(end)) => share(metadata, end.saturating_sub(fragment.first)),
        _ => 0,
    }
}

/// About how many of so many entries a member has, as each is written to a write quorum of them.
fn share(metadata: &LedgerMeta, entries: u32) -> u64
    ensures { result ≡ model.share metadata.now entries }
{
    entries as u64 * metadata.write_quorum() as u64 / metadata.size() as u64
}
