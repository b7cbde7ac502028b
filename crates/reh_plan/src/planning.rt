// The plan for a cluster: bookies are lost, the auditor publishes, and AutoRecovery is played to its end.
ghost use Rattle.std.specs.Prelude.{◌≡◌, ◌≤◌, ◌++◌, length, map, IfOk, OnOk, Some, true};
ghost use Rattle.std.specs.List.{list_all};
ghost use Rattle.reh_types.specs.declared.limits.TheConstants.{MAX_BOOKIES};
ghost use Rattle.reh_model.specs.Book.{new_book};
ghost use Rattle.reh_model.specs.Session.{replay, opened_session};
ghost use Rattle.reh_transcript.specs.Transcript.{starting, transcript};
ghost use Rattle.reh_plan.specs.Replies.{ok_answers};
ghost use Rattle.reh_types.specs.Sets as set;
ghost use Rattle.reh_plan.specs.Plans.{Asks, Draft, Works, Loses, GoesOnBy, IsWithout, AllNamed, AreLeft, OnlyLeft, IsPlayed, IsRepaired, Tells, comment_of, is_filled_by, losses_of};
ghost use Rattle.reh_plan.specs.Ends.{Ends, IsHarmless};
ghost use Rattle.reh_plan.specs.Needed.{AreNeeded};
ghost use Rattle.reh_plan.specs.Summaries.{IsSum, holdings_of};
ghost use Rattle.reh_plan.specs.Racks as model;
ghost use Rattle.reh_plan.specs.Takers.{AreWellTaken};
ghost use Rattle.reh_plan.specs.Workers.{Rules, can_work, may_work, rules_by};

use crate::ends::{check_harmless, is_cut_off, recovering_in};
use crate::faults::{PlanFault, StepFault, go_on};
use crate::fewer::{FewerRacks, fewer_racks, metadata_of, tell};
use crate::plans::Plan;
use crate::racks::Racks;
use crate::reasons::{Left, left_in};
use crate::repairs::Repair;
use crate::summaries::{Summary, holdings_of, summary_of};
use crate::workers::Workers;
use reh_cluster::State;
use reh_meta::LedgerMeta;
use reh_types::{BookieIx, BookieSet, Event, MAX_BOOKIES};
use std::alloc::Global;

/// A plan, and what it comes to.
#[derive(Drop)]
pub struct Planned {
    pub plan: Plan,
    pub summary: Summary,
    /// The ledgers with which something is left to do at the end, in picture order, and why.
    pub left: Vec<Left>,
    /// The fragments of which a write set may stand in fewer racks at the end.
    pub fewer: Vec<FewerRacks>,
}

/// What is said of a plan that was played.
#[derive(Drop)]
struct Told {
    left: Vec<Left>,
    fewer: Vec<FewerRacks>,
    summary: Summary,
}

/// The plan for a cluster of which these bookies are lost, where only the allowed bookies work, but for those that are
/// read-only; and what it comes to.
///
/// The bookies are lost, the auditor publishes, once the delay for lost bookies is over, and AutoRecovery is played to its
/// end: of each ledger with a task a worker takes the places of missing members. It is one with which the fewest write sets
/// lack racks; of those the one that has the ledger's lock, else one in no ensemble of the ledger, and then the one that
/// holds least. An open ledger that needs its writer is fenced after the grace and recovered first. With `writers_roll`
/// writers are writing: before the auditor publishes, each puts such a bookie in the place of each missing member of its
/// last ensemble, where that is accepted, and no ledger is fenced. Where AutoRecovery is disabled, the plan enables it.
///
/// Each line of the script is a comment or asks for an event (`asks`), and played on this state each of these events is
/// accepted (`accepted`): each line that has an answer is answered `ok` (`replies`). First those of the lost bookies that
/// are registered are lost, and after that there is nothing but AutoRecovery's work, by which no registration changes, and
/// in which none but allowed bookies that aren't read-only lock tasks, recover ledgers, copy or take places; writers take
/// part only with `writers_roll`, and then no ledger gets a grace or is fenced (`order`). Each bookie that copies entries or
/// takes a place is registered, too (`filled`). Each place goes to a bookie with which no more write sets of the fragment
/// lack racks than with any other that may work, is registered and is no member then (`places`). In the end the lost bookies
/// aren't registered, and all others are as they were (`lost`). Each ledger that has a task then, or a member that isn't
/// registered, is named in a comment (`named`), and no other is, and for a reason that is so in the end; a comment says that
/// the script is full only where it is (`only`).
/// [`Planned::left`] lists exactly these ledgers, in picture order, each with the reason that its comment gives; there is one
/// comment for each, and these are the last lines before those on racks (`left`). The summary has their number (`counted`).
/// Where no comment says that the script is full, no place is left in the end that could be filled, no ledger that could be
/// recovered, or given a bookie that may work by its writer, no lock, and no task where nothing is missing (`ends`), and no
/// lock, fence, copy or grace is in vain: the next command uses the first three, and a fence uses the grace (`needed`). No
/// ledger was fenced and stays in recovery (`harmless`). At the end of the script a comment tells of each fragment of which a
/// write set may come to stand in fewer racks than before, and than are asked for (`racks` and `told`); `only`, `left`, `ends`
/// and `needed` speak of the lines before these. The summary tells for each bookie how many places it takes and how many
/// entries it holds more in the end, how many ledgers are left, how many entries can't be read, and whether the script says
/// that it is full (`sum`).
pub fn plan(
    alloc: Global,
    state: State,
    lost: &BookieSet,
    allowed: &BookieSet,
    read_only: &BookieSet,
    racks: &Racks,
    writers_roll: bool,
) -> Result<Planned, PlanFault>
    ensures opening { IfOk result (λ p. p.plan.opening ≡ state) }
    ensures asks { IfOk result (λ p. Asks state.names p.plan.lines p.plan.events) }
    ensures accepted { IfOk result (λ p. replay state p.plan.events ≡ Some p.plan.state) }
    ensures replies { IfOk result (λ p.
        transcript state.names 0 (starting (new_book (opened_session state))) 1 p.plan.lines
        ≡ ok_answers state.names 1 p.plan.lines) }
    ensures lost { IfOk result (λ p. IsWithout state (set.contains lost.now) p.plan.state) }
    ensures order { IfOk result (λ p. GoesOnBy (rules_by allowed.now read_only.now writers_roll)
        (losses_of state (set.contains lost.now) (length state.names)) p.plan.events) }
    ensures filled { IfOk result (λ p. list_all
        (is_filled_by (can_work (may_work (rules_by allowed.now read_only.now writers_roll)) p.plan.state)) p.plan.events ≡ true) }
    ensures places { IfOk result (λ p. AreWellTaken (may_work (rules_by allowed.now read_only.now writers_roll)) racks.now
        state p.plan.events) }
    ensures named { IfOk result (λ p. AllNamed p.plan.state p.plan.lines p.plan.state.parts.ledgers) }
    ensures racks { IfOk result (λ p. p.fewer.items ≡ model.fewer_racks racks.now state p.plan.state) }
    ensures told { IfOk result (λ p.
        p.plan.lines ≡ model.lines_before p.fewer.items p.plan.lines ++ map model.racks_line p.fewer.items) }
    ensures only { IfOk result (λ p.
        OnlyLeft (rules_by allowed.now read_only.now writers_roll) state.names p.plan.state
        (model.lines_before p.fewer.items p.plan.lines)) }
    ensures left { IfOk result (λ p. AreLeft (rules_by allowed.now read_only.now writers_roll) state.names p.plan.state
        (model.lines_before p.fewer.items p.plan.lines) p.left.items) }
    ensures counted { IfOk result (λ p. p.summary.left ≡ length p.left.items) }
    ensures ends { IfOk result (λ p. Ends (rules_by allowed.now read_only.now writers_roll) p.plan.state
        (model.lines_before p.fewer.items p.plan.lines)) }
    ensures harmless { IfOk result (λ p. IsHarmless state p.plan.state) }
    ensures needed { IfOk result (λ p.
        AreNeeded (model.lines_before p.fewer.items p.plan.lines) p.plan.events) }
    ensures sum { IfOk result (λ p. IsSum p.plan p.summary) }
{
    let mut plan = Plan::begin(alloc, state)?;
    let told = play_and_tell(
        alloc,
        &mut plan,
        lost,
        allowed,
        read_only,
        racks,
        writers_roll,
    )?;
    let _checked = plan.text();
    let Told {
        left,
        fewer,
        summary,
    } = told;
    Ok(Planned {
        plan,
        summary,
        left,
        fewer,
    })
}

/// Plays a plan that has no line yet to its end, and tells in comments of what is left, and of the fragments of which a write
/// set may stand in fewer racks. Returns these, and what the plan comes to.
fn play_and_tell(
    alloc: Global,
    plan: &mut Plan,
    lost: &BookieSet,
    allowed: &BookieSet,
    read_only: &BookieSet,
    racks: &Racks,
    writers_roll: bool,
) -> Result<Told, PlanFault>
    requires begins { plan.old.state ≡ plan.old.opening }
    ensures racks { IfOk result (λ told.
        told.fewer.items ≡ model.fewer_racks racks.now plan.old.state plan.new.state) }
    ensures played { IfOk result (λ told. (p : Draft)
        × IsPlayed plan.old (set.contains lost.now) (rules_by allowed.now read_only.now writers_roll) told.left.items p
        × (plan.new ≡ record p { lines = p.lines ++ map model.racks_line told.fewer.items })) }
    ensures taken { OnOk result (AreWellTaken (may_work (rules_by allowed.now read_only.now writers_roll)) racks.now
        plan.new.opening plan.new.events) }
    ensures sum { IfOk result (λ told. IsSum plan.new told.summary) }
{
    let held = holdings_of(alloc, plan.state())?;
    let before = metadata_of(alloc, plan.state())?;
    let left = play(alloc, plan, lost, allowed, read_only, racks, writers_roll)?;
    let (fewer, summary) = tell_racks(alloc, plan, racks, &before, &held)?;
    Ok(Told {
        left,
        fewer,
        summary,
    })
}

/// Tells in comments of the fragments of which a write set may stand in fewer racks. Returns these, and what the plan comes
/// to.
fn tell_racks(
    alloc: Global,
    plan: &mut Plan,
    racks: &Racks,
    before: &[LedgerMeta],
    held: &[usize],
) -> Result<(Vec<FewerRacks>, Summary), PlanFault>
    requires held { held.now ≡ holdings_of plan.old.opening }
    requires few { length held.now ≤ MAX_BOOKIES }
    ensures racks { IfOk result (λ told.
        told.0.items ≡ model.fewer_among racks.now before.now plan.new.state.parts.ledgers) }
    ensures told { IfOk result (λ told.
        plan.new ≡ record plan.old { lines = plan.old.lines ++ map model.racks_line told.0.items }) }
    ensures sum { IfOk result (λ told. IsSum plan.new told.1) }
{
    let fewer = fewer_racks(alloc, racks, before, plan.state())?;
    tell(alloc, plan, &fewer)?;
    let summary = summary_of(alloc, held, plan)?;
    Ok((fewer, summary))
}

/// Loses these bookies, plays AutoRecovery to its end, and names what is left. Returns the ledgers that are left, and why.
fn play(
    alloc: Global,
    plan: &mut Plan,
    lost: &BookieSet,
    allowed: &BookieSet,
    read_only: &BookieSet,
    racks: &Racks,
    writers_roll: bool,
) -> Result<Vec<Left>, PlanFault>
    ensures played { IfOk result (λ left.
        IsPlayed plan.old (set.contains lost.now) (rules_by allowed.now read_only.now writers_roll) left.items plan.new) }
    ensures taken { OnOk result (AreWellTaken (may_work (rules_by allowed.now read_only.now writers_roll)) racks.now
        plan.new.opening plan.new.events) }
{
    let recovering = recovering_in(alloc, plan.state())?;
    lose_all(plan, lost)?;
    let left = repair_all(alloc, plan, allowed, read_only, racks, writers_roll)?;
    check_harmless(plan.state(), &recovering)?;
    Ok(left)
}

/// Plays AutoRecovery to its end by the bookies that may work, and names what is left. Returns the ledgers that are left, and
/// why.
fn repair_all(
    alloc: Global,
    plan: &mut Plan,
    allowed: &BookieSet,
    read_only: &BookieSet,
    racks: &Racks,
    writers_roll: bool,
) -> Result<Vec<Left>, PlanFault>
    ensures repaired { IfOk result (λ left.
        IsRepaired (rules_by allowed.now read_only.now writers_roll) plan.old left.items plan.new) }
    ensures taken { OnOk result (AreWellTaken (may_work (rules_by allowed.now read_only.now writers_roll)) racks.now
        plan.new.opening plan.new.events) }
{
    let mut workers = Workers::of(alloc, plan.state(), allowed, read_only, racks, writers_roll)?;
    roll_all(plan, &mut workers)?;
    publish(plan)?;
    grant_all(plan, &workers)?;
    work_all(alloc, plan, &mut workers)?;
    plan.check_takers(&workers, racks)?;
    let left = tell_all(alloc, plan, &workers)?;
    Ok(left)
}

/// Says that the script is full, if something is left that could be done, and names each ledger with which something is left.
/// Returns these ledgers, and why.
fn tell_all(alloc: Global, plan: &mut Plan, workers: &Workers) -> Result<Vec<Left>, PlanFault>
    ensures { IfOk result (λ left. Tells workers.now.rules plan.old left.items plan.new) }
{
    let full = is_cut_off(plan, workers)?;
    let left = left_in(alloc, plan.state(), workers, full)?;
    plan.tell_full(full)?;
    leave_all(plan, &left)?;
    Ok(left)
}

/// Loses these bookies, those that are registered.
fn lose_all(plan: &mut Plan, lost: &BookieSet) -> Result<(), PlanFault>
    ensures { OnOk result (Loses plan.old (set.contains lost.now)
        (losses_of plan.old.state (set.contains lost.now) (length plan.old.state.names)) plan.new) }
{
    let count = plan.state().names().len();
    for number in 0..count as u8 {
        let bookie = BookieIx(number);
        if lost.contains(bookie) {
            plan.lose(bookie)?;
        }
    }
    Ok(())
}

/// Has the auditor publish what is missing, once the delay for lost bookies is over. Where it finds nothing, AutoRecovery is
/// enabled if there is a task.
fn publish(plan: &mut Plan) -> Result<(), PlanFault>
    ensures { (rules : Rules) → Works rules plan.old plan.new }
{
    let ticks = ticks_to_publish(plan.state());
    if would_publish(plan, ticks)? {
        audit(plan, ticks)
    } else if has_task(plan.state()) {
        enable(plan)
    } else {
        Ok(())
    }
}

/// Waits so many ticks, enables AutoRecovery, and has the auditor publish.
fn audit(plan: &mut Plan, ticks: u64) -> Result<(), PlanFault>
    ensures { (rules : Rules) → Works rules plan.old plan.new }
{
    plan.wait(ticks)?;
    enable(plan)?;
    plan.attempt(&Event::Audit)
}

/// Whether the auditor would find something to publish, after so many ticks and once AutoRecovery is enabled.
fn would_publish(plan: &mut Plan, ticks: u64) -> Result<bool, PlanFault>
    ensures { plan.new ≡ plan.old }
{
    let tick = Event::Tick { ticks };
    let audited = match (ticks == 0, plan.state().is_enabled()) {
        (true, true) => plan.check_all(&[Event::Audit]),
        (true, false) => plan.check_all(&[Event::Enable, Event::Audit]),
        (false, true) => plan.check_all(&[tick, Event::Audit]),
        (false, false) => plan.check_all(&[tick, Event::Enable, Event::Audit]),
    };
    match audited {
        Ok(()) => Ok(true),
        Err(StepFault::Left) => Ok(false),
        Err(StepFault::Fault(fault)) => Err(fault),
    }
}

/// Enables AutoRecovery, if it is disabled.
fn enable(plan: &mut Plan) -> Result<(), PlanFault>
    ensures { (rules : Rules) → Works rules plan.old plan.new }
{
    if plan.state().is_enabled() {
        return Ok(());
    }
    plan.attempt(&Event::Enable)
}

/// Whether some ledger has a task.
fn has_task(state: &State) -> bool {
    for ledger in state.ledgers() {
        if ledger.task().is_some() {
            return true;
        }
    }
    false
}

/// In how many ticks the delay of each bookie that isn't registered is over.
fn ticks_to_publish(state: &State) -> u64 {
    let mut ticks = 0;
    for number in 0..MAX_BOOKIES as u8 {
        if let Some(tick) = state.lost_tick(BookieIx(number)) {
            let wait = tick
                .saturating_add(state.delay())
                .saturating_sub(state.clock());
            ticks = wait.max(ticks);
        }
    }
    ticks
}

/// Has the writers of all open ledgers put other bookies in the place of missing members, where writers do so.
fn roll_all(plan: &mut Plan, workers: &mut Workers) -> Result<(), PlanFault>
    ensures works { Works workers.old.rules plan.old plan.new }
    ensures rules { workers.new.rules ≡ workers.old.rules }
{
    if !workers.do_writers_roll() {
        return Ok(());
    }
    for place in 0..plan.state().ledgers().len() {
        if let Some(repair) = repair_at(plan.state(), place) {
            let rolled = repair.roll(plan, workers);
            go_on(rolled)?;
        }
    }
    Ok(())
}

/// Grants a grace to the writers of all open ledgers that need another bookie, and waits until it is over. Where writers put
/// other bookies into their ensembles themselves, nothing happens.
fn grant_all(plan: &mut Plan, workers: &Workers) -> Result<(), PlanFault>
    ensures { Works workers.now.rules plan.old plan.new }
{
    if workers.do_writers_roll() {
        return Ok(());
    }
    for place in 0..plan.state().ledgers().len() {
        if let Some(repair) = repair_at(plan.state(), place) {
            let granted = repair.grant(plan, workers);
            go_on(granted)?;
        }
    }
    plan.wait(ticks_to_fence(plan.state()))
}

/// In how many ticks each ledger with a due tick may be fenced.
fn ticks_to_fence(state: &State) -> u64 {
    let mut ticks = 0;
    for ledger in state.ledgers() {
        if let Some(lock) = ledger.lock()
            && let Some(due) = lock.due
        {
            ticks = due.saturating_sub(state.clock()).max(ticks);
        }
    }
    ticks
}

/// Does what can be done for each ledger with a task, in picture order.
fn work_all(alloc: Global, plan: &mut Plan, workers: &mut Workers) -> Result<(), PlanFault>
    ensures works { Works workers.old.rules plan.old plan.new }
    ensures rules { workers.new.rules ≡ workers.old.rules }
{
    for place in 0..plan.state().ledgers().len() {
        work_at(alloc, plan, workers, place)?;
    }
    Ok(())
}

/// Does what can be done for the ledger at a place of the picture, if it has a task.
fn work_at(
    alloc: Global,
    plan: &mut Plan,
    workers: &mut Workers,
    place: usize,
) -> Result<(), PlanFault>
    ensures works { Works workers.old.rules plan.old plan.new }
    ensures rules { workers.new.rules ≡ workers.old.rules }
{
    let Some(repair) = repair_at(plan.state(), place) else {
        return Ok(());
    };
    if !repair.has_task(plan.state()) {
        return Ok(());
    }
    repair.work(alloc, plan, workers)
}

/// The repair of the ledger at a place of the picture.
fn repair_at(state: &State, place: usize) -> Option<Repair> {
    let ledger = state.ledgers().get(place)?;
    Some(Repair {
        place,
        ledger: ledger.id(),
    })
}

/// Names each of these ledgers in a comment, and why something is left to do for it.
fn leave_all(plan: &mut Plan, left: &[Left]) -> Result<(), PlanFault>
    ensures { OnOk result (plan.new ≡ record plan.old { lines = plan.old.lines ++ map comment_of left.now }) }
{
    for one in left {
        plan.leave(one)?;
    }
    Ok(())
}
