// Surveys by several workers, each on a thread of its own.
ghost use Rattle.std.specs.Prelude.{◌≡◌, ◌+◌, ◌^◌, ◌<◌, ◌≤◌, drop, length, take, IfOk};
ghost use Rattle.reh_model.specs.Survey as model;
ghost use Rattle.reh_crew.specs.declared.threads.TheConstants.{MAX_WORKERS};

use crate::gates::Gate;
use crate::shares::first_share;
use crate::surveyors::SurveyFault;
use reh_cluster::State;
use reh_scan::{survey_costs, survey_run};
use reh_types::SurveyLine;
use std::alloc::{AllocError, Global};
use std::snapshot::Snapshot;
use std::sync::Wait;
use std::thread;
use std::thread::{Promise, PromisedHandle, Scope};

/// How many workers a survey can have.
pub const MAX_WORKERS: usize = 8;

/// How many operators a drill can have, each of whom passes the gate as a worker.
pub const MAX_OPERATORS: usize = 8;

/// Surveys by so many workers, from 1 to 8. Each takes one run of the fragments in picture order, and the runs have about
/// equally much to read; a run may end within a ledger. Worker 0 is the caller's own thread, each other has one of its own.
///
/// Each worker passes the gate once, before its run, also where that is empty.
pub struct Threads<'a, R: thread::Threads + Wait + Sync, G: Gate + Sync> {
    pub rt: &'a R,
    pub workers: usize,
    pub gate: &'a G,
    ghost some: { 0 < workers },
    ghost few: { workers ≤ MAX_WORKERS },
}

impl<'a, R: thread::Threads + Wait + Sync, G: Gate + Sync> Drop for Threads<'a, R, G> {
    fn drop(self) {
        let Threads {
            rt: _,
            workers: _,
            gate: _,
        } = self;
    }
}

impl<'a, R: thread::Threads + Wait + Sync, G: Gate + Sync> Threads<'a, R, G> {
    /// The lines of all fragments, in picture order. All workers are started before one is waited for.
    pub fn survey(&self, alloc: Global, state: &State) -> Result<Vec<SurveyLine>, SurveyFault>
        ensures { IfOk result (λ lines. lines.items ≡ model.survey state.now) }
    {
        let costs = survey_costs(alloc, state)?;
        survey_shared(self.rt, alloc, self.gate, state, self.workers, &costs)
    }
}

/// The survey by so many workers, shared out by what there is to read for each of its lines.
fn survey_shared<R: thread::Threads + Wait + Sync, G: Gate + Sync>(
    rt: &R,
    alloc: Global,
    gate: &G,
    state: &State,
    workers: usize,
    costs: &[u32],
) -> Result<Vec<SurveyLine>, SurveyFault>
    requires some { 0 < workers }
    requires lines { length costs.now ≡ length (model.survey state.now) }
    ensures { IfOk result (λ lines. lines.items ≡ model.survey state.now) }
{
    thread::scope(
        thread::scope_env(),
        rt,
        move |scope| -> Result<Vec<SurveyLine>, SurveyFault>
            requires some { 0 < workers }
            requires lines { length costs.now ≡ length (model.survey state.now) }
            ensures { IfOk result (λ lines. lines.items ≡ model.survey state.entry.now) }
        { survey_rest(scope, rt, alloc, gate, state, workers, 0, costs) },
    )
}

/// The lines from the first one on, by so many workers. The last of them by its number takes the first run, on a thread
/// of its own; worker 0 takes the last run, on the caller's.
fn survey_rest<'s, 'e, R: thread::Threads + Wait + Sync, G: Gate + Sync>(
    scope: &'s Scope<'s, &'e ()>,
    rt: &'s R,
    alloc: Global,
    gate: &'s G,
    state: &'s State,
    workers: usize,
    first: usize,
    costs: &[u32],
) -> Result<Vec<SurveyLine>, SurveyFault>
    requires some { 0 < workers }
    requires lines { first + length costs.now ≡ length (model.survey state.now) }
    requires fits { first + length costs.now < 2 ^ 64 }
    ensures { IfOk result (λ lines. lines.items ≡ drop first (model.survey state.now)) }
{
    let count = first_share(costs, workers);
    let worker = workers - 1;
    if worker == 0 {
        let lines = survey_part(alloc, gate, state, worker, first, count)?;
        return Ok(lines);
    }
    let (_, others) = costs.split_at(count);
    let started = start(scope, rt, alloc, gate, state, worker, first, count)?;
    let rest = survey_rest(scope, rt, alloc, gate, state, worker, first + count, others);
    let mut lines = started.join(rt)?;
    let mut rest = rest?;
    lines.append(&mut rest)?;
    Ok(lines)
}

/// What a worker promises: the lines of its run.
#[derive(Drop)]
struct RunOf {
    state: Snapshot<State>,
    first: usize,
    count: usize,
}

impl Promise<Result<Vec<SurveyLine>, AllocError>> for RunOf {
    ghost use Rattle.std.specs.Prelude.{◌≡◌, IfOk, take, drop};
    ghost use Rattle.reh_model.specs.Survey as model;

    ghost kept_by = { λ p result. IfOk result (λ lines. lines.items ≡ take p.count (drop p.first (model.survey p.state.value))) };
}

/// Starts the thread of a worker, or says that there is none for it.
fn start<'s, 'e, R: thread::Threads + Wait + Sync, G: Gate + Sync>(
    scope: &'s Scope<'s, &'e ()>,
    rt: &'s R,
    alloc: Global,
    gate: &'s G,
    state: &'s State,
    worker: usize,
    first: usize,
    count: usize,
) -> Result<PromisedHandle<Result<Vec<SurveyLine>, AllocError>, RunOf>, SurveyFault>
    ensures { IfOk result (λ handle. (handle.promise.state.value ≡ state.now)
        × (handle.promise.first ≡ first) × (handle.promise.count ≡ count)) }
{
    let promise = RunOf {
        state: Snapshot::of(state),
        first,
        count,
    };
    match scope.spawn_with(
        promise,
        move || survey_part(alloc, gate, state, worker, first, count),
    ) {
        Ok(handle) => Ok(handle),
        Err(refused) => Err(SurveyFault::from(refused)),
    }
}

/// A worker's part: it passes the gate, and makes so many lines from that one on.
fn survey_part<G: Gate>(
    alloc: Global,
    gate: &G,
    state: &State,
    worker: usize,
    first: usize,
    count: usize,
) -> Result<Vec<SurveyLine>, AllocError>
    ensures { IfOk result (λ lines. lines.items ≡ take count (drop first (model.survey state.now))) }
{
    gate.pass(worker);
    survey_run(alloc, state, first, count)
}
