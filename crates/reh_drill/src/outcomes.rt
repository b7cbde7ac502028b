// The threads of operators, and what comes back of them.
ghost use Rattle.std.specs.Prelude.{◌≡◌, ◌≤◌, [], map, length, vec_capacity, IfOk, IfErr, MatchResult, Err};
ghost use Rattle.reh_play.specs.declared.faults.PlayFault.TheVariants.{NoThread};
ghost use Rattle.reh_drill.specs.Drills.{OnePlayed, AllPlayed, first_fault};

use crate::operators::{Outcome, operate};
use reh_cluster::Names;
use reh_crew::Gate;
use reh_desk::{Desk, Seat};
use reh_play::PlayFault;
use std::alloc::{AllocError, Global};
use std::snapshot::Snapshot;
use std::sync::Wait;
use std::thread;
use std::thread::{Promise, PromisedHandle, Scope, Threads};

/// What an operator's thread promises of its outcome.
#[derive(Drop)]
pub(crate) struct PlayOf {
    names: Snapshot<Names>,
    seat: Snapshot<Seat>,
    script: Snapshot<Vec<u8>>,
}

impl Promise<Outcome> for PlayOf {
    ghost use Rattle.reh_drill.specs.Drills.{IsOutcome};

    ghost kept_by = { λ p outcome. IsOutcome p.names.value p.seat.value p.script.value.items outcome };
}

/// Starts the thread of one operator, or says that there is none for it.
fn start<'s, 'e, R: Threads + Wait + Sync, G: Gate + Sync>(
    scope: &'s Scope<'s, &'e ()>,
    rt: &'s R,
    alloc: Global,
    gate: &'s G,
    desk: &'s Desk,
    names: &'s Names,
    seat: Seat,
    script: Vec<u8>,
    worker: usize,
) -> Result<PromisedHandle<Outcome, PlayOf>, PlayFault>
    ensures ok { IfOk result (λ handle. (handle.promise.names.value ≡ names.now)
        × (handle.promise.seat.value ≡ seat) × (handle.promise.script.value.items ≡ script.items)) }
    ensures err { IfErr result (λ fault. fault ≡ NoThread) }
{
    let promise = PlayOf {
        names: Snapshot::of(names),
        seat: Snapshot::of(&seat),
        script: Snapshot::of(&script),
    };
    match scope.spawn_with(
        promise,
        move || operate(rt, alloc, gate, desk, names, seat, script, worker),
    ) {
        Ok(handle) => Ok(handle),
        Err(refused) => Err(PlayFault::from(refused)),
    }
}

/// Waits for an operator's thread, if it was started.
fn finish<R: Threads>(
    rt: &R,
    started: Result<PromisedHandle<Outcome, PlayOf>, PlayFault>,
) -> Result<Outcome, PlayFault>
    ensures { MatchResult started
        (λ handle. OnePlayed handle.promise.names.value handle.promise.seat.value handle.promise.script.value.items
        result)
        (λ fault. result ≡ Err fault) }
{
    match started {
        Ok(handle) => Ok(handle.join(rt)),
        Err(fault) => Err(fault),
    }
}

/// Plays the scripts, each by its seat on a thread of its own. All threads are started before one is waited for.
fn play_rest<'s, 'e, R: Threads + Wait + Sync, G: Gate + Sync>(
    scope: &'s Scope<'s, &'e ()>,
    rt: &'s R,
    alloc: Global,
    gate: &'s G,
    desk: &'s Desk,
    names: &'s Names,
    seats: &mut Vec<Seat>,
    scripts: &mut Vec<Vec<u8>>,
    outcomes: &mut Vec<Result<Outcome, PlayFault>>,
)
    requires same { length seats.old.items ≡ length scripts.old.items }
    requires none { outcomes.old.items ≡ [] }
    requires room { length seats.old.items ≤ vec_capacity outcomes.old }
    ensures played { AllPlayed names.now seats.old.items (map (λ s. s.items) scripts.old.items) outcomes.new.items }
    ensures count { length outcomes.new.items ≡ length seats.old.items }
    ensures room { vec_capacity outcomes.new ≡ vec_capacity outcomes.old }
{
    let Some(seat) = seats.pop() else {
        return;
    };
    let Some(script) = scripts.pop() else {
        return;
    };
    let worker = seats.len();
    let started = start(scope, rt, alloc, gate, desk, names, seat, script, worker);
    play_rest(
        scope, rt, alloc, gate, desk, names, seats, scripts, outcomes,
    );
    outcomes.push_reserved(finish(rt, started));
}

/// Plays the scripts, each by its seat on a thread of its own, over one desk. The room for what comes of them is taken
/// before the first thread is started.
pub(crate) fn play_scripts<R: Threads + Wait + Sync, G: Gate + Sync>(
    rt: &R,
    alloc: Global,
    gate: &G,
    desk: &Desk,
    names: &Names,
    seats: Vec<Seat>,
    scripts: Vec<Vec<u8>>,
) -> Result<Vec<Result<Outcome, PlayFault>>, AllocError>
    requires { length seats.items ≡ length scripts.items }
    ensures { IfOk result (λ outcomes.
        AllPlayed names.now seats.items (map (λ s. s.items) scripts.items) outcomes.items) }
{
    let mut outcomes = Vec::new(alloc);
    outcomes.reserve(seats.len())?;
    Ok(thread::scope(
        thread::scope_env(),
        rt,
        move |scope| -> Vec<Result<Outcome, PlayFault>>
            requires same { length seats.items ≡ length scripts.items }
            requires none { outcomes.items ≡ [] }
            requires room { length seats.items ≤ vec_capacity outcomes }
            ensures { AllPlayed names.entry.now seats.items (map (λ s. s.items) scripts.items) result.items }
        {
            let mut seats = seats;
            let mut scripts = scripts;
            let mut outcomes = outcomes;
            play_rest(
                scope,
                rt,
                alloc,
                gate,
                desk,
                names,
                &mut seats,
                &mut scripts,
                &mut outcomes,
            );
            outcomes
        },
    ))
}

/// The fault of the lowest operator that has one.
pub(crate) fn first_fault(outcomes: &[Result<Outcome, PlayFault>]) -> Option<PlayFault>
    ensures { result ≡ first_fault outcomes.now }
{
    let (outcome, others) = outcomes.split_first()?;
    match outcome {
        Err(fault) => Some(*fault),
        Ok(outcome) => match outcome.fault {
            None => first_fault(others),
            Some(fault) => Some(fault),
        },
    }
}
