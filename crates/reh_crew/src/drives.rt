// Replication workers, each with a seat of its own, at one desk.
ghost use Rattle.std.specs.Prelude.{◌≡◌, ◌<◌, ◌≤◌, ℕ, length, slice_index_or};
ghost use Rattle.reh_crew.specs.Gained.{Gained, share_of};
ghost use Rattle.reh_crew.specs.Workers.{seated, GivesBack, Spends, Finishes, Attends, Works};
ghost use Rattle.reh_crew.specs.declared.threads.TheConstants.{MAX_WORKERS};

use crate::gates::Gate;
use crate::scanners::{InMemory, Scanner};
use reh_desk::{AtDesk, Counter, Desk, Finding, Seat, SpendFault, Unspent};
use reh_types::Aim;
use std::alloc::Global;
use std::sync::Wait;
use std::thread;
use std::thread::Threads;

/// Each seat's worker attends to its share of the aims: of n seats worker k, both counted from 0, takes the aims at the
/// places k, k + n and so on, in order. For each it checks a ticket out, scans and spends what it found, as BookKeeper's
/// replication workers do, each at the fragment that it took. The scans run outside the desk's lock.
///
/// Where there is no memory for a checkout, the worker goes on with its next aim. Where a scan finds none, or a spend is
/// a fault, it gives its ticket back. A ticket that is nowhere out is forfeited, and ends its worker.
///
/// Each worker passes the gate once, before its first aim, also where it has none. It has a thread of its own where one
/// can be made; where none can, workers run one after another.
pub fn drive<R: Threads + Wait + Sync, G: Gate + Sync>(
    rt: &R,
    alloc: Global,
    desk: &Desk,
    seats: &mut [Seat],
    aims: &[Aim],
    gate: &G,
)
    requires some { 0 < length seats.old }
    requires few { length seats.old ≤ MAX_WORKERS }
    ensures count { length seats.new ≡ length seats.old }
    ensures gained { (k : ℕ) (d : _) → k < length seats.old
        → Gained (share_of (length seats.old) k aims.now) (slice_index_or seats.old k d) (slice_index_or seats.new k d) }
{
    let count = seats.len();
    thread::for_each_mut(
        rt,
        seats,
        count,
        &|worker: usize, seat: &mut Seat|
            requires { 0 < count }
            ensures { Gained (share_of count worker aims.entry.now) seat.entry.now seat.exit.now }
        {
            gate.pass(worker);
            work_at(rt, alloc, desk, seat, aims, worker, count);
        },
    );
}

/// Attends to the share of a worker, at a desk.
fn work_at<R: Wait>(
    rt: &R,
    alloc: Global,
    desk: &Desk,
    seat: &mut Seat,
    aims: &[Aim],
    worker: usize,
    count: usize,
)
    requires { 0 < count }
    ensures { Gained (share_of count worker aims.now) seat.old seat.new }
{
    let mut counter = AtDesk { desk, rt };
    work(&InMemory { alloc }, &mut counter, seat, aims, worker, count);
}

/// Attends to the share of a worker, of so many: to each of its aims in order, until the worker ends.
fn work<C: Counter, S: Scanner>(
    scanner: &S,
    counter: &mut C,
    seat: &mut Seat,
    aims: &[Aim],
    worker: usize,
    count: usize,
)
    requires count { 0 < count }
    requires may { C.may counter.old seat.old }
    ensures { Works C.goes (S.scans scanner.now) (share_of count worker aims.now)
        (seated counter.old seat.old) (seated counter.new seat.new) }
{
    for (place, aim) in aims.iter().enumerate() {
        if place % count == worker && !attend(scanner, counter, seat, *aim) {
            return;
        }
    }
}

/// Attends to an aim, and says whether the worker goes on.
fn attend<C: Counter, S: Scanner>(scanner: &S, counter: &mut C, seat: &mut Seat, aim: Aim) -> bool
    requires { C.may counter.old seat.old }
    ensures may { C.may counter.new seat.new }
    ensures attends { Attends C.goes (S.scans scanner.now) aim result
        (seated counter.old seat.old) (seated counter.new seat.new) }
{
    match counter.checkout(seat, aim) {
        Err(_) => true,
        Ok(ticket) => finish(counter, seat, scanner.scan(ticket)),
    }
}

/// Spends what was found, or gives back a ticket that was not scanned, and says whether the worker goes on.
fn finish<C: Counter>(counter: &mut C, seat: &mut Seat, found: Unspent) -> bool
    requires { C.may counter.old seat.old }
    ensures may { C.may counter.new seat.new }
    ensures finishes { Finishes C.goes found result
        (seated counter.old seat.old) (seated counter.new seat.new) }
{
    match found {
        Unspent::Scanned(finding) => spend(counter, seat, finding),
        Unspent::Unscanned(ticket) => give_back(counter, seat, Unspent::Unscanned(ticket)),
    }
}

/// Spends what was found, or gives it back, where that is a fault, and says whether the worker goes on.
fn spend<C: Counter>(counter: &mut C, seat: &mut Seat, finding: Finding) -> bool
    requires { C.may counter.old seat.old }
    ensures may { C.may counter.new seat.new }
    ensures spends { Spends C.goes finding result
        (seated counter.old seat.old) (seated counter.new seat.new) }
{
    match counter.spend(seat, finding) {
        Ok(_) => true,
        Err(fault) => {
            let SpendFault { finding, cause: _ } = fault;
            give_back(counter, seat, Unspent::Scanned(finding))
        }
    }
}

/// Gives a ticket, or what was found with it, back, and says whether it was out. Where it is nowhere out, it is
/// forfeited.
fn give_back<C: Counter>(counter: &mut C, seat: &mut Seat, unspent: Unspent) -> bool
    requires { C.may counter.old seat.old }
    ensures may { C.may counter.new seat.new }
    ensures given { GivesBack C.goes unspent result
        (seated counter.old seat.old) (seated counter.new seat.new) }
{
    match counter.discard(seat, unspent) {
        Ok(()) => true,
        Err(stray) => {
            stray.forfeit();
            false
        }
    }
}
