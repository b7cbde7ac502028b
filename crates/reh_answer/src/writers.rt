// What a stop means for writers, and which of the bookies aren't registered.
ghost use Rattle.std.specs.Prelude.{◌≡◌, ◌&&◌, ◌^◌, ◌≤◌, IfOk, nat_lt, not};
ghost use Rattle.reh_census.specs.Bookies as bookies_model;
ghost use Rattle.reh_census.specs.Bookies.{bookies_of, is_flagged};
ghost use Rattle.reh_census.specs.Counting.{count_tails_in, counting_in, tails_in};
ghost use Rattle.reh_answer.specs.Facts as model;

use crate::counts::{
    count_acked, count_acked_tails, count_changes, count_entries, count_if, count_tails,
};
use reh_census::{BookieSet, Bookies, Census, CountedTail, Names};
use std::alloc::{AllocError, Global};

/// Whether the bookie is to be stopped, and isn't registered.
fn is_missing(bookies: &Bookies, stopped: &BookieSet, bookie: u16) -> bool
    ensures { result ≡ model.is_missing (bookies_of bookies.now) (is_flagged stopped.now) bookie }
{
    stopped.contains(bookie) && !bookies.is_registered(bookie)
}

/// The bookies to stop that aren't registered.
pub(crate) fn unregistered_in(
    alloc: Global,
    bookies: &Bookies,
    stopped: &BookieSet,
) -> Result<Names, AllocError>
    ensures { IfOk result (λ names. names ≡ model.unregistered (bookies_of bookies.now) (is_flagged stopped.now)) }
{
    let mut names = Vec::new(alloc);
    for bookie in 0..bookies.len() {
        if is_missing(bookies, stopped, bookie) {
            names.push(bookie)?;
        }
    }
    Ok(Names::of(names))
}

/// Whether some writer has to change its ensemble.
pub(crate) fn writers_pause(bookies: &Bookies, stopped: &BookieSet, tails: &[CountedTail]) -> bool
    requires { tails_in tails.now ≤ 2 ^ 63 }
    ensures { result ≡ nat_lt 0 (count_tails_in tails.now
        (model.has_to_change (bookies_of bookies.now) (is_flagged stopped.now))) }
{
    count_changes(bookies, stopped, tails) > 0
}

/// Whether the bookie is to be stopped, and can be written to now.
fn is_writable_stopped(bookies: &Bookies, stopped: &BookieSet, bookie: u16) -> bool
    ensures { result ≡ (is_flagged stopped.now bookie
        && bookies_model.is_writable (bookies_of bookies.now) bookies_model.none bookie) }
{
    stopped.contains(bookie) && (bookies.is_registered(bookie) && !bookies.is_read_only(bookie))
}

/// How many of the bookies to stop can be written to now.
pub(crate) fn writable_stopped(bookies: &Bookies, stopped: &BookieSet) -> u64
    ensures { result ≡ model.writable_stopped (bookies_of bookies.now) (is_flagged stopped.now) }
{
    let mut count = 0;
    for bookie in 0..bookies.len() {
        count += count_if(is_writable_stopped(bookies, stopped, bookie), 1);
    }
    count
}

/// Whether so many bookies are enough for the ack quorum of some counted entry or ledger; where none is counted, any are.
fn reaches_ack_quorum(census: &Census, bookies: u64) -> bool
    ensures { result ≡ model.reaches_ack_quorum (counting_in census.now) bookies }
{
    count_acked(census.entries(), bookies) > 0
        || count_acked_tails(census.tails(), bookies) > 0
        || (count_entries(census.entries()) == 0 && count_tails(census.tails()) == 0)
}

/// Whether so many bookies may be all that have copies of a ledger that nobody counted.
pub(crate) fn may_hold_a_new_ledger(census: &Census, bookies: u64) -> bool
    ensures { result ≡ model.may_hold_a_new_ledger (counting_in census.now) bookies }
{
    bookies > 0 && reaches_ack_quorum(census, bookies)
}
