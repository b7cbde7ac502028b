// How many entries and ledgers there are, of a kind.
ghost use Rattle.std.specs.Prelude.{◌≡◌, ◌^◌, ◌≤◌, cond, length, nat_le, nat_lt, true};
ghost use Rattle.std.specs.List.{list_any};
ghost use Rattle.reh_census.specs.Bookies.{bookies_of, is_flagged};
ghost use Rattle.reh_census.specs.Counting.{count_in, count_tails_in, entries_in, tails_in};
ghost use Rattle.reh_answer.specs.Facts as model;

use reh_census::{BookieSet, Bookies, Class, Counted, CountedTail, Tail};

/// The count, or none.
pub(crate) fn count_if(is: bool, count: u64) -> u64
    ensures { result ≡ cond is count 0 }
{
    if is { count } else { 0 }
}

/// How many entries there are.
pub fn count_entries(census: &[Counted]) -> u64
    requires { entries_in census.now ≤ 2 ^ 63 }
    ensures { result ≡ count_in census.now (λ class. true) }
{
    let mut entries = 0;
    for counted in census {
        entries += counted.count;
    }
    entries
}

/// Of how many entries nobody told whether some bookie holds them.
pub fn count_unknown(census: &[Counted]) -> u64
    requires { entries_in census.now ≤ 2 ^ 63 }
    ensures { result ≡ count_in census.now (λ class. nat_lt 0 (length class.untold)) }
{
    let mut entries = 0;
    for counted in census {
        let is_unknown = counted.class.untold.as_slice().len() > 0;
        entries += count_if(is_unknown, counted.count);
    }
    entries
}

/// Whether no registered bookie has such an entry, or may have it.
fn is_nowhere(class: &Class) -> bool
    ensures { result ≡ model.is_nowhere class.now }
{
    class.known.as_slice().len() == 0 && class.untold.as_slice().len() == 0
}

/// How many entries can't be read already.
pub(crate) fn count_unreadable(census: &[Counted]) -> u64
    requires { entries_in census.now ≤ 2 ^ 63 }
    ensures { result ≡ count_in census.now model.is_nowhere }
{
    let mut entries = 0;
    for counted in census {
        entries += count_if(is_nowhere(&counted.class), counted.count);
    }
    entries
}

/// How many entries have an ack quorum of at most so many.
pub(crate) fn count_acked(census: &[Counted], most: u64) -> u64
    requires { entries_in census.now ≤ 2 ^ 63 }
    ensures { result ≡ count_in census.now (λ class. nat_le class.ack_quorum most) }
{
    let mut entries = 0;
    for counted in census {
        let is_acked = counted.class.ack_quorum <= most;
        entries += count_if(is_acked, counted.count);
    }
    entries
}

/// How many ledgers there are that aren't closed.
pub(crate) fn count_tails(tails: &[CountedTail]) -> u64
    requires { tails_in tails.now ≤ 2 ^ 63 }
    ensures { result ≡ count_tails_in tails.now (λ tail. true) }
{
    let mut ledgers = 0;
    for counted in tails {
        ledgers += counted.count;
    }
    ledgers
}

/// How many of them have an ack quorum of at most so many.
pub(crate) fn count_acked_tails(tails: &[CountedTail], most: u64) -> u64
    requires { tails_in tails.now ≤ 2 ^ 63 }
    ensures { result ≡ count_tails_in tails.now (λ tail. nat_le tail.ack_quorum most) }
{
    let mut ledgers = 0;
    for counted in tails {
        let is_acked = counted.tail.ack_quorum <= most;
        ledgers += count_if(is_acked, counted.count);
    }
    ledgers
}

/// How many of them are OPEN.
pub(crate) fn count_open(tails: &[CountedTail]) -> u64
    requires { tails_in tails.now ≤ 2 ^ 63 }
    ensures { result ≡ count_tails_in tails.now (λ tail. tail.is_open) }
{
    let mut ledgers = 0;
    for counted in tails {
        ledgers += count_if(counted.tail.is_open, counted.count);
    }
    ledgers
}

/// Whether the bookie is to be stopped, and registered.
fn is_stopped_up(bookies: &Bookies, stopped: &BookieSet, bookie: u16) -> bool
    ensures { result ≡ model.is_stopped_up (bookies_of bookies.now) (is_flagged stopped.now) bookie }
{
    stopped.contains(bookie) && bookies.is_registered(bookie)
}

/// Whether one of these is.
fn has_stopped(bookies: &Bookies, stopped: &BookieSet, names: &[u16]) -> bool
    ensures { result ≡ list_any (model.is_stopped_up (bookies_of bookies.now) (is_flagged stopped.now)) names.now }
{
    for name in names {
        if is_stopped_up(bookies, stopped, *name) {
            return true;
        }
    }
    false
}

/// Whether the writer of this ledger has to change its ensemble.
fn has_to_change(bookies: &Bookies, stopped: &BookieSet, tail: &Tail) -> bool
    ensures { result ≡ model.has_to_change (bookies_of bookies.now) (is_flagged stopped.now) tail.now }
{
    tail.is_open && has_stopped(bookies, stopped, tail.ensemble.as_slice())
}

/// How many ledgers that is so of.
pub(crate) fn count_changes(bookies: &Bookies, stopped: &BookieSet, tails: &[CountedTail]) -> u64
    requires { tails_in tails.now ≤ 2 ^ 63 }
    ensures { result ≡ count_tails_in tails.now (model.has_to_change (bookies_of bookies.now)
        (is_flagged stopped.now)) }
{
    let mut ledgers = 0;
    for counted in tails {
        let changes = has_to_change(bookies, stopped, &counted.tail);
        ledgers += count_if(changes, counted.count);
    }
    ledgers
}
