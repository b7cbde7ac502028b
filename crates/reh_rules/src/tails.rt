// Whether ledgers that aren't closed can be recovered, and their writers go on.
ghost use Rattle.std.specs.Prelude.{◌≡◌, ◌^◌, ◌≤◌, All, [], true, false};
ghost use Rattle.std.specs.List.{list_any};
ghost use Rattle.reh_census.specs.Bookies as bookies_model;
ghost use Rattle.reh_census.specs.Bookies.{bookies_of, is_flagged};
ghost use Rattle.reh_census.specs.Counting.{count_tails_in, tails_in};
ghost use Rattle.reh_census.specs.Striping.{range};
ghost use Rattle.reh_census.specs.Tails as model;
ghost use Rattle.reh_census.specs.Tails.{IsTail};
ghost use Rattle.reh_rules.specs.Room as rooms;

use crate::entries::{copies_to_keep, count_if};
use crate::members::{count_acks, count_at_stake, count_left};
use crate::writers::{Room, loses_ensemble};
use reh_census::{BookieSet, Bookies, CountedTail, Question, Tail};

/// How many ledgers that aren't closed break each rule.
#[derive(Clone, Copy)]
pub struct Tails {
    pub recoverable: u64,
    pub writable: u64,
}

/// How many members of each write set are to stay.
fn members_to_keep(question: &Question, tail: &Tail) -> u64
    requires { IsTail tail.now }
    ensures { result ≡ model.members_to_keep question.now tail.now }
{
    let copies = copies_to_keep(question.keep, tail.ack_quorum);
    // Acknowledged entries may then be out of a recovery's reach, until the bookies are back.
    if question.allow_blocked_recovery && !question.for_good {
        copies
    } else {
        copies.max(tail.write_quorum - tail.ack_quorum + 1)
    }
}

/// Whether the entry's write set keeps so many members, or all that it has.
fn keeps_members(
    bookies: &Bookies,
    question: &Question,
    stopped: &BookieSet,
    tail: &Tail,
    entry: u64,
) -> bool
    requires tail { IsTail tail.now }
    requires entry { entry ≤ 64 }
    ensures { result ≡ model.keeps_members (bookies_of bookies.now) question.now (is_flagged stopped.now) tail.now entry }
{
    let at_stake = count_at_stake(bookies, question, stopped, tail, entry);
    at_stake.min(members_to_keep(question, tail)) <= count_left(bookies, stopped, tail, entry)
}

/// Whether each write set of the tail does.
fn all_keep_members(
    bookies: &Bookies,
    question: &Question,
    stopped: &BookieSet,
    tail: &Tail,
) -> bool
    requires { IsTail tail.now }
    ensures { result ≡ model.all_keep_members (bookies_of bookies.now) question.now (is_flagged stopped.now) tail.now }
{
    for entry in 0..tail.size {
        if !keeps_members(bookies, question, stopped, tail, entry) {
            return false;
        }
    }
    true
}

/// Whether some write set of the tail lacks acknowledgements.
fn some_lacks_acks(bookies: &Bookies, stopped: &BookieSet, tail: &Tail) -> bool
    requires { IsTail tail.now }
    ensures { result ≡ list_any (model.lacks_acks (bookies_of bookies.now) (is_flagged stopped.now) tail.now)
        (range 0 tail.now.size) }
{
    for entry in 0..tail.size {
        if count_acks(bookies, stopped, tail, entry) < tail.ack_quorum {
            return true;
        }
    }
    false
}

/// Whether some entry can't be written, where so many bookies may be written to.
fn is_stuck(bookies: &Bookies, stopped: &BookieSet, writable: u64, tail: &Tail) -> bool
    requires writable { writable ≡ bookies_model.writable (bookies_of bookies.now) (is_flagged stopped.now) }
    requires tail { IsTail tail.now }
    ensures { result ≡ model.is_stuck (bookies_of bookies.now) (is_flagged stopped.now) tail.now }
{
    writable < tail.size && some_lacks_acks(bookies, stopped, tail)
}

/// The same where no bookie is stopped.
fn is_stuck_now(bookies: &Bookies, none: &BookieSet, writable: u64, tail: &Tail) -> bool
    requires none { none.now ≡ [] }
    requires writable { writable ≡ bookies_model.writable (bookies_of bookies.now) bookies_model.none }
    requires tail { IsTail tail.now }
    ensures { result ≡ model.is_stuck (bookies_of bookies.now) bookies_model.none tail.now }
{
    is_stuck(bookies, none, writable, tail)
}

/// Whether some entry can't be written, and each can now.
fn is_newly_stuck(
    bookies: &Bookies,
    none: &BookieSet,
    stopped: &BookieSet,
    room: &Room,
    tail: &Tail,
) -> bool
    requires none { none.now ≡ [] }
    requires before { room.now.writable_now ≡ bookies_model.writable (bookies_of bookies.now) bookies_model.none }
    requires after { room.now.writable_then ≡ bookies_model.writable (bookies_of bookies.now) (is_flagged stopped.now) }
    requires tail { IsTail tail.now }
    ensures { result ≡ model.is_new (model.is_stuck (bookies_of bookies.now) bookies_model.none tail.now)
        (model.is_stuck (bookies_of bookies.now) (is_flagged stopped.now) tail.now) }
{
    is_stuck(bookies, stopped, room.writable_then, tail)
        && !is_stuck_now(bookies, none, room.writable_now, tail)
}

/// Whether a recovery that has begun finds no ensemble, where so many bookies may be written to.
fn lacks_ensemble(writable: u64, tail: &Tail) -> bool
    ensures { result ≡ rooms.lacks_ensemble writable tail.now }
{
    !tail.is_open && writable < tail.size
}

/// Whether the ledger's last entries can't be written again, and can now.
fn blocks_recovery(room: &Room, newly_stuck: bool, tail: &Tail) -> bool
    ensures { result ≡ rooms.blocks_recovery room.now newly_stuck tail.now }
{
    newly_stuck
        || (lacks_ensemble(room.writable_then, tail) && !lacks_ensemble(room.writable_now, tail))
}

/// Whether the ledger's recovery is broken.
fn breaks_recoverable(
    bookies: &Bookies,
    question: &Question,
    stopped: &BookieSet,
    room: &Room,
    newly_stuck: bool,
    tail: &Tail,
) -> bool
    requires { IsTail tail.now }
    ensures { result ≡ rooms.breaks_recoverable (bookies_of bookies.now) question.now (is_flagged stopped.now) room.now newly_stuck tail.now }
{
    !all_keep_members(bookies, question, stopped, tail)
        || (!question.allow_blocked_recovery && blocks_recovery(room, newly_stuck, tail))
}

/// Whether its writer is.
fn breaks_writable(question: &Question, room: &Room, newly_stuck: bool, tail: &Tail) -> bool
    ensures { result ≡ rooms.breaks_writable question.now room.now newly_stuck tail.now }
{
    (!question.allow_blocked_writers && tail.is_open)
        && (loses_ensemble(room, tail.size) || newly_stuck)
}

/// How many ledgers that aren't closed break each rule.
pub(crate) fn count_tails(
    bookies: &Bookies,
    question: &Question,
    none: &BookieSet,
    stopped: &BookieSet,
    room: &Room,
    tails: &[CountedTail],
) -> Tails
    requires none { none.now ≡ [] }
    requires room { room.now ≡ rooms.room_of (bookies_of bookies.now) question.now (is_flagged stopped.now) }
    requires tails { All (λ t. IsTail t.tail) tails.now }
    requires within { tails_in tails.now ≤ 2 ^ 63 }
    ensures { result ≡ rooms.tails_of (count_tails_in tails.now) (bookies_of bookies.now) question.now (is_flagged stopped.now) }
{
    let mut recoverable = 0;
    let mut writable = 0;
    for counted in tails {
        let tail = &counted.tail;
        let stuck = is_newly_stuck(bookies, none, stopped, room, tail);
        let unrecoverable = breaks_recoverable(bookies, question, stopped, room, stuck, tail);
        let unwritable = breaks_writable(question, room, stuck, tail);
        recoverable += count_if(unrecoverable, counted.count);
        writable += count_if(unwritable, counted.count);
    }
    Tails {
        recoverable,
        writable,
    }
}
