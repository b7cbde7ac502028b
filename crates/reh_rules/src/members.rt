// Which bookies hold copies, and may be written to, and how many of a write set.
ghost use Rattle.std.specs.Prelude.{◌≡◌, ◌≤◌, ◌<◌, cond, count_by, slice_index};
ghost use Rattle.std.specs.List.{list_any};
ghost use Rattle.reh_census.specs.Bookies as bookies_model;
ghost use Rattle.reh_census.specs.Bookies.{bookies_of, is_flagged};
ghost use Rattle.reh_census.specs.Striping.{index_at};
ghost use Rattle.reh_census.specs.Tails as model;
ghost use Rattle.reh_census.specs.Tails.{IsTail};

use reh_census::{BookieSet, Bookies, Question, Tail};

/// One, or none.
pub(crate) fn one_if(is: bool) -> u64
    ensures value { result ≡ cond is 1 0 }
    ensures within { result ≤ 1 }
{
    if is { 1 } else { 0 }
}

/// Whether the bookie is registered, and not stopped.
pub(crate) fn is_up(bookies: &Bookies, stopped: &BookieSet, bookie: u16) -> bool
    ensures { result ≡ bookies_model.is_up (bookies_of bookies.now) (is_flagged stopped.now) bookie }
{
    bookies.is_registered(bookie) && !stopped.contains(bookie)
}

/// Whether a new entry may be written to the bookie.
pub(crate) fn is_writable(bookies: &Bookies, stopped: &BookieSet, bookie: u16) -> bool
    ensures { result ≡ bookies_model.is_writable (bookies_of bookies.now) (is_flagged stopped.now) bookie }
{
    is_up(bookies, stopped, bookie) && !bookies.is_read_only(bookie)
}

/// Whether the bookie may hold copies, and isn't stopped.
fn is_holder_left(bookies: &Bookies, stopped: &BookieSet, bookie: u16) -> bool
    ensures { result ≡ bookies_model.is_holder_left (bookies_of bookies.now) (is_flagged stopped.now) bookie }
{
    bookies.is_holder(bookie) && !stopped.contains(bookie)
}

/// Whether the bookie is down, and would go for good with what is on its disk.
fn takes_disk(bookies: &Bookies, question: &Question, stopped: &BookieSet, bookie: u16) -> bool
    ensures { result ≡ model.takes_disk (bookies_of bookies.now) question.now (is_flagged stopped.now) bookie }
{
    question.for_good && (stopped.contains(bookie) && !bookies.is_registered(bookie))
}

/// Whether the bookie came back without its disk, and would be stopped with what was written to it since.
fn takes_refilled(bookies: &Bookies, stopped: &BookieSet, bookie: u16) -> bool
    ensures { result ≡ model.takes_refilled (bookies_of bookies.now) (is_flagged stopped.now) bookie }
{
    stopped.contains(bookie) && (bookies.is_registered(bookie) && bookies.is_empty(bookie))
}

/// Whether the bookie may have copies that count for a recovery: now, once it is back, or until it is stopped.
fn is_at_stake(bookies: &Bookies, question: &Question, stopped: &BookieSet, bookie: u16) -> bool
    ensures { result ≡ model.is_at_stake (bookies_of bookies.now) question.now (is_flagged stopped.now) bookie }
{
    bookies.is_holder(bookie)
        || (takes_disk(bookies, question, stopped, bookie)
            || takes_refilled(bookies, stopped, bookie))
}

/// Whether some bookie's disk would go for good with it.
pub fn takes_some_disk(bookies: &Bookies, question: &Question, stopped: &BookieSet) -> bool
    ensures { result ≡ list_any (model.takes_disk (bookies_of bookies.now) question.now (is_flagged stopped.now))
        (bookies_of bookies.now).names }
{
    for bookie in 0..bookies.len() {
        if takes_disk(bookies, question, stopped, bookie) {
            return true;
        }
    }
    false
}

/// The member of this rank of an entry's write set.
fn member_at(tail: &Tail, entry: u64, rank: u64) -> u16
    requires tail { IsTail tail.now }
    requires entry { entry ≤ 64 }
    requires rank { rank < tail.now.write_quorum }
    ensures { result ≡ slice_index tail.now.ensemble (index_at entry tail.now.size rank) }
{
    let index = (entry + rank) % tail.size;
    tail.ensemble.as_slice()[index as usize]
}

/// How many members of an entry's write set have copies at stake.
pub(crate) fn count_at_stake(
    bookies: &Bookies,
    question: &Question,
    stopped: &BookieSet,
    tail: &Tail,
    entry: u64,
) -> u64
    requires tail { IsTail tail.now }
    requires entry { entry ≤ 64 }
    ensures { result ≡ count_by (model.is_at_stake (bookies_of bookies.now) question.now (is_flagged stopped.now))
        (model.members tail.now entry) }
{
    let mut count = 0;
    for rank in 0..tail.write_quorum {
        let member = member_at(tail, entry, rank);
        count += one_if(is_at_stake(bookies, question, stopped, member));
    }
    count
}

/// How many of them hold copies, and aren't stopped.
pub(crate) fn count_left(bookies: &Bookies, stopped: &BookieSet, tail: &Tail, entry: u64) -> u64
    requires tail { IsTail tail.now }
    requires entry { entry ≤ 64 }
    ensures { result ≡ count_by (bookies_model.is_holder_left (bookies_of bookies.now) (is_flagged stopped.now))
        (model.members tail.now entry) }
{
    let mut count = 0;
    for rank in 0..tail.write_quorum {
        count += one_if(is_holder_left(bookies, stopped, member_at(tail, entry, rank)));
    }
    count
}

/// How many of them may be written to.
pub(crate) fn count_acks(bookies: &Bookies, stopped: &BookieSet, tail: &Tail, entry: u64) -> u64
    requires tail { IsTail tail.now }
    requires entry { entry ≤ 64 }
    ensures { result ≡ count_by (bookies_model.is_writable (bookies_of bookies.now) (is_flagged stopped.now))
        (model.members tail.now entry) }
{
    let mut count = 0;
    for rank in 0..tail.write_quorum {
        count += one_if(is_writable(bookies, stopped, member_at(tail, entry, rank)));
    }
    count
}
