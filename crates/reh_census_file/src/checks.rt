// What the lines of a census have to be, beside their words.
ghost use Rattle.std.specs.Prelude.{◌≡◌};
ghost use Rattle.std.specs.List.{list_all, list_any};
ghost use Rattle.std.specs.Ordering.{on};
ghost use Rattle.reh_census.specs.Bookies.{bookies_of};
ghost use Rattle.reh_census.specs.Bookies as model;
ghost use Rattle.reh_census.specs.Copies.{is_in};
ghost use Rattle.reh_census.specs.Order.{class_cmp, names_cmp, tail_cmp};
ghost use Rattle.reh_census_file.specs.Canonical as canonical;
ghost use Rattle.reh_census_file.specs.Drafts as drafts;

use crate::lists::NameList;
use reh_census::{Bookie, Class, Counted, CountedEnsemble, CountedTail, Tail};

/// Whether a number is less than the first of others.
fn is_below(number: u16, others: &[u16]) -> bool
    ensures { result ≡ canonical.is_below number others.now }
{
    match others {
        [] => true,
        [next, ..] => number < *next,
    }
}

/// Whether each number is less than the next.
fn are_rising(numbers: &[u16]) -> bool
    ensures { result ≡ canonical.are_rising numbers.now }
{
    match numbers {
        [] => true,
        [first, rest @ ..] => is_below(*first, rest) && are_rising(rest),
    }
}

/// Whether the bookie may hold copies.
fn is_holder(bookies: &[Bookie], number: u16) -> bool
    ensures { result ≡ model.is_holder (bookies_of bookies.now) number }
{
    match bookies.get(number as usize) {
        Some(bookie) => bookie.is_registered && !bookie.is_empty,
        None => false,
    }
}

/// Whether each of these may.
fn are_holders(bookies: &[Bookie], numbers: &[u16]) -> bool
    ensures { result ≡ list_all (model.is_holder (bookies_of bookies.now)) numbers.now }
{
    for number in numbers {
        if !is_holder(bookies, *number) {
            return false;
        }
    }
    true
}

/// Whether some of the others is one of these.
fn overlap(numbers: &[u16], others: &[u16]) -> bool
    ensures { result ≡ list_any (is_in numbers.now) others.now }
{
    for other in others {
        if numbers.contains(other) {
            return true;
        }
    }
    false
}

/// Whether these are quorums of a ledger.
pub(crate) fn are_quorums(class: &Class) -> bool
    ensures { result ≡ canonical.are_quorums class.now }
{
    1 <= class.ack_quorum && class.ack_quorum <= class.write_quorum && class.write_quorum <= 64
}

/// Whether copies can be on these bookies.
pub(crate) fn are_copies(bookies: &[Bookie], class: &Class) -> bool
    ensures { result ≡ canonical.are_copies bookies.now class.now }
{
    let known = class.known.as_slice();
    let untold = class.untold.as_slice();
    (known.len() + untold.len()) as u64 <= class.write_quorum
        && are_rising(known)
        && are_rising(untold)
        && are_holders(bookies, known)
        && are_holders(bookies, untold)
        && !overlap(known, untold)
}

/// Whether these are an ensemble's size and quorums.
pub(crate) fn are_sizes(tail: &Tail) -> bool
    ensures { result ≡ canonical.are_sizes tail.now }
{
    1 <= tail.ack_quorum
        && tail.ack_quorum <= tail.write_quorum
        && tail.write_quorum <= tail.size
        && tail.size <= 64
}

/// Whether these can be the members of an ensemble.
pub(crate) fn are_members(members: &[u16]) -> bool
    ensures { result ≡ canonical.are_members members.now }
{
    !members.is_empty() && members.len() <= 64 && are_rising(members)
}

/// Whether a name comes after the last one.
pub(crate) fn is_later_name(names: &NameList, name: &str) -> bool
    ensures { result ≡ drafts.is_later names_cmp names.now name.now }
{
    match names.last() {
        Some(last) => last.as_bytes().cmp(name.as_bytes()).is_lt(),
        None => true,
    }
}

/// Whether a class comes after the last one.
pub(crate) fn are_later_entries(entries: &[Counted], counted: &Counted) -> bool
    ensures { result ≡ drafts.is_later (on (λ c. c.class) class_cmp) entries.now counted.now }
{
    match entries.last() {
        Some(last) => {
            let (one, other) = (&last.class, &counted.class);
            one.known
                .as_slice()
                .cmp(other.known.as_slice())
                .then(one.untold.as_slice().cmp(other.untold.as_slice()))
                .then(one.ack_quorum.cmp(&other.ack_quorum))
                .then(one.write_quorum.cmp(&other.write_quorum))
                .is_lt()
        }
        None => true,
    }
}

/// Whether a tail comes after the last one.
pub(crate) fn is_later_tail(tails: &[CountedTail], counted: &CountedTail) -> bool
    ensures { result ≡ drafts.is_later (on (λ t. t.tail) tail_cmp) tails.now counted.now }
{
    match tails.last() {
        Some(last) => {
            let (one, other) = (&last.tail, &counted.tail);
            one.size
                .cmp(&other.size)
                .then(one.write_quorum.cmp(&other.write_quorum))
                .then(one.ack_quorum.cmp(&other.ack_quorum))
                .then(one.is_open.cmp(&other.is_open))
                .then(one.ensemble.as_slice().cmp(other.ensemble.as_slice()))
                .is_lt()
        }
        None => true,
    }
}

/// Whether an ensemble comes after the last one.
pub(crate) fn is_later_ensemble(ensembles: &[CountedEnsemble], counted: &CountedEnsemble) -> bool
    ensures { result ≡ drafts.is_later (on (λ e. e.members) names_cmp) ensembles.now counted.now }
{
    match ensembles.last() {
        Some(last) => last
            .members
            .as_slice()
            .cmp(counted.members.as_slice())
            .is_lt(),
        None => true,
    }
}
