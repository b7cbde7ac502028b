// How many bookies may fail before an acknowledged entry of a ledger that isn't closed is lost.
ghost use Rattle.std.specs.Prelude.{◌≡◌, ◌≤◌, ◌++◌, ◌∷◌, [], All, List, cond, count_by};
ghost use Rattle.reh_census.specs.Bookies.{bookies_of, is_holder};
ghost use Rattle.reh_census.specs.Counting.{count_tails_in};
ghost use Rattle.reh_census.specs.Tails.{IsTail, members};
ghost use Rattle.reh_census.specs.declared.censuses.CountedTail.{CountedTail as CountedTailValue};
ghost use Rattle.reh_waves.specs.Fewest as model;
ghost use Rattle.reh_waves.specs.Fewest.{AreLeastSpare, IsLeastOf};

use reh_census::{Bookies, CountedTail, Tail};

/// One, or none.
fn one_if(is: bool) -> u64
    ensures value { result ≡ cond is 1 0 }
    ensures within { result ≤ 1 }
{
    if is { 1 } else { 0 }
}

/// How many members of the entry's write set may hold copies.
fn count_holders(bookies: &Bookies, tail: &Tail, entry: u64) -> u64
    requires tail { IsTail tail.now }
    requires entry { entry ≤ 64 }
    ensures { result ≡ count_by (is_holder (bookies_of bookies.now)) (members tail.now entry) }
{
    let ensemble = tail.ensemble.as_slice();
    let mut count = 0;
    for rank in 0..tail.write_quorum {
        let index = (entry + rank) % tail.size;
        count += one_if(bookies.is_holder(ensemble[index as usize]));
    }
    count
}

/// How many copies an acknowledged entry has there at least.
fn spare(bookies: &Bookies, tail: &Tail, entry: u64) -> u64
    requires tail { IsTail tail.now }
    requires entry { entry ≤ 64 }
    ensures { result ≡ model.spare (bookies_of bookies.now) tail.now entry }
{
    count_holders(bookies, tail, entry).saturating_sub(tail.write_quorum - tail.ack_quorum)
}

/// The least of all write sets of the tail.
fn least_in(bookies: &Bookies, tail: &Tail) -> u64
    requires { IsTail tail.now }
    ensures { IsLeastOf (model.spare (bookies_of bookies.now) tail.now) tail.now.size result }
{
    let mut least = spare(bookies, tail, 0);
    for entry in 1..tail.size {
        least = least.min(spare(bookies, tail, entry));
    }
    least
}

/// The less of the two numbers.
fn lesser(least: Option<u64>, number: u64) -> u64
    ensures { result ≡ model.least_of least number }
{
    match least {
        Some(least) => least.min(number),
        None => number,
    }
}

/// The least where there are these ledgers more.
fn least_with(least: Option<u64>, bookies: &Bookies, counted: &CountedTail) -> Option<u64>
    requires { IsTail counted.now.tail }
    ensures { (tails : List CountedTailValue) → AreLeastSpare (count_tails_in tails) (bookies_of bookies.now) least
        → AreLeastSpare (count_tails_in (tails ++ counted.now ∷ [])) (bookies_of bookies.now) result }
{
    if counted.count == 0 {
        return least;
    }
    Some(lesser(least, least_in(bookies, &counted.tail)))
}

/// The least of all ledgers that aren't closed.
pub(crate) fn least_spare(bookies: &Bookies, tails: &[CountedTail]) -> Option<u64>
    requires { All (λ t. IsTail t.tail) tails.now }
    ensures { AreLeastSpare (count_tails_in tails.now) (bookies_of bookies.now) result }
{
    let mut least = None;
    for counted in tails {
        least = least_with(least, bookies, counted);
    }
    least
}
