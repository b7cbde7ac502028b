// Whether places of fragments find other bookies.
ghost use Rattle.std.specs.Prelude.{◌≡◌, ◌^◌, ◌≤◌, not, ◌&&◌, []};
ghost use Rattle.reh_census.specs.Bookies as bookies_model;
ghost use Rattle.reh_census.specs.Bookies.{bookies_of, is_flagged};
ghost use Rattle.reh_census.specs.Copies.{is_in};
ghost use Rattle.reh_census.specs.Counting.{count_ensembles_in, ensembles_in};
ghost use Rattle.reh_census.specs.Tails as model;

use crate::entries::count_if;
use crate::members::{is_up, is_writable, one_if};
use reh_census::{BookieSet, Bookies, CountedEnsemble, Question};

/// Whether the bookie is outside of the ensemble, and may be written to.
fn is_spare(bookies: &Bookies, stopped: &BookieSet, members: &[u16], bookie: u16) -> bool
    ensures { result ≡ (bookies_model.is_writable (bookies_of bookies.now) (is_flagged stopped.now) bookie
        && not (is_in members.now bookie)) }
{
    is_writable(bookies, stopped, bookie) && !members.contains(&bookie)
}

/// How many bookies outside of the ensemble may be written to.
fn spares(bookies: &Bookies, stopped: &BookieSet, members: &[u16]) -> u64
    ensures { result ≡ model.spares (bookies_of bookies.now) (is_flagged stopped.now) members.now }
{
    let mut count = 0;
    for bookie in 0..bookies.len() {
        count += one_if(is_spare(bookies, stopped, members, bookie));
    }
    count
}

/// How many members of the ensemble are down or stopped.
fn down(bookies: &Bookies, stopped: &BookieSet, members: &[u16]) -> u64
    ensures { result ≡ model.down (bookies_of bookies.now) (is_flagged stopped.now) members.now }
{
    let mut count = 0;
    for member in members {
        if !is_up(bookies, stopped, *member) {
            count += 1;
        }
    }
    count
}

/// How many of their places find no other bookie.
fn unplaced(bookies: &Bookies, stopped: &BookieSet, members: &[u16]) -> u64
    ensures { result ≡ model.unplaced (bookies_of bookies.now) (is_flagged stopped.now) members.now }
{
    down(bookies, stopped, members).saturating_sub(spares(bookies, stopped, members))
}

/// The same where no bookie is stopped.
fn unplaced_now(bookies: &Bookies, none: &BookieSet, members: &[u16]) -> u64
    requires { none.now ≡ [] }
    ensures { result ≡ model.unplaced (bookies_of bookies.now) bookies_model.none members.now }
{
    unplaced(bookies, none, members)
}

/// Whether more of the places find none than now, where the bookies go for good.
fn breaks_replaceable(
    bookies: &Bookies,
    question: &Question,
    none: &BookieSet,
    stopped: &BookieSet,
    members: &[u16],
) -> bool
    requires { none.now ≡ [] }
    ensures { result ≡ model.breaks_replaceable (bookies_of bookies.now) question.now (is_flagged stopped.now) members.now }
{
    question.for_good && unplaced_now(bookies, none, members) < unplaced(bookies, stopped, members)
}

/// How many fragments that is so of.
pub(crate) fn count_places(
    bookies: &Bookies,
    question: &Question,
    none: &BookieSet,
    stopped: &BookieSet,
    ensembles: &[CountedEnsemble],
) -> u64
    requires none { none.now ≡ [] }
    requires within { ensembles_in ensembles.now ≤ 2 ^ 63 }
    ensures { result ≡ count_ensembles_in ensembles.now
        (model.breaks_replaceable (bookies_of bookies.now) question.now (is_flagged stopped.now)) }
{
    let mut fragments = 0;
    for counted in ensembles {
        let members = counted.members.as_slice();
        let breaks = breaks_replaceable(bookies, question, none, stopped, members);
        fragments += count_if(breaks, counted.count);
    }
    fragments
}
