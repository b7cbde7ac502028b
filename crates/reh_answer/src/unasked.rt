// Which words of a question ask nothing.
ghost use Rattle.std.specs.Prelude.{◌≡◌, ◌&&◌, ◌||◌, [], false, not};
ghost use Rattle.std.specs.Option.{is_some, option_map_or};
ghost use Rattle.reh_census.specs.Bookies as bookies_model;
ghost use Rattle.reh_census.specs.Bookies.{bookies_of};
ghost use Rattle.reh_census.specs.Counting.{counting_in};
ghost use Rattle.reh_census.specs.Tails as tails;
ghost use Rattle.reh_answer.specs.Facts as model;

use crate::counts::count_open;
use reh_census::{BookieSet, Bookies, Census, Question};
use reh_rules::{count_writable, lacks_racks};

/// Which words of a question ask nothing of a stop.
#[derive(Clone, Copy)]
pub struct Unasked {
    /// `--min-racks`: no ledger is OPEN, and new ledgers have no size.
    pub racks: bool,
    /// `--min-racks`: the bookies that can be written to stand in too few racks already.
    pub racks_now: bool,
    /// `--ensemble`: too few bookies can be written to already.
    pub ensemble_now: bool,
    /// Both: writers may be blocked.
    pub writers: bool,
}

/// Whether some ledger is OPEN.
fn has_writers(census: &Census) -> bool
    ensures { result ≡ model.has_writers (counting_in census.now) }
{
    count_open(census.tails()) > 0
}

/// Whether nothing is asked of racks, though a number of them is given.
fn racks_unasked(census: &Census, question: &Question) -> bool
    ensures { result ≡ (is_some question.now.min_racks
        && not (is_some question.now.ensemble || model.has_writers (counting_in census.now))) }
{
    question.min_racks.is_some() && !(question.ensemble.is_some() || has_writers(census))
}

/// Whether too few bookies can be written to for the size of new ledgers, where no bookie is stopped.
fn lacks_ensemble_now(bookies: &Bookies, question: &Question, none: &BookieSet) -> bool
    requires { none.now ≡ [] }
    ensures { result
        ≡ option_map_or (tails.lacks_bookies (bookies_of bookies.now) bookies_model.none) question.now.ensemble false }
{
    match question.ensemble {
        Some(size) => count_writable(bookies, none) < size,
        None => false,
    }
}

/// Whether nothing is asked of writers, though sizes or racks of theirs are given.
fn writers_unasked(question: &Question) -> bool
    ensures { result ≡ (question.now.allow_blocked_writers
        && (is_some question.now.ensemble || is_some question.now.min_racks)) }
{
    question.allow_blocked_writers && (question.ensemble.is_some() || question.min_racks.is_some())
}

/// Which words of the question ask nothing, where `none` has no bookie.
pub(crate) fn unasked_of(
    census: &Census,
    bookies: &Bookies,
    question: &Question,
    none: &BookieSet,
) -> Unasked
    requires { none.now ≡ [] }
    ensures { result ≡ model.unasked_on (counting_in census.now) (bookies_of bookies.now) question.now }
{
    Unasked {
        racks: racks_unasked(census, question),
        racks_now: lacks_racks(bookies, question, none),
        ensemble_now: lacks_ensemble_now(bookies, question, none),
        writers: writers_unasked(question),
    }
}
