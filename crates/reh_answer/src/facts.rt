// What is said of a stop.
ghost use Rattle.std.specs.Prelude.{◌≡◌, IfOk, List};
ghost use Rattle.reh_census.specs.Bookies.{bookies_of, holders, is_flagged};
ghost use Rattle.reh_census.specs.Counting.{IsCensus, counting_in, counting_of};
ghost use Rattle.reh_census.specs.Ledgers.{Ledger as LedgerValue};
ghost use Rattle.reh_answer.specs.Facts as model;

use crate::counts::{count_entries, count_unknown, count_unreadable};
use crate::keeps::keep_1_allows;
use crate::tables::{Counts, most_copies, table_of};
use crate::unasked::{Unasked, unasked_of};
use crate::writers::{may_hold_a_new_ledger, unregistered_in, writable_stopped, writers_pause};
use reh_census::{Answer, BookieSet, Bookies, Census, Judged, Names, Numbers, Question, answer_by};
use reh_rules::{breaks_new_ledgers, numbers_of};
use std::alloc::{AllocError, Global};

/// What is said of a stop.
#[derive(Drop)]
pub struct Facts {
    pub judged: Judged,
    /// How many entries were counted.
    pub entries: u64,
    /// Of how many of them nobody told whether some bookie holds them.
    pub unknown: u64,
    /// How many can't be read already: no registered bookie has them, or may have them.
    pub unreadable: u64,
    pub numbers: Numbers,
    pub answer: Answer,
    /// Whether one of those that find no ensemble stands for new ledgers.
    pub breaks_new_ledgers: bool,
    /// Whether the stop is a yes with `--keep 1`.
    pub keep_1_allows: bool,
    /// How many entries have 0, 1, .. known copies now.
    pub copies_now: Counts,
    /// And without the bookies.
    pub copies_without: Counts,
    /// The bookies to stop that aren't registered.
    pub unregistered: Names,
    /// Whether a writer has to change its ensemble.
    pub writers_pause: bool,
    /// Whether the bookies may be all that have copies of a ledger that nobody counted.
    pub may_hold_a_new_ledger: bool,
    /// Which words of the question ask nothing.
    pub unasked: Unasked,
}

/// What is said of a stop of these bookies, by the census: and whatever ledgers it counts, that holds of them.
pub fn facts_of(
    alloc: Global,
    census: &Census,
    bookies: &Bookies,
    question: &Question,
    stopped: &BookieSet,
) -> Result<Facts, AllocError>
    ensures census { IfOk result (λ facts. facts ≡ model.facts_on (counting_in census.now)
        (model.most_copies census.now.entries) (bookies_of bookies.now) question.now census.now.judged
        (is_flagged stopped.now)) }
    ensures ledgers { IfOk result (λ facts. (ledgers : List LedgerValue)
        → IsCensus census.now (holders (bookies_of bookies.now)) ledgers
        → facts ≡ model.facts_on (counting_of (holders (bookies_of bookies.now)) ledgers)
        (model.most_copies census.now.entries) (bookies_of bookies.now) question.now census.now.judged
        (is_flagged stopped.now)) }
{
    let none = BookieSet::none(alloc);
    let numbers = numbers_of(alloc, census, bookies, question, stopped);
    let most = most_copies(census.entries());
    let copies_now = table_of(alloc, census, &none, most)?;
    let copies_without = table_of(alloc, census, stopped, most)?;
    let unregistered = unregistered_in(alloc, bookies, stopped)?;
    let writable = writable_stopped(bookies, stopped);
    Ok(Facts {
        judged: census.judged(),
        entries: count_entries(census.entries()),
        unknown: count_unknown(census.entries()),
        unreadable: count_unreadable(census.entries()),
        numbers,
        answer: answer_by(&numbers),
        breaks_new_ledgers: breaks_new_ledgers(alloc, bookies, question, stopped),
        keep_1_allows: keep_1_allows(alloc, census, bookies, question, stopped),
        copies_now,
        copies_without,
        unregistered,
        writers_pause: writers_pause(bookies, stopped, census.tails()),
        may_hold_a_new_ledger: may_hold_a_new_ledger(census, writable),
        unasked: unasked_of(census, bookies, question, &none),
    })
}
