// The numbers of the rules, and the answer, by a census.
ghost use Rattle.std.specs.Prelude.{◌≡◌, List};
ghost use Rattle.reh_census.specs.Answers.{answer_on, numbers_on};
ghost use Rattle.reh_census.specs.Bookies.{bookies_of, holders, is_flagged};
ghost use Rattle.reh_census.specs.Counting.{IsCensus, counting_in, counting_of, not_judged};
ghost use Rattle.reh_census.specs.Ledgers.{Ledger as LedgerValue};
ghost use Rattle.reh_census.specs.Tails as tails_model;

use crate::entries::count_entries;
use crate::members::{one_if, takes_some_disk};
use crate::places::count_places;
use crate::tails::count_tails;
use crate::writers::{loses_new_ledgers, room_of};
use reh_census::{Answer, BookieSet, Bookies, Broken, Census, Numbers, Question, answer_by};
use std::alloc::Global;

/// How often the stop of these bookies breaks each rule, by the census: and whatever ledgers it counts, that is what the
/// rules say of them.
pub fn numbers_of(
    alloc: Global,
    census: &Census,
    bookies: &Bookies,
    question: &Question,
    stopped: &BookieSet,
) -> Numbers
    ensures census { result ≡ numbers_on (counting_in census.now) (bookies_of bookies.now) question.now
        (not_judged census.now.judged) (is_flagged stopped.now) }
    ensures ledgers { (ledgers : List LedgerValue) → IsCensus census.now (holders (bookies_of bookies.now)) ledgers
        → result ≡ numbers_on (counting_of (holders (bookies_of bookies.now)) ledgers) (bookies_of bookies.now) question.now
        (not_judged census.now.judged) (is_flagged stopped.now) }
{
    let none = BookieSet::none(alloc);
    let takes_disk = takes_some_disk(bookies, question, stopped);
    let entries = count_entries(census.entries(), question.keep, takes_disk, stopped);
    let room = room_of(bookies, question, &none, stopped);
    let tails = count_tails(bookies, question, &none, stopped, &room, census.tails());
    let new_ledgers = one_if(loses_new_ledgers(&room, question));
    let writable = tails.writable + new_ledgers;
    let replaceable = count_places(bookies, question, &none, stopped, census.ensembles());
    Numbers {
        readable: Broken {
            no: entries.lost,
            unknown: entries.may_be_lost,
        },
        kept: Broken {
            no: entries.fallen,
            unknown: entries.may_be_fallen,
        },
        recoverable: tails.recoverable,
        writable,
        replaceable,
        disks: entries.on_disk,
        not_judged: census.not_judged(),
    }
}

/// Whether new ledgers of the size that is asked for find no ensemble without these bookies, and do now.
pub fn breaks_new_ledgers(
    alloc: Global,
    bookies: &Bookies,
    question: &Question,
    stopped: &BookieSet,
) -> bool
    ensures { result ≡ tails_model.breaks_new_ledgers (bookies_of bookies.now) question.now (is_flagged stopped.now) }
{
    let none = BookieSet::none(alloc);
    let room = room_of(bookies, question, &none, stopped);
    loses_new_ledgers(&room, question)
}

/// Whether these bookies may be stopped, by the census: and whatever ledgers it counts, that is what the rules say of
/// them.
pub fn answer_of(
    alloc: Global,
    census: &Census,
    bookies: &Bookies,
    question: &Question,
    stopped: &BookieSet,
) -> Answer
    ensures census { result ≡ answer_on (counting_in census.now) (bookies_of bookies.now) question.now
        (not_judged census.now.judged) (is_flagged stopped.now) }
    ensures ledgers { (ledgers : List LedgerValue) → IsCensus census.now (holders (bookies_of bookies.now)) ledgers
        → result ≡ answer_on (counting_of (holders (bookies_of bookies.now)) ledgers) (bookies_of bookies.now) question.now
        (not_judged census.now.judged) (is_flagged stopped.now) }
{
    let numbers = numbers_of(alloc, census, bookies, question, stopped);
    answer_by(&numbers)
}
