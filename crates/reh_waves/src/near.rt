// The part of a census that names some bookies: what their stop may break.
ghost use Rattle.std.specs.Prelude.{◌≡◌, ◌≤◌, ◌+◌, ◌&&◌, All, Bool, IfOk, OnOk, cond, length};
ghost use Rattle.std.specs.List.{list_any};
ghost use Rattle.reh_census.specs.Answers.{numbers_on};
ghost use Rattle.reh_census.specs.Bookies.{bookies_of, is_flagged};
ghost use Rattle.reh_census.specs.Counting.{count_in, count_tails_in, counting_in, not_judged};
ghost use Rattle.reh_census.specs.Tails.{IsTail};
ghost use Rattle.reh_census.specs.declared.censuses.Tail.{Tail as TailValue};
ghost use Rattle.reh_census.specs.declared.classes.Class.{Class as ClassValue};
ghost use Rattle.reh_waves.specs.Near as model;
ghost use Rattle.reh_waves.specs.Near.{AreLargest, IsEnough, IsLocal, IsNear};

use reh_census::{
    BookieSet, Bookies, Census, Class, Counted, CountedEnsemble, CountedTail, Judged, Names,
    Numbers, Question, Tail,
};
use reh_rules::{count_writable, lacks_racks, numbers_of, takes_some_disk};
use std::alloc::{AllocError, Global};

/// Whether one of the bookies is named.
fn names_any(among: &BookieSet, names: &[u16]) -> bool
    ensures { result ≡ list_any (is_flagged among.now) names.now }
{
    for name in names {
        if among.contains(*name) {
            return true;
        }
    }
    false
}

/// A copy of the names.
fn copy_of(alloc: Global, names: &Names) -> Result<Names, AllocError>
    ensures { IfOk result (λ copy. copy ≡ names.now) }
{
    let items = Vec::from_slice(alloc, names.as_slice())?;
    Ok(Names::of(items))
}

/// Whether one of the bookies is told to hold the entry, or untold.
fn names_class(among: &BookieSet, class: &Class) -> bool
    ensures { result ≡ model.names_class (is_flagged among.now) class.now }
{
    names_any(among, class.known.as_slice()) || names_any(among, class.untold.as_slice())
}

/// A copy of the class, with its count.
fn copy_of_counted(alloc: Global, counted: &Counted) -> Result<Counted, AllocError>
    ensures { IfOk result (λ copy. copy ≡ counted.now) }
{
    let known = copy_of(alloc, &counted.class.known)?;
    let untold = copy_of(alloc, &counted.class.untold)?;
    let class = Class {
        known,
        untold,
        ack_quorum: counted.class.ack_quorum,
        write_quorum: counted.class.write_quorum,
    };
    Ok(Counted {
        class,
        count: counted.count,
    })
}

/// The classes that name one of the bookies.
fn entries_near(
    alloc: Global,
    entries: &[Counted],
    among: &BookieSet,
) -> Result<Vec<Counted>, AllocError>
    ensures { IfOk result (λ near. (test : ClassValue → Bool) → count_in near.items test
        ≡ count_in entries.now (λ class. test class && model.names_class (is_flagged among.now) class)) }
{
    let mut near = Vec::new(alloc);
    for counted in entries {
        if names_class(among, &counted.class) {
            near.push(copy_of_counted(alloc, counted)?)?;
        }
    }
    Ok(near)
}

/// A copy of the tail, with its count.
fn copy_of_tail(alloc: Global, counted: &CountedTail) -> Result<CountedTail, AllocError>
    ensures { IfOk result (λ copy. copy ≡ counted.now) }
{
    let ensemble = copy_of(alloc, &counted.tail.ensemble)?;
    let tail = Tail {
        size: counted.tail.size,
        write_quorum: counted.tail.write_quorum,
        ack_quorum: counted.tail.ack_quorum,
        is_open: counted.tail.is_open,
        ensemble,
    };
    Ok(CountedTail {
        tail,
        count: counted.count,
    })
}

/// Adds the tail, if it names one of the bookies.
fn add_near(
    alloc: Global,
    near: &mut Vec<CountedTail>,
    among: &BookieSet,
    counted: &CountedTail,
) -> Result<(), AllocError>
    requires near { All (λ t. IsTail t.tail) near.old.items }
    requires counted { IsTail counted.now.tail }
    ensures counts { OnOk result ((test : TailValue → Bool) → count_tails_in near.new.items test
        ≡ count_tails_in near.old.items test
        + cond (test counted.now.tail && model.names_tail (is_flagged among.now) counted.now.tail) counted.now.count 0) }
    ensures well_formed { OnOk result (All (λ t. IsTail t.tail) near.new.items) }
{
    if !names_any(among, counted.tail.ensemble.as_slice()) {
        return Ok(());
    }
    let copy = copy_of_tail(alloc, counted)?;
    near.push(copy)?;
    Ok(())
}

/// The tails that name one of the bookies.
fn tails_near(
    alloc: Global,
    tails: &[CountedTail],
    among: &BookieSet,
) -> Result<Vec<CountedTail>, AllocError>
    requires { All (λ t. IsTail t.tail) tails.now }
    ensures counts { IfOk result (λ near. (test : TailValue → Bool) → count_tails_in near.items test
        ≡ count_tails_in tails.now (λ tail. test tail && model.names_tail (is_flagged among.now) tail)) }
    ensures well_formed { IfOk result (λ near. All (λ t. IsTail t.tail) near.items) }
{
    let mut near = Vec::new(alloc);
    for counted in tails {
        add_near(alloc, &mut near, among, counted)?;
    }
    Ok(near)
}

/// The part of the census that names one of the bookies.
pub(crate) fn near_of(
    alloc: Global,
    census: &Census,
    among: &BookieSet,
) -> Result<Census, AllocError>
    ensures { IfOk result (λ near. IsNear census.now near (is_flagged among.now)) }
{
    let entries = entries_near(alloc, census.entries(), among)?;
    let tails = tails_near(alloc, census.tails(), among)?;
    let judged = Judged {
        ledgers: 0,
        assumed: 0,
        unread: 0,
        missing: 0,
    };
    Ok(Census::of(entries, tails, Vec::new(alloc), judged))
}

/// The largest ensembles: of ledgers that aren't closed, and of fragments.
#[derive(Clone, Copy)]
pub(crate) struct Largest {
    pub tail: u64,
    pub ensemble: u64,
}

/// The larger number.
fn larger(one: u64, other: u64) -> u64
    ensures one { one ≤ result }
    ensures other { other ≤ result }
{
    if one < other { other } else { one }
}

/// The largest ensemble of ledgers that aren't closed.
fn largest_tail(tails: &[CountedTail]) -> u64
    ensures { All (λ t. t.tail.size ≤ result) tails.now }
{
    let mut largest = 0;
    for counted in tails {
        largest = larger(largest, counted.tail.size);
    }
    largest
}

/// The largest ensemble of fragments.
fn largest_ensemble(ensembles: &[CountedEnsemble]) -> u64
    ensures { All (λ e. length e.members ≤ result) ensembles.now }
{
    let mut largest = 0;
    for counted in ensembles {
        let members = counted.members.as_slice().len() as u64;
        largest = larger(largest, members);
    }
    largest
}

/// The largest ensembles of the census.
pub(crate) fn largest_of(census: &Census) -> Largest
    ensures largest { AreLargest census.now result.tail result.ensemble }
    ensures well_formed { All (λ t. IsTail t.tail) census.now.tails }
{
    Largest {
        tail: largest_tail(census.tails()),
        ensemble: largest_ensemble(census.ensembles()),
    }
}

/// Whether each place finds a bookie, whatever the ensemble: twice as many may be written to as the largest ensemble has.
fn has_places(question: &Question, largest: Largest, writable: u64) -> bool
    ensures { result ≡ model.has_places question.now largest.ensemble writable }
{
    !question.for_good || largest.ensemble <= writable / 2
}

/// Whether no ledger breaks a rule for lack of bookies, racks or places, and no disk goes.
fn is_local(bookies: &Bookies, question: &Question, largest: Largest, stopped: &BookieSet) -> bool
    ensures { result ≡ model.is_local (bookies_of bookies.now) question.now largest.tail largest.ensemble (is_flagged stopped.now) }
{
    let writable = count_writable(bookies, stopped);
    if writable < largest.tail {
        return false;
    }
    if !has_places(question, largest, writable) {
        return false;
    }
    !takes_some_disk(bookies, question, stopped) && !lacks_racks(bookies, question, stopped)
}

/// How often the stop of these bookies breaks each rule: by the near part of the census, where that is enough.
pub(crate) fn numbers_near(
    alloc: Global,
    census: &Census,
    near: &Census,
    bookies: &Bookies,
    question: &Question,
    largest: Largest,
    stopped: &BookieSet,
) -> Numbers
    requires enough { IsEnough census.now near.now (bookies_of bookies.now) question.now (is_flagged stopped.now) }
    requires largest { AreLargest census.now largest.tail largest.ensemble }
    requires well_formed { All (λ t. IsTail t.tail) census.now.tails }
    ensures { result ≡ numbers_on (counting_in census.now) (bookies_of bookies.now) question.now
        (not_judged census.now.judged) (is_flagged stopped.now) }
{
    if is_local(bookies, question, largest, stopped) {
        let numbers = numbers_of(alloc, near, bookies, question, stopped);
        return Numbers {
            not_judged: census.not_judged(),
            ..numbers
        };
    }
    numbers_of(alloc, census, bookies, question, stopped)
}
