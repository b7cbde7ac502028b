// What is counted of the ledgers of an inventory, line after line.
ghost use Rattle.std.specs.Prelude.{◌≡◌, ◌+◌, ◌++◌, ◌∷◌, [], List, OnOk, IfOk};
ghost use Rattle.reh_census.specs.Bookies.{bookies_of, holders};
ghost use Rattle.reh_census.specs.Counting.{count_entries};
ghost use Rattle.reh_inventory.specs.declared.ledgers.LedgerLine.{LedgerLine as LineValue};
ghost use Rattle.reh_inventory_census.specs.declared.counter.Counter.{Counter as CounterValue};
ghost use Rattle.reh_inventory_census.specs.Counters as model;
ghost use Rattle.reh_inventory_census.specs.Counted.{assumed as assumed_of};
ghost use Rattle.reh_inventory_census.specs.Parts.{parts_of};
ghost use Rattle.reh_inventory_census.specs.Counting.{is_held};

use crate::counted::{assumed_ledger, counted_ledger};
use crate::counts::{Counts, held_among};
use crate::empties::are_refilled;
use crate::faults::CountFault;
use crate::numbers::has_named_members;
use crate::parts::{make_second, split};
use reh_census::Bookies;
use reh_census_file::NameList;
use reh_inventory::LedgerLine;
use reh_tally::entries_of;
use std::alloc::Global;

/// Ledgers of an inventory, counted.
#[derive(Drop)]
pub(crate) struct Counter {
    pub(crate) names: NameList,
    pub(crate) bookies: Bookies,
    pub(crate) assumes_striped: bool,
    pub(crate) is_strict: bool,
    pub(crate) counts: Counts,
    pub(crate) ledgers: u64,
    pub(crate) assumed: u64,
}

/// What was counted of a ledger.
#[derive(Drop)]
pub struct LedgerCount {
    counts: Counts,
    /// How many entries have a known copy by an assumption.
    assumed: u64,
}

/// So many and so many more, if that can be counted.
fn sum(one: u64, other: u64) -> Result<u64, CountFault>
    ensures { IfOk result (λ sum. sum ≡ one + other) }
{
    one.checked_add(other).ok_or(CountFault::TooMany)
}

/// How many entries of a part of a ledger have a known copy by an assumption.
fn count_assumed(
    alloc: Global,
    names: &NameList,
    bookies: &Bookies,
    assumes_striped: bool,
    line: &LedgerLine,
) -> Result<u64, CountFault>
    ensures { IfOk result (λ assumed. assumed
        ≡ count_entries (holders (bookies_of bookies.now)) (assumed_of names.now assumes_striped line.now ∷ []) is_held) }
{
    let ledger = assumed_ledger(alloc, names, assumes_striped, line)?;
    let entries = entries_of(alloc, bookies, &[ledger])?;
    held_among(&entries).ok_or(CountFault::TooMany)
}

impl LedgerCount {
    /// Adds what was counted of further parts. After an `Err` some of it may be there.
    fn add(&mut self, other: LedgerCount) -> Result<(), CountFault>
        ensures { OnOk result ((c : CounterValue) (parts more : List LineValue)
            → model.CountsParts parts (model.with_count c self.old) → model.CountsParts more (model.with_count c other)
            → model.CountsParts (parts ++ more) (model.with_count c self.new)) }
    {
        let LedgerCount { counts, assumed } = other;
        self.counts.append(counts)?;
        self.assumed = sum(self.assumed, assumed)?;
        Ok(())
    }
}

impl Counter {
    /// One that has counted nothing yet.
    pub(crate) fn new(
        alloc: Global,
        names: NameList,
        bookies: Bookies,
        assumes_striped: bool,
        is_strict: bool,
    ) -> Counter
        ensures names { result.names ≡ names }
        ensures bookies { result.bookies ≡ bookies }
        ensures assumes { result.assumes_striped ≡ assumes_striped }
        ensures strict { result.is_strict ≡ is_strict }
        ensures none { model.CountsLines [] result }
    {
        Counter {
            names,
            bookies,
            assumes_striped,
            is_strict,
            counts: Counts::new(alloc),
            ledgers: 0,
            assumed: 0,
        }
    }

    /// How many entries of a part of a ledger have a known copy by an assumption; with `is_strict` none.
    fn assumed_of(&self, alloc: Global, line: &LedgerLine) -> Result<u64, CountFault>
        ensures { IfOk result (λ assumed. assumed ≡ model.assumed_more self.now line.now) }
    {
        if self.is_strict {
            return Ok(0);
        }
        count_assumed(
            alloc,
            &self.names,
            &self.bookies,
            self.assumes_striped,
            line,
        )
    }

    /// What is counted of a part of a ledger.
    fn count_part(&self, alloc: Global, line: &LedgerLine) -> Result<LedgerCount, CountFault>
        ensures { IfOk result (λ count. model.CountsParts (line.now ∷ []) (model.with_count self.now count)) }
    {
        let assumed = self.assumed_of(alloc, line)?;
        let ledger = counted_ledger(
            alloc,
            &self.names,
            self.assumes_striped,
            self.is_strict,
            line,
        )?;
        let counts = Counts::of(alloc, &self.bookies, ledger)?;
        Ok(LedgerCount { counts, assumed })
    }

    /// What is counted of the parts of a ledger.
    fn count_parts(&self, alloc: Global, line: &mut LedgerLine) -> Result<LedgerCount, CountFault>
        ensures { IfOk result (λ count. model.CountsParts (parts_of line.old) (model.with_count self.now count)) }
    {
        let other = split(line);
        let mut count = self.count_part(alloc, line)?;
        let Some(other) = other else { return Ok(count) };
        make_second(alloc, line, other)?;
        let more = self.count_part(alloc, line)?;
        count.add(more)?;
        Ok(count)
    }

    /// What is counted of a ledger.
    pub(crate) fn count(&self, alloc: Global, line: LedgerLine) -> Result<LedgerCount, CountFault>
        ensures { IfOk result (model.IsLedgerCount self.now line) }
    {
        if !has_named_members(&self.names, &line) {
            return Err(CountFault::Unnamed);
        }
        if are_refilled(&self.names, &self.bookies, line.contents.as_slice()) {
            return Err(CountFault::HoldsThoughEmpty(line.id));
        }
        let mut line = line;
        self.count_parts(alloc, &mut line)
    }

    /// Adds what was counted of parts. After an `Err` some of it may be there.
    fn add_parts(&mut self, alloc: Global, count: LedgerCount) -> Result<(), CountFault>
        ensures fixed { model.IsOfSame self.old self.new }
        ensures ledgers { self.new.ledgers ≡ self.old.ledgers }
        ensures added { OnOk result ((parts more : List LineValue) → model.CountsParts parts self.old
            → model.CountsParts more (model.with_count self.old count)
            → model.CountsParts (parts ++ more) self.new) }
    {
        let LedgerCount { counts, assumed } = count;
        self.counts.add(alloc, counts)?;
        self.assumed = sum(self.assumed, assumed)?;
        Ok(())
    }

    /// Adds what was counted of a ledger. After an `Err` some of it may be there.
    pub(crate) fn add(&mut self, alloc: Global, count: LedgerCount) -> Result<(), CountFault>
        ensures fixed { model.IsOfSame self.old self.new }
        ensures added { OnOk result ((lines : List LineValue) (line : LineValue) → model.CountsLines lines self.old
            → model.IsLedgerCount self.old line count → model.CountsLines (lines ++ line ∷ []) self.new) }
    {
        self.add_parts(alloc, count)?;
        self.ledgers = self.ledgers.checked_add(1).ok_or(CountFault::TooMany)?;
        Ok(())
    }
}
