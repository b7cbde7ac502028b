// The census of an inventory, line after line.
ghost use Rattle.std.specs.Prelude.{◌≡◌, ◌≤◌, ◌^◌, ◌++◌, ◌∷◌, [], ℕ, Bool, true, List, Ok, IfOk, OnOk, map, option_map, string_bytes};
ghost use Rattle.reh_census.specs.Counting.{not_judged};
ghost use Rattle.reh_inventory.specs.Lines.{located_line_of};
ghost use Rattle.reh_inventory_census.specs.Bookies as bookies;
ghost use Rattle.reh_inventory_census.specs.Numbers.{bookies_named};
ghost use Rattle.reh_inventory_census.specs.declared.census.CountedLine.{CountedLine as CountedValue};
ghost use Rattle.reh_inventory_census.specs.Census as model;

use crate::bookies::{bookies_of, racks_of};
use crate::counter::{Counter, LedgerCount};
use crate::counts::MOST;
use crate::faults::CountFault;
use crate::numbers::{are_named, line_fault};
use reh_census::{Bookies, Judged};
use reh_census_file::{NameList, NamedCensus};
use reh_inventory::{Head, Inventory, InventoryFault, Line, read_line};
use std::alloc::{AllocError, Global};

/// What was counted of the lines of an inventory, the first line among them.
#[derive(Drop)]
pub struct InventoryCount {
    inventory: Inventory,
    counter: Counter,
    racks: NameList,
    taken: Option<String>,
}

/// A line of an inventory, as it was counted by itself.
#[derive(Drop)]
pub enum CountedLine {
    /// One without a ledger that was read.
    Other(Line),
    /// One with the ledger of this id, and what was counted of it, or why it can't be counted.
    Ledger {
        id: u64,
        count: Result<LedgerCount, CountFault>,
    },
}

/// When an inventory was taken, if that is told.
fn taken_of(alloc: Global, head: &Head) -> Result<Option<String>, AllocError>
    ensures { IfOk result (λ taken. option_map string_bytes taken ≡ head.now.taken) }
{
    match &head.taken {
        Some(time) => Ok(Some(String::from_str(alloc, time.as_str())?)),
        None => Ok(None),
    }
}

/// How an inventory to which no more lines come was judged, of which so many ledgers were counted, and so many entries rest
/// on an assumption.
fn judged_by(inventory: Inventory, ledgers: u64, assumed: u64) -> Judged
    ensures { result ≡ model.judged_by inventory ledgers assumed }
{
    Judged {
        ledgers,
        assumed,
        unread: inventory.unread(),
        missing: if inventory.is_whole() { 0 } else { 1 },
    }
}

/// The first line of an inventory.
pub(crate) fn read_head(alloc: Global, bytes: &[u8]) -> Result<Head, CountFault>
    ensures { IfOk result (λ head. located_line_of bytes.now ≡ Ok (Line.Head head)) }
{
    match read_line(alloc, bytes) {
        Ok(Line::Head(head)) => Ok(head),
        Ok(_) => Err(CountFault::Line(InventoryFault::NoHead)),
        Err(fault) => Err(line_fault(fault)),
    }
}

/// What a census says of the cluster of a first line.
#[derive(Drop)]
struct Cluster {
    racks: NameList,
    bookies: Bookies,
    taken: Option<String>,
}

/// The cluster of a first line, each of whose bookies must have a number.
fn cluster_of(alloc: Global, names: &NameList, head: &Head) -> Result<Cluster, CountFault>
    ensures named { IfOk result (λ _. bookies_named names.now head.now.bookies ≡ true) }
    ensures racks { IfOk result (λ of. of.racks ≡ bookies.racks_of head.now.bookies) }
    ensures bookies { IfOk result (λ of. of.bookies
        ≡ map (bookies.bookie_of (bookies.racks_of head.now.bookies) head.now.bookies) names.now) }
    ensures taken { IfOk result (λ of. option_map string_bytes of.taken ≡ head.now.taken) }
{
    let listed = head.bookies.as_slice();
    if !are_named(names, listed) {
        return Err(CountFault::Unnamed);
    }
    let racks = racks_of(alloc, listed)?;
    let bookies = bookies_of(alloc, names, &racks, listed)?;
    let taken = taken_of(alloc, head)?;
    Ok(Cluster {
        racks,
        bookies,
        taken,
    })
}

/// How it was judged, if a census can say that.
fn judged(inventory: Inventory, counter: &Counter) -> Result<Judged, CountFault>
    ensures judged { IfOk result (λ judged. judged ≡ model.judged_by inventory counter.now.ledgers counter.now.assumed) }
    ensures few { IfOk result (λ judged. not_judged judged ≤ 2 ^ 63) }
{
    let judged = judged_by(inventory, counter.ledgers, counter.assumed);
    if judged.unread >= MOST {
        return Err(CountFault::TooMany);
    }
    Ok(judged)
}

impl InventoryCount {
    /// Nothing counted but an inventory's first line. Bookies have the numbers of these names: all bookies of the first
    /// line, and of the lines to come. In a strict count what is assumed counts as untold.
    pub fn begin(
        alloc: Global,
        names: NameList,
        is_strict: bool,
        first_line: &[u8],
    ) -> Result<InventoryCount, CountFault>
        ensures { IfOk result (model.IsCount names is_strict first_line.now []) }
    {
        let head = read_head(alloc, first_line)?;
        let cluster = cluster_of(alloc, &names, &head)?;
        let assumes_striped = head.assumes_striped;
        let Cluster {
            racks,
            bookies,
            taken,
        } = cluster;
        Ok(InventoryCount {
            inventory: Inventory::of_head(alloc, head),
            counter: Counter::new(alloc, names, bookies, assumes_striped, is_strict),
            racks,
            taken,
        })
    }

    /// Reads a line, and counts its ledger, if it has one, so that `add` can add it. Several lines can be counted at the same
    /// time.
    pub fn count_line(&self, alloc: Global, bytes: &[u8]) -> Result<CountedLine, CountFault>
        ensures { IfOk result (model.IsCountedLine self.now bytes.now) }
    {
        match read_line(alloc, bytes) {
            Ok(Line::Ledger(ledger)) => {
                let id = ledger.id;
                let count = self.counter.count(alloc, ledger);
                Ok(CountedLine::Ledger { id, count })
            }
            Ok(line) => Ok(CountedLine::Other(line)),
            Err(fault) => Err(line_fault(fault)),
        }
    }

    /// Adds the next line, as it was counted. After an `Err` a part of it may be there. What was counted of other lines before
    /// can be added after it.
    pub fn add(&mut self, alloc: Global, line: CountedLine) -> Result<(), CountFault>
        ensures counted { OnOk result ((names : List (List ℕ)) (strict : Bool) (first : List ℕ) (lines : List (List ℕ))
            → model.IsCount names strict first lines self.old
            → (bytes : List ℕ) → model.IsCountedLine self.old bytes line
            → model.IsCount names strict first (lines ++ bytes ∷ []) self.new) }
        ensures others { (bytes : List ℕ) (other : CountedValue) → model.IsCountedLine self.old bytes other
            → model.IsCountedLine self.new bytes other }
    {
        match line {
            CountedLine::Other(line) => {
                self.inventory.add_line(line)?;
                Ok(())
            }
            CountedLine::Ledger { id, count } => {
                self.inventory.add_ledger(id)?;
                self.counter.add(alloc, count?)?;
                Ok(())
            }
        }
    }

    /// What the lines say so far.
    pub fn inventory(&self) -> &Inventory
        ensures { result.now ≡ self.now.inventory }
    {
        &self.inventory
    }

    /// The census of the ledgers that the lines have. Where no last line came, it says that a ledger wasn't judged.
    pub fn finish(self, alloc: Global) -> Result<NamedCensus, CountFault>
        ensures { IfOk result (λ census.
            (names : List (List ℕ)) (strict : Bool) (first : List ℕ) (lines : List (List ℕ))
            → model.IsCount names strict first lines self
            → model.IsCensusOf names strict first lines census) }
    {
        let InventoryCount {
            inventory,
            counter,
            racks,
            taken,
        } = self;
        let judged = judged(inventory, &counter)?;
        let Counter {
            names,
            bookies,
            is_strict,
            counts,
            ..
        } = counter;
        let census = counts.into_census(alloc, judged)?;
        Ok(NamedCensus::of(names, racks, bookies, census, is_strict, taken))
    }
}
