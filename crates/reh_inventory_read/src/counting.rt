// The census of an inventory's lines.
ghost use Rattle.std.specs.Prelude.{Bool, List, Option, ℕ, false, true, IfOk};
ghost use Rattle.reh_inventory_read.specs.Counted as model;

use crate::faults::ReadFault;
use crate::lines::read_line;
use crate::passes::{Pass, add_all};
use reh_census_file::{NameList, NamedCensus};
use reh_inventory::InventoryFault;
use reh_inventory_census::{CountFault, CountedLine, InventoryCount};
use std::alloc::Global;
use std::io::BufRead;
use std::thread;

/// The census of an inventory, the ids of its ledgers, and whether its last line isn't there.
#[derive(Drop)]
pub struct CountedInventory {
    pub census: NamedCensus,
    pub ids: Vec<u64>,
    pub is_cut: bool,
}

/// Each line is counted by itself, beside what was counted before.
impl Pass for InventoryCount {
    ghost use Rattle.reh_inventory_read.specs.Counted.{GoesOn, IsCountMade};
    ghost use Rattle.reh_inventory_read.specs.AddedLaws.{goes-nowhere, goes-further};

    type Made = Result<CountedLine, CountFault>;

    ghost is_made = { IsCountMade };

    ghost adds = { GoesOn };

    ghost adds_none = { goes-nowhere };

    ghost adds_on = { goes-further };

    ghost is_still_made = { λ lines one other added. added.others };

    fn make(&self, alloc: Global, bytes: &[u8]) -> Result<CountedLine, CountFault> {
        self.count_line(alloc, bytes)
    }

    fn add(
        &mut self,
        alloc: Global,
        made: Result<CountedLine, CountFault>,
    ) -> Result<(), CountFault> {
        let line = made?;
        InventoryCount::add(self, alloc, line)?;
        Ok(())
    }
}

/// The census of an inventory's lines, where bookies have the numbers of these names: all that its lines name. The lines are
/// counted by so many workers, at least one. In a strict count what is assumed counts as untold.
pub fn count_lines<B: BufRead, T: thread::Threads + Sync>(
    threads: &T,
    alloc: Global,
    workers: usize,
    reader: &mut B,
    names: NameList,
    is_strict: bool,
) -> Result<CountedInventory, ReadFault>
    ensures { IfOk result (model.IsOfLines is_strict names (B.remaining reader.old)) }
{
    let mut count = count_first(alloc, reader, names, is_strict)?;
    add_all(threads, alloc, workers, reader, 2, &mut count)?;
    let counted = finish(alloc, count)?;
    Ok(counted)
}

/// Begins to count, with the first line that is read.
fn count_first<B: BufRead>(
    alloc: Global,
    reader: &mut B,
    names: NameList,
    is_strict: bool,
) -> Result<InventoryCount, ReadFault>
    ensures { IfOk result (model.IsCounting false is_strict names (B.remaining reader.old) (B.remaining reader.new)) }
{
    let mut line = Vec::new(alloc);
    read_line(reader, &mut line)?;
    if line.is_empty() {
        return Err(ReadFault::Line(1, CountFault::Line(InventoryFault::NoHead)));
    }
    match InventoryCount::begin(alloc, names, is_strict, &line) {
        Ok(count) => Ok(count),
        Err(fault) => Err(ReadFault::Line(1, fault)),
    }
}

/// The census of what was counted, the ids of its ledgers, and whether the last line isn't there.
fn finish(alloc: Global, count: InventoryCount) -> Result<CountedInventory, ReadFault>
    ensures { IfOk result (λ counted. (strict : Bool) (names : List (List ℕ)) (old new : Option (List ℕ))
        → model.IsCounting true strict names old new count → model.IsOfLines strict names old counted) }
{
    let ids = Vec::from_slice(alloc, count.inventory().ids())?;
    let is_cut = !count.inventory().is_whole();
    match count.finish(alloc) {
        Ok(census) => Ok(CountedInventory {
            census,
            ids,
            is_cut,
        }),
        Err(fault) => Err(ReadFault::Line(1, fault)),
    }
}
