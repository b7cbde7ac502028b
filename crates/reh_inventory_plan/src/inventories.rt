// What plans for all ledgers of an inventory come to.
ghost use Rattle.std.specs.Prelude.{ℕ, List, Option, false, true, IfOk};
ghost use Rattle.reh_inventory_plan.specs.Lines as model;

use crate::asked::Asked;
use crate::ledgers::Outcome;
use crate::planner::Planner;
use reh_inventory::{Head, InventoryFault};
use reh_inventory_census::CountFault;
use reh_inventory_read::{ReadFault, add_all, read_line};
use std::alloc::Global;
use std::io::BufRead;
use std::thread;

/// What plans for the ledgers of an inventory come to.
#[derive(Drop)]
pub struct InventoryPlan {
    /// The inventory's first line.
    pub head: Head,
    /// What comes of each ledger that misses a member, in the order of the lines.
    pub outcomes: Vec<Outcome>,
    /// How many lines of ledgers there are.
    pub ledgers: u64,
    /// How many of these could not be read.
    pub unread: u64,
    /// Whether the last line came: without it the file was cut.
    pub is_whole: bool,
}

/// Plans for each ledger of an inventory's lines that misses a member without the lost bookies, each by itself. The lines are
/// read by so many workers, at least one.
pub fn plan_lines<B: BufRead, T: thread::Threads + Sync>(
    threads: &T,
    alloc: Global,
    workers: usize,
    reader: &mut B,
    asked: Asked,
) -> Result<InventoryPlan, ReadFault>
    ensures { IfOk result (model.IsInventoryPlan asked (B.remaining reader.old)) }
{
    let mut planner = plan_first(alloc, reader, asked)?;
    add_all(threads, alloc, workers, reader, 2, &mut planner)?;
    Ok(finish(planner))
}

/// Begins with the first line that is read.
fn plan_first<B: BufRead>(alloc: Global, reader: &mut B, asked: Asked) -> Result<Planner, ReadFault>
    ensures { IfOk result (model.IsPlanningOf false asked (B.remaining reader.old) (B.remaining reader.new)) }
{
    let mut line = Vec::new(alloc);
    read_line(reader, &mut line)?;
    if line.is_empty() {
        return Err(ReadFault::Line(1, CountFault::Line(InventoryFault::NoHead)));
    }
    match Planner::begin(alloc, asked, &line) {
        Ok(planner) => Ok(planner),
        Err(fault) => Err(ReadFault::Line(1, fault)),
    }
}

/// What was planned for all lines.
fn finish(planner: Planner) -> InventoryPlan
    ensures { (asked : Asked) (old new : Option (List ℕ)) → model.IsPlanningOf true asked old new planner
        → model.IsInventoryPlan asked old result }
{
    let ledgers = planner.inventory.ledgers();
    let unread = planner.inventory.unread();
    let is_whole = planner.inventory.is_whole();
    InventoryPlan {
        head: planner.head,
        outcomes: planner.outcomes,
        ledgers,
        unread,
        is_whole,
    }
}
