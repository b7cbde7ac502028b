// The plans for the ledgers of an inventory, line after line.
ghost use Rattle.std.specs.Prelude.{◌≡◌, ◌++◌, ◌∷◌, [], Some, IfOk, OnOk};
ghost use Rattle.std.specs.Option.{option_map_or};
ghost use Rattle.reh_inventory_census.specs.Census.{head_in};
ghost use Rattle.reh_inventory_plan.specs.Lines as model;

use crate::asked::{Asked, misses_member};
use crate::faults::Unplanned;
use crate::ledgers::{Outcome, plan_ledger};
use crate::others::Takers;
use reh_inventory::{Head, Inventory, InventoryFault, LedgerLine, Line, read_line};
use reh_inventory_census::{CountFault, line_fault};
use reh_inventory_read::Pass;
use std::alloc::Global;

/// What was planned for the ledgers of an inventory so far.
#[derive(Drop)]
pub(crate) struct Planner {
    pub(crate) head: Head,
    asked: Asked,
    pub(crate) inventory: Inventory,
    pub(crate) outcomes: Vec<Outcome>,
    takers: Takers,
}

/// What was made of a line by itself.
#[derive(Drop)]
pub(crate) enum PlannedLine {
    /// One without a ledger that was read.
    Other(Line),
    /// One with the ledger of this id, and what comes of it, if it misses a member.
    Ledger(u64, Option<Outcome>),
}

impl Planner {
    /// Nothing planned but an inventory's first line.
    pub(crate) fn begin(
        alloc: Global,
        asked: Asked,
        first_line: &[u8],
    ) -> Result<Planner, CountFault>
        ensures { IfOk result (model.IsPlanning asked first_line.now []) }
    {
        let mut inventory = Inventory::new(alloc);
        inventory.add(alloc, first_line)?;
        let head = read_head(alloc, first_line)?;
        let takers = Takers::of(alloc, &head, &asked)?;
        Ok(Planner {
            head,
            asked,
            inventory,
            outcomes: Vec::new(alloc),
            takers,
        })
    }

    /// What comes of a ledger, if it misses a member.
    fn outcome_of(&self, alloc: Global, ledger: LedgerLine) -> Result<Option<Outcome>, CountFault>
        ensures { IfOk result (model.IsOutcomeOf self.now.head self.now.asked ledger) }
    {
        if !misses_member(&self.head, &self.asked.lost, &ledger) {
            return Ok(None);
        }
        let others = self
            .takers
            .others_for(alloc, &self.head, &self.asked.lost, &ledger)?;
        let id = ledger.id;
        match plan_ledger(alloc, &self.head, &self.asked, ledger, &others) {
            Ok(planned) => Ok(Some(Outcome::Planned(planned))),
            Err(Unplanned::NoMemory) => Err(CountFault::NoMemory),
            Err(reason) => Ok(Some(Outcome::Unplanned(id, reason))),
        }
    }

    /// Adds what comes of a ledger, if something does.
    fn add_outcome(&mut self, outcome: Option<Outcome>) -> Result<(), CountFault>
        ensures head { self.new.head ≡ self.old.head }
        ensures asked { self.new.asked ≡ self.old.asked }
        ensures inventory { self.new.inventory ≡ self.old.inventory }
        ensures outcomes { OnOk result (self.new.outcomes.items
            ≡ self.old.outcomes.items ++ option_map_or (λ outcome. outcome ∷ []) outcome []) }
    {
        if let Some(outcome) = outcome {
            self.outcomes.push(outcome)?;
        }
        Ok(())
    }
}

/// The first line of an inventory.
fn read_head(alloc: Global, bytes: &[u8]) -> Result<Head, CountFault>
    ensures { IfOk result (λ head. head_in bytes.now ≡ Some head) }
{
    match read_line(alloc, bytes) {
        Ok(Line::Head(head)) => Ok(head),
        Ok(_) => Err(CountFault::Line(InventoryFault::NoHead)),
        Err(fault) => Err(line_fault(fault)),
    }
}

/// Each ledger that misses a member is planned for by itself.
impl Pass for Planner {
    ghost use Rattle.reh_inventory_plan.specs.Lines.{GoesOn, IsPlannedMade};
    ghost use Rattle.reh_inventory_plan.specs.AddedLaws.{goes-nowhere, goes-further, still-planned};

    type Made = Result<PlannedLine, CountFault>;

    ghost is_made = { IsPlannedMade };

    ghost adds = { GoesOn };

    ghost adds_none = { goes-nowhere };

    ghost adds_on = { goes-further };

    ghost is_still_made = { still-planned };

    fn make(&self, alloc: Global, bytes: &[u8]) -> Result<PlannedLine, CountFault> {
        match read_line(alloc, bytes) {
            Ok(Line::Ledger(ledger)) => {
                let id = ledger.id;
                let outcome = self.outcome_of(alloc, ledger)?;
                Ok(PlannedLine::Ledger(id, outcome))
            }
            Ok(line) => Ok(PlannedLine::Other(line)),
            Err(fault) => Err(line_fault(fault)),
        }
    }

    fn add(
        &mut self,
        _alloc: Global,
        made: Result<PlannedLine, CountFault>,
    ) -> Result<(), CountFault> {
        match made? {
            PlannedLine::Other(line) => {
                self.inventory.add_line(line)?;
                Ok(())
            }
            PlannedLine::Ledger(id, outcome) => {
                self.inventory.add_ledger(id)?;
                self.add_outcome(outcome)
            }
        }
    }
}
