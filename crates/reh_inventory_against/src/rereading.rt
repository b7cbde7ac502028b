// An inventory that is read once more, line by line, and whose ledgers are weighed.
ghost use Rattle.std.specs.Prelude.{◌≡◌, ◌++◌, ◌∷◌, [], ℕ, Bool, true, List, IfOk, OnOk};
ghost use Rattle.reh_against.specs.Weighed.{WeighsBy};
ghost use Rattle.reh_against.specs.declared.stops.Stop.{Stop as StopValue};
ghost use Rattle.reh_against.specs.declared.worst.Worst.{Worst as WorstValue};
ghost use Rattle.reh_census.specs.Ledgers.{Ledger as LedgerValue};
ghost use Rattle.reh_inventory_against.specs.Reread as model;

use reh_against::{Stop, Worst};
use reh_census_file::NameList;
use reh_inventory::{Inventory, LedgerLine};
use reh_inventory_census::{CountFault, InventoryLedgers};
use std::alloc::Global;

/// What the lines of an inventory say that is read once more, and how a census counts its ledgers.
#[derive(Drop)]
pub struct Rereading {
    inventory: Inventory,
    ledgers: InventoryLedgers,
}

impl Rereading {
    /// Nothing but an inventory's first line. Bookies have the numbers of these names. In a strict count what is assumed
    /// counts as untold.
    pub fn begin(
        alloc: Global,
        names: NameList,
        is_strict: bool,
        first_line: &[u8],
    ) -> Result<Rereading, CountFault>
        ensures { IfOk result (model.IsRereading names is_strict first_line.now []) }
    {
        let ledgers = InventoryLedgers::begin(alloc, names, is_strict, first_line)?;
        let mut inventory = Inventory::new(alloc);
        inventory.add(alloc, first_line)?;
        Ok(Rereading { inventory, ledgers })
    }

    /// Adds the next line, and weighs its ledger, if it has one. After an `Err` the ledgers that were weighed are of no use.
    pub fn add(
        &mut self,
        alloc: Global,
        line: &[u8],
        stop: &Stop<'_>,
        worst: &mut Worst,
    ) -> Result<(), CountFault>
        ensures { OnOk result ((names : List (List ℕ)) (strict : Bool) (ids : List ℕ) (ledgers : List (List LedgerValue))
            (first : List ℕ) (lines : List (List ℕ))
            → model.IsWeighing stop.now names strict ids ledgers first lines self.old worst.old
            → model.IsWeighing stop.now names strict ids ledgers first (lines ++ line.now ∷ []) self.new worst.new) }
    {
        match self.inventory.add(alloc, line)? {
            Some(ledger) => {
                self.weigh(alloc, ledger, stop, worst)?;
                Ok(())
            }
            None => Ok(()),
        }
    }

    /// Weighs the ledger of a line.
    fn weigh(
        &self,
        alloc: Global,
        line: LedgerLine,
        stop: &Stop<'_>,
        worst: &mut Worst,
    ) -> Result<(), CountFault>
        ensures { OnOk result ((ids : List ℕ) (ledgers : List (List LedgerValue))
            → WeighsBy stop.now ids ledgers worst.old
            → WeighsBy stop.now (ids ++ line.id ∷ []) (ledgers ++ model.parts_by self.now.ledgers line ∷ []) worst.new) }
    {
        let id = line.id;
        let parts = self.ledgers.of_line(alloc, line)?;
        worst.add(alloc, id, parts, stop)?;
        Ok(())
    }

    /// Whether the lines have just these ledgers, in this order, as they had when they were counted.
    pub fn is_of(&self, ids: &[u64]) -> bool
        ensures { result ≡ true → (stop : StopValue) (names : List (List ℕ)) (strict : Bool) (before : List ℕ)
            (ledgers : List (List LedgerValue)) (first : List ℕ) (lines : List (List ℕ)) (worst : WorstValue)
            → model.IsWeighing stop names strict before ledgers first lines self.now worst
            → model.HasWeighed stop names strict ids.now before ledgers worst }
    {
        self.inventory.ids() == ids
    }
}
