// The ledgers of an inventory that are asked for.
ghost use Rattle.std.specs.Prelude.{◌≡◌, ◌++◌, ◌∷◌, [], ℕ, List, None, IfOk, OnOk, string_bytes, true};
ghost use Rattle.std.specs.List.{list_any};
ghost use Rattle.reh_cut.specs.Chosen as model;
ghost use Rattle.reh_cut.specs.Passed.{NamesFault};

use crate::faults::CutFault;
use crate::said::Assume;
use crate::windows::cut_lines;
use reh_inventory::{Inventory, InventoryFault, LedgerLine};
use std::alloc::Global;

/// The ledgers of some ids, of the lines that an inventory has so far.
#[derive(Drop)]
pub struct ChosenLedgers {
    inventory: Inventory,
    ids: Vec<u64>,
    ledgers: Vec<LedgerLine>,
}

/// Whether one of these ledgers has this id.
fn has_ledger(ledgers: &[LedgerLine], id: u64) -> bool
    ensures { result ≡ list_any (model.has_id id) ledgers.now }
{
    for ledger in ledgers {
        if ledger.id == id {
            return true;
        }
    }
    false
}

impl ChosenLedgers {
    /// Those of these ids, of no line.
    pub fn new(alloc: Global, ids: Vec<u64>) -> ChosenLedgers
        ensures { model.IsChosen ids.items [] result }
    {
        ChosenLedgers {
            inventory: Inventory::new(alloc),
            ids,
            ledgers: Vec::new(alloc),
        }
    }

    /// What the lines say so far.
    pub fn inventory(&self) -> &Inventory
        ensures { result.now ≡ self.now.inventory }
    {
        &self.inventory
    }

    /// Whether the id is asked for.
    fn is_asked(&self, id: u64) -> bool
        ensures { result ≡ model.is_asked self.now.ids.items id }
    {
        self.ids.contains(&id)
    }

    /// Adds the next line. After an `Err` nothing has changed, but where there was no memory.
    pub fn add(&mut self, alloc: Global, line: &[u8]) -> Result<(), InventoryFault>
        ensures { OnOk result ((ids : List ℕ) (lines : List (List ℕ)) → model.IsChosen ids lines self.old
            → model.IsChosen ids (lines ++ line.now ∷ []) self.new) }
    {
        if let Some(ledger) = self.inventory.add(alloc, line)? {
            if self.is_asked(ledger.id) {
                self.ledgers.push(ledger)?;
            }
        }
        Ok(())
    }

    /// The first id without a ledger, if there is one.
    fn first_missing(&self) -> Option<u64>
        ensures first { result ≡ model.first_missing self.now.ids.items self.now.ledgers.items }
        ensures all { result ≡ None → model.has_all self.now.ids.items self.now.ledgers.items ≡ true }
    {
        for id in &self.ids {
            if !has_ledger(&self.ledgers, *id) {
                return Some(*id);
            }
        }
        None
    }

    /// The picture of these ledgers, or of the window of this number of each, once all lines came; `cut` says which that is.
    pub fn cut(
        &self,
        alloc: Global,
        assume: Assume,
        window: Option<u64>,
    ) -> Result<String, CutFault>
        ensures cut { IfOk result (λ text. (ids : List ℕ) (lines : List (List ℕ)) → model.IsChosen ids lines self.now
            → model.IsCutOf ids lines assume window (string_bytes text)) }
        ensures fault { NamesFault result (model.chosen_fault self.now.inventory self.now.ids.items
            self.now.ledgers.items assume window) }
    {
        let Some(head) = self.inventory.head() else {
            return Err(CutFault::NotWhole);
        };
        if !self.inventory.is_whole() {
            return Err(CutFault::NotWhole);
        }
        if let Some(id) = self.first_missing() {
            return Err(CutFault::NoLedger(id));
        }
        cut_lines(alloc, head, &self.ledgers, assume, window)
    }
}
