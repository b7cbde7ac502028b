// The ledgers of an inventory's lines, as its census counts them, one line after the other.
ghost use Rattle.std.specs.Prelude.{◌≡◌, ◌++◌, ◌∷◌, [], true, IfOk, OnOk, map};
ghost use Rattle.std.specs.Option.{IsSomeAnd};
ghost use Rattle.reh_inventory_census.specs.Census.{head_in};
ghost use Rattle.reh_inventory_census.specs.Counted.{counted as counted_of};
ghost use Rattle.reh_inventory_census.specs.Numbers.{members_named};
ghost use Rattle.reh_inventory_census.specs.Parts.{parts_of};

use crate::census::read_head;
use crate::counted::counted_ledger;
use crate::faults::CountFault;
use crate::numbers::has_named_members;
use crate::parts::{make_second, split};
use reh_census::Ledger;
use reh_census_file::NameList;
use reh_inventory::LedgerLine;
use std::alloc::Global;

/// How a census counts the ledgers of an inventory: by the numbers of these names.
#[derive(Drop)]
pub struct InventoryLedgers {
    names: NameList,
    assumes_striped: bool,
    is_strict: bool,
}

impl InventoryLedgers {
    /// By an inventory's first line. In a strict count what is assumed counts as untold.
    pub fn begin(
        alloc: Global,
        names: NameList,
        is_strict: bool,
        first_line: &[u8],
    ) -> Result<InventoryLedgers, CountFault>
        ensures { IfOk result (λ of. IsSomeAnd (head_in first_line.now) (λ head.
            of ≡ record { names = names; assumes_striped = head.assumes_striped; is_strict = is_strict })) }
    {
        let head = read_head(alloc, first_line)?;
        Ok(InventoryLedgers {
            names,
            assumes_striped: head.assumes_striped,
            is_strict,
        })
    }

    /// The ledgers of a line: one, or those of its two parts, where it isn't closed.
    pub fn of_line(&self, alloc: Global, line: LedgerLine) -> Result<Vec<Ledger>, CountFault>
        ensures named { IfOk result (λ ledgers. members_named self.now.names line ≡ true) }
        ensures counted { IfOk result (λ ledgers. ledgers.items
            ≡ map (counted_of self.now.names self.now.assumes_striped self.now.is_strict) (parts_of line)) }
    {
        if !has_named_members(&self.names, &line) {
            return Err(CountFault::Unnamed);
        }
        let mut line = line;
        self.of_parts(alloc, &mut line)
    }

    /// The ledgers of its parts.
    fn of_parts(&self, alloc: Global, line: &mut LedgerLine) -> Result<Vec<Ledger>, CountFault>
        ensures { IfOk result (λ ledgers. ledgers.items
            ≡ map (counted_of self.now.names self.now.assumes_striped self.now.is_strict) (parts_of line.old)) }
    {
        let other = split(line);
        let mut ledgers = Vec::new(alloc);
        self.add_part(alloc, line, &mut ledgers)?;
        let Some(other) = other else {
            return Ok(ledgers)
        };
        make_second(alloc, line, other)?;
        self.add_part(alloc, line, &mut ledgers)?;
        Ok(ledgers)
    }

    /// Adds the ledger of a part.
    fn add_part(
        &self,
        alloc: Global,
        part: &LedgerLine,
        ledgers: &mut Vec<Ledger>,
    ) -> Result<(), CountFault>
        ensures { OnOk result (ledgers.new.items
            ≡ ledgers.old.items ++ counted_of self.now.names self.now.assumes_striped self.now.is_strict part.now ∷ []) }
    {
        let ledger = counted_ledger(
            alloc,
            &self.names,
            self.assumes_striped,
            self.is_strict,
            part,
        )?;
        ledgers.push(ledger)?;
        Ok(())
    }
}
