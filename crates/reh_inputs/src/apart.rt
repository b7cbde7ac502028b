// The ids of ledgers: none stands in two inputs.
ghost use Rattle.std.specs.Prelude.{◌≡◌, ◌++◌, map, nat_eq, IfErr, IfOk, OnOk};
ghost use Rattle.std.specs.List.{flat_map, IsDistinct};
ghost use Rattle.reh_inputs.specs.Gathered.{ids_in};
ghost use Rattle.reh_inputs.specs.Inputs.{of_picture};
ghost use Rattle.reh_inputs.specs.Uncounted.{IsIdFault, IsListFault};

use crate::gathered::GatherFault;
use crate::inputs::Input;
use indexmap::IndexSet;
use reh_cluster::Ledger;
use std::alloc::{AllocError, Global};

/// The ids of a picture's ledgers.
fn listed_ids(alloc: Global, ledgers: &[Ledger]) -> Result<Vec<u64>, AllocError>
    ensures { IfOk result (λ ids. ids.items ≡ map (λ g. g.id) ledgers.now) }
{
    let mut ids = Vec::new(alloc);
    for ledger in ledgers {
        ids.push(ledger.id().0)?;
    }
    Ok(ids)
}

/// The ids of the ledgers that an input shows: a census file shows none.
pub fn ids_of(alloc: Global, input: &Input) -> Result<Vec<u64>, AllocError>
    ensures { IfOk result (λ ids. ids.items ≡ of_picture ids_in input.now) }
{
    match input {
        Input::Picture(listed) => listed_ids(alloc, &listed.listing.ledgers),
        Input::Census(_) => Ok(Vec::new(alloc)),
    }
}

/// Adds the ids of an input's ledgers. After an `Err` some of them may be there.
pub(crate) fn add_ids(
    seen: &mut IndexSet<u64>,
    input: usize,
    ids: &[u64],
) -> Result<(), GatherFault>
    ensures added { OnOk result (seen.new.keys ≡ seen.old.keys ++ ids.now) }
    ensures fault { IfErr result (IsIdFault input seen.old.keys ids.now) }
{
    for id in ids {
        if !seen.insert(*id)? {
            return Err(GatherFault::Twice { input, ledger: *id });
        }
    }
    Ok(())
}

/// Each id of a set is there once: its type says so.
fn each_once(seen: &IndexSet<u64>)
    ensures { IsDistinct nat_eq seen.now.keys }
{
    let _ids = seen.as_slice();
}

/// Checks that no id comes twice, of inputs whose ledgers have these.
pub fn check_ids(alloc: Global, lists: &[Vec<u64>]) -> Result<(), GatherFault>
    ensures apart { OnOk result (IsDistinct nat_eq (flat_map (λ ids. ids.items) lists.now)) }
    ensures fault { IfErr result (IsListFault lists.now) }
{
    let mut seen = IndexSet::new(alloc);
    for (input, ids) in lists.iter().enumerate() {
        add_ids(&mut seen, input, ids)?;
    }
    each_once(&seen);
    Ok(())
}
