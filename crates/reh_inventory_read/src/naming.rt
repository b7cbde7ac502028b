// The names of the bookies that an inventory has.
ghost use Rattle.std.specs.Prelude.{IfOk};
ghost use Rattle.reh_inventory_read.specs.Named as model;

use crate::faults::ReadFault;
use crate::passes::{Pass, add_all};
use reh_census_file::NameList;
use reh_inventory::{Line, LineFault, read_line as parse_line};
use reh_inventory_census::{CountFault, in_order, line_fault, number_line};
use std::alloc::Global;
use std::io::BufRead;
use std::thread;

/// Each bookie that a line names gets a number, if it has none.
impl Pass for NameList {
    ghost use Rattle.reh_inventory_read.specs.Named.{AddsNames, IsParsed};
    ghost use Rattle.reh_inventory_read.specs.AddedLaws.{names-nowhere, names-further};

    type Made = Result<Line, LineFault>;

    ghost is_made = { λ _ bytes parsed. IsParsed bytes parsed };

    ghost adds = { AddsNames };

    ghost adds_none = { names-nowhere };

    ghost adds_on = { names-further };

    ghost is_still_made = { λ lines one other added bytes parsed is. is };

    fn make(&self, alloc: Global, bytes: &[u8]) -> Result<Line, LineFault> {
        parse_line(alloc, bytes)
    }

    fn add(&mut self, _alloc: Global, parsed: Result<Line, LineFault>) -> Result<(), CountFault> {
        match parsed {
            Ok(line) => {
                number_line(self, &line)?;
                Ok(())
            }
            Err(fault) => Err(line_fault(fault)),
        }
    }
}

/// The names of the bookies that an inventory has, in their order. Its lines are parsed by so many workers, at least one.
pub fn names_in<B: BufRead, T: thread::Threads + Sync>(
    threads: &T,
    alloc: Global,
    workers: usize,
    reader: &mut B,
) -> Result<NameList, ReadFault>
    ensures { IfOk result (model.IsOfNames (B.remaining reader.old)) }
{
    let mut names = NameList::new(alloc);
    add_all(threads, alloc, workers, reader, 1, &mut names)?;
    let ordered = in_order(alloc, &names)?;
    Ok(ordered)
}
