// The bookies of a cut.
ghost use Rattle.std.specs.Prelude.{length, IfErr};
ghost use Rattle.reh_cut.specs.Passed.{IsPastBookies};

use crate::faults::CutFault;
use crate::limits::TotalLimit;
use crate::passed::past_total;
use reh_census_file::{MAX_NAMES, NameList};
use reh_inventory::{Bookie, Head, LedgerLine, Name};
use reh_types::MAX_BOOKIES;
use std::alloc::{AllocError, Global};

/// In which order other bookies come after those of which lines tell. In either, those that can be written to come first.
#[derive(Clone, Copy)]
pub enum Others {
    /// By their names.
    ByName,
    /// As the first line has them.
    AsListed,
}

/// The bookies of which these lines tell, and then others of the first line up to as many as a picture may have, in that
/// order.
pub(crate) fn names_of(
    alloc: Global,
    head: &Head,
    lines: &[LedgerLine],
    order: Others,
) -> Result<NameList, CutFault>
    ensures { IfErr result (IsPastBookies (length lines.now)) }
{
    let mut names = NameList::new(alloc);
    for line in lines {
        add_line(&mut names, line)?;
    }
    if names.len() > MAX_BOOKIES {
        return Err(past_total(TotalLimit::Bookies, names.len() as u64, lines.len()));
    }
    for is_writable in [true, false] {
        add_others(alloc, &mut names, head, is_writable, order)?;
    }
    Ok(names)
}

/// Adds a name, if there is room for it.
fn add(names: &mut NameList, name: &str) -> Result<(), AllocError> {
    if names.len() < MAX_NAMES {
        names.add(name)?;
    }
    Ok(())
}

/// Adds the bookies of which a line tells.
fn add_line(names: &mut NameList, line: &LedgerLine) -> Result<(), AllocError> {
    for fragment in line.fragments.as_slice() {
        add_members(names, fragment.ensemble.as_slice())?;
    }
    for content in line.contents.as_slice() {
        add(names, content.bookie.as_str())?;
    }
    Ok(())
}

/// Adds the members of an ensemble.
fn add_members(names: &mut NameList, members: &[Name]) -> Result<(), AllocError> {
    for member in members {
        add(names, member.as_str())?;
    }
    Ok(())
}

/// Whether a bookie can be written to.
fn is_writable(bookie: &Bookie) -> bool {
    bookie.is_up && !bookie.is_read_only
}

/// Adds other bookies as long as there is room for them: those that can be written to, or those that can't.
fn add_others(
    alloc: Global,
    names: &mut NameList,
    head: &Head,
    writable: bool,
    order: Others,
) -> Result<(), AllocError> {
    let mut others = Vec::new(alloc);
    for bookie in head.bookies.as_slice() {
        if is_writable(bookie) == writable {
            others.push(bookie.name.as_str())?;
        }
    }
    if matches!(order, Others::ByName) {
        others.sort()?;
    }
    for name in &others {
        if names.len() < MAX_BOOKIES {
            names.add(name)?;
        }
    }
    Ok(())
}
