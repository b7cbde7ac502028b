// Censuses of fragments, by segments, and of ledgers.
ghost use Rattle.std.specs.Prelude.{◌≡◌, ◌≤◌, ◌+◌, Bool, [], ◌∷◌, IfOk, OnOk, length};
ghost use Rattle.reh_census.specs.declared.classes.Class.{Class};
ghost use Rattle.reh_census.specs.Counting as model;
ghost use Rattle.reh_census.specs.Ledgers.{IsFragment};
ghost use Rattle.reh_tally.specs.Cursors.{AreRisings};
ghost use Rattle.reh_tally.specs.Members.{names_of};
ghost use Rattle.reh_tally.specs.Segments.{count_classes};

use crate::classes::class_by;
use crate::cursors::{cursors_of, next_segment, risings_of, untold_of};
use crate::lines::{Line, Lines};
use crate::masks::masks_of;
use crate::members::members_of;
use crate::rounds::count_segment;
use reh_census::{Bookies, Counted, Fragment, Ledger};
use std::alloc::{AllocError, Global};

/// The entries of a fragment, as these members hold them: by segments.
fn lines_of(
    alloc: Global,
    members: &[u16],
    ledger: &Ledger,
    risings: &[bool],
    fragment: &Fragment,
) -> Result<Lines, AllocError>
    requires few { length members.now ≤ 64 }
    requires small { ledger.now.size ≤ 64 }
    requires risings { AreRisings ledger.now risings.now }
    requires fragment { IsFragment ledger.now.size fragment.now }
    ensures { IfOk result (λ lines. (test : Class → Bool) → count_classes members.now ledger.now lines test
        ≡ model.count_fragment members.now ledger.now test fragment.now) }
{
    let masks = masks_of(alloc, members, ledger, fragment)?;
    let mut cursors = cursors_of(alloc, members, ledger, risings, fragment.first)?;
    let untold = untold_of(ledger, &cursors);
    let mut lines = Lines::new(alloc)?;
    let mut at = fragment.first;
    while at < fragment.stop {
        let next = next_segment(ledger, &mut cursors, at, fragment.stop);
        count_segment(alloc, &masks, next.held, untold, at, next.stop, &mut lines)?;
        at = next.stop;
    }
    Ok(lines)
}

/// Adds the line's entries, if it has any.
fn add_line(
    alloc: Global,
    members: &[u16],
    ledger: &Ledger,
    line: &Line,
    census: &mut Vec<Counted>,
) -> Result<(), AllocError>
    ensures { OnOk result ((test : Class → Bool) → model.count_in census.new.items test
        ≡ model.count_in census.old.items test + count_classes members.now ledger.now (line.now ∷ []) test) }
{
    if line.count == 0 {
        return Ok(());
    }
    let class = class_by(alloc, members, ledger, line.known, line.untold)?;
    census.push(Counted {
        class,
        count: line.count,
    })?;
    Ok(())
}

/// Adds the entries of the lines.
fn add_lines(
    alloc: Global,
    members: &[u16],
    ledger: &Ledger,
    lines: &[Line],
    census: &mut Vec<Counted>,
) -> Result<(), AllocError>
    ensures { OnOk result ((test : Class → Bool) → model.count_in census.new.items test
        ≡ model.count_in census.old.items test + count_classes members.now ledger.now lines.now test) }
{
    for line in lines {
        add_line(alloc, members, ledger, line, census)?;
    }
    Ok(())
}

/// Adds the entries of a fragment: of the bookies that may hold copies its members are enough.
fn count_fragment(
    alloc: Global,
    bookies: &Bookies,
    ledger: &Ledger,
    risings: &[bool],
    fragment: &Fragment,
    census: &mut Vec<Counted>,
) -> Result<(), AllocError>
    requires small { ledger.now.size ≤ 64 }
    requires risings { AreRisings ledger.now risings.now }
    requires fragment { IsFragment ledger.now.size fragment.now }
    ensures { OnOk result ((test : Class → Bool) → model.count_in census.new.items test
        ≡ model.count_in census.old.items test
        + model.count_fragment (names_of bookies.now) ledger.now test fragment.now) }
{
    let members = members_of(alloc, bookies, &fragment.ensemble)?;
    let lines = lines_of(alloc, &members, ledger, risings, fragment)?;
    add_lines(alloc, &members, ledger, lines.as_slice(), census)
}

/// Adds the entries of a ledger.
fn count_ledger(
    alloc: Global,
    bookies: &Bookies,
    ledger: &Ledger,
    census: &mut Vec<Counted>,
) -> Result<(), AllocError>
    ensures { OnOk result ((test : Class → Bool) → model.count_in census.new.items test
        ≡ model.count_in census.old.items test + model.count_ledger (names_of bookies.now) test ledger.now) }
{
    let risings = risings_of(alloc, ledger)?;
    for fragment in ledger.fragments() {
        count_fragment(alloc, bookies, ledger, &risings, fragment, census)?;
    }
    Ok(())
}

/// The entries of these ledgers.
pub fn entries_of(
    alloc: Global,
    bookies: &Bookies,
    ledgers: &[Ledger],
) -> Result<Vec<Counted>, AllocError>
    ensures { IfOk result (λ census. model.CountsEntries census.items (names_of bookies.now) ledgers.now) }
{
    let mut census = Vec::new(alloc);
    for ledger in ledgers {
        count_ledger(alloc, bookies, ledger, &mut census)?;
    }
    Ok(census)
}
