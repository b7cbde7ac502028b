// What is told of members, and classes.
ghost use Rattle.std.specs.Prelude.{◌≡◌, IfOk};
ghost use Rattle.reh_census.specs.Ledgers as model;
ghost use Rattle.reh_tally.specs.Cursors.{told_at};
ghost use Rattle.reh_tally.specs.Segments as segments;

use crate::masks::chosen;
use reh_census::{Class, Ledger, Told};
use std::alloc::{AllocError, Global};

/// The number of the bookie's content; past the last one, where it has none.
pub(crate) fn content_of(ledger: &Ledger, bookie: u16) -> usize
    ensures { told_at ledger.now result ≡ model.told_of ledger.now bookie }
{
    let contents = ledger.contents();
    for index in 0..contents.len() {
        if contents[index].bookie == bookie {
            return index;
        }
    }
    contents.len()
}

/// What the content of this number tells; past the last one, what holds of the rest.
pub(crate) fn told_at(ledger: &Ledger, content: usize) -> &Told
    ensures { result.now ≡ told_at ledger.now content }
{
    match ledger.contents().get(content) {
        Some(found) => &found.told,
        None => ledger.rest(),
    }
}

/// Whether nobody told.
pub(crate) fn is_untold(told: &Told) -> bool
    ensures { result ≡ model.is_untold told.now }
{
    match told {
        Told::Holds(_) | Told::Lacks(_) => false,
        Told::Untold => true,
    }
}

/// The class of entries with these known and these untold members.
pub(crate) fn class_by(
    alloc: Global,
    members: &[u16],
    ledger: &Ledger,
    known: u64,
    untold: u64,
) -> Result<Class, AllocError>
    ensures { IfOk result (λ class. class ≡ segments.class_by members.now ledger.now known untold) }
{
    let known = chosen(alloc, members, known)?;
    let untold = chosen(alloc, members, untold)?;
    Ok(Class {
        known,
        untold,
        ack_quorum: ledger.ack_quorum(),
        write_quorum: ledger.write_quorum(),
    })
}
