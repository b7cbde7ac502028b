// The ledgers that speak against a stop.
ghost use Rattle.std.specs.Prelude.{◌≡◌, ◌++◌, OnOk, flat_map, string_bytes};
ghost use Rattle.reh_answer.specs.Texts as texts;

use crate::nouns::{Amount, Noun};
use std::alloc::AllocError;

/// A ledger that speaks against a stop: how many of its entries do, if it is entries, and the cause, in words.
#[derive(Drop)]
pub struct Against {
    pub ledger: u64,
    pub entries: u64,
    pub cause: String,
}

/// Adds the line of a ledger, with how many of its entries speak against the stop, where it is entries.
fn push_one(text: &mut String, against: &Against) -> Result<(), AllocError>
    ensures { OnOk result (string_bytes text.new ≡ string_bytes text.old ++ texts.against_line against.now) }
{
    let ledger = against.ledger;
    let number = against.entries;
    if number == 0 {
        return write!(text, "ledger {ledger}: {}\n", against.cause);
    }
    let noun = Noun::Entry;
    let entries = Amount { number, noun };
    write!(text, "ledger {ledger}: {entries}, {}\n", against.cause)
}

/// Adds the lines of ledgers.
pub(crate) fn push_against(text: &mut String, against: &[Against]) -> Result<(), AllocError>
    ensures { OnOk result (string_bytes text.new ≡ string_bytes text.old ++ flat_map texts.against_line against.now) }
{
    for one in against {
        push_one(text, one)?;
    }
    Ok(())
}
