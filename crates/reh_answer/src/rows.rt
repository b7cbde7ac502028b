// What was judged, and the table of copies.
ghost use Rattle.std.specs.Prelude.{◌≡◌, ◌++◌, [], OnOk, string_bytes};
ghost use Rattle.reh_census.specs.Striping.{range};
ghost use Rattle.reh_answer.specs.Texts as texts;

use crate::facts::Facts;
use crate::nouns::{Amount, Noun};
use std::alloc::AllocError;

/// Adds the line of what was judged.
pub(crate) fn push_judged(text: &mut String, facts: &Facts) -> Result<(), AllocError>
    ensures { OnOk result (string_bytes text.new ≡ string_bytes text.old ++ texts.judged_line facts.now) }
{
    let ledgers = Amount {
        number: facts.judged.ledgers,
        noun: Noun::Ledger,
    };
    let entries = Amount {
        number: facts.entries,
        noun: Noun::Entry,
    };
    let assumed = facts.judged.assumed;
    let unknown = facts.unknown;
    write!(
        text,
        "judged {ledgers}, {entries}, {assumed} assumed, {unknown} unknown\n"
    )
}

/// Adds a number after a space, at the right end of nine places.
fn push_cell(text: &mut String, number: u64) -> Result<(), AllocError>
    ensures { OnOk result (string_bytes text.new ≡ string_bytes text.old ++ texts.cell number) }
{
    write!(text, " {number:>8}")
}

/// Adds numbers, and the end of the line.
fn push_cells(text: &mut String, numbers: &[u64]) -> Result<(), AllocError>
    ensures { OnOk result (string_bytes text.new ≡ string_bytes text.old ++ texts.row [] numbers.now) }
{
    for number in numbers {
        push_cell(text, *number)?;
    }
    text.push_str("\n")
}

/// Adds the numbers below this one, and the end of the line.
fn push_numbers(text: &mut String, stop: usize) -> Result<(), AllocError>
    ensures { OnOk result (string_bytes text.new ≡ string_bytes text.old ++ texts.row [] (range 0 stop)) }
{
    for number in 0..stop {
        push_cell(text, number as u64)?;
    }
    text.push_str("\n")
}

/// Adds the table of copies.
pub(crate) fn push_table(text: &mut String, facts: &Facts) -> Result<(), AllocError>
    ensures { OnOk result (string_bytes text.new ≡ string_bytes text.old ++ texts.table_text facts.now) }
{
    text.push_str("copies     ")?;
    push_numbers(text, facts.copies_now.as_slice().len())?;
    text.push_str("now        ")?;
    push_cells(text, facts.copies_now.as_slice())?;
    text.push_str("without    ")?;
    push_cells(text, facts.copies_without.as_slice())
}
