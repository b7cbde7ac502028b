// Notes.
ghost use Rattle.std.specs.Prelude.{◌≡◌, ◌++◌, IfOk, OnOk, codes, flat_map, map, nat_lt, option_copied, string_bytes};
ghost use Rattle.reh_answer.specs.Texts as texts;

use crate::facts::Facts;
use crate::nouns::{Amount, Noun};
use crate::unasked::Unasked;
use std::alloc::{AllocError, Global};

/// The note that a bookie isn't registered.
fn unregistered_note(alloc: Global, names: &[String], bookie: u16) -> Result<String, AllocError>
    ensures { IfOk result (λ note. string_bytes note
        ≡ texts.name_of (map string_bytes names.now) bookie ++ codes " is not registered") }
{
    match names.get(bookie as usize) {
        Some(name) => format!(in alloc; "{name} is not registered"),
        None => format!(in alloc; "bookie {bookie} is not registered"),
    }
}

/// The note that so many entries can't be read already.
fn unreadable_note(alloc: Global, number: u64) -> Result<String, AllocError>
    ensures { IfOk result (λ note. string_bytes note ≡ texts.unreadable_note number) }
{
    let amount = Amount {
        number,
        noun: Noun::Entry,
    };
    format!(in alloc; "{amount} can't be read already, with or without this stop")
}

/// Adds the note on entries that can't be read already, if there are any.
fn push_unreadable(alloc: Global, notes: &mut Vec<String>, number: u64) -> Result<(), AllocError>
    ensures { OnOk result (map string_bytes notes.new.items
        ≡ map string_bytes notes.old.items ++ texts.note_if (nat_lt 0 number) (texts.unreadable_note number)) }
{
    if number == 0 {
        return Ok(());
    }
    notes.push(unreadable_note(alloc, number)?)?;
    Ok(())
}

/// Adds a note, if it applies.
fn note_if(
    alloc: Global,
    notes: &mut Vec<String>,
    applies: bool,
    note: &str,
) -> Result<(), AllocError>
    ensures { OnOk result (map string_bytes notes.new.items
        ≡ map string_bytes notes.old.items ++ texts.note_if applies note.now) }
{
    if !applies {
        return Ok(());
    }
    notes.push(String::from_str(alloc, note)?)?;
    Ok(())
}

/// The note on ledgers that were created since the input was taken, with that time, if it is told.
fn new_ledger_note(alloc: Global, taken: Option<&str>) -> Result<String, AllocError>
    ensures { IfOk result (λ note. string_bytes note ≡ texts.new_ledger_note (option_copied taken.entry)) }
{
    match taken {
        Some(time) => format!(in alloc;
            "a ledger created since the input was taken ({time}) may have all its copies on these bookies: make them read-only, take a new input, ask again"
        ),
        None => String::from_str(
            alloc,
            "a ledger created since the input was taken may have all its copies on these bookies: make them read-only, take a new input, ask again",
        ),
    }
}

/// Adds that note, if it applies.
fn push_new_ledger(
    alloc: Global,
    notes: &mut Vec<String>,
    applies: bool,
    taken: Option<&str>,
) -> Result<(), AllocError>
    ensures { OnOk result (map string_bytes notes.new.items
        ≡ map string_bytes notes.old.items ++ texts.note_if applies (texts.new_ledger_note (option_copied taken.entry))) }
{
    if !applies {
        return Ok(());
    }
    notes.push(new_ledger_note(alloc, taken)?)?;
    Ok(())
}

/// Adds the notes on words that ask nothing.
fn push_unasked(alloc: Global, notes: &mut Vec<String>, unasked: Unasked) -> Result<(), AllocError>
    ensures { OnOk result (map string_bytes notes.new.items
        ≡ map string_bytes notes.old.items ++ texts.unasked_notes unasked) }
{
    note_if(
        alloc,
        notes,
        unasked.racks,
        "--min-racks asks nothing here: no ledger is open, and --ensemble is not given",
    )?;
    note_if(
        alloc,
        notes,
        unasked.racks_now,
        "the bookies that can be written to stand in too few racks for --min-racks already, with or without this stop",
    )?;
    note_if(
        alloc,
        notes,
        unasked.ensemble_now,
        "new ledgers of the size that --ensemble gives find too few bookies already, with or without this stop",
    )?;
    note_if(
        alloc,
        notes,
        unasked.writers,
        "--ensemble and --min-racks ask nothing where --allow-blocked-writers is given",
    )
}

/// The notes that apply, where the bookies have these names, by number, and the oldest input was taken then, if each tells
/// its time.
pub fn notes_of(
    alloc: Global,
    facts: &Facts,
    names: &[String],
    taken: Option<&str>,
) -> Result<Vec<String>, AllocError>
    ensures { IfOk result (λ notes. map string_bytes notes.items
        ≡ texts.notes_of facts.now (map string_bytes names.now) (option_copied taken.entry)) }
{
    let mut notes = Vec::new(alloc);
    for bookie in facts.unregistered.as_slice() {
        notes.push(unregistered_note(alloc, names, *bookie)?)?;
    }
    push_unreadable(alloc, &mut notes, facts.unreadable)?;
    note_if(
        alloc,
        &mut notes,
        facts.writers_pause,
        "writers pause until they have changed their ensembles",
    )?;
    push_new_ledger(alloc, &mut notes, facts.may_hold_a_new_ledger, taken)?;
    push_unasked(alloc, &mut notes, facts.unasked)?;
    Ok(notes)
}

/// Adds a line for each note.
pub(crate) fn push_notes(text: &mut String, notes: &[String]) -> Result<(), AllocError>
    ensures { OnOk result (string_bytes text.new
        ≡ string_bytes text.old ++ flat_map texts.note_line (map string_bytes notes.now)) }
{
    for note in notes {
        write!(text, "note: {note}\n")?;
    }
    Ok(())
}
