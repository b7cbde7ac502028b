// Answers with notes on the files by which they are given.
ghost use Rattle.std.specs.Prelude.{◌≡◌, IfErr, IfOk, map, string_bytes};
ghost use Rattle.reh_questions.specs.Against as model;

use crate::against::cut_notes;
use crate::inputs::FileKind;
use reh_files::{Looks, RunFault, write_out};
use std::alloc::{AllocError, Global};

/// An answer, and a note on each file that is an inventory whose last line isn't there.
#[derive(Drop)]
pub(crate) struct Noted {
    pub(crate) text: String,
    pub(crate) notes: Vec<String>,
}

/// The answer with its notes, by these files.
pub(crate) fn with_notes(
    alloc: Global,
    text: String,
    files: &[&str],
    kinds: &[FileKind],
) -> Result<Noted, AllocError>
    ensures text { IfOk result (λ noted. noted.text ≡ text) }
    ensures notes { IfOk result (λ noted. map string_bytes noted.notes.items ≡ model.cut_notes files.now kinds.now) }
{
    let notes = cut_notes(alloc, files, kinds)?;
    Ok(Noted { text, notes })
}

/// Writes an answer to standard output; and before it the notes to standard error, unless that is to have nothing but faults.
pub(crate) fn write_noted(rt: &HostRuntime, looks: Looks, noted: &Noted) -> Result<(), RunFault>
    ensures { IfErr result (λ fault. fault ≡ RunFault.WriteFault) }
{
    if !looks.is_quiet {
        say_notes(rt, &noted.notes);
    }
    write_out(rt, noted.text.as_bytes())
}

/// Says notes on standard error.
fn say_notes(rt: &HostRuntime, notes: &[String]) {
    for note in notes {
        let text = note.as_str();
        let _ = eprintln!(rt; "note: {text}");
    }
}
