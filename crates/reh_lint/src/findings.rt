// What is found in a line.
ghost use Rattle.std.specs.Prelude.{◌≡◌, ◌++◌, [], map, IfOk, OnOk, option_map, string_bytes};
ghost use Rattle.std.specs.Option.{option_map_or};
ghost use Rattle.reh_lint.specs.Ledgers.{ids_of, missing_ledger};
ghost use Rattle.reh_lint.specs.Lints as model;
ghost use Rattle.reh_lint.specs.Unknown as unknown;
ghost use Rattle.reh_near.specs.Near.{near_ids_text, nearest_ids, told};

use crate::ledgers::{ledger_ids, missing_ledger};
use crate::names::{bookie_names, verb_names};
use crate::unknown::{line_words, unknown_command, unknown_name};
use reh_cluster::State;
use reh_commands::{Command, LineFault};
use reh_near::{Near, near_ids, near_to, nearest_ids};
use std::alloc::{AllocError, Global};

/// The state of a picture, and the names and ids that a word of a script may be near.
#[derive(Drop)]
pub struct Known<'a> {
    pub state: &'a State,
    bookies: Vec<&'a str>,
    verbs: Vec<&'a str>,
    ids: Vec<u64>,
    ghost is_bookies: { map (λ name. name.now) bookies.items ≡ state.now.names },
    ghost is_verbs: { map (λ name. name.now) verbs.items ≡ model.verb_names },
    ghost is_ids: { ids.items ≡ ids_of state.now },
}

impl<'a> Known<'a> {
    /// Those of this state.
    pub fn new(alloc: Global, state: &'a State) -> Result<Known<'a>, AllocError>
        ensures { IfOk result (λ known. known.state.now ≡ state.now) }
    {
        Ok(Known {
            state,
            bookies: bookie_names(alloc, state.names())?,
            verbs: verb_names(alloc)?,
            ids: ledger_ids(alloc, state)?,
        })
    }

    /// What is near the unknown word of a line with this fault.
    pub fn near(&self, alloc: Global, line: &[u8], fault: LineFault) -> Result<Near<'a>, AllocError>
        ensures { IfOk result (λ near. told near ≡ model.near_it self.now.state.now.names line.now fault) }
    {
        match fault {
            LineFault::UnknownCommand => self.near_command(alloc, line),
            LineFault::UnknownName => self.near_name(alloc, line),
            LineFault::TooLong | LineFault::BadWords => Ok(Near::Nothing),
        }
    }

    /// What is near the unknown command of a line.
    fn near_command(&self, alloc: Global, line: &[u8]) -> Result<Near<'a>, AllocError>
        ensures { IfOk result (λ near. told near
            ≡ model.near_word model.verb_names (unknown.unknown_command (unknown.line_words line.now))) }
    {
        let words = line_words(alloc, line)?;
        near_word(alloc, &self.verbs, unknown_command(&words))
    }

    /// What is near the unknown name of a line.
    fn near_name(&self, alloc: Global, line: &[u8]) -> Result<Near<'a>, AllocError>
        ensures { IfOk result (λ near. told near
            ≡ model.near_word self.now.state.now.names (unknown.unknown_name self.now.state.now.names (unknown.line_words line.now))) }
    {
        let words = line_words(alloc, line)?;
        near_word(
            alloc,
            &self.bookies,
            unknown_name(self.state.names(), &words),
        )
    }

    /// The ids that are near this one, which is none of them, in digits.
    pub fn near_ids(&self, alloc: Global, id: u64) -> Result<Vec<String>, AllocError>
        ensures { IfOk result (λ near. map string_bytes near.items ≡ nearest_ids (ids_of self.now.state.now) id) }
    {
        nearest_ids(alloc, &self.ids, id)
    }

    /// What is said of the ids that are near this one.
    fn near_id(&self, alloc: Global, id: u64) -> Result<String, AllocError>
        ensures { IfOk result (λ text. string_bytes text ≡ near_ids_text (ids_of self.now.state.now) id) }
    {
        near_ids(alloc, &self.ids, id)
    }
}

/// What is near a word, if there is one.
fn near_word<'a>(
    alloc: Global,
    names: &[&'a str],
    word: Option<&[u8]>,
) -> Result<Near<'a>, AllocError>
    ensures { IfOk result (λ near. told near ≡ model.near_word (map (λ name. name.now) names.now)
        (option_map (λ word. word.now) word.entry)) }
{
    match word {
        Some(word) => near_to(alloc, names, word),
        None => Ok(Near::Nothing),
    }
}

/// Adds the line for a faulty line of a script in this file.
pub(crate) fn push_finding(
    text: &mut String,
    known: &Known<'_>,
    path: &str,
    number: usize,
    line: &[u8],
    fault: LineFault,
) -> Result<(), AllocError>
    ensures { OnOk result (string_bytes text.new ≡ string_bytes text.old
        ++ model.finding path.now known.now.state.now.names number line.now fault) }
{
    let near = known.near(text.allocator().clone()?, line, fault)?;
    write!(text, "{path}:{number}: {fault}{near}\n")
}

/// Adds the line for a line that asks for this command, if it names a ledger that isn't there.
pub(crate) fn push_missing(
    text: &mut String,
    known: &Known<'_>,
    path: &str,
    number: usize,
    command: &Command,
) -> Result<(), AllocError>
    ensures { OnOk result (string_bytes text.new ≡ string_bytes text.old
        ++ option_map_or (model.missing_text path.now number (ids_of known.now.state.now))
        (missing_ledger known.now.state.now command.now) []) }
{
    match missing_ledger(known.state, command) {
        Some(ledger) => {
            let id = ledger.0;
            let near = known.near_id(text.allocator().clone()?, id)?;
            push_absent(text, path, number, id, near.as_str())
        }
        None => Ok(()),
    }
}

/// Adds the line for a line that names this ledger, which isn't there, with what is said of ids near it.
fn push_absent(
    text: &mut String,
    path: &str,
    number: usize,
    id: u64,
    near: &str,
) -> Result<(), AllocError>
    ensures { OnOk result (string_bytes text.new ≡ string_bytes text.old
        ++ model.absent_text path.now number id near.now) }
{
    write!(
        text,
        "{path}:{number}: the picture has no ledger {id}{near}\n"
    )
}
