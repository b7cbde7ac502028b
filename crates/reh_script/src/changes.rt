// What a line that is answered at a book changed, and printing it as text.
ghost use Rattle.std.specs.Prelude.{◌≡◌, ◌-◌, ◌<◌, ◌∷◌, List, All, None, Some, length, take};
ghost use Rattle.reh_types.specs.declared.moves.Event.{Event};
ghost use Rattle.reh_model.specs.Cluster.{Cluster};
ghost use Rattle.reh_model.specs.Places.{IsDelta, IsThere};
ghost use Rattle.reh_model.specs.Session.{state_of, replay};
ghost use Rattle.reh_model.specs.Step.{refusal_of, after};
ghost use Rattle.reh_commands.specs.Answers.{asked};
ghost use Rattle.reh_script.specs.Changes as changes;
ghost use Rattle.reh_script.specs.Changes.{IsMadeBy, asks_undo, state_in};

use reh_changes::push_changes;
use reh_cluster::Names;
use reh_commands::{Command, parse_line};
use reh_desk::Book;
use reh_meta::LedgerMeta;
use reh_play::{LineAnswer, Printer, push_answer};
use reh_session::Session;
use reh_types::{Change, Move, Reply};
use std::alloc::AllocError;

/// Prints answers, and after the answer to a line that changed something what it changed.
#[derive(Clone, Copy)]
pub struct WithChanges;

impl Printer<Book> for WithChanges {
    ghost use Rattle.reh_script.specs.Changes.{answers_and_changes};

    ghost prints = { answers_and_changes };

    fn print(
        &self,
        text: &mut String,
        names: &Names,
        counter: &Book,
        number: usize,
        line: &[u8],
        answer: &LineAnswer,
    ) -> Result<(), AllocError> {
        push_answer(text, names, counter, number, answer)?;
        let changes = line_changes(names, counter, line, answer);
        push_changes(text, counter.session().state(), changes)
    }
}

/// The record of what a line changed that has this answer: it leads back to the state before, by one change for each
/// place that differs. Nothing else than a call that is done changes something.
pub(crate) fn line_changes<'a>(
    names: &Names,
    book: &'a Book,
    line: &[u8],
    answer: &LineAnswer,
) -> &'a [Change<LedgerMeta>]
    ensures made { IsMadeBy names.now book.now line.now answer.now result.now }
    ensures there { All (IsThere (state_in book.now)) result.now }
{
    let session = book.session();
    session.state().assert_well_formed();
    if !is_done(answer) {
        return &[];
    }
    if is_undo(names, line) {
        return undone_changes(session);
    }
    done_changes(session)
}

/// Whether a line's call was done.
fn is_done(answer: &LineAnswer) -> bool
    ensures { result ≡ changes.is_done answer.now }
{
    match answer {
        LineAnswer::Said(Reply::Done) => true,
        _ => false,
    }
}

/// Whether a line asks for an undo.
fn is_undo(names: &Names, line: &[u8]) -> bool
    ensures { result ≡ asks_undo (asked names.now line.now) }
{
    match parse_line(names, line) {
        Some(Ok(Command::Make(Move::Undo))) => true,
        _ => false,
    }
}

/// The record of the newest event that survives, which leads back over it.
fn done_changes(session: &Session) -> &[Change<LedgerMeta>]
    ensures made { (before : Cluster) → 0 < length session.now.done
        → replay session.now.opening (take (length session.now.done - 1) session.now.done) ≡ Some before
        → IsDelta (state_of session.now) before result.now }
    ensures there { All (IsThere (state_of session.now)) result.now }
{
    let survivors = session.done().len();
    let trail = &session.records()[..survivors];
    match trail.last() {
        Some(changes) => changes.as_slice(),
        None => &[],
    }
}

/// The record of the event that was undone last, which makes it again.
fn undone_changes(session: &Session) -> &[Change<LedgerMeta>]
    ensures made { (event : Event) (later : List Event) → session.now.undone ≡ event ∷ later
        → (refusal_of (state_of session.now) event ≡ None)
        × IsDelta (state_of session.now) (after (state_of session.now) event) result.now }
    ensures there { All (IsThere (state_of session.now)) result.now }
{
    let survivors = session.done().len();
    let ahead = &session.records()[survivors..];
    match ahead.first() {
        Some(changes) => changes.as_slice(),
        None => &[],
    }
}
