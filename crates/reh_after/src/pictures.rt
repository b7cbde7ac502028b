// The picture of the state to which a script leads.
ghost use Rattle.std.specs.Prelude.{◌≡◌, true, IfErr, IfOk, OnOk, string_bytes};
ghost use Rattle.reh_model.specs.Session.{state_of};
ghost use Rattle.reh_known.specs.Known.{AreKnown};
ghost use Rattle.reh_after.specs.After as model;
ghost use Rattle.reh_after.specs.Faults as faults;

use crate::faults::{AfterFault, unheld};
use crate::plays::play_lines;
use reh_cluster::Names;
use reh_known::{Doubted, doubt_text, first_doubt};
use reh_picture::{Listed, check_picture, list_picture};
use reh_picture_out::picture_text;
use reh_session::Session;
use reh_types::MAX_SCRIPT_BYTES;
use std::alloc::Global;

/// The picture of the state to which a script leads from a picture, if each of its commands is accepted. Reports and surveys
/// are passed over; a checkout, a spend and a discard aren't accepted.
///
/// The picture has the marks of the one that the script began with, as far as they still hold. It leaves out tasks, locks,
/// the clock and the switch of AutoRecovery. A question needs to know what the bookies hold (`all_known`): where a script
/// went by what isn't told, that is a fault then, as no picture can say so.
pub fn picture_after(
    alloc: Global,
    picture: &[u8],
    script: &[u8],
    all_known: bool,
) -> Result<String, AfterFault>
    ensures after { IfOk result (λ text. model.IsAfter picture.now script.now all_known (string_bytes text)) }
    ensures fault { IfErr result (faults.IsAfterFault picture.now script.now all_known) }
{
    if script.len() > MAX_SCRIPT_BYTES {
        return Err(AfterFault::TooLong);
    }
    let mut begun = begin(alloc, picture)?;
    let text = end_of(alloc, &mut begun, script, all_known);
    begun.close();
    text
}

/// The picture of the state to which a script leads from what was begun.
fn end_of(
    alloc: Global,
    begun: &mut Begun,
    script: &[u8],
    all_known: bool,
) -> Result<String, AfterFault>
    ensures end { IfOk result (λ text. model.IsEnd begun.old script.now all_known (string_bytes text)) }
    ensures fault { IfErr result (faults.IsEndFault begun.old script.now all_known) }
{
    play_lines(alloc, &begun.names, &mut begun.session, script)?;
    check_known(alloc, begun, all_known)?;
    match picture_text(alloc, begun.session.state(), &begun.marked) {
        Ok(text) => Ok(text),
        Err(fault) => Err(unheld(fault)),
    }
}

/// Whether it is known of each bookie what it holds, if that has to be.
fn check_known(alloc: Global, begun: &Begun, all_known: bool) -> Result<(), AfterFault>
    ensures known { OnOk result (all_known ≡ true
        → AreKnown (state_of begun.now.session) begun.now.session.done begun.now.marked) }
    ensures asked { IfErr result (λ _. all_known ≡ true) }
    ensures fault { IfErr result (faults.IsDoubtFault begun.now.names begun.now.session begun.now.marked) }
{
    if !all_known {
        return Ok(());
    }
    let session = &begun.session;
    match first_doubt(session.state(), session.done(), &begun.marked) {
        None => Ok(()),
        Some(found) => Err(doubt_of(alloc, &begun.names, found)),
    }
}

/// That it isn't known what a bookie holds, or that there is no memory.
fn doubt_of(alloc: Global, names: &Names, found: Doubted) -> AfterFault
    ensures { faults.IsDoubtOf names.now found result }
{
    let bookie = names.name(found.bookie).unwrap_or("");
    match doubt_text(alloc, found.doubt, bookie, found.ledger.0) {
        Ok(doubt) => AfterFault::Doubt(doubt),
        Err(want) => AfterFault::from(want),
    }
}

/// What a picture lists, its bookies' names, and a session that opens on its state.
#[derive(Drop)]
pub(crate) struct Begun {
    pub(crate) marked: Listed,
    pub(crate) names: Names,
    pub(crate) session: Session,
}

impl Begun {
    /// Gives back its memory. Where it would be dropped, each function would have a proof of that of its own.
    fn close(self) {}
}

/// Opens a session on a picture, and lists what it has.
fn begin(alloc: Global, picture: &[u8]) -> Result<Begun, AfterFault>
    ensures begun { IfOk result (model.IsBegun picture.now) }
    ensures fault { IfErr result (faults.IsBeginFault picture.now) }
{
    let (names, session) = opened(alloc, picture)?;
    let marked = list_picture(alloc, picture)?;
    Ok(Begun {
        marked,
        names,
        session,
    })
}

/// A session on a picture, and the names of its bookies.
fn opened(alloc: Global, picture: &[u8]) -> Result<(Names, Session), AfterFault>
    ensures opened { IfOk result (λ opened. model.IsOpened picture.now opened.0 opened.1) }
    ensures fault { IfErr result (faults.IsBeginFault picture.now) }
{
    let state = check_picture(alloc, picture)?;
    let names = state.names().clone_in()?;
    let session = Session::open(alloc, state)?;
    Ok((names, session))
}
