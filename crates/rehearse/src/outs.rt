// Runs that write the picture of the state at their end.
ghost use Rattle.std.specs.Prelude.{◌≡◌, Ok, false, length, string_bytes, IfOk};
ghost use Rattle.reh_picture.specs.Pictures.{picture_of};
ghost use Rattle.reh_picture_out.specs.Kept.{kept_of};
ghost use Rattle.reh_picture_out.specs.Marks.{KeepsMarksIn};

use crate::colors::Colored;
use crate::endings::{after_flush, of_pipe};
use crate::runs::{play_opened, tell_unbegun};
use reh_cluster::State;
use reh_files::{LateFile, Looks, RunFault, read_picture, unwritten};
use reh_known::{doubt_text, first_doubt};
use reh_picture::{Holding, Listed, PictureFault, list_picture};
use reh_picture_out::{Unshown, picture_text};
use reh_script::{Gathered, Opened, TextOut, ToWrite, open_picture};
use reh_session::Session;
use reh_types::BookieIx;
use reh_words::PlayOut;
use std::alloc::{AllocError, Global};
use std::fs::File;
use std::io::Write;
use std::sync::Wait;
use std::thread::Threads;
use std::{fs, io};

/// Plays a script file on a picture file, to standard output. Where all of it was answered, and the answers are written,
/// it writes the picture of the state at the end to a file, and says on standard error what that picture leaves out. The
/// marks of the picture's bookies and contents are judged before the script is played, as a question judges them.
pub(crate) fn run_out<R: Threads + Wait + Sync>(
    rt: &HostRuntime,
    threads: &R,
    looks: Looks,
    words: &PlayOut<'_>,
) -> Result<(), RunFault> {
    let (mut rehearsal, began) = match begin(rt, words.picture) {
        Ok(begun) => begun,
        Err(fault) => {
            let mut writer = ToWrite::new(io::writer(rt));
            return Err(tell_unbegun(words.prints, fault, &mut writer));
        }
    };
    play_out(rt, threads, looks, words, &mut rehearsal)?;
    write_end(rt, looks, words, rehearsal.book.session(), &began)
}

/// Reads a picture, opens a book on it, and judges its marks. No ticket is out.
fn begin(rt: &HostRuntime, picture: &str) -> Result<(Opened, Listed), RunFault>
    ensures { IfOk result (λ begun. length begun.0.book.book.out ≡ begun.0.seat.out) }
{
    let bytes = read_picture(rt, picture).map_err(RunFault::without_reason)?;
    let rehearsal = open_rehearsal(rt.alloc(), &bytes)?;
    let began = list_picture(rt.alloc(), &bytes)?;
    Ok((rehearsal, began))
}

/// Plays a script file at the book of a picture, to standard output.
fn play_out<R: Threads + Wait + Sync>(
    rt: &HostRuntime,
    threads: &R,
    looks: Looks,
    words: &PlayOut<'_>,
    rehearsal: &mut Opened,
) -> Result<(), RunFault>
    requires { length rehearsal.old.book.book.out ≡ rehearsal.old.seat.out }
{
    let gathered = Gathered::new(rt.alloc(), ToWrite::new(io::writer(rt)))?;
    let mut writer = Colored::new(rt.alloc(), gathered, looks.colors(words.prints));
    let played = play_file(rt, threads, words, rehearsal, &mut writer);
    let flushed = writer.flush();
    after_flush(played, flushed)
}

/// Writes the picture of the state at the end to a file, and says what that picture leaves out.
fn write_end(
    rt: &HostRuntime,
    looks: Looks,
    words: &PlayOut<'_>,
    session: &Session,
    began: &Listed,
) -> Result<(), RunFault> {
    let state = session.state();
    let text = text_of(rt.alloc(), words.out, state, began)?;
    write_whole(rt, words.out, text.as_bytes())?;
    if !looks.is_quiet {
        say_unshown(rt, words.out, Unshown::of(state));
        say_marks(rt, words, state, began);
        say_doubt(rt, words.out, session, began);
    }
    Ok(())
}

/// Opens a book on a picture. No ticket is out.
fn open_rehearsal(alloc: Global, bytes: &[u8]) -> Result<Opened, RunFault>
    ensures { IfOk result (λ rehearsal. length rehearsal.book.book.out ≡ rehearsal.seat.out) }
{
    match open_picture(alloc, bytes) {
        Ok(rehearsal) => Ok(rehearsal),
        Err(fault) => Err(of_pipe(fault)),
    }
}

/// Plays a script file at the book of a picture. The script is opened at its first read.
fn play_file<R: Threads + Wait + Sync, W: TextOut>(
    rt: &HostRuntime,
    threads: &R,
    words: &PlayOut<'_>,
    rehearsal: &mut Opened,
    writer: &mut W,
) -> Result<(), RunFault>
    requires out { length rehearsal.old.book.book.out ≡ rehearsal.old.seat.out }
    requires writes { W.has_failed writer.old ≡ false }
{
    let mut script = LateFile::new(rt, words.script);
    let played = play_opened(
        threads,
        rt.alloc(),
        words.crew,
        words.prints,
        rehearsal,
        &mut script,
        writer,
    );
    match script.into_unopened() {
        Some(fault) => Err(fault.without_reason()),
        None => played.map_err(of_pipe),
    }
}

/// The text of the picture of a state, with the marks that stay; or that no picture holds it, and why.
fn text_of(alloc: Global, out: &str, state: &State, began: &Listed) -> Result<String, RunFault>
    ensures state { IfOk result (λ text. picture_of (string_bytes text) ≡ Ok (kept_of state.now)) }
    ensures marks { IfOk result (λ text. KeepsMarksIn state.now began.now (string_bytes text)) }
{
    match picture_text(alloc, state, began) {
        Ok(text) => Ok(text),
        Err(fault) => Err(unheld(alloc, out, &fault)),
    }
}

/// That no picture holds a state, or out of memory.
fn unheld(alloc: Global, out: &str, fault: &PictureFault) -> RunFault {
    match fault {
        PictureFault::NoMemory => RunFault::NoMemory,
        fault => match unheld_text(alloc, out, fault) {
            Ok(text) => RunFault::Unwritten(text),
            Err(want) => RunFault::from(want),
        },
    }
}

/// Which fault a picture of the state would have.
fn unheld_text(alloc: Global, out: &str, fault: &PictureFault) -> Result<String, AllocError> {
    format!(in alloc; "cannot write {out}: no picture holds the state at the end: {fault}")
}

/// Writes a file whole, or leaves it as it was: the text is written to a file beside it, `.part` after its name, which
/// takes its place once all of it is on the disk. What is no file, as a device, and a link stay as they are, too.
pub(crate) fn write_whole(rt: &HostRuntime, path: &str, text: &[u8]) -> Result<(), RunFault> {
    if is_other(rt, path) {
        let reason = format!(in rt.alloc(); "cannot write {path}: it is no file")?;
        return Err(RunFault::Unwritten(reason));
    }
    let part = format!(in rt.alloc(); "{path}.part")?;
    let file = File::create_new(rt, part.as_str()).map_err(|error| unwritten(
        rt.alloc(),
        part.as_str(),
        error,
    ))?;
    let written = fill(file, text).and_then(|()| fs::rename(rt, part.as_str(), path));
    match written {
        Ok(()) => Ok(()),
        Err(error) => {
            let _ = fs::remove_file(rt, part.as_str());
            Err(unwritten(rt.alloc(), path, error))
        }
    }
}

/// Whether there is something of this path that is no file.
fn is_other(rt: &HostRuntime, path: &str) -> bool {
    match fs::symlink_metadata(rt, path) {
        Ok(metadata) => !metadata.is_file(),
        Err(_) => false,
    }
}

/// Writes a text to a new file, and to the disk.
fn fill(file: File, text: &[u8]) -> io::Result<()> {
    let mut file = file;
    file.write_all(text)?;
    file.sync_all()
}

/// Says what of the state at the end a picture has no field for.
fn say_unshown(rt: &HostRuntime, out: &str, unshown: Unshown) {
    let Unshown {
        tasks,
        locks,
        clock,
        is_disabled,
    } = unshown;
    if tasks > 0 {
        let _ = eprintln!(rt; "note: {out} leaves out tasks: {tasks}");
    }
    if locks > 0 {
        let _ = eprintln!(rt; "note: {out} leaves out locks: {locks}");
    }
    if clock > 0 {
        let _ = eprintln!(rt;
            "note: {out} leaves out the clock, and when bookies were lost: {clock}"
        );
    }
    if is_disabled {
        let _ = eprintln!(rt; "note: {out} leaves out that AutoRecovery is disabled");
    }
}

/// Says which marks of the picture that was played on are others in the new one.
fn say_marks(rt: &HostRuntime, words: &PlayOut<'_>, state: &State, began: &Listed) {
    let PlayOut { picture, out, .. } = *words;
    for (number, marks) in began.marks.iter().enumerate() {
        if marks.is_empty() && number < state.names().len() {
            say_filled(rt, out, state, BookieIx(number as u8));
        }
    }
    if began.listing.holdings.iter().any(Holding::is_assumed) {
        let _ = eprintln!(rt;
            "note: {out} marks all contents of a ledger as assumed if {picture} marks one of them"
        );
    }
}

/// Says that a bookie that came back without its disk isn't marked so any more, if it holds an entry.
fn say_filled(rt: &HostRuntime, out: &str, state: &State, bookie: BookieIx) {
    if state.count(bookie) == 0 {
        return;
    }
    if let Some(name) = state.names().name(bookie) {
        let _ = eprintln!(rt; "note: {out} does not mark {name} as empty: it holds entries now");
    }
}

/// Says that questions can't be asked of the picture, where it isn't known what the bookies hold. A picture can't say so.
fn say_doubt(rt: &HostRuntime, out: &str, session: &Session, began: &Listed) {
    let state = session.state();
    let Some(found) = first_doubt(state, session.done(), began) else {
        return;
    };
    let bookie = state.names().name(found.bookie).unwrap_or("");
    if let Ok(doubt) = doubt_text(rt.alloc(), found.doubt, bookie, found.ledger.0) {
        let _ = eprintln!(rt; "note: ask no question of {out}: {doubt}");
    }
}
