// Runs whose surveys may be made by several workers.
ghost use Rattle.std.specs.Prelude.{◌≡◌, ◌⊎◌, false, true, length, IfOk, OnOk, Some, Err};
ghost use Rattle.reh_model.specs.Survey as model;
ghost use Rattle.reh_crew.specs.Surveys.{FindsSurvey};
ghost use Rattle.reh_script.specs.Pipes.{loses_output};
ghost use Rattle.reh_script.specs.AsJson.{end_text};
ghost use Rattle.rehearse.specs.Runs.{RunsBy, IsInTime, PlaysBy, TellsUnbegun, unbegun_text};

use reh_cluster::State;
use reh_crew::{BySurvey, OpenGate, Plain, SurveyFault, SurveyLine, Surveyor, Threads};
use reh_files::RunFault;
use reh_picture::PictureFault;
use reh_script::{
    AsJson, Opened, PipeFault, PlayFault, TextIn, TextOut, WithChanges, pipe_end, play_book,
    play_by, run, run_as_json, run_printing, tell_end,
};
use reh_words::{Crew, Prints};
use std::alloc::Global;
use std::sync::Wait;
use std::thread;

/// Reads a picture, and then a script, and writes what is asked to be printed of each line. The surveys are made by a crew.
pub(crate) fn run_by<T: thread::Threads + Wait + Sync, P: TextIn, R: TextIn, W: TextOut>(
    rt: &T,
    alloc: Global,
    crew: Crew,
    prints: Prints,
    picture: &mut P,
    script: &mut R,
    writer: &mut W,
) -> Result<(), PipeFault>
    requires picture { P.has_failed picture.old ≡ false }
    requires script { R.has_failed script.old ≡ false }
    requires writes { W.has_failed writer.old ≡ false }
    ensures runs { RunsBy prints result (script.new ≡ script.old)
        (P.has_failed picture.new) (P.remaining picture.old) (P.remaining picture.new)
        (R.has_failed script.new) (R.remaining script.old) (R.remaining script.new)
        (W.contents writer.old) (W.contents writer.new) }
    ensures prompt { (script.new ≡ script.old) ⊎ IsInTime prints
        (P.has_failed picture.new) (P.remaining picture.old) (P.remaining picture.new)
        (R.remaining script.old) (R.before script.new) (W.contents writer.old) (W.seen writer.new) }
    ensures seen { OnOk result (W.seen writer.new ≡ W.contents writer.new) }
    ensures finished { OnOk result (R.at_end script.new ≡ true) }
    ensures write { W.has_failed writer.new ≡ loses_output result }
{
    if crew.workers == 1 {
        return run_as(alloc, &Plain, prints, picture, script, writer);
    }
    let call = |alloc: Global, state: &State| -> Result<Vec<SurveyLine>, SurveyFault>
        ensures { FindsSurvey state.now result }
    { survey_by(rt, alloc, crew, state) };
    run_as(alloc, &BySurvey { call }, prints, picture, script, writer)
}

/// The same, by who makes the surveys.
fn run_as<V: Surveyor, P: TextIn, R: TextIn, W: TextOut>(
    alloc: Global,
    surveyor: &V,
    prints: Prints,
    picture: &mut P,
    script: &mut R,
    writer: &mut W,
) -> Result<(), PipeFault>
    requires surveys { V.surveys surveyor.now }
    requires picture { P.has_failed picture.old ≡ false }
    requires script { R.has_failed script.old ≡ false }
    requires writes { W.has_failed writer.old ≡ false }
    ensures runs { RunsBy prints result (script.new ≡ script.old)
        (P.has_failed picture.new) (P.remaining picture.old) (P.remaining picture.new)
        (R.has_failed script.new) (R.remaining script.old) (R.remaining script.new)
        (W.contents writer.old) (W.contents writer.new) }
    ensures prompt { (script.new ≡ script.old) ⊎ IsInTime prints
        (P.has_failed picture.new) (P.remaining picture.old) (P.remaining picture.new)
        (R.remaining script.old) (R.before script.new) (W.contents writer.old) (W.seen writer.new) }
    ensures seen { OnOk result (W.seen writer.new ≡ W.contents writer.new) }
    ensures finished { OnOk result (R.at_end script.new ≡ true) }
    ensures write { W.has_failed writer.new ≡ loses_output result }
{
    match prints {
        Prints::Answers => run(alloc, surveyor, picture, script, writer),
        Prints::Changes => run_printing(alloc, surveyor, &WithChanges, picture, script, writer),
        Prints::Json => run_as_json(alloc, surveyor, picture, script, writer),
    }
}

/// Reads a script, and writes what is asked to be printed of each line that is played at the book of a picture. It leaves
/// the book where the script ends. The surveys are made by a crew.
pub(crate) fn play_opened<T: thread::Threads + Wait + Sync, R: TextIn, W: TextOut>(
    rt: &T,
    alloc: Global,
    crew: Crew,
    prints: Prints,
    rehearsal: &mut Opened,
    script: &mut R,
    writer: &mut W,
) -> Result<(), PipeFault>
    requires out { length rehearsal.old.book.book.out ≡ rehearsal.old.seat.out }
    requires script { R.has_failed script.old ≡ false }
    requires writes { W.has_failed writer.old ≡ false }
    ensures plays { PlaysBy prints rehearsal.old rehearsal.new result
        (R.has_failed script.new) (R.remaining script.old) (R.remaining script.new)
        (W.contents writer.old) (W.contents writer.new) }
    ensures seen { OnOk result (W.seen writer.new ≡ W.contents writer.new) }
    ensures finished { OnOk result (R.at_end script.new ≡ true) }
    ensures write { W.has_failed writer.new ≡ loses_output result }
{
    if crew.workers == 1 {
        return play_as(alloc, &Plain, prints, rehearsal, script, writer);
    }
    let call = |alloc: Global, state: &State| -> Result<Vec<SurveyLine>, SurveyFault>
        ensures { FindsSurvey state.now result }
    { survey_by(rt, alloc, crew, state) };
    play_as(alloc, &BySurvey { call }, prints, rehearsal, script, writer)
}

/// The same, by who makes the surveys.
fn play_as<V: Surveyor, R: TextIn, W: TextOut>(
    alloc: Global,
    surveyor: &V,
    prints: Prints,
    rehearsal: &mut Opened,
    script: &mut R,
    writer: &mut W,
) -> Result<(), PipeFault>
    requires surveys { V.surveys surveyor.now }
    requires out { length rehearsal.old.book.book.out ≡ rehearsal.old.seat.out }
    requires script { R.has_failed script.old ≡ false }
    requires writes { W.has_failed writer.old ≡ false }
    ensures plays { PlaysBy prints rehearsal.old rehearsal.new result
        (R.has_failed script.new) (R.remaining script.old) (R.remaining script.new)
        (W.contents writer.old) (W.contents writer.new) }
    ensures seen { OnOk result (W.seen writer.new ≡ W.contents writer.new) }
    ensures finished { OnOk result (R.at_end script.new ≡ true) }
    ensures write { W.has_failed writer.new ≡ loses_output result }
{
    let Opened { book, seat, names } = rehearsal;
    match prints {
        Prints::Answers => {
            let end = play_book(alloc, book, seat, names, surveyor, script, writer);
            pipe_end(end)
        }
        Prints::Changes => {
            let printer = WithChanges;
            let end = play_by(alloc, book, seat, names, surveyor, &printer, script, writer);
            pipe_end(end)
        }
        Prints::Json => {
            let printer = AsJson { alloc };
            let end = play_by(alloc, book, seat, names, surveyor, &printer, script, writer);
            tell_end(pipe_end(end), writer)
        }
    }
}

/// The fault with which a run ends that can't begin. A stream of JSON says so in its one object; where that isn't written,
/// the run ends with a write fault.
pub(crate) fn tell_unbegun<W: TextOut>(prints: Prints, fault: RunFault, writer: &mut W) -> RunFault
    requires { W.has_failed writer.old ≡ false }
    ensures { TellsUnbegun prints fault result (W.contents writer.old) (W.contents writer.new) }
{
    match prints {
        Prints::Answers | Prints::Changes => fault,
        Prints::Json => match tell_end(Err(unbegun(&fault)), writer) {
            Err(PipeFault::Play(PlayFault::WriteFault)) => RunFault::WriteFault,
            _ => fault,
        },
    }
}

/// A fault before a run can begin as one of the run's with the same last object, which doesn't tell what is wrong with a
/// picture.
fn unbegun(fault: &RunFault) -> PipeFault
    ensures { end_text (Err result) ≡ Some (unbegun_text fault.now) }
{
    match fault {
        RunFault::Picture(_) | RunFault::Refused(..) => PipeFault::Picture(PictureFault::NotJson),
        RunFault::NoMemory => PipeFault::Play(PlayFault::NoMemory),
        _ => PipeFault::Play(PlayFault::ReadFault),
    }
}

/// The survey of a state by the workers of a crew.
fn survey_by<T: thread::Threads + Wait + Sync>(
    rt: &T,
    alloc: Global,
    crew: Crew,
    state: &State,
) -> Result<Vec<SurveyLine>, SurveyFault>
    ensures { IfOk result (λ lines. lines.items ≡ model.survey state.now) }
{
    let threads = Threads {
        rt,
        workers: crew.workers,
        gate: &OpenGate,
    };
    threads.survey(alloc, state)
}
