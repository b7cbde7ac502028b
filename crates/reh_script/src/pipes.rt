// From the bytes of the input to the bytes of the transcript.
ghost use Rattle.std.specs.Prelude.{◌≡◌, ◌⊎◌, ◌+◌, ◌≤◌, ◌<◌, [], false, true, take, drop, length, List, ℕ, Option, OnOk};
ghost use Rattle.std.specs.Io.KnownBytes.{IsAtEnd, prepend_known};
ghost use Rattle.reh_picture.specs.Pictures.{picture_of};
ghost use Rattle.reh_lines.specs.Lines.{cut_of};
ghost use Rattle.reh_script.specs.Pipes.{rehearsal_of, IsPiped, Pipes, PlaysBehind, GoesOutBehind, AnswersGoOut};
ghost use Rattle.reh_script.specs.Pipes.{loses_output, piped};
ghost use Rattle.reh_play.specs.Plays.{is_write_fault};

use crate::faults::PipeFault;
use crate::openings::open_picture;
use reh_crew::Surveyor;
use reh_lines::{Head, Percent, TextIn, TextOut, read_head, split_input};
use reh_play::{PlayFault, play_on};
use reh_types::{MAX_PICTURE_BYTES, MAX_SCRIPT_BYTES};
use std::alloc::Global;

/// So many reads are enough: of a picture of 8,388,608 bytes, LF, `%`, CR, LF, and a script of one byte more than there
/// can be.
const MAX_READS: usize = MAX_PICTURE_BYTES + 4 + MAX_SCRIPT_BYTES + 1;

/// Reads a picture, a line `%` and a script, and writes the transcript: an answer to each line of the script that has
/// one.
///
/// The picture is judged as soon as its line `%` has ended, and its fault comes before any other. All lines of the
/// script that are complete are answered, and their answers handed on, before more is read. A script that is too long,
/// and one after which a read fails, have the lines answered that end in time.
pub fn pipe<V: Surveyor, R: TextIn, W: TextOut>(
    alloc: Global,
    surveyor: &V,
    reader: &mut R,
    writer: &mut W,
) -> Result<(), PipeFault>
    requires surveys { V.surveys surveyor.now }
    requires reads { R.has_failed reader.old ≡ false }
    requires writes { W.has_failed writer.old ≡ false }
    ensures pipes { Pipes result
        (R.has_failed reader.new) (R.remaining reader.old) (R.remaining reader.new)
        (W.contents writer.old) (W.contents writer.new) }
    ensures prompt { (reader.new ≡ reader.old) ⊎ AnswersGoOut (R.remaining reader.old) (R.before reader.new)
        (W.contents writer.old) (W.seen writer.new) }
    ensures ended { OnOk result (IsAtEnd (R.remaining reader.new)) }
    ensures finished { OnOk result (R.at_end reader.new ≡ true) }
    ensures seen { OnOk result ((writer.new ≡ writer.old) ⊎ (W.seen writer.new ≡ W.contents writer.new)) }
    ensures write { W.has_failed writer.new ≡ loses_output result }
    ensures calls { R.calls reader.new ≤ R.calls reader.old + MAX_READS }
{
    let mut input = Vec::new(alloc);
    match read_head(reader, &mut input)? {
        Head::Ended(percent) => play_behind(alloc, surveyor, input, percent, reader, writer),
        Head::Whole | Head::TooLong => open_whole(alloc, &input),
        Head::Failed => Err(PipeFault::Play(PlayFault::ReadFault)),
    }
}

/// Judges an input that has no script.
fn open_whole(alloc: Global, input: &[u8]) -> Result<(), PipeFault>
    requires { (cut_of input.now).script ≡ [] }
    ensures piped { (held : Option (List ℕ)) → IsPiped false (rehearsal_of false input.now) result held held }
    ensures writes_none { loses_output result ≡ false }
{
    let (picture, _) = split_input(input);
    open_picture(alloc, picture)?.close();
    Ok(())
}

/// Plays the script after the line `%` of an input.
fn play_behind<V: Surveyor, R: TextIn, W: TextOut>(
    alloc: Global,
    surveyor: &V,
    input: Vec<u8>,
    percent: Percent,
    reader: &mut R,
    writer: &mut W,
) -> Result<(), PipeFault>
    requires surveys { V.surveys surveyor.now }
    requires order { percent.picture < percent.script }
    requires within { percent.script ≤ length input.items }
    requires few { length input.items ≤ percent.script + MAX_SCRIPT_BYTES }
    requires reads { R.has_failed reader.old ≡ false }
    requires writes { W.has_failed writer.old ≡ false }
    ensures plays { PlaysBehind (picture_of (take percent.picture input.items)) result (R.has_failed reader.new)
        (prepend_known (drop percent.script input.items) (R.remaining reader.old)) (R.remaining reader.new)
        (W.contents writer.old) (W.contents writer.new) }
    ensures prompt { (reader.new ≡ reader.old) ⊎ GoesOutBehind (picture_of (take percent.picture input.items))
        (prepend_known (drop percent.script input.items) (R.remaining reader.old)) (R.before reader.new)
        (W.contents writer.old) (W.seen writer.new) }
    ensures ended { OnOk result (IsAtEnd (R.remaining reader.new)) }
    ensures finished { OnOk result (R.at_end reader.new ≡ true) }
    ensures seen { OnOk result (W.seen writer.new ≡ W.contents writer.new) }
    ensures write { W.has_failed writer.new ≡ loses_output result }
    ensures calls { R.calls reader.new ≤ R.calls reader.old + (MAX_SCRIPT_BYTES + 1) }
{
    let mut input = input;
    let script = input.split_off(percent.script)?;
    let mut rehearsal = open_picture(alloc, &input[..percent.picture])?;
    drop(input);
    let end = play_on(
        alloc,
        &mut rehearsal.book,
        &mut rehearsal.seat,
        &rehearsal.names,
        surveyor,
        script,
        reader,
        writer,
    );
    rehearsal.close();
    pipe_end(end)
}

/// A play's end as the pipe's.
pub fn pipe_end(end: Result<(), PlayFault>) -> Result<(), PipeFault>
    ensures end { result ≡ piped end }
    ensures write { loses_output result ≡ is_write_fault end }
{
    match end {
        Ok(()) => Ok(()),
        Err(fault) => Err(PipeFault::Play(fault)),
    }
}
