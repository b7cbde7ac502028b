// From a picture and a script, each of its own reader, to the bytes of the transcript.
ghost use Rattle.std.specs.Prelude.{◌≡◌, ◌⊎◌, ◌+◌, ◌≤◌, false, true, OnOk};
ghost use Rattle.std.specs.Io.KnownBytes.{IsAtEnd};
ghost use Rattle.reh_script.specs.Pipes.{loses_output};
ghost use Rattle.reh_script.specs.Runs.{Runs, RunsOut};

use crate::book_plays::play_book;
use crate::faults::PipeFault;
use crate::openings::open_text;
use crate::pipes::pipe_end;
use reh_crew::Surveyor;
use reh_lines::{TextIn, TextOut};
use reh_types::{MAX_PICTURE_BYTES, MAX_SCRIPT_BYTES};
use std::alloc::Global;

/// Reads a picture, and then a script, and writes the transcript.
///
/// Where the picture is not accepted, the script's reader is left as it was. All lines of the script that are complete
/// are answered, and their answers handed on, before more is read.
pub fn run<V: Surveyor, P: TextIn, R: TextIn, W: TextOut>(
    alloc: Global,
    surveyor: &V,
    picture: &mut P,
    script: &mut R,
    writer: &mut W,
) -> Result<(), PipeFault>
    requires surveys { V.surveys surveyor.now }
    requires picture { P.has_failed picture.old ≡ false }
    requires script { R.has_failed script.old ≡ false }
    requires writes { W.has_failed writer.old ≡ false }
    ensures runs { Runs result (script.new ≡ script.old)
        (P.has_failed picture.new) (P.remaining picture.old) (P.remaining picture.new)
        (R.has_failed script.new) (R.remaining script.old) (R.remaining script.new)
        (W.contents writer.old) (W.contents writer.new) }
    ensures prompt { (script.new ≡ script.old) ⊎ RunsOut
        (P.has_failed picture.new) (P.remaining picture.old) (P.remaining picture.new)
        (R.remaining script.old) (R.before script.new) (W.contents writer.old) (W.seen writer.new) }
    ensures ended { OnOk result (IsAtEnd (R.remaining script.new)) }
    ensures finished { OnOk result (R.at_end script.new ≡ true) }
    ensures seen { OnOk result (W.seen writer.new ≡ W.contents writer.new) }
    ensures write { W.has_failed writer.new ≡ loses_output result }
    ensures picture_calls { P.calls picture.new ≤ P.calls picture.old + (MAX_PICTURE_BYTES + 1) }
    ensures script_calls { R.calls script.new ≤ R.calls script.old + (MAX_SCRIPT_BYTES + 1) }
{
    let mut rehearsal = open_text(alloc, picture)?;
    let end = play_book(
        alloc,
        &mut rehearsal.book,
        &mut rehearsal.seat,
        &rehearsal.names,
        surveyor,
        script,
        writer,
    );
    rehearsal.close();
    pipe_end(end)
}
