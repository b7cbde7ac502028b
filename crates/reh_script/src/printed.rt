// Runs of which a printer says what is printed of each line.
ghost use Rattle.std.specs.Prelude.{◌≡◌, ◌⊎◌, ◌+◌, ◌≤◌, false, true, OnOk};
ghost use Rattle.std.specs.Io.KnownBytes.{IsAtEnd};
ghost use Rattle.reh_script.specs.Pipes.{loses_output};
ghost use Rattle.reh_script.specs.Printed.{RunsPrinting, PrintsInTime};

use crate::faults::PipeFault;
use crate::openings::open_text;
use crate::pipes::pipe_end;
use reh_crew::Surveyor;
use reh_desk::Book;
use reh_lines::{TextIn, TextOut};
use reh_play::{Printer, play_by};
use reh_types::{MAX_PICTURE_BYTES, MAX_SCRIPT_BYTES};
use std::alloc::Global;

/// A `run` of which a printer says what is printed of each line.
pub fn run_printing<V: Surveyor, N: Printer<Book>, P: TextIn, R: TextIn, W: TextOut>(
    alloc: Global,
    surveyor: &V,
    printer: &N,
    picture: &mut P,
    script: &mut R,
    writer: &mut W,
) -> Result<(), PipeFault>
    requires surveys { V.surveys surveyor.now }
    requires picture { P.has_failed picture.old ≡ false }
    requires script { R.has_failed script.old ≡ false }
    requires writes { W.has_failed writer.old ≡ false }
    ensures runs { RunsPrinting N.prints result (script.new ≡ script.old)
        (P.has_failed picture.new) (P.remaining picture.old) (P.remaining picture.new)
        (R.has_failed script.new) (R.remaining script.old) (R.remaining script.new)
        (W.contents writer.old) (W.contents writer.new) }
    ensures prompt { (script.new ≡ script.old) ⊎ PrintsInTime N.prints
        (P.has_failed picture.new) (P.remaining picture.old) (P.remaining picture.new)
        (R.remaining script.old) (R.before script.new) (W.contents writer.old) (W.seen writer.new) }
    ensures ended { OnOk result (IsAtEnd (R.remaining script.new)) }
    ensures finished { OnOk result (R.at_end script.new ≡ true) }
    ensures seen { OnOk result (W.seen writer.new ≡ W.contents writer.new) }
    ensures write { W.has_failed writer.new ≡ loses_output result }
    ensures picture_calls { P.calls picture.new ≤ P.calls picture.old + (MAX_PICTURE_BYTES + 1) }
    ensures script_calls { R.calls script.new ≤ R.calls script.old + (MAX_SCRIPT_BYTES + 1) }
{
    let mut rehearsal = open_text(alloc, picture)?;
    let end = play_by(
        alloc,
        &mut rehearsal.book,
        &mut rehearsal.seat,
        &rehearsal.names,
        surveyor,
        printer,
        script,
        writer,
    );
    rehearsal.close();
    pipe_end(end)
}
