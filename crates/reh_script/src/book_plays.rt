// Plays by a seat of a book that it has for itself.
ghost use Rattle.std.specs.Prelude.{◌≡◌, ◌⊎◌, ◌+◌, ◌≤◌, false, length, true, OnOk};
ghost use Rattle.std.specs.Io.KnownBytes.{IsAtEnd};
ghost use Rattle.reh_script.specs.BookPlays.{Transcribes, at_book};
ghost use Rattle.reh_play.specs.Players.{seated};
ghost use Rattle.reh_play.specs.Plays.{Plays, GoesOut, is_write_fault};

use reh_cluster::Names;
use reh_crew::Surveyor;
use reh_desk::{Book, Seat};
use reh_lines::{TextIn, TextOut};
use reh_play::{PlayFault, play};
use reh_types::MAX_SCRIPT_BYTES;
use std::alloc::Global;

/// Reads a script and answers its lines in order, by the one seat of a book, with the bookies of these names.
///
/// It is a `play`, with what that adds to the seat's list and the tape. What it prints is the transcript of the book,
/// and it leaves the book where the transcript does.
pub fn play_book<V: Surveyor, R: TextIn, W: TextOut>(
    alloc: Global,
    book: &mut Book,
    seat: &mut Seat,
    names: &Names,
    surveyor: &V,
    reader: &mut R,
    writer: &mut W,
) -> Result<(), PlayFault>
    requires out { length book.old.book.out ≡ seat.old.out }
    requires surveys { V.surveys surveyor.now }
    requires reads { R.has_failed reader.old ≡ false }
    requires writes { W.has_failed writer.old ≡ false }
    ensures out { length book.new.book.out ≡ seat.new.out }
    ensures plays { Plays (at_book names.now) result
        (R.has_failed reader.new) (R.remaining reader.old) (R.remaining reader.new)
        (seated book.old seat.old) (seated book.new seat.new)
        (W.contents writer.old) (W.contents writer.new) }
    ensures transcribes { Transcribes names.now seat.old.number result
        (R.has_failed reader.new) (R.remaining reader.old) (R.remaining reader.new)
        book.old.book book.new.book (W.contents writer.old) (W.contents writer.new) }
    ensures prompt { (reader.new ≡ reader.old) ⊎ GoesOut (at_book names.now)
        (R.remaining reader.old) (R.before reader.new) (seated book.old seat.old)
        (W.contents writer.old) (W.seen writer.new) }
    ensures ended { OnOk result (IsAtEnd (R.remaining reader.new)) }
    ensures finished { OnOk result (R.at_end reader.new ≡ true) }
    ensures seen { OnOk result (W.seen writer.new ≡ W.contents writer.new) }
    ensures write { W.has_failed writer.new ≡ is_write_fault result }
    ensures calls { R.calls reader.new ≤ R.calls reader.old + (MAX_SCRIPT_BYTES + 1) }
{
    play(alloc, book, seat, names, surveyor, reader, writer)
}
