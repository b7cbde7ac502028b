// From the bytes of a picture to a book.
ghost use Rattle.std.specs.Prelude.{◌≡◌, ◌+◌, ◌≤◌, false, IfOk};
ghost use Rattle.reh_model.specs.Session.{opened_session};
ghost use Rattle.reh_picture.specs.Pictures.{picture_of};
ghost use Rattle.reh_desk.specs.Kept.{opened};
ghost use Rattle.reh_desk.specs.Seats.{new_seat};
ghost use Rattle.reh_script.specs.Openings.{Opens, OpensText};

use crate::faults::PipeFault;
use reh_cluster::{Names, State};
use reh_desk::{Book, Seat};
use reh_lines::{TextIn, read_text};
use reh_picture::read_picture;
use reh_play::PlayFault;
use reh_session::Session;
use reh_types::MAX_PICTURE_BYTES;
use std::alloc::{AllocError, Global};

/// A new book on the state of a picture, its one seat, and the names of the picture's bookies.
#[derive(Drop)]
pub struct Opened {
    pub book: Book,
    pub seat: Seat,
    pub names: Names,
}

impl Opened {
    /// Gives back its memory. Where it would be dropped, each function would have a proof of that of its own.
    pub fn close(self) {}
}

/// Opens a book on a picture.
pub fn open_picture(alloc: Global, picture: &[u8]) -> Result<Opened, PipeFault>
    ensures { Opens (picture_of picture.now) result }
{
    let state = read_picture(alloc, picture)?;
    let names = state.names().clone_in()?;
    let (book, seat) = open_book(alloc, state)?;
    Ok(Opened { book, seat, names })
}

/// Opens a book on the picture that a reader gives. It takes at most one byte more than a picture may have.
pub fn open_text<P: TextIn>(alloc: Global, picture: &mut P) -> Result<Opened, PipeFault>
    requires { P.has_failed picture.old ≡ false }
    ensures opens { OpensText
        (P.has_failed picture.new) (P.remaining picture.old) (P.remaining picture.new) result }
    ensures calls { P.calls picture.new ≤ P.calls picture.old + (MAX_PICTURE_BYTES + 1) }
{
    let text = read_text(alloc, picture, MAX_PICTURE_BYTES + 1)?;
    if text.failed {
        return Err(PipeFault::Play(PlayFault::ReadFault));
    }
    open_picture(alloc, &text.bytes)
}

/// A book on a session that opens on this state, and its one seat.
fn open_book(alloc: Global, state: State) -> Result<(Book, Seat), AllocError>
    ensures { IfOk result (λ r. (r.0 ≡ opened (opened_session state)) × (r.1 ≡ new_seat 0)) }
{
    let session = Session::open(alloc, state)?;
    match Book::open(session) {
        Ok(opened) => Ok(opened),
        Err((_session, want)) => Err(want),
    }
}
