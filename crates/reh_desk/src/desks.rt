// Desks: a book behind a lock, at which several seats call, each on a thread.
ghost use Rattle.std.specs.Prelude.{◌≡◌, ◌⊎◌, ◌<◌, ◌≤◌, ◌↔◌, IfOk, IfErr};
ghost use Rattle.reh_desk.specs.Desks.{AreNew, AreSeats, IsClosed};
ghost use Rattle.reh_desk.specs.Closings.{IsUnsettled};
ghost use Rattle.reh_desk.specs.Seats.{new_seat};

use crate::books::{Book, close};
use crate::seats::Seat;
use crate::settling::{Unsettled, are_seats};
use reh_session::Session;
use reh_types::Line;
use std::alloc::{AllocError, Global};
use std::marker::Model;
use std::sync::{Mutex, MutexGuard, Wait};

/// A book that several seats share. Each call of a seat is one call of the book, which no other can come between.
///
/// Contracts see the session that it was opened on, and how many seats it has; not the book, which other seats may
/// change at any time. What was called is known once it is closed.
#[derive(Drop)]
pub struct Desk {
    book: Mutex<Book>,
    opening: Session,
    seats: u32,
}

impl Model for Desk {
    ghost use Rattle.reh_desk.specs.Desks.{DeskView};

    ghost Value = { DeskView };

    ghost view = { λ d. record { opening = d.opening; seats = d.seats } };
}

/// What a closed desk hands out: the session as its seats left it, and the whole tape, oldest line first.
#[derive(Drop)]
pub struct Closed {
    pub session: Session,
    pub tape: Vec<Line>,
}

/// Why a desk doesn't close.
#[derive(Clone, Copy, PartialEq, Eq, Debug)]
pub enum CloseCause {
    /// These are not the seats of the desk, each once.
    Seats,
    /// So many tickets are out.
    StillOut(u32),
    /// The list of the seat of this number is not what the tape has of it; or the number is 0, and the book is of
    /// another session, or of further seats.
    Mismatch(u32),
}

/// A desk that doesn't close, with the seats that it was given, and why.
#[derive(Drop)]
pub struct CloseFault {
    pub cause: CloseCause,
    pub desk: Desk,
    pub seats: Vec<Seat>,
}

impl From<Unsettled> for CloseCause {
    ghost use Rattle.std.specs.Prelude.{◌≡◌};
    ghost use Rattle.reh_desk.specs.Closings.{cause_of};

    ghost from_gives = { λ unsettled cause. cause ≡ cause_of unsettled };

    fn from(unsettled: Unsettled) -> CloseCause {
        match unsettled {
            Unsettled::StillOut(count) => CloseCause::StillOut(count),
            Unsettled::Mismatch(number) => CloseCause::Mismatch(number),
        }
    }
}

impl Desk {
    /// A desk on a session, with so many seats, from 1 to 8, numbered from 0. Where there is no memory for the seats,
    /// or for the two copies of the session that the desk and its book keep, the session is handed back.
    pub fn open(session: Session, count: u32) -> Result<(Desk, Vec<Seat>), (Session, AllocError)>
        requires some { 0 < count }
        requires few { count ≤ 8 }
        ensures ok { IfOk result (λ r. (r.0 ≡ record { opening = session; seats = count }) × AreNew count r.1.items) }
        ensures err { IfErr result (λ e. e.0 ≡ session) }
    {
        let seats = match new_seats(session.allocator(), count) {
            Ok(seats) => seats,
            Err(want) => return Err((session, want)),
        };
        match Desk::of(session, count) {
            Ok(desk) => Ok((desk, seats)),
            Err(back) => Err(back),
        }
    }

    /// A desk of so many seats on a session, or the session, where there is no memory for the two copies of it.
    fn of(session: Session, seats: u32) -> Result<Desk, (Session, AllocError)>
        ensures ok { IfOk result (λ desk. desk ≡ record { opening = session; seats = seats }) }
        ensures err { IfErr result (λ e. e.0 ≡ session) }
    {
        let copy = match session.clone_in() {
            Ok(copy) => copy,
            Err(want) => return Err((session, want)),
        };
        match Book::of(session) {
            Ok(book) => Ok(Desk {
                book: Mutex::new(book),
                opening: copy,
                seats,
            }),
            Err(back) => {
                close(copy);
                Err(back)
            }
        }
    }

    /// Closes a desk, once all its seats are back. It takes no memory. Where it doesn't close, desk and seats are
    /// handed back as they were.
    pub fn close(self, seats: Vec<Seat>) -> Result<Closed, CloseFault>
        ensures closed { IfOk result (λ closed. IsClosed self seats.items closed.session closed.tape.items) }
        ensures back { IfErr result (λ fault. (fault.desk ≡ self) × (fault.seats ≡ seats)) }
        ensures seats { IfErr result (λ fault.
            (fault.cause ≡ CloseCause.Seats) ↔ (AreSeats self.seats seats.items → ⊥)) }
        ensures book { IfErr result (λ fault.
            (fault.cause ≡ CloseCause.Seats) ⊎ IsUnsettled self.opening seats.items fault.cause) }
    {
        if !are_seats(&seats, self.seats) {
            let cause = CloseCause::Seats;
            return Err(CloseFault {
                cause,
                desk: self,
                seats,
            });
        }
        let Desk {
            book,
            opening,
            seats: count,
        } = self;
        let book = book.into_inner();
        match book.settle(&opening, &seats) {
            Ok(()) => {
                close(opening);
                let (session, tape) = book.into_parts();
                Ok(Closed { session, tape })
            }
            Err(unsettled) => {
                let cause = CloseCause::from(unsettled);
                let desk = Desk {
                    book: Mutex::new(book),
                    opening,
                    seats: count,
                };
                Err(CloseFault { cause, desk, seats })
            }
        }
    }

    /// The book, once no other seat is at it.
    pub(crate) fn book<'a, R: Wait>(&'a self, rt: &R) -> MutexGuard<'a, Book> {
        self.book.lock(rt)
    }
}

/// New seats, numbered from 0.
#[tactic(auto, using(crate::proofs::NewSeats::new_more))]
fn new_seats(alloc: Global, count: u32) -> Result<Vec<Seat>, AllocError>
    ensures { IfOk result (λ seats. AreNew count seats.items) }
{
    let mut seats = Vec::new(alloc);
    for number in 0..count {
        seats.push(Seat::new(alloc, number))?;
    }
    Ok(seats)
}
