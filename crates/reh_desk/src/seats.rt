// Seats, which make their calls at a counter.
ghost use Rattle.std.specs.Prelude.{◌≡◌};
ghost use Rattle.reh_desk.specs.Seats.{new_seat};

use crate::callers::{Caller, Listed};
use reh_types::OwnLine;
use std::alloc::Global;
use std::marker::Model;

/// A seat of a book: its number, its own calls and their replies, and how many of its tickets are out.
///
/// Its list has the calls that added a line to the tape, and a line reserved for each ticket that is out.
#[derive(Drop)]
pub struct Seat {
    pub(crate) caller: Listed,
}

impl Model for Seat {
    ghost use Rattle.reh_desk.specs.Seats.{SeatView};

    ghost Value = { SeatView };

    ghost view = { λ s. s.caller.seat };
}

impl Seat {
    /// The seat of that number, before its first call.
    pub(crate) fn new(alloc: Global, number: u32) -> Seat
        ensures { result ≡ new_seat number }
    {
        Seat {
            caller: Listed::new(alloc, number),
        }
    }

    /// Its number at the book.
    pub fn number(&self) -> u32
        ensures { result ≡ self.now.number }
    {
        self.caller.number()
    }

    /// Its calls and their replies, oldest first.
    pub fn lines(&self) -> &[OwnLine]
        ensures { result.now ≡ self.now.lines }
    {
        self.caller.lines()
    }

    /// How many of its tickets are out.
    pub fn out(&self) -> u32
        ensures { result ≡ self.now.out }
    {
        self.caller.out()
    }
}
