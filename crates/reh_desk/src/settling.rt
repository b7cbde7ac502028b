// Whether a tape and the lists of its seats tell the same.
ghost use Rattle.std.specs.Prelude.{◌≡◌, ◌↔◌, IsTrue, MatchOption, length};
ghost use Rattle.reh_model.specs.Book.{new_book, Legal};
ghost use Rattle.reh_desk.specs.Seats.{own_line};
ghost use Rattle.reh_desk.specs.Desks.{own_lines, AreSeated, AllAgree, AgreeBelow, Differs};
ghost use Rattle.reh_desk.specs.Desks.{IsAbsent, AreBelow, AreSeats, Settles};

use crate::books::Book;
use crate::seats::Seat;
use reh_session::Session;
use reh_types::{Line, OwnLine, Reply};

/// Why a book doesn't settle with its seats.
#[derive(Clone, Copy)]
pub enum Unsettled {
    /// So many tickets are out.
    StillOut(u32),
    /// The list of the seat of this number is not what the tape has of it. Of several such seats it is the one with
    /// the least number. It is 0 too where the book opened on another session, or a line is of none of the seats.
    Mismatch(u32),
}

impl Book {
    /// Compares a book with the session that it is said to have opened on, and with the lists of its seats. It takes
    /// no memory. The numbers of the seats have to be those from 0 on, each once.
    pub fn settle(&self, opening: &Session, seats: &[Seat]) -> Result<(), Unsettled>
        requires { AreSeats (length seats.now) seats.now }
        ensures settles { Settles self.now opening.now seats.now result }
        ensures legal { Legal (new_book self.now.opening) self.now.tape self.now.book }
    {
        let tape = self.tape();
        let out = self.out();
        if out > 0 {
            return Err(Unsettled::StillOut(out));
        }
        if !self.opening().same(opening) || !are_seated(tape, seats.len()) {
            return Err(Unsettled::Mismatch(0));
        }
        match first_mismatch(tape, seats) {
            None => Ok(()),
            Some(number) => Err(Unsettled::Mismatch(number)),
        }
    }
}

/// Whether these are the seats of a desk that has so many, each once.
pub(crate) fn are_seats(seats: &[Seat], count: u32) -> bool
    ensures { IsTrue result ↔ AreSeats count seats.now }
{
    seats.len() == count as usize && are_below(seats, count)
}

/// Whether the numbers of the seats are below this one, each at most once.
fn are_below(seats: &[Seat], count: u32) -> bool
    ensures { IsTrue result ↔ AreBelow count seats.now }
{
    match seats.split_first() {
        None => true,
        Some((seat, others)) => {
            seat.number() < count && is_absent(others, seat.number()) && are_below(others, count)
        }
    }
}

/// Whether no seat has this number.
fn is_absent(seats: &[Seat], number: u32) -> bool
    ensures { IsTrue result ↔ IsAbsent number seats.now }
{
    match seats.split_first() {
        None => true,
        Some((seat, others)) => seat.number() != number && is_absent(others, number),
    }
}

/// Whether every line of a tape is of a seat with a number below this one.
fn are_seated(tape: &[Line], count: usize) -> bool
    ensures { IsTrue result ↔ AreSeated count tape.now }
{
    let mut rest = tape;
    while let Some((line, others)) = rest.split_first() {
        if line.seat as usize >= count {
            return false;
        }
        rest = others;
    }
    true
}

/// The least number of a seat whose list is not what the tape has of it, if there is one.
#[tactic(auto, using(crate::proofs::Agreement::below_all, crate::proofs::Agreement::below_less))]
fn first_mismatch(tape: &[Line], seats: &[Seat]) -> Option<u32>
    ensures { MatchOption result
        (AllAgree tape.now seats.now)
        (λ number. AgreeBelow tape.now number seats.now × Differs tape.now number seats.now) }
{
    let Some((seat, others)) = seats.split_first() else {
        return None;
    };
    let later = first_mismatch(tape, others);
    if agrees(tape, seat.number(), seat.lines()) {
        return later;
    }
    match later {
        None => Some(seat.number()),
        Some(number) => {
            if number < seat.number() {
                Some(number)
            } else {
                Some(seat.number())
            }
        }
    }
}

/// Whether these are the tape's lines of the seat of this number, in the same order.
fn agrees(tape: &[Line], number: u32, lines: &[OwnLine]) -> bool
    ensures { IsTrue result ↔ (own_lines number tape.now ≡ lines.now) }
{
    let mut rest = tape;
    let mut left = lines;
    while let Some((line, others)) = rest.split_first() {
        if line.seat == number {
            let Some((own, later)) = left.split_first() else {
                return false;
            };
            if !is_line(own, line) {
                return false;
            }
            left = later;
        }
        rest = others;
    }
    left.is_empty()
}

/// Whether a seat's line and one of the tape are the same call with the same reply.
fn is_line(own: &OwnLine, line: &Line) -> bool
    ensures { IsTrue result ↔ (own_line line.now.call line.now.reply ≡ own.now) }
{
    own.call.same(&line.call) && is_reply(own.reply, line.reply)
}

/// Whether both are the same reply.
fn is_reply(reply: Reply, other: Reply) -> bool
    ensures { IsTrue result ↔ (reply ≡ other) }
{
    reply == other
}
