// What a seat calls at a book, and the lines of its tape.
ghost use Rattle.std.specs.Prelude.{◌≡◌, ◌↔◌, IsTrue};

use crate::contents::BoxedContent;
use crate::moves::{Move, Reply};
use crate::names::Aim;

/// A call of a seat at a book.
#[derive(Drop)]
pub enum Call {
    /// A move of the book's session.
    Ask(Move),
    /// A ticket is asked for, with which a worker scans the fragment of its aim.
    Checkout(Aim),
    /// What a worker found with the ticket of this number is posted.
    Spend { number: u32, content: BoxedContent },
    /// The ticket of this number is given back.
    Discard { number: u32, aim: Aim },
}

impl Call {
    /// Whether both are the same call.
    pub fn same(&self, other: &Call) -> bool
        ensures { IsTrue result ↔ (self.now ≡ other.now) }
    {
        match (self, other) {
            (Call::Ask(step), Call::Ask(second)) => step.same(second),
            (Call::Checkout(aim), Call::Checkout(second)) => *aim == *second,
            (
                Call::Spend { number, content },
                Call::Spend {
                    number: second,
                    content: other_content,
                },
            ) => *number == *second && content.same(other_content),
            (
                Call::Discard { number, aim },
                Call::Discard {
                    number: second,
                    aim: other_aim,
                },
            ) => *number == *second && *aim == *other_aim,
            _ => false,
        }
    }
}

/// A line of a book's tape: a call of a seat, and the reply.
#[derive(Drop)]
pub struct Line {
    pub seat: u32,
    pub call: Call,
    pub reply: Reply,
}

/// A line of a seat's own list: a call that it made, and the reply.
#[derive(Drop)]
pub struct OwnLine {
    pub call: Call,
    pub reply: Reply,
}

/// A ticket that was issued to a seat, and was neither spent nor given back.
#[derive(Clone, Copy, PartialEq, Eq)]
pub struct TicketOut {
    pub seat: u32,
    pub number: u32,
    pub aim: Aim,
}
