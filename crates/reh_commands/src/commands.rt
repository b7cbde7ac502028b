// What a line of a script asks for.
use reh_types::{Aim, Move};
use std::fmt;

/// What a line of a script asks for.
#[derive(Drop)]
pub enum Command {
    /// A move of the session.
    Make(Move),
    /// A ticket for a place of a fragment, whose scan goes into the player's hand.
    Checkout(Aim),
    /// The oldest finding of the hand is posted.
    Spend,
    /// The oldest finding of the hand is given back.
    Discard,
    /// The report of the state.
    Report,
    /// The survey of what can't be read any more.
    Survey,
}

/// Why a line of a script asks for nothing. Its text is the line's reply.
#[derive(Clone, Copy)]
pub enum LineFault {
    /// The line has more than 1,024 bytes.
    TooLong,
    /// No command begins with its first word.
    UnknownCommand,
    /// The command has another number of words, or one that has to be a number isn't.
    BadWords,
    /// A word that has to be a bookie's name isn't.
    UnknownName,
}

impl fmt::Display for LineFault {
    ghost use Rattle.std.specs.Prelude.{Some};
    ghost use Rattle.reh_commands.specs.Texts.{line_fault_text};

    ghost output = { λ fault. Some (line_fault_text fault) };

    fn fmt<W: fmt::Write>(&self, f: &mut fmt::Formatter<W>) -> fmt::Result {
        match self {
            LineFault::TooLong => write!(f, "too long"),
            LineFault::UnknownCommand => write!(f, "unknown command"),
            LineFault::BadWords => write!(f, "bad words"),
            LineFault::UnknownName => write!(f, "unknown name"),
        }
    }
}
