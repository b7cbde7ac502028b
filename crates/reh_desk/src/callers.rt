// Who makes a call: a seat with its list, or a seat's bare number.
ghost use Rattle.std.specs.Prelude.{◌≡◌, ℕ, ◌+◌, ◌-◌, ◌<◌, ◌≤◌, Bool, true, false, nat_le, OnOk, ⊤};
ghost use Rattle.reh_types.specs.declared.limits.TheConstants.{MAX_LINES};
ghost use Rattle.reh_desk.specs.Callers.{none_out, with_line, with_out};
ghost use Rattle.reh_desk.specs.Seats.{SeatView, new_seat};

use reh_types::{MAX_LINES, OwnLine};
use std::alloc::{AllocError, Global};
use std::marker::Model;

/// Who makes a call at a book. A seat's own list gets the lines that the tape gets, and its tickets that are out are
/// counted; a bare number keeps nothing.
pub(crate) trait Caller {
    /// The seat, as far as it is known.
    ghost shown: { Self → SeatView };

    /// Whether it has a list, and counts its tickets.
    ghost keeps: { Bool };

    /// Whether its list has room for so many lines more.
    ghost has_room: { Self → ℕ → Type 0 };

    /// The number of the seat.
    fn number(&self) -> u32
        ensures { result ≡ (shown self.now).number };

    /// Whether it counts no ticket out.
    fn has_none_out(&self) -> bool
        ensures { result ≡ none_out keeps (shown self.now) };

    /// Whether it counts as many tickets out as a tape may have lines.
    fn has_most_out(&self) -> bool
        ensures { result ≡ nat_le MAX_LINES (shown self.now).out };

    /// Makes room for so many lines, unless there is no memory.
    fn reserve(&mut self, wanted: u32) -> Result<(), AllocError>
        requires { wanted ≤ 2 }
        ensures shown { shown self.new ≡ shown self.old }
        ensures room { OnOk result ((n : ℕ) → n ≤ wanted → has_room self.new n) };

    /// Adds a line, for which there is room.
    fn add(&mut self, line: OwnLine)
        requires { has_room self.old 1 }
        ensures shown { shown self.new ≡ with_line keeps (shown self.old) line }
        ensures room { (n : ℕ) → has_room self.old (n + 1) → has_room self.new n };

    /// Counts a ticket that is issued. The room for a line is reserved for it.
    fn count_issue(&mut self)
        requires room { has_room self.old 1 }
        requires few { (shown self.old).out < MAX_LINES }
        ensures { shown self.new ≡ with_out keeps (shown self.old) ((shown self.old).out + 1) };

    /// Counts a ticket that is out no more. Its line is left to be added.
    fn count_end(&mut self)
        requires { none_out keeps (shown self.old) ≡ false }
        ensures shown { shown self.new ≡ with_out keeps (shown self.old) ((shown self.old).out - 1) }
        ensures room { has_room self.new 1 };
}

/// A seat's number, its own calls and their replies, and how many of its tickets are out, with a line reserved for
/// each.
#[derive(Drop)]
pub(crate) struct Listed {
    number: u32,
    lines: Vec<OwnLine>,
    out: u32,
}

impl Model for Listed {
    ghost use Rattle.std.specs.Prelude.{◌≤◌, ◌+◌, ◌-◌, length, vec_capacity};
    ghost use Rattle.reh_types.specs.declared.limits.TheConstants.{MAX_LINES};
    ghost use Rattle.reh_desk.specs.Callers.{Listing};

    ghost Value = { Listing };

    ghost view = { λ s. record {
      seat = record { number = s.number; lines = s.lines.items; out = s.out };
      room = vec_capacity s.lines - (length s.lines.items + s.out);
    } };

    ghost invariant = { λ s. (s.out ≤ MAX_LINES) × (length s.lines.items + s.out ≤ vec_capacity s.lines) };
}

impl Listed {
    /// The seat of that number, before its first call.
    pub(crate) fn new(alloc: Global, number: u32) -> Listed
        ensures { result.seat ≡ new_seat number }
    {
        Listed {
            number,
            lines: Vec::new(alloc),
            out: 0,
        }
    }

    /// Its calls and their replies, oldest first.
    pub(crate) fn lines(&self) -> &[OwnLine]
        ensures { result.now ≡ self.now.seat.lines }
    {
        &self.lines
    }

    /// How many of its tickets are out.
    pub(crate) fn out(&self) -> u32
        ensures { result ≡ self.now.seat.out }
    {
        self.out
    }
}

impl Caller for Listed {
    ghost shown = { λ s. s.seat };

    ghost keeps = { true };

    ghost has_room = { λ s n. n ≤ s.room };

    fn number(&self) -> u32 {
        self.number
    }

    fn has_none_out(&self) -> bool {
        self.out == 0
    }

    fn has_most_out(&self) -> bool {
        self.out as usize >= MAX_LINES
    }

    fn reserve(&mut self, wanted: u32) -> Result<(), AllocError> {
        self.lines.reserve((self.out + wanted) as usize)
    }

    fn add(&mut self, line: OwnLine) {
        self.lines.push_reserved(line);
    }

    fn count_issue(&mut self) {
        self.out += 1;
    }

    fn count_end(&mut self) {
        self.out -= 1;
    }
}

/// The bare number of a seat.
#[derive(Clone, Copy)]
pub(crate) struct Bare {
    pub(crate) number: u32,
}

impl Caller for Bare {
    ghost shown = { λ s. new_seat s.number };

    ghost keeps = { false };

    ghost has_room = { λ _ _. ⊤ };

    fn number(&self) -> u32 {
        self.number
    }

    fn has_none_out(&self) -> bool {
        false
    }

    fn has_most_out(&self) -> bool {
        false
    }

    fn reserve(&mut self, _wanted: u32) -> Result<(), AllocError> {
        Ok(())
    }

    fn add(&mut self, _line: OwnLine) {}

    fn count_issue(&mut self) {}

    fn count_end(&mut self) {}
}
