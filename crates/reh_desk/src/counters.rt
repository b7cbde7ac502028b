// Where a seat makes its calls.
ghost use Rattle.std.specs.Prelude.{◌≡◌, ℕ, length, IfOk, IfErr, IfSome, IsTrue, Option, None, Some};
ghost use Rattle.std.specs.Option.{option_copied};
ghost use Rattle.reh_types.specs.declared.calls.Call.{Call};
ghost use Rattle.reh_types.specs.declared.calls.Call.TheVariants as call;
ghost use Rattle.reh_types.specs.declared.moves.Reply.{Reply};
ghost use Rattle.reh_types.specs.declared.moves.Reply.TheVariants.{Refused};
ghost use Rattle.reh_types.specs.declared.refusals.Refusal.TheVariants.{NotOut};
ghost use Rattle.reh_model.specs.Book.{is_written};
ghost use Rattle.reh_model.specs.Cluster.{Cluster};
ghost use Rattle.reh_model.specs.Scan.{scan};
ghost use Rattle.reh_model.specs.Session.{state_of};
ghost use Rattle.reh_desk.specs.Kept.{Called};
ghost use Rattle.reh_desk.specs.Replies.{checked_out, spent, discarded};
ghost use Rattle.reh_desk.specs.Seats.{SeatView, gained};
ghost use Rattle.reh_desk.specs.Tickets.{IsIssued};
ghost use Rattle.reh_desk.specs.Unspent.{number_of, aim_of};

use crate::books::{Book, SpendFault};
use crate::desks::Desk;
use crate::seats::Seat;
use crate::tickets::{Finding, Stray, Ticket, Unspent};
use reh_cluster::State;
use reh_types::{Aim, Move, Refusal, Reply};
use std::sync::Wait;

/// Where a seat makes its calls: a book of its own, or one that it shares.
///
/// Each call gives its reply, and adds it to the seat's list where it adds a line to the tape.
pub trait Counter {
    /// When a seat may call here.
    ghost may: { Self → SeatView → Type 0 };

    /// What a call of the seat of this number with this reply may leave.
    ghost goes: { Self → ℕ → Call → Reply → Self → Type 0 };

    /// The state that is shown here, if any is.
    ghost scene: { Self → Option Cluster };

    /// The state, where the counter shows it.
    fn whole(&self) -> Option<&State>
        ensures { option_copied result ≡ scene self.now };

    /// Makes a move.
    fn call(&mut self, seat: &mut Seat, step: Move) -> Reply
        requires { may self.old seat.old }
        ensures may { may self.new seat.new }
        ensures goes { goes self.old seat.old.number (call.Ask step) result self.new }
        ensures seat { seat.new ≡ gained seat.old (call.Ask step) result };

    /// Asks for a ticket, with which the fragment of the aim can be scanned as it stands now.
    fn checkout(&mut self, seat: &mut Seat, aim: Aim) -> Result<Ticket, Refusal>
        requires { may self.old seat.old }
        ensures may { may self.new seat.new }
        ensures goes { goes self.old seat.old.number (call.Checkout aim) (checked_out result) self.new }
        ensures seat { seat.new ≡ gained seat.old (call.Checkout aim) (checked_out result) }
        ensures aim { IfOk result (λ ticket. ticket.content.aim ≡ aim) }
        ensures ticket { IfOk result (λ ticket. IfSome (scene self.old) (λ s. scan s aim ≡ Some ticket.content)) }
        ensures issued { IfOk result (IsIssued seat.old.number aim) };

    /// Posts what was found with a ticket. Where its ticket isn't out at this seat, as none is of a seat that counts
    /// none, or there is no memory for an accepted post, the finding is handed back.
    fn spend(&mut self, seat: &mut Seat, finding: Finding) -> Result<Reply, SpendFault>
        requires { may self.old seat.old }
        ensures may { may self.new seat.new }
        ensures goes { goes self.old seat.old.number
            (call.Spend finding.number finding.content) (spent result) self.new }
        ensures seat { seat.new ≡ gained seat.old (call.Spend finding.number finding.content) (spent result) }
        ensures written { IfOk result (λ reply. IsTrue (is_written reply)) }
        ensures none { seat.old.out ≡ 0 → spent result ≡ Refused NotOut }
        ensures back { IfErr result (λ fault. fault.finding ≡ finding) };

    /// Gives a ticket, or what was found with it, back. It takes no memory. Where it isn't out at this seat, as none is
    /// of a seat that counts none, it comes back as a stray.
    fn discard(&mut self, seat: &mut Seat, unspent: Unspent) -> Result<(), Stray>
        requires { may self.old seat.old }
        ensures may { may self.new seat.new }
        ensures goes { goes self.old seat.old.number
            (call.Discard (number_of unspent) (aim_of unspent)) (discarded result) self.new }
        ensures seat { seat.new ≡ gained seat.old
            (call.Discard (number_of unspent) (aim_of unspent)) (discarded result) }
        ensures none { seat.old.out ≡ 0 → discarded result ≡ Refused NotOut }
        ensures back { IfErr result (λ stray. stray ≡ unspent) };
}

impl Counter for Book {
    ghost may = { λ k s. length k.book.out ≡ s.out };

    ghost goes = { Called };

    ghost scene = { λ k. Some (state_of k.book.session) };

    fn whole(&self) -> Option<&State> {
        Book::whole(self)
    }

    fn call(&mut self, seat: &mut Seat, step: Move) -> Reply {
        self.call_by(&mut seat.caller, step)
    }

    fn checkout(&mut self, seat: &mut Seat, aim: Aim) -> Result<Ticket, Refusal> {
        self.checkout_by(&mut seat.caller, aim)
    }

    fn spend(&mut self, seat: &mut Seat, finding: Finding) -> Result<Reply, SpendFault> {
        self.spend_by(&mut seat.caller, finding)
    }

    fn discard(&mut self, seat: &mut Seat, unspent: Unspent) -> Result<(), Stray> {
        self.discard_by(&mut seat.caller, unspent)
    }
}

/// A desk, at which a seat may have to wait for another one's call to end. It shows no state: another seat's call may
/// change it before one's own.
pub struct AtDesk<'a, R: Wait> {
    pub desk: &'a Desk,
    pub rt: &'a R,
}

impl<'a, R: Wait> Drop for AtDesk<'a, R> {
    fn drop(self) {
        let AtDesk { desk: _, rt: _ } = self;
    }
}

impl<'a, R: Wait> Counter for AtDesk<'a, R> {
    ghost may = { λ _ _. Unit {0} };

    ghost goes = { λ _ _ _ _ _. Unit {0} };

    ghost scene = { λ _. None };

    fn whole(&self) -> Option<&State> {
        None
    }

    fn call(&mut self, seat: &mut Seat, step: Move) -> Reply {
        self.desk.book(self.rt).call_by(&mut seat.caller, step)
    }

    fn checkout(&mut self, seat: &mut Seat, aim: Aim) -> Result<Ticket, Refusal> {
        self.desk.book(self.rt).checkout_by(&mut seat.caller, aim)
    }

    fn spend(&mut self, seat: &mut Seat, finding: Finding) -> Result<Reply, SpendFault> {
        self.desk.book(self.rt).spend_by(&mut seat.caller, finding)
    }

    fn discard(&mut self, seat: &mut Seat, unspent: Unspent) -> Result<(), Stray> {
        self.desk
            .book(self.rt)
            .discard_by(&mut seat.caller, unspent)
    }
}
