// Books: a session for several seats, with tickets, and a tape of what was called and replied.
ghost use Rattle.std.specs.Prelude.{◌≡◌, ℕ, ◌+◌, ◌-◌, ◌<◌, ◌≤◌, true, false, nat_lt, [], ◌∷◌, ◌++◌, length, remove};
ghost use Rattle.std.specs.Prelude.{if◌then◌else◌, Some, IfSome, IfOk, IfErr, OnOk, MatchResult, IsTrue, vec_capacity};
ghost use Rattle.std.specs.Option.{option_copied};
ghost use Rattle.reh_types.specs.declared.calls.Call.TheVariants as call;
ghost use Rattle.reh_types.specs.declared.limits.TheConstants.{MAX_LINES};
ghost use Rattle.reh_types.specs.declared.moves.Move.TheVariants.{Post};
ghost use Rattle.reh_types.specs.declared.moves.Reply.TheVariants.{Done, Issued, Refused};
ghost use Rattle.reh_types.specs.declared.refusals.Refusal.TheVariants.{NotOut};
ghost use Rattle.reh_model.specs.Book.{new_book, ticket, is_written, ticket_place, Legal};
ghost use Rattle.reh_model.specs.Scan as model;
ghost use Rattle.reh_model.specs.Session.{state_of, reply_to, session_after};
ghost use Rattle.reh_desk.specs.Callers.{none_out, with_line, with_out, caller_after};
ghost use Rattle.reh_desk.specs.Kept.{line, opened, Called};
ghost use Rattle.reh_desk.specs.Replies.{checked_out, spent, discarded};
ghost use Rattle.reh_desk.specs.Seats.{new_seat, own_line};
ghost use Rattle.reh_desk.specs.Unspent.{number_of, aim_of};

use crate::callers::{Bare, Caller};
use crate::seats::Seat;
use crate::tickets::{Finding, Stray, Ticket, Unspent};
use reh_cluster::State;
use reh_scan::{Job, aimed};
use reh_session::Session;
use reh_types::{Aim, Call, Content, Line, MAX_LINES, Move, OwnLine, Refusal, Reply, TicketOut};
use std::alloc::AllocError;
use std::marker::Model;

/// Why a finding could not be spent.
#[derive(Clone, Copy, PartialEq, Eq, Debug)]
pub enum SpendCause {
    /// Its ticket isn't out at that seat of the book.
    NotOut,
    /// There is no memory for the post, which would be accepted. The ticket stays out.
    NoMemory,
}

/// A finding that could not be spent, and why. Nothing has changed.
#[must_use]
pub struct SpendFault {
    pub finding: Finding,
    pub cause: SpendCause,
}

/// A session for several seats, which go by their numbers, with the tickets that are out and a tape of all calls.
///
/// Each call but those that are answered `NotOut`, `TapeFull` or `NoMemory` adds a line to the tape. Each ticket that
/// is out has a line reserved, so a spend or a discard of it never finds the tape full. A book is always where its tape
/// leads from the session that it opened on.
#[derive(Drop)]
pub struct Book {
    opening: Session,
    session: Session,
    lines: Vec<Line>,
    last_ticket: u32,
    out: Vec<TicketOut>,
}

impl Model for Book {
    ghost use Rattle.std.specs.Prelude.{vec_capacity};
    ghost use Rattle.reh_desk.specs.Kept.{Kept, IsKept, kept_of};

    ghost Value = { Kept };

    ghost view = { λ b. kept_of b.opening b.session b.lines.items b.last_ticket b.out.items };

    ghost invariant = { λ b.
        IsKept (kept_of b.opening b.session b.lines.items b.last_ticket b.out.items) (vec_capacity b.lines) };
}

impl Book {
    /// A book on this session, before its first call, and its one seat, of number 0. Where there is no memory for the
    /// copy of the session that it keeps, the session is handed back.
    pub fn open(session: Session) -> Result<(Book, Seat), (Session, AllocError)>
        ensures ok { IfOk result (λ r. (r.0 ≡ opened session) × (r.1 ≡ new_seat 0)) }
        ensures err { IfErr result (λ e. e.0 ≡ session) }
    {
        let seat = Seat::new(session.allocator(), 0);
        match Book::of(session) {
            Ok(book) => Ok((book, seat)),
            Err(back) => Err(back),
        }
    }

    /// A book on this session, before its first call, or the session, where there is no memory for a copy of it.
    pub(crate) fn of(session: Session) -> Result<Book, (Session, AllocError)>
        ensures ok { IfOk result (λ book. book ≡ opened session) }
        ensures err { IfErr result (λ e. e.0 ≡ session) }
    {
        let alloc = session.allocator();
        match session.clone_in() {
            Ok(opening) => Ok(Book {
                opening,
                session,
                lines: Vec::new(alloc),
                last_ticket: 0,
                out: Vec::new(alloc),
            }),
            Err(want) => Err((session, want)),
        }
    }

    /// Makes a move of the session for a seat, and answers it as the session does. Before that it is refused with
    /// `TapeFull`, where no line is left that isn't reserved, and then with `NoMemory`, where there is none for the
    /// line. Both, and running out of memory for the move, change nothing; any other reply adds its line.
    pub fn call(&mut self, seat: u32, step: Move) -> Reply
        ensures { Called self.old seat (call.Ask step) result self.new }
    {
        self.call_by(&mut Bare { number: seat }, step)
    }

    /// Issues a ticket to a seat, to scan the fragment of the aim as it stands now (`ticket`). It is refused with
    /// `TapeFull`, where not two lines are left that aren't reserved, one for this call and one for the ticket; and
    /// then with the aim's own refusal, which adds its line. `NoMemory` may stand in place of any answer but
    /// `TapeFull`. Both change nothing, and no refusal takes a number.
    pub fn checkout(&mut self, seat: u32, aim: Aim) -> Result<Ticket, Refusal>
        ensures called { Called self.old seat (call.Checkout aim) (checked_out result) self.new }
        ensures ticket { IfOk result (λ ticket. model.scan (state_of self.old.book.session) aim ≡ Some ticket.content) }
    {
        self.checkout_by(&mut Bare { number: seat }, aim)
    }

    /// Posts what a seat found with a ticket. The ticket is out no more then, whether the session accepts the post or
    /// refuses it, and the line that was reserved for it is this call's. It fails where the ticket isn't out at this
    /// seat, or where there is no memory for a post that would be accepted; nothing has changed then, and the finding
    /// is handed back.
    pub fn spend(&mut self, seat: u32, finding: Finding) -> Result<Reply, SpendFault>
        ensures called { Called self.old seat (call.Spend finding.number finding.content) (spent result) self.new }
        ensures written { IfOk result (λ reply. IsTrue (is_written reply)) }
        ensures back { IfErr result (λ fault. fault.finding ≡ finding) }
    {
        self.spend_by(&mut Bare { number: seat }, finding)
    }

    /// Takes a seat's ticket back, scanned or not, so that it is out no more; the line that was reserved for it is this
    /// call's. It takes no memory. It fails where the ticket isn't out at this seat; nothing has changed then, and what
    /// was discarded is handed back as a stray.
    pub fn discard(&mut self, seat: u32, unspent: Unspent) -> Result<(), Stray>
        ensures called { Called self.old seat
            (call.Discard (number_of unspent) (aim_of unspent)) (discarded result) self.new }
        ensures back { IfErr result (λ stray. stray ≡ unspent) }
    {
        self.discard_by(&mut Bare { number: seat }, unspent)
    }

    /// The session's state now; a book always has it.
    pub fn whole(&self) -> Option<&State>
        ensures { option_copied result ≡ Some (state_of self.now.book.session) }
    {
        Some(self.session.state())
    }

    /// How many tickets are out.
    pub fn out(&self) -> u32
        ensures { result ≡ length self.now.book.out }
    {
        self.out.len() as u32
    }

    /// The session now.
    pub fn session(&self) -> &Session
        ensures { result.now ≡ self.now.book.session }
    {
        &self.session
    }

    /// The session that the book opened on.
    pub fn opening(&self) -> &Session
        ensures { result.now ≡ self.now.opening }
    {
        &self.opening
    }

    /// The lines of the tape, oldest first. From the session that the book opened on they lead to where it is
    /// (`legal`), and with one for each ticket that is out there are at most 200,000 (`few`).
    pub fn tape(&self) -> &[Line]
        ensures tape { result.now ≡ self.now.tape }
        ensures legal { Legal (new_book self.now.opening) self.now.tape self.now.book }
        ensures few { length self.now.tape + length self.now.book.out ≤ MAX_LINES }
    {
        &self.lines
    }

    /// The session as it is now, and the tape that leads to it.
    pub(crate) fn into_parts(self) -> (Session, Vec<Line>)
        ensures session { result.0 ≡ self.book.session }
        ensures tape { result.1.items ≡ self.tape }
        ensures legal { Legal (new_book self.opening) self.tape self.book }
    {
        let Book {
            opening,
            session,
            lines,
            last_ticket: _,
            out: _,
        } = self;
        close(opening);
        (session, lines)
    }
}

impl Book {
    /// A move of a caller.
    pub(crate) fn call_by<C: Caller>(&mut self, caller: &mut C, step: Move) -> Reply
        ensures called { Called self.old (C.shown caller.old).number (call.Ask step) result self.new }
        ensures caller { C.shown caller.new ≡ caller_after C.keeps (C.shown caller.old) (call.Ask step) result }
    {
        let seat = caller.number();
        let reserved = self.out.len();
        if let Err(refusal) = make_room(&mut self.lines, reserved, caller, 1) {
            return Reply::Refused(refusal);
        }
        let copy = match step.clone_in() {
            Ok(copy) => Call::Ask(copy),
            Err(want) => return Reply::Refused(Refusal::from(want)),
        };
        let reply = self.session.perform(&step);
        if is_written(&reply) {
            let call = Call::Ask(step);
            write(&mut self.lines, caller, tape_line(seat, call, &reply), copy);
        }
        reply
    }

    /// A ticket for a caller. One that counts as many tickets out as a tape may have lines gets `TapeFull`.
    pub(crate) fn checkout_by<C: Caller>(
        &mut self,
        caller: &mut C,
        aim: Aim,
    ) -> Result<Ticket, Refusal>
        ensures called { (C.shown caller.old).out ≤ length self.old.book.out
            → Called self.old (C.shown caller.old).number (call.Checkout aim) (checked_out result) self.new }
        ensures issued { IfOk result (λ ticket.
            Called self.old (C.shown caller.old).number (call.Checkout aim) (Issued ticket.number) self.new) }
        ensures caller { C.shown caller.new
            ≡ caller_after C.keeps (C.shown caller.old) (call.Checkout aim) (checked_out result) }
        ensures aim { IfOk result (λ ticket. ticket.content.aim ≡ aim) }
        ensures ticket { IfOk result (λ ticket. model.scan (state_of self.old.book.session) aim ≡ Some ticket.content) }
    {
        if caller.has_most_out() {
            return Err(Refusal::TapeFull);
        }
        let seat = caller.number();
        let reserved = self.out.len();
        make_room(&mut self.lines, reserved, caller, 2)?;
        if let Err(refusal) = aimed(self.session.state(), &aim) {
            // The borrow checker wants a second name for what is used twice and may name a bookie.
            let reason = refusal;
            let reply = Reply::Refused(reason);
            write_checkout(&mut self.lines, caller, seat, &aim, &reply);
            return Err(refusal);
        }
        self.out.reserve(1)?;
        let job = Job::of(self.session.allocator(), self.session.state(), &aim)?;
        let number = self.last_ticket + 1;
        let reply = Reply::Issued(number);
        self.last_ticket = number;
        self.out.push_reserved(TicketOut { seat, number, aim });
        write_checkout(&mut self.lines, caller, seat, &aim, &reply);
        caller.count_issue();
        Ok(Ticket::new(number, job))
    }

    /// The post of what a caller found. One that counts no ticket out spends none.
    pub(crate) fn spend_by<C: Caller>(
        &mut self,
        caller: &mut C,
        finding: Finding,
    ) -> Result<Reply, SpendFault>
        ensures called { none_out C.keeps (C.shown caller.old) ≡ false
            → Called self.old (C.shown caller.old).number
            (call.Spend finding.number finding.content) (spent result) self.new }
        ensures none { none_out C.keeps (C.shown caller.old) ≡ true
            → (spent result ≡ Refused NotOut) × (self.new ≡ self.old) }
        ensures caller { C.shown caller.new
            ≡ caller_after C.keeps (C.shown caller.old) (call.Spend finding.number finding.content) (spent result) }
        ensures written { IfOk result (λ reply. IsTrue (is_written reply)) }
        ensures back { IfErr result (λ fault. fault.finding ≡ finding) }
    {
        let seat = caller.number();
        let number = finding.number();
        let aim = finding.aim();
        let Some(place) = own_place(&self.out, caller, number, &aim) else {
            let cause = SpendCause::NotOut;
            return Err(SpendFault { finding, cause });
        };
        let reply = match post(&mut self.session, finding.content()) {
            Ok(reply) => reply,
            Err(cause) => return Err(SpendFault { finding, cause }),
        };
        let (content, second) = finding.into_contents();
        let call = Call::Spend { number, content };
        let copy = Call::Spend {
            number,
            content: second,
        };
        end_ticket(&mut self.out, caller, place);
        write(&mut self.lines, caller, tape_line(seat, call, &reply), copy);
        Ok(reply)
    }

    /// A ticket that a caller gives back. One that counts no ticket out gives none back.
    pub(crate) fn discard_by<C: Caller>(
        &mut self,
        caller: &mut C,
        unspent: Unspent,
    ) -> Result<(), Stray>
        ensures called { none_out C.keeps (C.shown caller.old) ≡ false
            → Called self.old (C.shown caller.old).number
            (call.Discard (number_of unspent) (aim_of unspent)) (discarded result) self.new }
        ensures none { none_out C.keeps (C.shown caller.old) ≡ true
            → (discarded result ≡ Refused NotOut) × (self.new ≡ self.old) }
        ensures caller { C.shown caller.new ≡ caller_after C.keeps (C.shown caller.old)
            (call.Discard (number_of unspent) (aim_of unspent)) (discarded result) }
        ensures back { IfErr result (λ stray. stray ≡ unspent) }
    {
        let seat = caller.number();
        let number = unspent.number();
        let aim = unspent.aim();
        let Some(place) = own_place(&self.out, caller, number, &aim) else {
            return Err(Stray::new(unspent));
        };
        let call = Call::Discard { number, aim };
        let copy = Call::Discard {
            number,
            aim: unspent.aim(),
        };
        let reply = Reply::Discarded;
        end_ticket(&mut self.out, caller, place);
        write(&mut self.lines, caller, Line { seat, call, reply }, copy);
        unspent.end();
        Ok(())
    }
}

/// Gives back the memory of a session. Where it would be dropped, each function would have a proof of that of its own.
pub(crate) fn close(_session: Session) {}

/// Makes room for so many lines on the tape beside the reserved ones, and in the caller's list, unless the tape may not
/// have as many, or there is no memory.
fn make_room<C: Caller>(
    lines: &mut Vec<Line>,
    reserved: usize,
    caller: &mut C,
    wanted: u32,
) -> Result<(), Refusal>
    requires few { length lines.old.items + reserved ≤ MAX_LINES }
    requires wanted { wanted ≤ 2 }
    ensures items { lines.new.items ≡ lines.old.items }
    ensures capacity { vec_capacity lines.old ≤ vec_capacity lines.new }
    ensures shown { C.shown caller.new ≡ C.shown caller.old }
    ensures room { OnOk result (length lines.old.items + reserved + wanted ≤ vec_capacity lines.new) }
    ensures own_room { OnOk result ((n : ℕ) → n ≤ wanted → C.has_room caller.new n) }
    ensures full { MatchResult result
        (λ _. length lines.old.items + reserved + wanted ≤ MAX_LINES)
        (λ refusal. refusal ≡ (if nat_lt MAX_LINES (length lines.old.items + reserved + wanted)
        then Refusal.TapeFull else Refusal.NoMemory)) }
{
    let more = reserved + wanted as usize;
    if lines.len() + more > MAX_LINES {
        return Err(Refusal::TapeFull);
    }
    caller.reserve(wanted)?;
    lines.reserve(more)?;
    Ok(())
}

/// Writes a line on the tape and, with a copy of its call, in the caller's list.
fn write<C: Caller>(lines: &mut Vec<Line>, caller: &mut C, line: Line, copy: Call)
    requires room { length lines.old.items < vec_capacity lines.old }
    requires own_room { C.has_room caller.old 1 }
    requires same { copy ≡ line.call }
    ensures lines { lines.new.items ≡ lines.old.items ++ line ∷ [] }
    ensures capacity { vec_capacity lines.old ≤ vec_capacity lines.new }
    ensures own_line { C.shown caller.new ≡ with_line C.keeps (C.shown caller.old) (own_line line.call line.reply) }
    ensures left { (n : ℕ) → C.has_room caller.old (n + 1) → C.has_room caller.new n }
{
    let own = OwnLine {
        call: copy,
        reply: line.reply,
    };
    lines.push_reserved(line);
    caller.add(own);
}

/// Writes the line of a checkout on the tape and in the caller's list.
fn write_checkout<C: Caller>(
    lines: &mut Vec<Line>,
    caller: &mut C,
    seat: u32,
    aim: &Aim,
    reply: &Reply,
)
    requires room { length lines.old.items < vec_capacity lines.old }
    requires own_room { C.has_room caller.old 1 }
    ensures lines { lines.new.items ≡ lines.old.items ++ line seat (call.Checkout aim.now) reply.now ∷ [] }
    ensures capacity { vec_capacity lines.old ≤ vec_capacity lines.new }
    ensures own_line { C.shown caller.new
        ≡ with_line C.keeps (C.shown caller.old) (own_line (call.Checkout aim.now) reply.now) }
    ensures left { (n : ℕ) → C.has_room caller.old (n + 1) → C.has_room caller.new n }
{
    let line = tape_line(seat, Call::Checkout(*aim), reply);
    write(lines, caller, line, Call::Checkout(*aim));
}

/// A line of the tape.
fn tape_line(seat: u32, call: Call, reply: &Reply) -> Line
    ensures { result ≡ line seat call reply.now }
{
    Line {
        seat,
        call,
        reply: *reply,
    }
}

/// Where a caller's ticket stands among those that are out, if it is out, and the caller counts any.
fn own_place<C: Caller>(out: &[TicketOut], caller: &C, number: u32, aim: &Aim) -> Option<usize>
    ensures counted { IfSome result (λ _. none_out C.keeps (C.shown caller.now) ≡ false) }
    ensures place { none_out C.keeps (C.shown caller.now) ≡ false
        → result ≡ ticket_place (ticket (C.shown caller.now).number number aim.now) out.now }
    ensures within { IfSome result (λ place. place < length out.now) }
{
    if caller.has_none_out() {
        return None;
    }
    ticket_place(out, caller.number(), number, aim)
}

/// Where a seat's ticket stands among those that are out, if it is out.
fn ticket_place(out: &[TicketOut], seat: u32, number: u32, aim: &Aim) -> Option<usize>
    ensures place { result ≡ ticket_place (ticket seat number aim.now) out.now }
    ensures within { IfSome result (λ place. place < length out.now) }
{
    let ticket = TicketOut {
        seat,
        number,
        aim: *aim,
    };
    out.iter().position(|other| *other == ticket)
}

/// Takes a caller's ticket from those that are out, which leaves its line to be written.
fn end_ticket<C: Caller>(out: &mut Vec<TicketOut>, caller: &mut C, place: usize)
    requires within { place < length out.old.items }
    requires counted { none_out C.keeps (C.shown caller.old) ≡ false }
    ensures out { out.new.items ≡ remove out.old.items place }
    ensures fewer { length out.new.items + 1 ≡ length out.old.items }
    ensures shown { C.shown caller.new ≡ with_out C.keeps (C.shown caller.old) ((C.shown caller.old).out - 1) }
    ensures room { C.has_room caller.new 1 }
{
    out.remove(place);
    caller.count_end();
}

/// Whether a call with this reply adds a line to the tape.
fn is_written(reply: &Reply) -> bool
    ensures { result ≡ is_written reply.now }
{
    match reply {
        Reply::Refused(Refusal::NotOut | Refusal::TapeFull | Refusal::NoMemory) => false,
        _ => true,
    }
}

/// Posts what was found, and answers it, or that there is no memory for it.
fn post(session: &mut Session, content: &Content) -> Result<Reply, SpendCause>
    ensures { MatchResult result
        (λ reply. (reply ≡ reply_to session.old (Post content.now))
        × (session.new ≡ session_after session.old (Post content.now) reply))
        (λ cause. (cause ≡ SpendCause.NoMemory) × (reply_to session.old (Post content.now) ≡ Done)
        × (session.new ≡ session.old)) }
{
    match session.post(content) {
        Ok(()) => Ok(Reply::Done),
        Err(Refusal::NoMemory) => Err(SpendCause::NoMemory),
        Err(refusal) => Ok(Reply::Refused(refusal)),
    }
}
