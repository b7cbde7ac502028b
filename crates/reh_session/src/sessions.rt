// Sessions, which can undo and redo.
ghost use Rattle.std.specs.Prelude.{◌≡◌, ℕ, nat_le, All, ◌+◌, ◌<◌, ◌≤◌, ◌∷◌, [], ◌++◌, length, take, drop, Some};
ghost use Rattle.std.specs.Prelude.{◌↔◌, IsTrue, IsSome, IfOk, OnErr, OnOk, vec_capacity};
ghost use Rattle.reh_types.specs.declared.limits.TheConstants.{MAX_EVENTS};
ghost use Rattle.std.specs.Result.{IsOkAnd};
ghost use Rattle.reh_model.specs.Session.{replay as replayed};

use reh_cluster::{Changes, State};
use reh_scan::find_posted;
use reh_step::{check_event, copy_record, decide};
use reh_types::{Content, Event, MAX_EVENTS, Move, Refusal, Reply};
use std::alloc::{AllocError, Global};
use std::marker::Model;

/// The events that were made on a cluster, with undo and redo.
///
/// Contracts see the opening cluster, the surviving events and the undone ones. No field keeps the opening cluster: it
/// is the one to which the records of the surviving events lead back.
#[derive(Drop)]
pub struct Session {
    state: State,
    events: Vec<Event>,
    records: Vec<Changes>,
    cursor: usize,
}

impl Model for Session {
    ghost use Rattle.reh_model.specs.Session as model;
    ghost use Rattle.reh_session.specs.Kept.{session_of, IsKept};

    ghost Value = { model.Session };

    ghost view = { λ s. session_of s.state s.events.items s.records.items s.cursor };

    ghost invariant = { λ s. IsKept s.state s.events.items s.records.items s.cursor };
}

impl Session {
    ghost use Rattle.std.specs.Prelude.{None};
    ghost use Rattle.reh_types.specs.declared.moves.Move.TheVariants.{Do, Post, Undo, Redo};
    ghost use Rattle.reh_model.specs.Session.{opened_session, state_of, Answers, Performs, Run, reply_of};
    ghost use Rattle.reh_model.specs.Step.{refusal_of};
    ghost use Rattle.reh_model.specs.Swaps.{HoldsStripe, IsSafe, IsSafeRun, AllSafe};
    ghost use Rattle.reh_session.specs.Kept.{led_back, led_on, Trail, Ahead};
    ghost use Rattle.reh_step.specs.Records.{IsRecordOf};

    /// A session on this state, with no event. It takes no memory and cannot fail.
    pub fn open(alloc: Global, state: State) -> Result<Session, AllocError>
        ensures { IsOkAnd result (λ session. session ≡ opened_session state) }
    {
        state.assert_well_formed();
        Ok(Session {
            state,
            events: Vec::new(alloc),
            records: Vec::new(alloc),
            cursor: 0,
        })
    }

    /// Whether both are the same session: the same opening state, and the same events done and undone. It takes no
    /// memory.
    ///
    /// The opening states are not there to be compared: sessions with the same state and the same surviving events have
    /// the same one exactly where the records of these events are the same.
    pub fn same(&self, other: &Session) -> bool
        ensures { IsTrue result ↔ (self.now ≡ other.now) }
    {
        self.cursor == other.cursor
            && self.events == other.events
            && self.state.same(&other.state)
            && are_same(&self.records[..self.cursor], &other.records[..other.cursor])
    }

    /// A copy, on the session's own allocator.
    pub fn clone_in(&self) -> Result<Session, AllocError>
        ensures { IfOk result (λ copy. copy ≡ self.now) }
    {
        let records = clone_records(self.allocator(), &self.records)?;
        let events = self.events.clone()?;
        Ok(Session {
            state: self.state.clone_in()?,
            events,
            records,
            cursor: self.cursor,
        })
    }

    /// The allocator from which the session takes its memory.
    pub fn allocator(&self) -> Global {
        *self.events.allocator()
    }

    /// The state now: the surviving events, replayed from the opening state. Each swap among them still keeps
    /// its promise here, whatever was done, undone and redone since.
    pub fn state(&self) -> &State
        ensures replays { replayed self.now.opening self.now.done ≡ Some result.now }
        ensures lasting { All (HoldsStripe result.now) self.now.done }
    {
        &self.state
    }

    /// The surviving events, oldest first.
    pub fn done(&self) -> &[Event]
        ensures { result.now ≡ self.now.done }
    {
        &self.events[..self.cursor]
    }

    /// The undone events, of which the first is redone next. All of them can be redone, and with those that survive
    /// there are at most 100,000.
    pub fn undone(&self) -> &[Event]
        ensures events { result.now ≡ self.now.undone }
        ensures redoable { IsSome (replayed self.now.opening (self.now.done ++ self.now.undone)) }
        ensures few { length self.now.done + length self.now.undone ≤ MAX_EVENTS }
    {
        &self.events[self.cursor..]
    }

    /// The records of these events: first those of the surviving ones, oldest first, each of which leads back over its
    /// event (`trail`); and then those of the undone ones, each of which makes its event again (`ahead`). Each has
    /// exactly one change for each place in which its event made a difference.
    pub fn records(&self) -> &[Changes]
        ensures count { length result.now ≡ length self.now.done + length self.now.undone }
        ensures trail { Trail self.now.opening self.now.done (take (length self.now.done) result.now)
            (state_of self.now) }
        ensures ahead { Ahead (state_of self.now) self.now.undone (drop (length self.now.done) result.now) }
        ensures back { (k : ℕ) → k ≤ length self.now.done → replayed self.now.opening (take k self.now.done)
            ≡ Some (led_back (state_of self.now) (drop k (take (length self.now.done) result.now))) }
        ensures forth { (k : ℕ) → k ≤ length self.now.undone
            → replayed self.now.opening (self.now.done ++ take k self.now.undone)
            ≡ Some (led_on (state_of self.now) (take k (drop (length self.now.done) result.now))) }
    {
        &self.records
    }

    /// Makes an event, unless it is refused: by the event's own refusals first, then by `Full`, and then for lack of
    /// memory. A refused event changes nothing.
    ///
    /// No swap that is made loses an entry (`safe`): the worker's bookie holds each one that the fragment stripes
    /// onto the index. While the swap survives it stays so (`lasting`).
    pub fn act(&mut self, event: &Event) -> Result<(), Refusal>
        ensures answers { Performs self.old (Do event.now) (reply_of result) self.new }
        ensures safe { IsSafe (state_of self.old) (Do event.now) (reply_of result) }
        ensures lasting { AllSafe self.new }
    {
        if self.is_full() {
            check_event(&self.state, event)?;
            return Err(Refusal::Full);
        }
        let changes = decide(self.allocator(), &self.state, event)?;
        self.make(*event, changes)
    }

    /// Posts what a worker found, unless it is refused: by the refusals of a post first, then by `Full`, and then for
    /// lack of memory. A refused post changes nothing. An accepted one is the copy to its aim at its version, which
    /// survives, and is undone, as that event.
    pub fn post(&mut self, content: &Content) -> Result<(), Refusal>
        ensures answers { Performs self.old (Post content.now) (reply_of result) self.new }
        ensures lasting { AllSafe self.new }
    {
        let entries = find_posted(&self.state, content)?;
        if self.is_full() {
            return Err(Refusal::Full);
        }
        let aim = content.aim;
        let version = content.version;
        let changes = copy_record(self.allocator(), &self.state, &aim, version, entries)?;
        let copy = Event::Copy {
            worker: aim.worker,
            ledger: aim.ledger,
            fragment: aim.fragment,
            index: aim.index,
            version,
        };
        self.make(copy, changes)
    }

    /// Whether as many events survive as there can be.
    fn is_full(&self) -> bool
        ensures { result ≡ nat_le MAX_EVENTS (length self.now.done) }
    {
        self.done().len() >= MAX_EVENTS
    }

    /// Makes an event that is accepted by its record. There has to be room for it.
    fn make(&mut self, event: Event, mut changes: Changes) -> Result<(), Refusal>
        requires accepted { refusal_of (state_of self.old) event ≡ None }
        requires record_of { IsRecordOf (state_of self.old) event changes }
        requires room { length self.old.done < MAX_EVENTS }
        ensures { Performs self.old (Do event) (reply_of result) self.new }
    {
        reserve_next(&mut self.events, self.cursor)?;
        reserve_next(&mut self.records, self.cursor)?;
        self.state.exchange(&mut changes);
        keep(&mut self.events, self.cursor, event);
        keep(&mut self.records, self.cursor, changes);
        self.cursor += 1;
        Ok(())
    }

    /// Undoes the newest surviving event. It takes no memory, and cannot fail but for `NothingToUndo`, which changes
    /// nothing.
    pub fn undo(&mut self) -> Result<(), Refusal>
        ensures answers { Answers self.old Undo (reply_of result) self.new }
        ensures lasting { AllSafe self.new }
    {
        if self.cursor == 0 {
            return Err(Refusal::NothingToUndo);
        }
        self.state.exchange(&mut self.records[self.cursor - 1]);
        self.cursor -= 1;
        Ok(())
    }

    /// Makes the event that was undone last once more. It takes no memory, and cannot fail but for `NothingToRedo`,
    /// which changes nothing.
    pub fn redo(&mut self) -> Result<(), Refusal>
        ensures answers { Answers self.old Redo (reply_of result) self.new }
        ensures lasting { AllSafe self.new }
    {
        if self.cursor == self.events.len() {
            return Err(Refusal::NothingToRedo);
        }
        self.state.exchange(&mut self.records[self.cursor]);
        self.cursor += 1;
        Ok(())
    }

    /// Makes one move, and answers it.
    pub fn perform(&mut self, step: &Move) -> Reply
        ensures answers { Performs self.old step.now result self.new }
        ensures safe { IsSafe (state_of self.old) step.now result }
        ensures lasting { AllSafe self.new }
    {
        let outcome = match step {
            Move::Do(event) => self.act(event),
            Move::Post(content) => self.post(content.as_content()),
            Move::Undo => self.undo(),
            Move::Redo => self.redo(),
            Move::Look => return Reply::Clock(self.state.clock()),
        };
        match outcome {
            Ok(()) => Reply::Done,
            Err(refusal) => Reply::Refused(refusal),
        }
    }

    /// Makes moves in order. Room for all answers is taken first, and where there is none, nothing changes.
    /// Later an event for which there is no memory is answered so, and the run goes on. No swap of the run loses an
    /// entry.
    pub fn run(&mut self, moves: &[Move]) -> Result<Vec<Reply>, AllocError>
        ensures run { IfOk result (λ replies. Run self.old moves.now replies.items self.new) }
        ensures safe { IfOk result (λ replies. IsSafeRun self.old moves.now replies.items) }
        ensures lasting { AllSafe self.new }
        ensures err { OnErr result (self.new ≡ self.old) }
    {
        // The check of this loop has to meet the type of a reply's refusal by its name.
        let _refusal: Option<Refusal> = None;
        let mut replies = Vec::with_capacity(*self.events.allocator(), moves.len())?;
        for step in moves {
            let reply = self.perform(step);
            replies.push(reply).unwrap();
        }
        Ok(replies)
    }
}

/// A copy of a list of records.
fn clone_records(alloc: Global, records: &Vec<Changes>) -> Result<Vec<Changes>, AllocError>
    ensures { IfOk result (λ copy. copy.items ≡ records.now.items) }
{
    let mut copy = Vec::with_capacity(alloc, records.len())?;
    for changes in records {
        copy.push(changes.clone_in()?)?;
    }
    Ok(copy)
}

/// Whether both are the same records, one by one.
fn are_same(records: &[Changes], others: &[Changes]) -> bool
    ensures { IsTrue result ↔ (records.now ≡ others.now) }
{
    if records.len() != others.len() {
        return false;
    }
    for index in 0..records.len() {
        if !records[index].same(&others[index]) {
            return false;
        }
    }
    true
}

/// Makes room for one element after the first `cursor`.
fn reserve_next<T>(items: &mut Vec<T>, cursor: usize) -> Result<(), AllocError>
    requires { cursor ≤ length items.old.items }
    ensures items { items.new.items ≡ items.old.items }
    ensures room { OnOk result (cursor < vec_capacity items.new) }
{
    if cursor < items.len() {
        return Ok(());
    }
    items.reserve(1)
}

/// Puts an element after the first `cursor`, where there is room for it, and drops what lay there.
fn keep<T: Drop>(items: &mut Vec<T>, cursor: usize, item: T)
    requires place { cursor ≤ length items.old.items }
    requires room { cursor < vec_capacity items.old }
    ensures { items.new.items ≡ take cursor items.old.items ++ item ∷ [] }
{
    items.truncate(cursor);
    items.push(item).unwrap();
}
