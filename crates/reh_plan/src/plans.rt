// A plan as it grows: a script beside the session on which its commands are made.
ghost use Rattle.std.specs.Prelude.{◌≡◌, ◌==◌, ◌+◌, ◌≤◌, ◌∷◌, ◌++◌, [], true, false, not, length, IfOk, OnOk, OnErr, None, Some, Ok};
ghost use Rattle.std.specs.Prelude.{IsTrue};
ghost use Rattle.reh_types.specs.declared.limits.TheConstants.{MAX_SCRIPT_BYTES};
ghost use Rattle.reh_model.specs.Book.{new_book};
ghost use Rattle.reh_model.specs.Session.{replay, opened_session};
ghost use Rattle.reh_types.specs.declared.moves.Move.TheVariants.{Do};
ghost use Rattle.reh_commands.specs.declared.commands.Command.TheVariants.{Make};
ghost use Rattle.reh_commands.specs.Answers.{asked};
ghost use Rattle.reh_lines.specs.Lines.{lines_of};
ghost use Rattle.reh_transcript.specs.Transcript.{starting, transcript};
ghost use Rattle.reh_plan.specs.Replies.{ok_answers};
ghost use Rattle.reh_plan.specs.Ends.{HasNoRoom, says_full};
ghost use Rattle.reh_plan.specs.Plans.{Asks, IsMade, Works, Loses, comment_of, is_nobodys, has_lf, loss_of, with_full};
ghost use Rattle.reh_plan.specs.Takers.{AreWellTaken};
ghost use Rattle.reh_plan.specs.Workers.{Rules, may_work};

use crate::faults::{PlanFault, StepFault, go_on};
use crate::racks::Racks;
use crate::reasons::Left;
use crate::takers::are_well_taken;
use crate::workers::Workers;
use reh_cluster::{Names, State};
use reh_commands::{Command, command_text, parse_line};
use reh_lines::first_line;
use reh_session::Session;
use reh_types::{BookieIx, Event, MAX_LEDGERS, MAX_SCRIPT_BYTES, Move, Refusal};
use std::alloc::{AllocError, Global};
use std::marker::Model;

/// How many bytes of a script are kept free for comments: 128 for each ledger that there can be. A comment on a ledger has fewer
/// than 100, so the one that the script is full has room, too.
const COMMENT_BYTES: usize = 128 * MAX_LEDGERS;

/// The comment that a script is full, and that something is left that could be done.
const FULL_LINE: &str = "# the script is full: plan again after it";

/// How many bytes a script has to have left, so that each further command has room: those for the comments, and 1,024 for the
/// command, whose name has at most 300.
const COMMAND_ROOM: usize = COMMENT_BYTES + 1024;

/// A script whose commands are accepted one after another, and where they lead.
///
/// Contracts see the cluster on which it begins, the one to which it leads, the events of its lines, and the lines.
#[derive(Drop)]
pub struct Plan {
    session: Session,
    text: Vec<u8>,
}

impl Model for Plan {
    ghost use Rattle.reh_plan.specs.Plans.{Draft, draft_of, IsDraft};

    ghost Value = { Draft };

    ghost view = { λ p. draft_of p.session p.text.items };

    ghost invariant = { λ p. IsDraft p.session p.text.items };
}

impl Plan {
    /// A plan on this state, without a line.
    pub(crate) fn begin(alloc: Global, state: State) -> Result<Plan, PlanFault>
        ensures { IfOk result (λ plan.
            plan ≡ record { opening = state; state = state; events = []; lines = [] }) }
    {
        Ok(Plan {
            session: Session::open(alloc, state)?,
            text: Vec::new(alloc),
        })
    }

    /// The script. Each of its lines is a comment or asks for an event (`asks`), and played from where the plan begins,
    /// each of these events is accepted (`accepted`): each line that has an answer is answered `ok` (`replies`). It is no
    /// longer than a script can be.
    pub fn text(&self) -> &[u8]
        ensures lines { lines_of result.now ≡ self.now.lines }
        ensures few { length result.now ≤ MAX_SCRIPT_BYTES }
        ensures asks { Asks self.now.opening.names self.now.lines self.now.events }
        ensures accepted { replay self.now.opening self.now.events ≡ Some self.now.state }
        ensures replies { transcript self.now.opening.names 0
            (starting (new_book (opened_session self.now.opening))) 1 self.now.lines
            ≡ ok_answers self.now.opening.names 1 self.now.lines }
    {
        let _replayed = self.session.state();
        let _few = self.session.undone();
        &self.text
    }

    /// The state to which the commands lead.
    pub fn state(&self) -> &State
        ensures { result.now ≡ self.now.state }
    {
        self.session.state()
    }

    /// The events of its commands.
    pub(crate) fn events(&self) -> &[Event]
        ensures { result.now ≡ self.now.events }
    {
        self.session.done()
    }

    /// Loses the bookie, if it is registered, and no other.
    pub(crate) fn lose(&mut self, bookie: BookieIx) -> Result<(), PlanFault>
        ensures { OnOk result (Loses self.old (λ b. bookie == b) (loss_of self.old.state bookie) self.new) }
    {
        if !self.state().is_up(bookie) {
            return Ok(());
        }
        match self.work(&Event::Lose { bookie }) {
            Ok(()) => Ok(()),
            Err(StepFault::Left) => Err(PlanFault::NoRoom),
            Err(StepFault::Fault(fault)) => Err(fault),
        }
    }

    /// Waits so many ticks, if any.
    pub(crate) fn wait(&mut self, ticks: u64) -> Result<(), PlanFault>
        ensures { (rules : Rules) → Works rules self.old self.new }
    {
        if ticks == 0 {
            return Ok(());
        }
        self.attempt(&Event::Tick { ticks })
    }

    /// Makes an event of no bookie and writes its command, where that can be done.
    pub(crate) fn attempt(&mut self, event: &Event) -> Result<(), PlanFault>
        requires { is_nobodys event.now ≡ true }
        ensures { (rules : Rules) → Works rules self.old self.new }
    {
        let attempted = self.work(event);
        go_on(attempted)
    }

    /// Makes an event and writes its command. Where the event is refused, or has no line, or there is no room for its line,
    /// nothing changes.
    pub(crate) fn work(&mut self, event: &Event) -> Result<(), StepFault>
        ensures ok { OnOk result (IsMade self.old event.now self.new) }
        ensures err { OnErr result (self.new ≡ self.old) }
    {
        let alloc = self.session.allocator();
        let command = Command::Make(Move::Do(*event));
        let Some(written) = command_text(alloc, self.session.state().names(), &command)? else {
            return Err(StepFault::Left);
        };
        let line = written.as_bytes();
        let length = self.text.len();
        if !has_room(length, line, COMMENT_BYTES) {
            return Err(StepFault::Left);
        }
        push_line(&mut self.text, line)?;
        match self.session.act(event) {
            Ok(()) => Ok(()),
            Err(refusal) => {
                self.text.truncate(length);
                Err(StepFault::from(refusal))
            }
        }
    }

    /// Whether these events would be accepted, one after another, and there is room for a further command. They are tried and
    /// taken back, so nothing changes.
    pub(crate) fn check_all(&mut self, events: &[Event]) -> Result<(), StepFault>
        ensures { self.new ≡ self.old }
    {
        if self.is_full() {
            return Err(StepFault::Left);
        }
        try_all(&mut self.session, events)?;
        Ok(())
    }

    /// Checks that each place that is taken by an event goes to a bookie with which the fewest write sets lack racks. The
    /// events are undone and made again, so nothing changes.
    pub(crate) fn check_takers(&mut self, workers: &Workers, racks: &Racks) -> Result<(), PlanFault>
        ensures same { self.new ≡ self.old }
        ensures taken { OnOk result
            (AreWellTaken (may_work workers.now.rules) racks.now self.old.opening self.old.events) }
    {
        if are_well_taken(&mut self.session, workers, racks) {
            Ok(())
        } else {
            Err(PlanFault::Unfinished)
        }
    }

    /// Whether there is no room for a further command, beside the comments on the ledgers that are left.
    pub(crate) fn is_full(&self) -> bool
        ensures { IsTrue result → HasNoRoom self.now.lines }
    {
        self.text.len() >= MAX_SCRIPT_BYTES - COMMAND_ROOM
    }

    /// Whether it says that its script is full.
    pub(crate) fn says_full(&self) -> bool
        ensures { result ≡ says_full self.now.lines }
    {
        has_full_line(&self.text)
    }

    /// Writes the comment that the script is full, if it is.
    pub(crate) fn tell_full(&mut self, full: bool) -> Result<(), PlanFault>
        ensures { OnOk result (self.new ≡ with_full full self.old) }
    {
        if full {
            self.remark(FULL_LINE.as_bytes())?;
        }
        Ok(())
    }

    /// Writes the comment that a ledger is left, and why.
    pub(crate) fn leave(&mut self, left: &Left) -> Result<(), PlanFault>
        ensures { OnOk result (self.new ≡ record self.old { lines = self.old.lines ++ comment_of left.now ∷ [] }) }
    {
        let alloc = self.session.allocator();
        let Left { ledger, reason } = *left;
        let id = ledger.0;
        let line = format!(in alloc; "# ledger {id} is left: {reason}")?;
        self.remark(line.as_bytes())
    }

    /// Writes a comment. It fails where there is no room for it, or where it is none.
    pub(crate) fn remark(&mut self, line: &[u8]) -> Result<(), PlanFault>
        ensures { OnOk result (self.new ≡ record self.old { lines = self.old.lines ++ line.now ∷ [] }) }
    {
        if !has_room(self.text.len(), line, 0) || !is_comment(self.session.state().names(), line) {
            return Err(PlanFault::NoRoom);
        }
        push_line(&mut self.text, line)?;
        Ok(())
    }
}

/// Whether a line of the script says that it is full.
fn has_full_line(script: &[u8]) -> bool
    ensures { result ≡ says_full (lines_of script.now) }
{
    let mut rest = script;
    while !rest.is_empty() {
        let (line, more) = first_line(rest);
        if FULL_LINE.as_bytes() == line {
            return true;
        }
        rest = more;
    }
    false
}

/// Makes these events and undoes them, or says why one is refused.
fn try_all(session: &mut Session, events: &[Event]) -> Result<(), Refusal>
    ensures opening { session.new.opening ≡ session.old.opening }
    ensures done { session.new.done ≡ session.old.done }
{
    let [event, rest @ ..] = events else {
        return Ok(());
    };
    session.act(event)?;
    let tried = try_all(session, rest);
    let _undone = session.undo();
    tried
}

/// Whether a script of so many bytes has room for a line, and for so many bytes after it.
fn has_room(written: usize, line: &[u8], spare: usize) -> bool
    requires { spare ≤ MAX_SCRIPT_BYTES }
    ensures { IsTrue result → written + (length line.now + 1) ≤ MAX_SCRIPT_BYTES }
{
    line.len() < MAX_SCRIPT_BYTES - spare && written < MAX_SCRIPT_BYTES - spare - line.len()
}

/// Adds a line with its LF, or else nothing.
pub(crate) fn push_line(text: &mut Vec<u8>, line: &[u8]) -> Result<(), AllocError>
    ensures ok { OnOk result (text.new.items ≡ text.old.items ++ (line.now ++ 10 ∷ [])) }
    ensures err { OnErr result (text.new.items ≡ text.old.items) }
{
    text.reserve(line.len() + 1)?;
    text.extend_from_slice(line).unwrap();
    text.push(b'\n').unwrap();
    Ok(())
}

/// Whether a line asks for nothing and has no answer.
fn is_comment(names: &Names, line: &[u8]) -> bool
    ensures line { IsTrue result → has_lf line.now ≡ false }
    ensures asked { IsTrue result → asked names.now line.now ≡ None }
{
    is_line(line) && parse_line(names, line).is_none()
}

/// Whether a text is one line, without an LF.
fn is_line(text: &[u8]) -> bool
    ensures { result ≡ not (has_lf text.now) }
{
    !text.contains(&b'\n')
}
