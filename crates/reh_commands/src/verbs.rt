// The commands: one table.
ghost use Rattle.std.specs.Prelude.{◌≡◌};
ghost use Rattle.std.specs.Str.{bytes_eq};
ghost use Rattle.reh_types.specs.declared.moves.Event.TheVariants.{Roll, Copy, Swap};
ghost use Rattle.reh_types.specs.declared.moves.Move.TheVariants.{Do};
ghost use Rattle.reh_commands.specs.declared.commands.Command.TheVariants.{Make};
ghost use Rattle.reh_commands.specs.Printed as printed;
ghost use Rattle.reh_commands.specs.Script as script;

use crate::commands::Command;
use crate::words::{Arguments, Role};
use reh_types::{Aim, Event, LedgerId, Move};
use std::fmt;

/// The word of a bookie.
const BOOKIE: &[Role] = &[Role::Bookie];

/// The word of a worker.
const WORKER: &[Role] = &[Role::Worker];

/// The words of a worker and a ledger with a task.
const TASK: &[Role] = &[Role::Worker, Role::Ledger];

/// The words of a ledger, an index of its last ensemble, and the bookie that takes it.
const ROLL: &[Role] = &[Role::Ledger, Role::Index, Role::Bookie];

/// The words of a worker, a ledger, a fragment, and an index of its ensemble.
const PLACE: &[Role] = &[Role::Worker, Role::Ledger, Role::Fragment, Role::Index];

/// The words of a worker, a ledger, a fragment, an index of its ensemble, and the ledger's version.
const MEMBER: &[Role] = &[
    Role::Worker,
    Role::Ledger,
    Role::Fragment,
    Role::Index,
    Role::Version,
];

/// The verbs, one for each command. Each is printed as its command is written, with the roles of its words.
#[derive(Clone, Copy)]
pub enum Verb {
    Lose,
    Join,
    Audit,
    Acquire,
    Release,
    Finish,
    Expire,
    Grace,
    Tick,
    Roll,
    Fence,
    Seal,
    Copy,
    Swap,
    Disable,
    Enable,
    Undo,
    Redo,
    Clock,
    Checkout,
    Spend,
    Discard,
    Report,
    Survey,
}

/// What the table says of a verb: its name, the roles of the words after it, and what its command does.
#[derive(Clone, Copy)]
struct VerbRow {
    name: &'static str,
    roles: &'static [Role],
    summary: &'static str,
}

impl VerbRow {
    /// The row of these.
    #[inline(always)]
    fn new(name: &'static str, roles: &'static [Role], summary: &'static str) -> VerbRow
        ensures { result ≡ record { name = name.entry; roles = roles.entry; summary = summary.entry } }
    {
        VerbRow {
            name,
            roles,
            summary,
        }
    }
}

impl Verb {
    /// All verbs. Each is the one that its name finds among them.
    #[tactic(auto, unfolding(crate::specs::Script::verbs))]
    pub fn all() -> [Verb; 24]
        ensures all { result ≡ script.verbs }
        ensures each { (verb : Self) → script.verb_of (script.form_of verb).name ≡ Some verb }
    {
        [
            Verb::Lose,
            Verb::Join,
            Verb::Audit,
            Verb::Acquire,
            Verb::Release,
            Verb::Finish,
            Verb::Expire,
            Verb::Grace,
            Verb::Tick,
            Verb::Roll,
            Verb::Fence,
            Verb::Seal,
            Verb::Copy,
            Verb::Swap,
            Verb::Disable,
            Verb::Enable,
            Verb::Undo,
            Verb::Redo,
            Verb::Clock,
            Verb::Checkout,
            Verb::Spend,
            Verb::Discard,
            Verb::Report,
            Verb::Survey,
        ]
    }

    /// The verb that a word names, if it names one.
    #[tactic(auto, unfolding(crate::specs::Script::verbs))]
    #[inline(always)]
    pub fn of(word: &[u8]) -> Option<Verb>
        ensures { result ≡ script.verb_of word.now }
    {
        match word {
            _ if Verb::Lose.is(word) => Some(Verb::Lose),
            _ if Verb::Join.is(word) => Some(Verb::Join),
            _ if Verb::Audit.is(word) => Some(Verb::Audit),
            _ if Verb::Acquire.is(word) => Some(Verb::Acquire),
            _ if Verb::Release.is(word) => Some(Verb::Release),
            _ if Verb::Finish.is(word) => Some(Verb::Finish),
            _ if Verb::Expire.is(word) => Some(Verb::Expire),
            _ if Verb::Grace.is(word) => Some(Verb::Grace),
            _ if Verb::Tick.is(word) => Some(Verb::Tick),
            _ if Verb::Roll.is(word) => Some(Verb::Roll),
            _ if Verb::Fence.is(word) => Some(Verb::Fence),
            _ if Verb::Seal.is(word) => Some(Verb::Seal),
            _ if Verb::Copy.is(word) => Some(Verb::Copy),
            _ if Verb::Swap.is(word) => Some(Verb::Swap),
            _ if Verb::Disable.is(word) => Some(Verb::Disable),
            _ if Verb::Enable.is(word) => Some(Verb::Enable),
            _ if Verb::Undo.is(word) => Some(Verb::Undo),
            _ if Verb::Redo.is(word) => Some(Verb::Redo),
            _ if Verb::Clock.is(word) => Some(Verb::Clock),
            _ if Verb::Checkout.is(word) => Some(Verb::Checkout),
            _ if Verb::Spend.is(word) => Some(Verb::Spend),
            _ if Verb::Discard.is(word) => Some(Verb::Discard),
            _ if Verb::Report.is(word) => Some(Verb::Report),
            _ if Verb::Survey.is(word) => Some(Verb::Survey),
            _ => None,
        }
    }

    /// Whether a word names it.
    #[inline(always)]
    fn is(self, word: &[u8]) -> bool
        ensures { result ≡ bytes_eq (script.form_of self).name word.now }
    {
        self.name().as_bytes() == word
    }

    /// The word that names it.
    #[inline(always)]
    pub fn name(self) -> &'static str
        ensures { result.now ≡ (script.form_of self).name }
    {
        self.row().name
    }

    /// The roles of the words after it.
    #[inline(always)]
    pub fn roles(self) -> &'static [Role]
        ensures { result.now ≡ (script.form_of self).roles }
    {
        self.row().roles
    }

    /// What its command does, in a few words.
    pub fn summary(self) -> &'static str {
        self.row().summary
    }

    /// Its row of the table.
    #[inline(always)]
    fn row(self) -> VerbRow
        ensures name { result.name.now ≡ (script.form_of self).name }
        ensures roles { result.roles.now ≡ (script.form_of self).roles }
    {
        match self {
            Verb::Lose => VerbRow::new("lose", BOOKIE, "the bookie's registration is lost"),
            Verb::Join => VerbRow::new("join", BOOKIE, "the bookie registers again"),
            Verb::Audit => VerbRow::new(
                "audit",
                &[],
                "missing members are published after the delay",
            ),
            Verb::Acquire => VerbRow::new("acquire", TASK, "the worker locks the ledger's task"),
            Verb::Release => VerbRow::new("release", TASK, "the worker gives the lock back"),
            Verb::Finish => VerbRow::new("finish", TASK, "the ledger's task ends, with its lock"),
            Verb::Expire => VerbRow::new(
                "expire",
                WORKER,
                "the worker's session and its locks end",
            ),
            Verb::Grace => VerbRow::new("grace", TASK, "the worker grants the writer a grace"),
            Verb::Tick => VerbRow::new("tick", &[Role::Ticks], "the clock goes on by N ticks"),
            Verb::Roll => VerbRow::new("roll", ROLL, "the writer puts the bookie at the index"),
            Verb::Fence => VerbRow::new("fence", TASK, "the worker fences the writer off"),
            Verb::Seal => VerbRow::new("seal", TASK, "the worker recovers and closes the ledger"),
            Verb::Copy => VerbRow::new("copy", MEMBER, "the worker's bookie takes the copies"),
            Verb::Swap => VerbRow::new("swap", MEMBER, "the worker's bookie takes the place"),
            Verb::Disable => VerbRow::new("disable", &[], "AutoRecovery is disabled"),
            Verb::Enable => VerbRow::new("enable", &[], "AutoRecovery is enabled again"),
            Verb::Undo => VerbRow::new("undo", &[], "the newest event is undone"),
            Verb::Redo => VerbRow::new("redo", &[], "the event undone last is made again"),
            Verb::Clock => VerbRow::new("clock", &[], "the clock is read"),
            Verb::Checkout => VerbRow::new(
                "checkout",
                PLACE,
                "what a scan finds goes into the hand",
            ),
            Verb::Spend => VerbRow::new("spend", &[], "the oldest finding of the hand is posted"),
            Verb::Discard => VerbRow::new("discard", &[], "the oldest finding is given back"),
            Verb::Report => VerbRow::new("report", &[], "the cluster is shown as it is"),
            Verb::Survey => VerbRow::new("survey", &[], "what can't be read any more is counted"),
        }
    }

    /// The command that these arguments make.
    #[inline(always)]
    pub(crate) fn make(self, a: Arguments) -> Command
        ensures { result ≡ (script.form_of self).make a }
    {
        let (bookie, worker) = (a.bookie, a.bookie);
        let (ledger, ticks) = (LedgerId(a.first), a.first);
        match self {
            Verb::Lose => event(Event::Lose { bookie }),
            Verb::Join => event(Event::Join { bookie }),
            Verb::Audit => event(Event::Audit),
            Verb::Acquire => event(Event::Acquire { worker, ledger }),
            Verb::Release => event(Event::Release { worker, ledger }),
            Verb::Finish => event(Event::Finish { worker, ledger }),
            Verb::Expire => event(Event::Expire { worker }),
            Verb::Grace => event(Event::Grace { worker, ledger }),
            Verb::Tick => event(Event::Tick { ticks }),
            Verb::Roll => event(roll(a)),
            Verb::Fence => event(Event::Fence { worker, ledger }),
            Verb::Seal => event(Event::Seal { worker, ledger }),
            Verb::Copy => event(copy(a)),
            Verb::Swap => event(swap(a)),
            Verb::Disable => event(Event::Disable),
            Verb::Enable => event(Event::Enable),
            Verb::Undo => Command::Make(Move::Undo),
            Verb::Redo => Command::Make(Move::Redo),
            Verb::Clock => Command::Make(Move::Look),
            Verb::Checkout => Command::Checkout(aim(a)),
            Verb::Spend => Command::Spend,
            Verb::Discard => Command::Discard,
            Verb::Report => Command::Report,
            Verb::Survey => Command::Survey,
        }
    }
}

impl fmt::Display for Verb {
    ghost use Rattle.std.specs.Prelude.{Some};
    ghost use Rattle.reh_commands.specs.Usage.{verb_text};

    ghost output = { λ verb. Some (verb_text verb) };

    fn fmt<W: fmt::Write>(&self, f: &mut fmt::Formatter<W>) -> fmt::Result {
        f.write_str(self.name())?;
        for role in self.roles() {
            write!(f, " {role}")?;
        }
        Ok(())
    }
}

/// The command that makes an event.
fn event(event: Event) -> Command
    ensures { result ≡ Make (Do event) }
{
    Command::Make(Move::Do(event))
}

/// The writer's change of the ensemble that the arguments name.
fn roll(a: Arguments) -> Event
    ensures { result ≡ Roll a.first a.second a.bookie }
{
    Event::Roll {
        ledger: LedgerId(a.first),
        index: a.second,
        bookie: a.bookie,
    }
}

/// The aim that the arguments name.
fn aim(a: Arguments) -> Aim
    ensures { result ≡ script.aim_of a }
{
    Aim {
        worker: a.bookie,
        ledger: LedgerId(a.first),
        fragment: a.second,
        index: a.third,
    }
}

/// The copy that the arguments name.
fn copy(a: Arguments) -> Event
    ensures { result ≡ Copy a.bookie a.first a.second a.third a.fourth }
{
    Event::Copy {
        worker: a.bookie,
        ledger: LedgerId(a.first),
        fragment: a.second,
        index: a.third,
        version: a.fourth,
    }
}

/// The swap that the arguments name.
fn swap(a: Arguments) -> Event
    ensures { result ≡ Swap a.bookie a.first a.second a.third a.fourth }
{
    Event::Swap {
        worker: a.bookie,
        ledger: LedgerId(a.first),
        fragment: a.second,
        index: a.third,
        version: a.fourth,
    }
}
