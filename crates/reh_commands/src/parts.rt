// What a command is made of: its verb, and what the words after the verb name.
ghost use Rattle.std.specs.Prelude.{◌≡◌, IfSome};
ghost use Rattle.reh_types.specs.declared.moves.Move.TheVariants.{Do};
ghost use Rattle.reh_commands.specs.declared.commands.Command.TheVariants.{Make};
ghost use Rattle.reh_commands.specs.Printed as printed;
ghost use Rattle.reh_commands.specs.Script as script;

use crate::commands::Command;
use crate::verbs::Verb;
use crate::words::Arguments;
use reh_types::{BookieIx, Event, LedgerId, Move};

/// A command's verb, and the arguments of which the verb makes it. No verb makes the post of a content.
pub(crate) fn command_parts(command: &Command) -> Option<(Verb, Arguments)>
    ensures parts { result ≡ printed.command_parts command.now }
    ensures made { IfSome result (λ parts. (script.form_of parts.0).make parts.1 ≡ command.now) }
{
    match command {
        Command::Make(Move::Do(event)) => Some(event_parts(event)),
        Command::Make(Move::Post(_)) => None,
        Command::Make(Move::Undo) => Some(alone(Verb::Undo)),
        Command::Make(Move::Redo) => Some(alone(Verb::Redo)),
        Command::Make(Move::Look) => Some(alone(Verb::Clock)),
        Command::Checkout(aim) => Some(of_place(
            Verb::Checkout,
            aim.worker,
            aim.ledger,
            aim.fragment,
            aim.index,
            0,
        )),
        Command::Spend => Some(alone(Verb::Spend)),
        Command::Discard => Some(alone(Verb::Discard)),
        Command::Report => Some(alone(Verb::Report)),
        Command::Survey => Some(alone(Verb::Survey)),
    }
}

/// An event's verb, and what the event is about, of which the verb makes it: a bookie, a worker and a ledger, a place at
/// a version, ticks, or nothing.
pub(crate) fn event_parts(event: &Event) -> (Verb, Arguments)
    ensures parts { result ≡ printed.event_parts event.now }
    ensures made { (script.form_of result.0).make result.1 ≡ Make (Do event.now) }
{
    match event {
        Event::Lose { bookie } => of_bookie(Verb::Lose, *bookie),
        Event::Join { bookie } => of_bookie(Verb::Join, *bookie),
        Event::Audit => alone(Verb::Audit),
        Event::Acquire { worker, ledger } => of_task(Verb::Acquire, *worker, *ledger),
        Event::Release { worker, ledger } => of_task(Verb::Release, *worker, *ledger),
        Event::Finish { worker, ledger } => of_task(Verb::Finish, *worker, *ledger),
        Event::Expire { worker } => of_bookie(Verb::Expire, *worker),
        Event::Grace { worker, ledger } => of_task(Verb::Grace, *worker, *ledger),
        Event::Tick { ticks } => (Verb::Tick, Arguments::none().with_number(*ticks)),
        Event::Roll {
            ledger,
            index,
            bookie,
        } => of_roll(*ledger, *index, *bookie),
        Event::Fence { worker, ledger } => of_task(Verb::Fence, *worker, *ledger),
        Event::Seal { worker, ledger } => of_task(Verb::Seal, *worker, *ledger),
        Event::Copy {
            worker,
            ledger,
            fragment,
            index,
            version,
        } => of_place(Verb::Copy, *worker, *ledger, *fragment, *index, *version),
        Event::Swap {
            worker,
            ledger,
            fragment,
            index,
            version,
        } => of_place(Verb::Swap, *worker, *ledger, *fragment, *index, *version),
        Event::Disable => alone(Verb::Disable),
        Event::Enable => alone(Verb::Enable),
    }
}

/// A verb without words after it.
fn alone(verb: Verb) -> (Verb, Arguments)
    ensures { result ≡ printed.alone verb }
{
    (verb, Arguments::none())
}

/// A verb and a bookie, or the worker of that bookie.
fn of_bookie(verb: Verb, bookie: BookieIx) -> (Verb, Arguments)
    ensures { result ≡ printed.of_bookie verb bookie }
{
    (verb, Arguments::none().with_bookie(bookie))
}

/// A verb, a worker and a ledger.
fn of_task(verb: Verb, worker: BookieIx, ledger: LedgerId) -> (Verb, Arguments)
    ensures { result ≡ printed.of_task verb worker ledger }
{
    let arguments = Arguments::none().with_number(ledger.0);
    (verb, arguments.with_bookie(worker))
}

/// The writer's change of a ledger's ensemble: the bookie comes to the index.
fn of_roll(ledger: LedgerId, index: u64, bookie: BookieIx) -> (Verb, Arguments)
    ensures { result ≡ printed.of_roll ledger index bookie }
{
    let arguments = Arguments {
        bookie,
        first: ledger.0,
        second: index,
        third: 0,
        fourth: 0,
    };
    (Verb::Roll, arguments)
}

/// A verb, a worker, and an index of a fragment's ensemble at a version of the ledger's metadata.
fn of_place(
    verb: Verb,
    worker: BookieIx,
    ledger: LedgerId,
    fragment: u64,
    index: u64,
    version: u64,
) -> (Verb, Arguments)
    ensures { result ≡ printed.of_place verb worker ledger fragment index version }
{
    let arguments = Arguments {
        bookie: worker,
        first: ledger.0,
        second: fragment,
        third: index,
        fourth: version,
    };
    (verb, arguments)
}
