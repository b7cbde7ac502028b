// A player: it makes the calls of a script at a counter, with a hand of findings.
ghost use Rattle.std.specs.Prelude.{◌≡◌, ◌++◌, ◌<◌, length, Some, IfOk, IfErr, Ok};
ghost use Rattle.reh_play.specs.Players.{GivesBack, IsAnswered};
ghost use Rattle.reh_crew.specs.declared.surveyors.SurveyFault.TheVariants.{NoMemory};
ghost use Rattle.reh_play.specs.Turns.{player, held, with_ticket, IsBegun, IsWanted};
ghost use Rattle.reh_commands.specs.declared.commands.Command.TheVariants as command;

use crate::answers::LineAnswer;
use crate::hand::Hand;
use reh_cluster::Names;
use reh_commands::{Command, LineFault};
use reh_crew::{SurveyFault, Surveyor};
use reh_desk::{Counter, Seat, SpendCause, SpendFault, Ticket, Unspent, scan};
use reh_types::{Aim, MAX_HAND, Move, Refusal, Reply};
use std::alloc::{AllocError, Global};

/// What a player has besides its seat and its hand: memory, the names of bookies, who makes its surveys, and who prints
/// what it answers.
#[derive(Drop)]
pub(crate) struct Tools<'a, V: Surveyor, P> {
    pub alloc: Global,
    pub names: &'a Names,
    pub surveyor: &'a V,
    pub printer: &'a P,
}

/// Why a line is not answered, and the ticket that could not be scanned, if there is one.
#[must_use]
pub(crate) struct Unanswered {
    pub fault: SurveyFault,
    pub ticket: Option<Ticket>,
}

impl From<AllocError> for Unanswered {
    ghost use Rattle.std.specs.Prelude.{◌≡◌, None};
    ghost use Rattle.reh_crew.specs.declared.surveyors.SurveyFault.TheVariants.{NoMemory};

    ghost from_gives = { λ _ unanswered. unanswered ≡ record { fault = NoMemory; ticket = None } };

    fn from(want: AllocError) -> Unanswered {
        Unanswered {
            fault: SurveyFault::from(want),
            ticket: None,
        }
    }
}

/// Answers what a line asks for.
pub(crate) fn answer<C: Counter, V: Surveyor, P>(
    tools: &Tools<V, P>,
    counter: &mut C,
    seat: &mut Seat,
    hand: &mut Hand,
    asked: Result<Command, LineFault>,
) -> Result<LineAnswer, Unanswered>
    requires may { C.may counter.old seat.old }
    requires surveys { V.surveys tools.now.surveyor.now }
    ensures may { C.may counter.new seat.new }
    ensures ok { IfOk result (λ answer. IsAnswered C.goes C.scene
        (player counter.old seat.old hand.old) asked answer
        (player counter.new seat.new hand.new)) }
    ensures err { IfErr result (λ u. IsBegun C.goes C.scene
        (player counter.old seat.old hand.old) asked
        (with_ticket counter.new seat.new hand.new u.ticket)) }
    ensures wanted { IfErr result (λ u. IsWanted u.fault (Some asked)) }
{
    match asked {
        Ok(Command::Make(step)) => make(counter, seat, hand, step),
        Ok(Command::Checkout(aim)) => check_out(tools.alloc, counter, seat, hand, aim),
        Ok(Command::Spend) => spend(counter, seat, hand),
        Ok(Command::Discard) => Ok(discard(counter, seat, hand)),
        Ok(Command::Report) => Ok(LineAnswer::Report),
        Ok(Command::Survey) => survey(tools, counter, seat, hand),
        Err(fault) => Ok(LineAnswer::Faulty(fault)),
    }
}

/// Makes a move.
fn make<C: Counter>(
    counter: &mut C,
    seat: &mut Seat,
    hand: &Hand,
    step: Move,
) -> Result<LineAnswer, Unanswered>
    requires { C.may counter.old seat.old }
    ensures may { C.may counter.new seat.new }
    ensures ok { IfOk result (λ answer. IsAnswered C.goes C.scene
        (player counter.old seat.old hand.now) (Ok (command.Make step)) answer
        (player counter.new seat.new hand.now)) }
    ensures err { IfErr result (λ u. IsBegun C.goes C.scene
        (player counter.old seat.old hand.now) (Ok (command.Make step))
        (with_ticket counter.new seat.new hand.now u.ticket)) }
    ensures wanted { IfErr result (λ u. u.fault ≡ NoMemory) }
{
    match counter.call(seat, step) {
        Reply::Refused(Refusal::NoMemory) => Err(Unanswered::from(AllocError)),
        reply => Ok(LineAnswer::Said(reply)),
    }
}

/// Takes a ticket for an aim, and scans it.
fn check_out<C: Counter>(
    alloc: Global,
    counter: &mut C,
    seat: &mut Seat,
    hand: &mut Hand,
    aim: Aim,
) -> Result<LineAnswer, Unanswered>
    requires { C.may counter.old seat.old }
    ensures may { C.may counter.new seat.new }
    ensures ok { IfOk result (λ answer. IsAnswered C.goes C.scene
        (player counter.old seat.old hand.old) (Ok (command.Checkout aim)) answer
        (player counter.new seat.new hand.new)) }
    ensures err { IfErr result (λ u. IsBegun C.goes C.scene
        (player counter.old seat.old hand.old) (Ok (command.Checkout aim))
        (with_ticket counter.new seat.new hand.new u.ticket)) }
    ensures wanted { IfErr result (λ u. u.fault ≡ NoMemory) }
{
    if hand.len() >= MAX_HAND {
        return Ok(LineAnswer::Said(Reply::Refused(Refusal::HandFull)));
    }
    match counter.checkout(seat, aim) {
        Ok(ticket) => {
            let number = ticket.number();
            match scan(alloc, ticket) {
                Ok(finding) => {
                    hand.add(finding);
                    Ok(LineAnswer::Said(Reply::Issued(number)))
                }
                Err((ticket, want)) => Err(Unanswered {
                    fault: SurveyFault::from(want),
                    ticket: Some(ticket),
                }),
            }
        }
        Err(Refusal::NoMemory) => Err(Unanswered::from(AllocError)),
        Err(refusal) => Ok(LineAnswer::Said(Reply::Refused(refusal))),
    }
}

/// Spends the oldest finding. One whose ticket is not out stays the oldest.
fn spend<C: Counter>(
    counter: &mut C,
    seat: &mut Seat,
    hand: &mut Hand,
) -> Result<LineAnswer, Unanswered>
    requires { C.may counter.old seat.old }
    ensures may { C.may counter.new seat.new }
    ensures ok { IfOk result (λ answer. IsAnswered C.goes C.scene
        (player counter.old seat.old hand.old) (Ok command.Spend) answer
        (player counter.new seat.new hand.new)) }
    ensures err { IfErr result (λ u. IsBegun C.goes C.scene
        (player counter.old seat.old hand.old) (Ok command.Spend)
        (with_ticket counter.new seat.new hand.new u.ticket)) }
    ensures wanted { IfErr result (λ u. u.fault ≡ NoMemory) }
{
    let Some(finding) = hand.oldest() else {
        return Ok(LineAnswer::Said(Reply::Refused(Refusal::HandEmpty)));
    };
    match counter.spend(seat, finding) {
        Ok(reply) => Ok(LineAnswer::Said(reply)),
        Err(fault) => {
            let SpendFault { finding, cause } = fault;
            hand.put_back(finding);
            match cause {
                SpendCause::NotOut => Ok(LineAnswer::Said(Reply::Refused(Refusal::NotOut))),
                SpendCause::NoMemory => Err(Unanswered::from(AllocError)),
            }
        }
    }
}

/// Gives the oldest finding back. One whose ticket is not out is forfeited.
fn discard<C: Counter>(counter: &mut C, seat: &mut Seat, hand: &mut Hand) -> LineAnswer
    requires { C.may counter.old seat.old }
    ensures may { C.may counter.new seat.new }
    ensures done { IsAnswered C.goes C.scene
        (player counter.old seat.old hand.old) (Ok command.Discard) result
        (player counter.new seat.new hand.new) }
{
    let Some(finding) = hand.oldest() else {
        return LineAnswer::Said(Reply::Refused(Refusal::HandEmpty));
    };
    match counter.discard(seat, Unspent::Scanned(finding)) {
        Ok(()) => LineAnswer::Said(Reply::Discarded),
        Err(stray) => {
            stray.forfeit();
            LineAnswer::Said(Reply::Refused(Refusal::NotOut))
        }
    }
}

/// Surveys the state that the counter shows.
fn survey<C: Counter, V: Surveyor, P>(
    tools: &Tools<V, P>,
    counter: &C,
    seat: &Seat,
    hand: &Hand,
) -> Result<LineAnswer, Unanswered>
    requires { V.surveys tools.now.surveyor.now }
    ensures ok { IfOk result (λ answer. IsAnswered C.goes C.scene
        (player counter.now seat.now hand.now) (Ok command.Survey) answer
        (player counter.now seat.now hand.now)) }
    ensures err { IfErr result (λ u. IsBegun C.goes C.scene
        (player counter.now seat.now hand.now) (Ok command.Survey)
        (with_ticket counter.now seat.now hand.now u.ticket)) }
{
    let Some(state) = counter.whole() else {
        return Ok(LineAnswer::Hidden);
    };
    match tools.surveyor.survey(tools.alloc, state) {
        Ok(lines) => Ok(LineAnswer::Survey(lines)),
        Err(fault) => Err(Unanswered {
            fault,
            ticket: None,
        }),
    }
}

/// Gives back a hand, the oldest first, and last a ticket that could not be scanned.
pub(crate) fn give_back<C: Counter>(
    counter: &mut C,
    seat: &mut Seat,
    hand: Hand,
    ticket: Option<Ticket>,
)
    requires { C.may counter.old seat.old }
    ensures may { C.may counter.new seat.new }
    ensures given { GivesBack C.goes counter.old seat.old (hand ++ held ticket) counter.new seat.new }
{
    give_hand_back(counter, seat, hand);
    let Some(ticket) = ticket else {
        return;
    };
    match counter.discard(seat, Unspent::Unscanned(ticket)) {
        Ok(()) => {}
        Err(stray) => stray.forfeit(),
    }
}

/// Gives back a hand, the oldest first.
fn give_hand_back<C: Counter>(counter: &mut C, seat: &mut Seat, hand: Hand)
    requires { C.may counter.old seat.old }
    ensures may { C.may counter.new seat.new }
    ensures given { GivesBack C.goes counter.old seat.old hand counter.new seat.new }
{
    let mut hand = hand;
    while let Some(finding) = hand.oldest() {
        match counter.discard(seat, Unspent::Scanned(finding)) {
            Ok(()) => {}
            Err(stray) => stray.forfeit(),
        }
    }
    hand.end();
}
