// Answering the lines of a script.
ghost use Rattle.std.specs.Prelude.{◌≡◌, ◌+◌, ◌^◌, ◌≤◌, ◌<◌, ◌++◌, ◌⊎◌, ℕ, List, [], None, true, false, Ok, Err, length};
ghost use Rattle.std.specs.Prelude.{string_bytes, IfOk, IfErr, OnOk, OnErr, MatchResult};
ghost use Rattle.std.specs.Io.KnownBytes.{Appends, IsAtEnd, prepend_known};
ghost use Rattle.reh_commands.specs.Answers.{asked};
ghost use Rattle.reh_lines.specs.Lines.{lines_of, answered_lines};
ghost use Rattle.reh_play.specs.Players.{setting, setting_by, seated, Takes, Begins};
ghost use Rattle.reh_play.specs.Plays.{stop_of, IsPlayed, Plays, GoesOut, is_write_fault};
ghost use Rattle.reh_lines.specs.Streams.{Grows};
ghost use Rattle.reh_play.specs.Turns.{player, with_ticket, IsWanted, GoesOn, Halts, PlaysTo};

use crate::faults::PlayFault;
use crate::hand::Hand;
use crate::players::{Tools, Unanswered, answer, give_back};
use crate::printers::{AnswersAlone, Printer};
use reh_cluster::Names;
use reh_commands::parse_line;
use reh_crew::Surveyor;
use reh_desk::{Counter, Seat, Ticket};
use reh_lines::{
    Progress, StreamFault, TextIn, TextOut, first_line, front, read_on, whole_lines, write_all,
};
use reh_types::MAX_SCRIPT_BYTES;
use std::alloc::{AllocError, Global};

/// Why lines are not all answered, and a ticket that could not be scanned, if there is one.
#[must_use]
struct Stopped {
    fault: PlayFault,
    ticket: Option<Ticket>,
}

impl Stopped {
    /// For this fault, with no ticket at hand.
    fn of(fault: PlayFault) -> Stopped
        ensures { result ≡ record { fault = fault; ticket = None } }
    {
        Stopped {
            fault,
            ticket: None,
        }
    }
}

impl From<StreamFault> for Stopped {
    ghost use Rattle.std.specs.Prelude.{◌≡◌, None};
    ghost use Rattle.reh_play.specs.declared.faults.PlayFault.TheVariants.{WriteFault};

    ghost from_gives = { λ _ stopped. stopped ≡ record { fault = WriteFault; ticket = None } };

    fn from(_lost: StreamFault) -> Stopped {
        Stopped::of(PlayFault::WriteFault)
    }
}

impl From<AllocError> for Stopped {
    ghost use Rattle.std.specs.Prelude.{◌≡◌, None};
    ghost use Rattle.reh_play.specs.declared.faults.PlayFault.TheVariants.{NoMemory};

    ghost from_gives = { λ _ stopped. stopped ≡ record { fault = NoMemory; ticket = None } };

    fn from(want: AllocError) -> Stopped {
        Stopped::of(PlayFault::from(want))
    }
}

/// Reads a script and answers its lines in order, by a seat of a counter, with the bookies of these names.
///
/// All lines that are complete are answered, and their answers handed on, before more is read. A script that is too
/// long, and one after which a read fails, have the lines answered that end in time. Whatever ends the play, it gives
/// back what it has neither spent nor given back. Where it ends out of memory, or without a thread, the answers of the last
/// lines are written, and not yet handed on.
pub fn play<C: Counter, V: Surveyor, R: TextIn, W: TextOut>(
    alloc: Global,
    counter: &mut C,
    seat: &mut Seat,
    names: &Names,
    surveyor: &V,
    reader: &mut R,
    writer: &mut W,
) -> Result<(), PlayFault>
    requires may { C.may counter.old seat.old }
    requires surveys { V.surveys surveyor.now }
    requires reads { R.has_failed reader.old ≡ false }
    requires writes { W.has_failed writer.old ≡ false }
    ensures may { C.may counter.new seat.new }
    ensures plays { Plays (setting C.goes C.scene names.now) result
        (R.has_failed reader.new) (R.remaining reader.old) (R.remaining reader.new)
        (seated counter.old seat.old) (seated counter.new seat.new)
        (W.contents writer.old) (W.contents writer.new) }
    ensures prompt { (reader.new ≡ reader.old) ⊎ GoesOut (setting C.goes C.scene names.now)
        (R.remaining reader.old) (R.before reader.new) (seated counter.old seat.old)
        (W.contents writer.old) (W.seen writer.new) }
    ensures ended { OnOk result (IsAtEnd (R.remaining reader.new)) }
    ensures finished { OnOk result (R.at_end reader.new ≡ true) }
    ensures seen { OnOk result (W.seen writer.new ≡ W.contents writer.new) }
    ensures write { W.has_failed writer.new ≡ is_write_fault result }
    ensures calls { R.calls reader.new ≤ R.calls reader.old + (MAX_SCRIPT_BYTES + 1) }
{
    play_by(
        alloc,
        counter,
        seat,
        names,
        surveyor,
        &AnswersAlone,
        reader,
        writer,
    )
}

/// A `play` of a script whose first bytes are at hand: these come before what the reader gives.
pub fn play_on<C: Counter, V: Surveyor, R: TextIn, W: TextOut>(
    alloc: Global,
    counter: &mut C,
    seat: &mut Seat,
    names: &Names,
    surveyor: &V,
    script: Vec<u8>,
    reader: &mut R,
    writer: &mut W,
) -> Result<(), PlayFault>
    requires may { C.may counter.old seat.old }
    requires surveys { V.surveys surveyor.now }
    requires few { length script.items ≤ MAX_SCRIPT_BYTES }
    requires reads { R.has_failed reader.old ≡ false }
    requires writes { W.has_failed writer.old ≡ false }
    ensures may { C.may counter.new seat.new }
    ensures plays { Plays (setting C.goes C.scene names.now) result (R.has_failed reader.new)
        (prepend_known script.items (R.remaining reader.old)) (R.remaining reader.new)
        (seated counter.old seat.old) (seated counter.new seat.new)
        (W.contents writer.old) (W.contents writer.new) }
    ensures prompt { (reader.new ≡ reader.old) ⊎ GoesOut (setting C.goes C.scene names.now)
        (prepend_known script.items (R.remaining reader.old)) (R.before reader.new)
        (seated counter.old seat.old) (W.contents writer.old) (W.seen writer.new) }
    ensures ended { OnOk result (IsAtEnd (R.remaining reader.new)) }
    ensures finished { OnOk result (R.at_end reader.new ≡ true) }
    ensures seen { OnOk result (W.seen writer.new ≡ W.contents writer.new) }
    ensures write { W.has_failed writer.new ≡ is_write_fault result }
    ensures calls { R.calls reader.new ≤ R.calls reader.old + (MAX_SCRIPT_BYTES + 1) }
{
    play_on_by(
        alloc,
        counter,
        seat,
        names,
        surveyor,
        &AnswersAlone,
        script,
        reader,
        writer,
    )
}

/// A `play` of which a printer says what is printed of each line.
pub fn play_by<C: Counter, V: Surveyor, P: Printer<C>, R: TextIn, W: TextOut>(
    alloc: Global,
    counter: &mut C,
    seat: &mut Seat,
    names: &Names,
    surveyor: &V,
    printer: &P,
    reader: &mut R,
    writer: &mut W,
) -> Result<(), PlayFault>
    requires may { C.may counter.old seat.old }
    requires surveys { V.surveys surveyor.now }
    requires reads { R.has_failed reader.old ≡ false }
    requires writes { W.has_failed writer.old ≡ false }
    ensures may { C.may counter.new seat.new }
    ensures plays { Plays (setting_by C.goes C.scene P.prints names.now) result
        (R.has_failed reader.new) (R.remaining reader.old) (R.remaining reader.new)
        (seated counter.old seat.old) (seated counter.new seat.new)
        (W.contents writer.old) (W.contents writer.new) }
    ensures prompt { (reader.new ≡ reader.old) ⊎ GoesOut (setting_by C.goes C.scene P.prints names.now)
        (R.remaining reader.old) (R.before reader.new) (seated counter.old seat.old)
        (W.contents writer.old) (W.seen writer.new) }
    ensures ended { OnOk result (IsAtEnd (R.remaining reader.new)) }
    ensures finished { OnOk result (R.at_end reader.new ≡ true) }
    ensures seen { OnOk result (W.seen writer.new ≡ W.contents writer.new) }
    ensures write { W.has_failed writer.new ≡ is_write_fault result }
    ensures calls { R.calls reader.new ≤ R.calls reader.old + (MAX_SCRIPT_BYTES + 1) }
{
    let script = Vec::new(alloc);
    play_on_by(
        alloc, counter, seat, names, surveyor, printer, script, reader, writer,
    )
}

/// A `play_by` of a script whose first bytes are at hand.
fn play_on_by<C: Counter, V: Surveyor, P: Printer<C>, R: TextIn, W: TextOut>(
    alloc: Global,
    counter: &mut C,
    seat: &mut Seat,
    names: &Names,
    surveyor: &V,
    printer: &P,
    script: Vec<u8>,
    reader: &mut R,
    writer: &mut W,
) -> Result<(), PlayFault>
    requires may { C.may counter.old seat.old }
    requires surveys { V.surveys surveyor.now }
    requires few { length script.items ≤ MAX_SCRIPT_BYTES }
    requires reads { R.has_failed reader.old ≡ false }
    requires writes { W.has_failed writer.old ≡ false }
    ensures may { C.may counter.new seat.new }
    ensures plays { Plays (setting_by C.goes C.scene P.prints names.now) result (R.has_failed reader.new)
        (prepend_known script.items (R.remaining reader.old)) (R.remaining reader.new)
        (seated counter.old seat.old) (seated counter.new seat.new)
        (W.contents writer.old) (W.contents writer.new) }
    ensures prompt { (reader.new ≡ reader.old) ⊎ GoesOut (setting_by C.goes C.scene P.prints names.now)
        (prepend_known script.items (R.remaining reader.old)) (R.before reader.new)
        (seated counter.old seat.old) (W.contents writer.old) (W.seen writer.new) }
    ensures ended { OnOk result (IsAtEnd (R.remaining reader.new)) }
    ensures finished { OnOk result (R.at_end reader.new ≡ true) }
    ensures seen { OnOk result (W.seen writer.new ≡ W.contents writer.new) }
    ensures write { W.has_failed writer.new ≡ is_write_fault result }
    ensures calls { R.calls reader.new ≤ R.calls reader.old + (MAX_SCRIPT_BYTES + 1) }
{
    let mut hand = Hand::new(alloc)?;
    let tools = Tools {
        alloc,
        names,
        surveyor,
        printer,
    };
    match answer_reads(&tools, counter, seat, &mut hand, script, reader, writer) {
        Ok(()) => {
            give_back(counter, seat, hand, None);
            Ok(())
        }
        Err(stopped) => {
            let Stopped { fault, ticket } = stopped;
            give_back(counter, seat, hand, ticket);
            Err(fault)
        }
    }
}

/// Reads on in a script whose first bytes are at hand, and answers its lines, those that are complete before it reads on.
fn answer_reads<C: Counter, V: Surveyor, P: Printer<C>, R: TextIn, W: TextOut>(
    tools: &Tools<V, P>,
    counter: &mut C,
    seat: &mut Seat,
    hand: &mut Hand,
    script: Vec<u8>,
    reader: &mut R,
    writer: &mut W,
) -> Result<(), Stopped>
    requires may { C.may counter.old seat.old }
    requires surveys { V.surveys tools.now.surveyor.now }
    requires few { length script.items ≤ MAX_SCRIPT_BYTES }
    requires reads { R.has_failed reader.old ≡ false }
    requires writes { W.has_failed writer.old ≡ false }
    ensures may { C.may counter.new seat.new }
    ensures ok { OnOk result (PlaysTo (setting_by C.goes C.scene P.prints tools.now.names.now) (Ok tt)
        (R.has_failed reader.new) (prepend_known script.items (R.remaining reader.old)) (R.remaining reader.new)
        (player counter.old seat.old hand.old) (player counter.new seat.new hand.new)
        (W.contents writer.old) (W.contents writer.new)) }
    ensures err { IfErr result (λ s. PlaysTo (setting_by C.goes C.scene P.prints tools.now.names.now) (Err s.fault)
        (R.has_failed reader.new) (prepend_known script.items (R.remaining reader.old)) (R.remaining reader.new)
        (player counter.old seat.old hand.old) (with_ticket counter.new seat.new hand.new s.ticket)
        (W.contents writer.old) (W.contents writer.new)) }
    ensures prompt { (reader.new ≡ reader.old) ⊎ GoesOut (setting_by C.goes C.scene P.prints tools.now.names.now)
        (prepend_known script.items (R.remaining reader.old)) (R.before reader.new)
        (player counter.old seat.old hand.old)
        (W.contents writer.old) (W.seen writer.new) }
    ensures ended { OnOk result (IsAtEnd (R.remaining reader.new)) }
    ensures finished { OnOk result (R.at_end reader.new ≡ true) }
    ensures seen { OnOk result (W.seen writer.new ≡ W.contents writer.new) }
    ensures write { MatchResult result
        (λ _. W.has_failed writer.new ≡ false)
        (λ s. W.has_failed writer.new ≡ is_write_fault (Err s.fault)) }
    ensures calls { R.calls reader.new ≤ R.calls reader.old + (MAX_SCRIPT_BYTES + 1) }
{
    let mut script = script;
    let mut done = 0;
    let mut number = 0;
    let mut read = Progress::Lines(whole_lines(&script).len());
    while let Progress::Lines(end) = read {
        let lines = &script[done..end];
        number = answer_lines(tools, counter, seat, hand, number, lines, writer)?;
        done = end;
        writer.flush()?;
        read = read_on(reader, &mut script)?;
    }
    match read {
        Progress::Lines(_) | Progress::End => {}
        Progress::Failed => return Err(Stopped::of(PlayFault::ReadFault)),
        Progress::TooLong => return Err(Stopped::of(PlayFault::TooLong)),
    }
    answer_lines(tools, counter, seat, hand, number, &script[done..], writer)?;
    writer.flush()?;
    Ok(())
}

/// Answers the lines of a script, and gives the hand back.
pub(crate) fn answer_script<C: Counter, V: Surveyor, P: Printer<C>, W: TextOut>(
    tools: &Tools<V, P>,
    counter: &mut C,
    seat: &mut Seat,
    hand: Hand,
    script: &[u8],
    writer: &mut W,
) -> Result<(), PlayFault>
    requires may { C.may counter.old seat.old }
    requires surveys { V.surveys tools.now.surveyor.now }
    requires writes { W.has_failed writer.old ≡ false }
    ensures may { C.may counter.new seat.new }
    ensures played { IsPlayed (setting_by C.goes C.scene P.prints tools.now.names.now)
        (answered_lines false script.now) (stop_of false script.now) result
        (player counter.old seat.old hand) (seated counter.new seat.new)
        (W.contents writer.old) (W.contents writer.new) }
    ensures write { W.has_failed writer.new ≡ is_write_fault result }
{
    let mut hand = hand;
    let (lines, stop) = answered(script);
    match answer_lines(tools, counter, seat, &mut hand, 0, lines, writer) {
        Ok(_) => {
            give_back(counter, seat, hand, None);
            match stop {
                None => Ok(()),
                Some(fault) => Err(fault),
            }
        }
        Err(stopped) => {
            let Stopped { fault, ticket } = stopped;
            give_back(counter, seat, hand, ticket);
            Err(fault)
        }
    }
}

/// The text of a script whose lines are answered, and why no more are.
fn answered(script: &[u8]) -> (&[u8], Option<PlayFault>)
    ensures lines { lines_of result.0.now ≡ answered_lines false script.now }
    ensures stop { result.1 ≡ stop_of false script.now }
{
    if script.len() > MAX_SCRIPT_BYTES {
        let first = front(script, MAX_SCRIPT_BYTES);
        return (whole_lines(first), Some(PlayFault::TooLong));
    }
    (script, None)
}

/// Answers the lines of a text in order, which come after so many others, and says after how many the next stands.
fn answer_lines<C: Counter, V: Surveyor, P: Printer<C>, W: TextOut>(
    tools: &Tools<V, P>,
    counter: &mut C,
    seat: &mut Seat,
    hand: &mut Hand,
    before: usize,
    text: &[u8],
    writer: &mut W,
) -> Result<usize, Stopped>
    requires may { C.may counter.old seat.old }
    requires surveys { V.surveys tools.now.surveyor.now }
    requires writes { W.has_failed writer.old ≡ false }
    requires few { before + length text.now < 2 ^ 64 }
    ensures may { C.may counter.new seat.new }
    ensures ok { IfOk result (λ number. GoesOn (setting_by C.goes C.scene P.prints tools.now.names.now)
        before (lines_of text.now) number []
        (player counter.old seat.old hand.old) (player counter.new seat.new hand.new)
        (W.contents writer.old) (W.contents writer.new)) }
    ensures few { IfOk result (λ number. number ≤ before + length text.now) }
    ensures err { IfErr result (λ s. Halts (setting_by C.goes C.scene P.prints tools.now.names.now)
        before (lines_of text.now) s.fault
        (player counter.old seat.old hand.old) (with_ticket counter.new seat.new hand.new s.ticket)
        (W.contents writer.old) (W.contents writer.new)) }
    ensures seen { Grows (W.seen writer.old) (W.seen writer.new) }
    ensures write { MatchResult result
        (λ _. W.has_failed writer.new ≡ false)
        (λ s. W.has_failed writer.new ≡ is_write_fault (Err s.fault)) }
{
    let mut rest = text;
    let mut number = before;
    let mut answer = String::new(tools.alloc);
    while !rest.is_empty() {
        number += 1;
        let (line, more) = first_line(rest);
        match answer_line(tools, counter, seat, hand, number, line, &mut answer) {
            Ok(()) => {}
            Err(Unanswered { fault, ticket }) => {
                return Err(Stopped {
                    fault: PlayFault::from(fault),
                    ticket,
                });
            }
        }
        if let Err(StreamFault) = write_all(writer, answer.as_bytes()) {
            return Err(Stopped {
                fault: PlayFault::WriteFault,
                ticket: None,
            });
        }
        rest = more;
    }
    Ok(number)
}

/// Makes the text the answer to one line: nothing, where the line has none.
fn answer_line<C: Counter, V: Surveyor, P: Printer<C>>(
    tools: &Tools<V, P>,
    counter: &mut C,
    seat: &mut Seat,
    hand: &mut Hand,
    number: usize,
    line: &[u8],
    text: &mut String,
) -> Result<(), Unanswered>
    requires may { C.may counter.old seat.old }
    requires surveys { V.surveys tools.now.surveyor.now }
    ensures may { C.may counter.new seat.new }
    ensures ok { OnOk result (Takes (setting_by C.goes C.scene P.prints tools.now.names.now)
        (player counter.old seat.old hand.old) number (asked tools.now.names.now line.now)
        (string_bytes text.new) (player counter.new seat.new hand.new)) }
    ensures err { IfErr result (λ u. Begins C.goes C.scene
        (player counter.old seat.old hand.old) (asked tools.now.names.now line.now)
        (with_ticket counter.new seat.new hand.new u.ticket)) }
    ensures wanted { IfErr result (λ u. IsWanted u.fault (asked tools.now.names.now line.now)) }
{
    text.clear();
    let Some(asked) = parse_line(tools.names, line) else {
        return Ok(());
    };
    let answer = answer(tools, counter, seat, hand, asked)?;
    let printer = tools.printer;
    printer.print(text, tools.names, counter, number, line, &answer)?;
    Ok(())
}
