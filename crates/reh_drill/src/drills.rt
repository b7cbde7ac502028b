// Drills: several operators, each with a script of its own, share one rehearsal.
ghost use Rattle.std.specs.Prelude.{◌≡◌, ◌+◌, ◌<◌, ◌≤◌, ◌^◌, ◌++◌, false, map, length, is_err, codes, decimal};
ghost use Rattle.std.specs.Prelude.{IfOk, string_bytes};
ghost use Rattle.std.specs.List.{flat_map};
ghost use Rattle.reh_model.specs.Session.{state_of};
ghost use Rattle.reh_crew.specs.declared.threads.TheConstants.{MAX_OPERATORS};
ghost use Rattle.reh_picture.specs.Pictures.{picture_of};
ghost use Rattle.reh_drill.specs.Drills.{Drills, Ends, EndsClosed, Closes, Writes, is_lost, is_lost_play};
ghost use Rattle.reh_drill.specs.Drills.{first_fault as first_fault_of, transcript_of, seat_of, transcripts_from, end_text};

use crate::faults::DrillFault;
use crate::openings::{Room, open_room};
use crate::operators::Outcome;
use crate::outcomes::{first_fault, play_scripts};
use itoa::Buffer;
use reh_commands::report_text;
use reh_crew::Gate;
use reh_desk::{CloseCause, CloseFault, Closed, Desk, Seat};
use reh_lines::{StreamFault, TextOut, write_all};
use reh_play::PlayFault;
use std::alloc::{AllocError, Global};
use std::sync::Wait;
use std::thread::Threads;

/// Plays scripts on a picture, each by an operator of its own, on a thread of its own, at one desk. Then it writes what
/// each operator was answered, how many lines the desk's tape has, and the report of where it ended.
///
/// Operator k passes the gate as worker k - 1, once, before its first line. The operators' calls come in any order that
/// the threads make. The picture is judged before anything is written.
/// Where an operator's play ends early, all transcripts are written, and nothing after them.
pub fn drill_over<R: Threads + Wait + Sync, G: Gate + Sync, W: TextOut>(
    rt: &R,
    alloc: Global,
    gate: &G,
    picture: &[u8],
    scripts: Vec<Vec<u8>>,
    writer: &mut W,
) -> Result<(), DrillFault>
    requires some { 0 < length scripts.items }
    requires few { length scripts.items ≤ MAX_OPERATORS }
    requires writes { W.has_failed writer.old ≡ false }
    ensures drilled { Drills (picture_of picture.now) (map (λ s. s.items) scripts.items) result
        (W.contents writer.old) (W.contents writer.new) }
    ensures write { W.has_failed writer.new ≡ is_lost result }
{
    let Room { desk, seats, names } = open_room(alloc, picture, scripts.len() as u32)?;
    match play_scripts(rt, alloc, gate, &desk, &names, seats, scripts) {
        Ok(outcomes) => end_drill(alloc, desk, outcomes, writer),
        Err(want) => {
            leave(desk);
            Err(DrillFault::from(want))
        }
    }
}

/// Gives back the memory of a desk. Where it would be dropped, each way out would have a proof of that of its own.
fn leave(_desk: Desk) {}

/// Gives back the memory of what a desk handed out when it closed, for the same reason.
fn give_up(_closed: Closed) {}

/// Writes what the operators of a desk printed. Where each came to its script's end, it closes the desk and writes its
/// text too.
fn end_drill<W: TextOut>(
    alloc: Global,
    desk: Desk,
    outcomes: Vec<Result<Outcome, PlayFault>>,
    writer: &mut W,
) -> Result<(), DrillFault>
    requires few { length outcomes.items ≤ MAX_OPERATORS }
    requires kept { is_lost_play (first_fault_of outcomes.items) ≡ false }
    requires writes { W.has_failed writer.old ≡ false }
    ensures ends { Ends desk outcomes.items result (W.contents writer.old) (W.contents writer.new) }
    ensures write { W.has_failed writer.new ≡ is_lost result }
{
    if let Err(lost) = write_transcripts(writer, &outcomes, 1) {
        leave(desk);
        return Err(DrillFault::from(lost));
    }
    if let Some(fault) = first_fault(&outcomes) {
        leave(desk);
        return Err(DrillFault::from(fault));
    }
    match seats_of(alloc, outcomes) {
        Ok(seats) => close_desk(alloc, desk, seats, writer),
        Err(want) => {
            leave(desk);
            Err(DrillFault::from(want))
        }
    }
}

/// Closes a desk, and writes its text.
fn close_desk<W: TextOut>(
    alloc: Global,
    desk: Desk,
    seats: Vec<Seat>,
    writer: &mut W,
) -> Result<(), DrillFault>
    requires { W.has_failed writer.old ≡ false }
    ensures closes { Closes desk seats.items result (W.contents writer.old) (W.contents writer.new) }
    ensures write { W.has_failed writer.new ≡ is_lost result }
{
    end_closed(alloc, desk.close(seats), writer)
}

/// Writes the text of a desk that closed, or says what it answered that doesn't close.
fn end_closed<W: TextOut>(
    alloc: Global,
    closed: Result<Closed, CloseFault>,
    writer: &mut W,
) -> Result<(), DrillFault>
    requires { W.has_failed writer.old ≡ false }
    ensures ends { EndsClosed closed result (W.contents writer.old) (W.contents writer.new) }
    ensures write { W.has_failed writer.new ≡ is_lost result }
{
    match closed {
        Ok(closed) => {
            let text = closing_text(alloc, &closed);
            give_up(closed);
            let text = text?;
            write_text(writer, text.as_bytes())?;
            Ok(())
        }
        Err(fault) => Err(DrillFault::from(cause_of(fault))),
    }
}

/// Why a desk doesn't close.
fn cause_of(fault: CloseFault) -> CloseCause
    ensures { result ≡ fault.cause }
{
    let CloseFault {
        cause,
        desk,
        seats: _,
    } = fault;
    leave(desk);
    cause
}

/// Writes the transcripts of operators, of whom the first has this number.
fn write_transcripts<W: TextOut>(
    writer: &mut W,
    outcomes: &[Result<Outcome, PlayFault>],
    number: usize,
) -> Result<(), StreamFault>
    requires number { number + length outcomes.now < 2 ^ 32 }
    requires writes { W.has_failed writer.old ≡ false }
    ensures written { Writes result (transcripts_from number (map transcript_of outcomes.now))
        (W.contents writer.old) (W.contents writer.new) }
    ensures failed { W.has_failed writer.new ≡ is_err result }
{
    let Some((outcome, others)) = outcomes.split_first() else {
        return Ok(());
    };
    write_heading(writer, number)?;
    write_transcript(writer, outcome)?;
    write_transcripts(writer, others, number + 1)
}

/// Writes the line that stands before an operator's transcript.
fn write_heading<W: TextOut>(writer: &mut W, number: usize) -> Result<(), StreamFault>
    requires { W.has_failed writer.old ≡ false }
    ensures written { Writes result (codes "operator " ++ (decimal number ++ codes "\n"))
        (W.contents writer.old) (W.contents writer.new) }
    ensures failed { W.has_failed writer.new ≡ is_err result }
{
    let mut digits = Buffer::new();
    write_text(writer, b"operator ")?;
    write_text(writer, digits.format(number).as_bytes())?;
    write_text(writer, b"\n")
}

/// Writes an operator's transcript, if there was a thread for it.
fn write_transcript<W: TextOut>(
    writer: &mut W,
    outcome: &Result<Outcome, PlayFault>,
) -> Result<(), StreamFault>
    requires { W.has_failed writer.old ≡ false }
    ensures written { Writes result (transcript_of outcome.now) (W.contents writer.old) (W.contents writer.new) }
    ensures failed { W.has_failed writer.new ≡ is_err result }
{
    match outcome {
        Ok(outcome) => write_text(writer, &outcome.transcript),
        Err(_) => Ok(()),
    }
}

/// Writes a text.
fn write_text<W: TextOut>(writer: &mut W, text: &[u8]) -> Result<(), StreamFault>
    requires { W.has_failed writer.old ≡ false }
    ensures written { Writes result text.now (W.contents writer.old) (W.contents writer.new) }
    ensures failed { W.has_failed writer.new ≡ is_err result }
{
    write_all(writer, text)
}

/// The seats of those that had a thread, in order.
fn seats_of(
    alloc: Global,
    outcomes: Vec<Result<Outcome, PlayFault>>,
) -> Result<Vec<Seat>, AllocError>
    ensures { IfOk result (λ seats. seats.items ≡ flat_map seat_of outcomes.items) }
{
    let mut seats = Vec::new(alloc);
    for outcome in outcomes {
        if let Ok(outcome) = outcome {
            seats.push(outcome.seat)?;
        }
    }
    Ok(seats)
}

/// What is printed of a closed desk: how many lines its tape has, and the report of its session's state.
fn closing_text(alloc: Global, closed: &Closed) -> Result<String, AllocError>
    ensures { IfOk result (λ text. string_bytes text
        ≡ end_text (length closed.now.tape.items) (state_of closed.now.session)) }
{
    let report = report_text(alloc, closed.session.state())?;
    format!(in alloc; "tape {}\n{report}", closed.tape.len())
}
