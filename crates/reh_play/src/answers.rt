// The answers to the lines of a script.
ghost use Rattle.std.specs.Prelude.{◌≡◌, ◌++◌, OnOk, codes, decimal, string_bytes};
ghost use Rattle.reh_commands.specs.Answers.{numbered, reply_answer, shown, report_answer};
ghost use Rattle.reh_play.specs.Players.{answer_text};

use itoa::Buffer;
use reh_cluster::Names;
use reh_commands::{LineFault, Named, push_report, push_survey};
use reh_desk::Counter;
use reh_types::{Reply, SurveyLine};
use std::alloc::AllocError;

/// The answer to a line.
#[derive(Drop)]
pub enum LineAnswer {
    /// The reply to a call, or the player's own where its hand is full or empty.
    Said(Reply),
    /// The line asks for nothing.
    Faulty(LineFault),
    /// The report of the state that is shown.
    Report,
    /// The survey of it.
    Survey(Vec<SurveyLine>),
    /// There is no state to be surveyed.
    Hidden,
}

/// Adds an answer after its line's number. What a report shows is the state that the counter shows, if it shows one.
pub fn push_answer<C: Counter>(
    text: &mut String,
    names: &Names,
    counter: &C,
    number: usize,
    answer: &LineAnswer,
) -> Result<(), AllocError>
    ensures { OnOk result (string_bytes text.new
        ≡ string_bytes text.old ++ numbered number (answer_text names.now (C.scene counter.now) answer.now)) }
{
    push_number(text, number)?;
    match answer {
        LineAnswer::Said(reply) => push_reply(text, names, reply),
        LineAnswer::Faulty(fault) => write!(text, "{fault}\n"),
        LineAnswer::Report => push_state(text, counter),
        LineAnswer::Survey(lines) => {
            text.push_str("survey\n")?;
            push_survey(text, lines)
        }
        LineAnswer::Hidden => write!(text, "not in a drill\n"),
    }
}

/// Adds the number of a line, with the words around it.
fn push_number(text: &mut String, number: usize) -> Result<(), AllocError>
    ensures { OnOk result (string_bytes text.new ≡ string_bytes text.old
        ++ (codes "line " ++ (decimal number ++ codes ": "))) }
{
    let mut digits = Buffer::new();
    text.push_str("line ")?;
    text.push_str(digits.format(number))?;
    text.push_str(": ")
}

/// Adds a reply.
fn push_reply(text: &mut String, names: &Names, reply: &Reply) -> Result<(), AllocError>
    ensures { OnOk result (string_bytes text.new ≡ string_bytes text.old ++ reply_answer names.now reply.now) }
{
    let reply = Named { names, reply };
    write!(text, "{reply}\n")
}

/// Adds the report of the state that the counter shows, if it shows one.
fn push_state<C: Counter>(text: &mut String, counter: &C) -> Result<(), AllocError>
    ensures { OnOk result (string_bytes text.new ≡ string_bytes text.old ++ shown (C.scene counter.now) report_answer) }
{
    match counter.whole() {
        Some(state) => {
            text.push_str("report\n")?;
            push_report(text, state)
        }
        None => text.push_str("not in a drill\n"),
    }
}
