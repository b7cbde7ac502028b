// The answer to a line as JSON.
ghost use Rattle.std.specs.Prelude.{◌≡◌, OnOk, codes};
ghost use Rattle.json.specs.Json.{string};
ghost use Rattle.json.specs.Tree.{json_tokens};
ghost use Rattle.reh_answer.specs.Objects.{Adds, member_tokens};
ghost use Rattle.reh_commands.specs.Texts.{line_fault_text};
ghost use Rattle.reh_run_json.specs.Lines as model;
ghost use Rattle.reh_run_json.specs.Reports.{report_json, survey_json};

use crate::reports::add_report;
use crate::surveys::add_survey;
use crate::values::{add_count, add_named};
use json::Writer;
use reh_answer::{add_number, add_text};
use reh_cluster::{Names, State};
use reh_commands::LineFault;
use reh_play::LineAnswer;
use reh_types::{Refusal, Reply, SurveyLine};
use std::alloc::{AllocError, Global};

/// Adds the answer to a line. The state is the one after the line.
pub(crate) fn add_answer(
    json: &mut Writer<Global>,
    state: &State,
    answer: &LineAnswer,
) -> Result<(), AllocError>
    ensures { OnOk result (Adds (model.answer_tokens state.now answer.now) json.old json.new) }
{
    match answer {
        LineAnswer::Said(reply) => add_reply(json, state.names(), reply),
        LineAnswer::Faulty(fault) => add_fault(json, fault_text(*fault)),
        LineAnswer::Report => add_shown(json, state),
        LineAnswer::Survey(lines) => add_surveyed(json, lines),
        LineAnswer::Hidden => add_text(json, "reply", "not in a drill"),
    }
}

/// Adds a reply.
fn add_reply(json: &mut Writer<Global>, names: &Names, reply: &Reply) -> Result<(), AllocError>
    ensures { OnOk result (Adds (model.reply_tokens names.now reply.now) json.old json.new) }
{
    match reply {
        Reply::Done => add_text(json, "reply", "ok"),
        Reply::Clock(clock) => add_counted(json, "clock", *clock),
        Reply::Issued(number) => add_counted(json, "ticket", *number as u64),
        Reply::Discarded => add_text(json, "reply", "discarded"),
        Reply::Refused(refusal) => add_refused(json, names, refusal),
    }
}

/// Adds the word of a reply, and its number under the same word.
fn add_counted(json: &mut Writer<Global>, word: &str, number: u64) -> Result<(), AllocError>
    ensures { OnOk result (Adds (model.counted_tokens word.now number) json.old json.new) }
{
    add_text(json, "reply", word)?;
    add_number(json, word, number)
}

/// Adds that a move was refused, and why.
fn add_refused(
    json: &mut Writer<Global>,
    names: &Names,
    refusal: &Refusal,
) -> Result<(), AllocError>
    ensures { OnOk result (Adds (model.worded_tokens (codes "refused") (codes "refusal")
        (model.refusal_json names.now refusal.now)) json.old json.new) }
{
    add_text(json, "reply", "refused")?;
    json.key("refusal")?;
    add_refusal(json, names, refusal)
}

/// Adds a refusal.
fn add_refusal(
    json: &mut Writer<Global>,
    names: &Names,
    refusal: &Refusal,
) -> Result<(), AllocError>
    ensures { OnOk result (Adds (json_tokens (model.refusal_json names.now refusal.now)) json.old json.new) }
{
    add_reason(json, names, refusal.number(), refusal.name(), refusal)
}

/// Adds a refusal of this number and name.
fn add_reason(
    json: &mut Writer<Global>,
    names: &Names,
    number: u8,
    name: &str,
    refusal: &Refusal,
) -> Result<(), AllocError>
    ensures { OnOk result (Adds (json_tokens (model.refused_json number name.now
        (model.value_json names.now refusal.now))) json.old json.new) }
{
    json.begin_object()?;
    add_number(json, "number", number as u64)?;
    add_text(json, "name", name)?;
    add_value(json, "value", names, refusal)?;
    json.end_object()
}

/// Adds a refusal's value under a name, or null where it has none: a lock's owner by name, other values as numbers.
fn add_value(
    json: &mut Writer<Global>,
    name: &str,
    names: &Names,
    refusal: &Refusal,
) -> Result<(), AllocError>
    ensures { OnOk result (Adds (member_tokens name.now (model.value_json names.now refusal.now)) json.old json.new) }
{
    match refusal {
        Refusal::Locked(owner) => add_named(json, name, names, *owner),
        refusal => add_count(json, name, refusal.value()),
    }
}

/// Adds that a line asks for nothing, and why.
fn add_fault(json: &mut Writer<Global>, fault: &str) -> Result<(), AllocError>
    ensures { OnOk result (Adds (model.worded_tokens (codes "fault") (codes "fault") (string fault.now))
        json.old json.new) }
{
    add_text(json, "reply", "fault")?;
    add_text(json, "fault", fault)
}

/// Why a line asks for nothing, as it is printed.
fn fault_text(fault: LineFault) -> &'static str
    ensures { result.now ≡ line_fault_text fault }
{
    match fault {
        LineFault::TooLong => "too long",
        LineFault::UnknownCommand => "unknown command",
        LineFault::BadWords => "bad words",
        LineFault::UnknownName => "unknown name",
    }
}

/// Adds the report of the state.
fn add_shown(json: &mut Writer<Global>, state: &State) -> Result<(), AllocError>
    ensures { OnOk result (Adds (model.worded_tokens (codes "report") (codes "report") (report_json state.now))
        json.old json.new) }
{
    add_text(json, "reply", "report")?;
    json.key("report")?;
    add_report(json, state)
}

/// Adds a survey.
fn add_surveyed(json: &mut Writer<Global>, lines: &[SurveyLine]) -> Result<(), AllocError>
    ensures { OnOk result (Adds (model.worded_tokens (codes "survey") (codes "survey") (survey_json lines.now))
        json.old json.new) }
{
    add_text(json, "reply", "survey")?;
    json.key("survey")?;
    add_survey(json, lines)
}
