// A survey as JSON.
ghost use Rattle.std.specs.Prelude.{OnOk, flat_map};
ghost use Rattle.json.specs.Tree.{json_tokens};
ghost use Rattle.reh_answer.specs.Objects.{Adds};
ghost use Rattle.reh_run_json.specs.Reports as reports;

use crate::values::{add_entry, add_id};
use json::Writer;
use reh_answer::add_number;
use reh_types::{LedgerId, SurveyLine};
use std::alloc::{AllocError, Global};

/// Adds the list of a survey's lines.
pub(crate) fn add_survey(json: &mut Writer<Global>, lines: &[SurveyLine]) -> Result<(), AllocError>
    ensures { OnOk result (Adds (json_tokens (reports.survey_json lines.now)) json.old json.new) }
{
    json.begin_array()?;
    add_each_line(json, lines)?;
    json.end_array()
}

/// Adds the lines of a survey.
fn add_each_line(json: &mut Writer<Global>, lines: &[SurveyLine]) -> Result<(), AllocError>
    ensures { OnOk result (Adds (flat_map (λ l. json_tokens (reports.survey_line_json l)) lines.now)
        json.old json.new) }
{
    for line in lines {
        add_line(json, line)?;
    }
    Ok(())
}

/// Adds one line.
fn add_line(json: &mut Writer<Global>, line: &SurveyLine) -> Result<(), AllocError>
    ensures { OnOk result (Adds (json_tokens (reports.survey_line_json line.now)) json.old json.new) }
{
    add_counts(json, line.ledger, line.fragment, line.down, line.lost)
}

/// Adds a fragment by its ledger and number, how many of its members aren't registered, and how many of its entries can't
/// be read, if that is known.
fn add_counts(
    json: &mut Writer<Global>,
    ledger: LedgerId,
    fragment: u64,
    down: u32,
    lost: Option<u32>,
) -> Result<(), AllocError>
    ensures { OnOk result (Adds (json_tokens (reports.lost_json ledger fragment down lost)) json.old json.new) }
{
    json.begin_object()?;
    add_id(json, "ledger", ledger)?;
    add_number(json, "fragment", fragment)?;
    add_number(json, "down", down as u64)?;
    add_entry(json, "lost", lost)?;
    json.end_object()
}
