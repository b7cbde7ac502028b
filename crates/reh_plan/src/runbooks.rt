// A plan as a runbook: what each command is expected to be answered, and a survey at its end.
ghost use Rattle.std.specs.Prelude.{◌≡◌, ◌≤◌, ◌++◌, length, is_some, IfOk, OnOk};
ghost use Rattle.reh_types.specs.declared.limits.TheConstants.{MAX_SCRIPT_BYTES};
ghost use Rattle.reh_commands.specs.Answers.{asked};
ghost use Rattle.reh_commands.specs.Texts.{text_of};
ghost use Rattle.reh_lines.specs.Lines.{lines_of};
ghost use Rattle.reh_plan.specs.Runbooks.{expected_lines, with_expectations, survey_lines, runbook_lines};

use crate::faults::PlanFault;
use crate::planning::Planned;
use crate::plans::push_line;
use reh_cluster::Names;
use reh_commands::parse_line;
use reh_lines::first_line;
use reh_types::MAX_SCRIPT_BYTES;
use std::alloc::{AllocError, Global};

/// The script of a plan with `# expect ok` before each command, and with a survey at its end that is expected to find as
/// many entries lost as the summary tells.
pub fn runbook(alloc: Global, planned: &Planned) -> Result<Vec<u8>, PlanFault>
    ensures lines { IfOk result (λ text. text.items ≡ text_of (runbook_lines planned.now.plan.state.names
        planned.now.plan.lines planned.now.summary.unreadable)) }
    ensures few { IfOk result (λ text. length text.items ≤ MAX_SCRIPT_BYTES) }
{
    let plan = &planned.plan;
    let mut text = Vec::new(alloc);
    push_expectations(&mut text, plan.state().names(), plan.text())?;
    push_survey(alloc, &mut text, planned.summary.unreadable)?;
    if text.len() > MAX_SCRIPT_BYTES {
        return Err(PlanFault::NoRoom);
    }
    Ok(text)
}

/// Adds the lines of a script, and before each command that `ok` is expected.
fn push_expectations(text: &mut Vec<u8>, names: &Names, script: &[u8]) -> Result<(), AllocError>
    ensures { OnOk result (text.new.items
        ≡ text.old.items ++ text_of (with_expectations names.now (lines_of script.now))) }
{
    let mut rest = script;
    while !rest.is_empty() {
        let (line, more) = first_line(rest);
        push_expected(text, names, line)?;
        rest = more;
    }
    Ok(())
}

/// Adds a line, and before a command that `ok` is expected.
fn push_expected(text: &mut Vec<u8>, names: &Names, line: &[u8]) -> Result<(), AllocError>
    ensures { OnOk result (text.new.items
        ≡ text.old.items ++ text_of (expected_lines names.now line.now)) }
{
    if has_answer(names, line) {
        push_line(text, b"# expect ok")?;
    }
    push_line(text, line)?;
    Ok(())
}

/// Whether a line has an answer.
fn has_answer(names: &Names, line: &[u8]) -> bool
    ensures { result ≡ is_some (asked names.now line.now) }
{
    parse_line(names, line).is_some()
}

/// Adds a survey that is expected to find so many entries lost.
fn push_survey(alloc: Global, text: &mut Vec<u8>, lost: u64) -> Result<(), AllocError>
    ensures { OnOk result (text.new.items ≡ text.old.items ++ text_of (survey_lines lost)) }
{
    let expected = format!(in alloc; "# expect lost {lost}")?;
    push_line(text, expected.as_bytes())?;
    push_line(text, b"survey")?;
    Ok(())
}
