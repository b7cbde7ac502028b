// The survey of a state, as it is printed.
ghost use Rattle.std.specs.Prelude.{◌≡◌, ◌++◌, map, OnOk, string_bytes, codes};
ghost use Rattle.reh_commands.specs.Texts as texts;

use reh_types::SurveyLine;
use std::alloc::AllocError;

/// Adds the lines of a survey.
pub fn push_survey(text: &mut String, lines: &[SurveyLine]) -> Result<(), AllocError>
    ensures { OnOk result (string_bytes text.new ≡ string_bytes text.old
        ++ texts.text_of (map texts.survey_line_text lines.now)) }
{
    for line in lines {
        push_line(text, line)?;
    }
    Ok(())
}

/// Adds one line.
fn push_line(text: &mut String, line: &SurveyLine) -> Result<(), AllocError>
    ensures { OnOk result (string_bytes text.new ≡ string_bytes text.old
        ++ (texts.survey_line_text line.now ++ codes "\n")) }
{
    write!(
        text,
        "ledger {} fragment {} down {} lost ",
        line.ledger.0, line.fragment, line.down
    )?;
    match line.lost {
        Some(lost) => write!(text, "{lost}\n"),
        None => write!(text, "-\n"),
    }
}
