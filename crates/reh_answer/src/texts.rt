// All lines of an answer.
ghost use Rattle.std.specs.Prelude.{◌≡◌, ◌++◌, IfOk, OnOk, map, option_copied, string_bytes};
ghost use Rattle.reh_answer.specs.Texts as texts;

use crate::against::{Against, push_against};
use crate::facts::Facts;
use crate::notes::{notes_of, push_notes};
use crate::rows::{push_judged, push_table};
use crate::rules::{push_rules, push_unknown};
use crate::verdicts::push_verdict;
use reh_census::Question;
use std::alloc::{AllocError, Global};

/// Adds what is said of a stop: what was judged, the copies, the rules, what is unknown, the ledgers that speak against
/// it, the notes that apply and further ones, and the verdict. The bookies have these names, by number, and the oldest
/// input was taken then, if each tells its time.
pub fn push_text(
    alloc: Global,
    text: &mut String,
    facts: &Facts,
    question: &Question,
    names: &[String],
    against: &[Against],
    taken: Option<&str>,
    further: &[String],
) -> Result<(), AllocError>
    ensures { OnOk result (string_bytes text.new ≡ string_bytes text.old ++ texts.text_of facts.now question.now
        (map string_bytes names.now) against.now (option_copied taken.entry) (map string_bytes further.now)) }
{
    let notes = notes_of(alloc, facts, names, taken)?;
    push_judged(text, facts)?;
    push_table(text, facts)?;
    push_rules(text, &facts.numbers, question.for_good)?;
    push_unknown(text, facts)?;
    push_against(text, against)?;
    push_notes(text, &notes)?;
    push_notes(text, further)?;
    push_verdict(text, facts, question)
}

/// What is said of a stop, as a text of its own.
pub fn text_of(
    alloc: Global,
    facts: &Facts,
    question: &Question,
    names: &[String],
    against: &[Against],
    taken: Option<&str>,
    further: &[String],
) -> Result<String, AllocError>
    ensures { IfOk result (λ text. string_bytes text ≡ texts.text_of facts.now question.now
        (map string_bytes names.now) against.now (option_copied taken.entry) (map string_bytes further.now)) }
{
    let mut text = String::new(alloc);
    push_text(
        alloc, &mut text, facts, question, names, against, taken, further,
    )?;
    Ok(text)
}
