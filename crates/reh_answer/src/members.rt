// Members of JSON objects.
ghost use Rattle.std.specs.Prelude.{◌≡◌, OnOk, codes, option_copied};
ghost use Rattle.json.specs.Json.{null, string};
ghost use Rattle.reh_answer.specs.Objects as objects;

use json::Writer;
use reh_census::{Answer, Broken, Rule};
use std::alloc::{AllocError, Global};

/// Adds a number under a name.
pub fn add_number(json: &mut Writer<Global>, name: &str, number: u64) -> Result<(), AllocError>
    ensures { OnOk result (objects.Adds (objects.member_tokens name.now
        (objects.number_json number)) json.old json.new) }
{
    json.key(name)?;
    json.u64(number)
}

/// Adds a text under a name.
pub fn add_text(json: &mut Writer<Global>, name: &str, text: &str) -> Result<(), AllocError>
    ensures { OnOk result (objects.Adds (objects.member_tokens name.now (string text.now)) json.old json.new) }
{
    json.key(name)?;
    json.string(text)
}

/// Adds nothing under a name.
pub fn add_null(json: &mut Writer<Global>, name: &str) -> Result<(), AllocError>
    ensures { OnOk result (objects.Adds (objects.member_tokens name.now null) json.old json.new) }
{
    json.key(name)?;
    json.null()
}

/// Adds a text under a name, or nothing where there is none.
pub fn add_text_or_null(
    json: &mut Writer<Global>,
    name: &str,
    text: Option<&str>,
) -> Result<(), AllocError>
    ensures { OnOk result (objects.Adds (objects.member_tokens name.now
        (objects.text_or_null (option_copied text.entry))) json.old json.new) }
{
    match text {
        Some(text) => add_text(json, name, text),
        None => add_null(json, name),
    }
}

/// Adds how often a rule is broken.
pub(crate) fn add_broken(
    json: &mut Writer<Global>,
    name: &str,
    broken: &Broken,
) -> Result<(), AllocError>
    ensures { OnOk result (objects.Adds (objects.member_tokens name.now
        (objects.broken_json broken.now)) json.old json.new) }
{
    json.key(name)?;
    json.begin_object()?;
    add_number(json, "no", broken.no)?;
    add_number(json, "unknown", broken.unknown)?;
    json.end_object()
}

/// The word for an answer.
fn verdict_word(answer: &Answer) -> &'static str
    ensures { result.now ≡ objects.verdict_word answer.now }
{
    match answer {
        Answer::Yes => "yes",
        Answer::No(..) => "no",
        Answer::Unknown(..) | Answer::UnknownDisks(_) | Answer::NotJudged(_) => "unknown",
    }
}

/// The word for a rule.
fn rule_word(rule: Rule) -> &'static str
    ensures { result.now ≡ objects.rule_word rule }
{
    match rule {
        Rule::Readable => "readable",
        Rule::Kept => "kept",
        Rule::Recoverable => "recoverable",
        Rule::Writable => "writable",
        Rule::Replaceable => "replaceable",
    }
}

/// How often it is broken.
fn count_of(answer: &Answer) -> u64
    ensures { result ≡ objects.count_of answer.now }
{
    match answer {
        Answer::Yes => 0,
        Answer::No(_, count)
        | Answer::Unknown(_, count)
        | Answer::UnknownDisks(count)
        | Answer::NotJudged(count) => *count,
    }
}

/// Adds which rule is broken.
fn add_rule(json: &mut Writer<Global>, answer: &Answer) -> Result<(), AllocError>
    ensures { OnOk result (objects.Adds (objects.member_tokens (codes "rule") (objects.rule_json answer.now)) json.old json.new) }
{
    match answer {
        Answer::Yes => add_null(json, "rule"),
        Answer::No(rule, _) | Answer::Unknown(rule, _) => {
            add_text(json, "rule", rule_word(*rule))
        }
        Answer::UnknownDisks(_) => add_text(json, "rule", "disks"),
        Answer::NotJudged(_) => add_text(json, "rule", "judged"),
    }
}

/// Adds the answer.
pub(crate) fn add_answer(json: &mut Writer<Global>, answer: &Answer) -> Result<(), AllocError>
    ensures { OnOk result (objects.Adds (objects.answer_tokens answer.now) json.old json.new) }
{
    add_text(json, "verdict", verdict_word(answer))?;
    add_rule(json, answer)?;
    add_number(json, "count", count_of(answer))
}
