// Waves as JSON.
ghost use Rattle.std.specs.Prelude.{◌≡◌, ◌++◌, ◌<◌, ◌≤◌, All, OnOk, IfOk, codes, string_bytes, true};
ghost use Rattle.reh_waves.specs.Json as json;
ghost use Rattle.reh_waves.specs.Json.{ArePrintable};
ghost use Rattle.reh_waves.specs.Orders.{name_at};

use crate::waves::{Alone, Round, Waves};
use reh_census::{Answer, Rule};
use std::alloc::{AllocError, Global};

/// Adds a byte of a string.
fn push_escaped(text: &mut String, byte: u8) -> Result<(), AllocError>
    requires { byte < 127 }
    ensures { OnOk result (string_bytes text.new ≡ string_bytes text.old ++ json.escaped byte) }
{
    if byte == b'"' || byte == b'\\' {
        text.push('\\')?;
    }
    text.push(byte as char)
}

/// Adds the bytes as a string, behind this text.
fn push_quoted(text: &mut String, before: &str, bytes: &[u8]) -> Result<(), AllocError>
    requires { All (λ b. (32 ≤ b) × (b < 127)) bytes.now }
    ensures { OnOk result (string_bytes text.new ≡ string_bytes text.old ++ (before.now ++ json.quoted bytes.now)) }
{
    write!(text, "{before}\"")?;
    for byte in bytes {
        push_escaped(text, *byte)?;
    }
    text.push_str("\"")
}

/// Adds the name of this number as a string, behind this text.
pub(crate) fn push_json_name(
    text: &mut String,
    before: &str,
    names: &[String],
    number: u16,
) -> Result<(), AllocError>
    requires { ArePrintable names.now }
    ensures { OnOk result (string_bytes text.new ≡ string_bytes text.old ++ (before.now ++ json.name_json names.now number)) }
{
    match names.get(number as usize) {
        Some(name) => push_quoted(text, before, name.as_bytes()),
        None => push_quoted(text, before, &[]),
    }
}

/// Adds a comma, but before the first element.
pub(crate) fn push_comma(text: &mut String, is_first: bool) -> Result<(), AllocError>
    ensures { OnOk result (string_bytes text.new ≡ string_bytes text.old ++ json.comma is_first) }
{
    if is_first {
        return Ok(());
    }
    text.push_str(",")
}

/// Adds the names of a round.
fn push_names(text: &mut String, names: &[String], bookies: &[u16]) -> Result<(), AllocError>
    requires { ArePrintable names.now }
    ensures { OnOk result (string_bytes text.new ≡ string_bytes text.old ++ json.elements (json.name_json names.now) true bookies.now) }
{
    let mut is_first = true;
    for bookie in bookies {
        push_comma(text, is_first)?;
        push_json_name(text, "", names, *bookie)?;
        is_first = false;
    }
    Ok(())
}

/// Adds a round.
fn push_round(text: &mut String, names: &[String], round: &Round) -> Result<(), AllocError>
    requires { ArePrintable names.now }
    ensures { OnOk result (string_bytes text.new ≡ string_bytes text.old ++ json.round_json names.now round.now) }
{
    text.push_str("[")?;
    push_names(text, names, &round.bookies)?;
    text.push_str("]")
}

/// Adds rounds.
fn push_rounds(text: &mut String, names: &[String], rounds: &[Round]) -> Result<(), AllocError>
    requires { ArePrintable names.now }
    ensures { OnOk result (string_bytes text.new ≡ string_bytes text.old ++ json.elements (json.round_json names.now) true rounds.now) }
{
    let mut is_first = true;
    for round in rounds {
        push_comma(text, is_first)?;
        push_round(text, names, round)?;
        is_first = false;
    }
    Ok(())
}

/// The name of a rule, as a string.
fn rule_name(rule: Rule) -> &'static str
    ensures { result.now ≡ json.rule_name rule }
{
    match rule {
        Rule::Readable => "\"readable\"",
        Rule::Kept => "\"kept\"",
        Rule::Recoverable => "\"recoverable\"",
        Rule::Writable => "\"writable\"",
        Rule::Replaceable => "\"replaceable\"",
    }
}

/// Adds what the answer is, the rule that it names, and how often, as the last members of an object.
fn push_answer(text: &mut String, answer: Answer) -> Result<(), AllocError>
    ensures { OnOk result (string_bytes text.new ≡ string_bytes text.old ++ (codes "," ++ (json.answer_json answer ++ codes "}"))) }
{
    match answer {
        Answer::Yes => text.push_str(",\"verdict\":\"yes\",\"rule\":null,\"count\":0}"),
        Answer::No(rule, count) => {
            let name = rule_name(rule);
            write!(
                text,
                ",\"verdict\":\"no\",\"rule\":{name},\"count\":{count}}}"
            )
        }
        Answer::Unknown(rule, count) => {
            let name = rule_name(rule);
            write!(
                text,
                ",\"verdict\":\"unknown\",\"rule\":{name},\"count\":{count}}}"
            )
        }
        Answer::UnknownDisks(count) => write!(
            text,
            ",\"verdict\":\"unknown\",\"rule\":\"disks\",\"count\":{count}}}"
        ),
        Answer::NotJudged(count) => write!(
            text,
            ",\"verdict\":\"unknown\",\"rule\":\"judged\",\"count\":{count}}}"
        ),
    }
}

/// Adds a bookie that can't be stopped.
fn push_alone(text: &mut String, names: &[String], alone: &Alone) -> Result<(), AllocError>
    requires { ArePrintable names.now }
    ensures { OnOk result (string_bytes text.new ≡ string_bytes text.old ++ json.alone_json names.now alone.now) }
{
    push_json_name(text, "{\"bookie\":", names, alone.bookie)?;
    push_answer(text, alone.answer)
}

/// Adds the bookies that can't be stopped.
fn push_all_alone(text: &mut String, names: &[String], alone: &[Alone]) -> Result<(), AllocError>
    requires { ArePrintable names.now }
    ensures { OnOk result (string_bytes text.new ≡ string_bytes text.old ++ json.elements (json.alone_json names.now) true alone.now) }
{
    let mut is_first = true;
    for one in alone {
        push_comma(text, is_first)?;
        push_alone(text, names, one)?;
        is_first = false;
    }
    Ok(())
}

/// The waves as one object, where bookies have these names.
pub fn waves_json(alloc: Global, names: &[String], waves: &Waves) -> Result<String, AllocError>
    requires { ArePrintable names.now }
    ensures { IfOk result (λ text. string_bytes text ≡ json.waves_json names.now waves.now) }
{
    let mut text = String::new(alloc);
    text.push_str("{\"waves\":[")?;
    push_rounds(&mut text, names, &waves.rounds)?;
    text.push_str("],\"alone\":[")?;
    push_all_alone(&mut text, names, &waves.alone)?;
    text.push_str("]}\n")?;
    Ok(text)
}
