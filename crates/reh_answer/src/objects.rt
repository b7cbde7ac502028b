// What is said of a stop, as JSON.
ghost use Rattle.std.specs.Prelude.{◌≡◌, ◌++◌, [], IfOk, OnOk, codes, flat_map, map, option_copied, string_bytes};
ghost use Rattle.json.specs.Json.{string};
ghost use Rattle.json.specs.Lex.{tokens};
ghost use Rattle.json.specs.Print.{print};
ghost use Rattle.json.specs.Tree.{json_tokens};
ghost use Rattle.reh_answer.specs.Objects as objects;

use crate::against::Against;
use crate::facts::Facts;
use crate::members::{add_answer, add_broken, add_null, add_number, add_text, add_text_or_null};
use crate::notes::notes_of;
use json::Writer;
use reh_census::Numbers;
use std::alloc::{AllocError, Global};

/// Adds the numbers of the rules.
fn add_rules(json: &mut Writer<Global>, numbers: &Numbers) -> Result<(), AllocError>
    ensures { OnOk result (objects.Adds (objects.member_tokens (codes "rules") (objects.rules_json numbers.now)) json.old json.new) }
{
    json.key("rules")?;
    json.begin_object()?;
    add_broken(json, "readable", &numbers.readable)?;
    add_broken(json, "kept", &numbers.kept)?;
    add_number(json, "recoverable", numbers.recoverable)?;
    add_number(json, "writable", numbers.writable)?;
    add_number(json, "replaceable", numbers.replaceable)?;
    add_number(json, "disks", numbers.disks)?;
    json.end_object()
}

/// Adds what was judged, and when the oldest input was taken.
fn add_judged(
    json: &mut Writer<Global>,
    facts: &Facts,
    taken: Option<&str>,
) -> Result<(), AllocError>
    ensures { OnOk result (objects.Adds (objects.member_tokens (codes "judged")
        (objects.judged_json facts.now (option_copied taken.entry))) json.old json.new) }
{
    json.key("judged")?;
    json.begin_object()?;
    add_number(json, "ledgers", facts.judged.ledgers)?;
    add_number(json, "entries", facts.entries)?;
    add_number(json, "assumed", facts.judged.assumed)?;
    add_number(json, "unknown", facts.unknown)?;
    add_number(json, "unread", facts.judged.unread)?;
    add_number(json, "missing", facts.judged.missing)?;
    add_null(json, "announced")?;
    add_text_or_null(json, "taken", taken)?;
    json.end_object()
}

/// Adds numbers.
fn add_numbers(json: &mut Writer<Global>, numbers: &[u64]) -> Result<(), AllocError>
    ensures { OnOk result (objects.Adds (flat_map (λ n. json_tokens
        (objects.number_json n)) numbers.now) json.old json.new) }
{
    for number in numbers {
        json.u64(*number)?;
    }
    Ok(())
}

/// Adds a list of numbers.
fn add_counts(json: &mut Writer<Global>, name: &str, numbers: &[u64]) -> Result<(), AllocError>
    ensures { OnOk result (objects.Adds (objects.member_tokens name.now
        (objects.list_json (map objects.number_json numbers.now))) json.old json.new) }
{
    json.key(name)?;
    json.begin_array()?;
    add_numbers(json, numbers)?;
    json.end_array()
}

/// Adds how many entries have how many copies.
fn add_copies(json: &mut Writer<Global>, facts: &Facts) -> Result<(), AllocError>
    ensures { OnOk result (objects.Adds (objects.member_tokens (codes "copies") (objects.copies_json facts.now)) json.old json.new) }
{
    json.key("copies")?;
    json.begin_object()?;
    add_counts(json, "now", facts.copies_now.as_slice())?;
    add_counts(json, "without", facts.copies_without.as_slice())?;
    json.end_object()
}

/// Adds a ledger that speaks against the stop.
fn add_one(json: &mut Writer<Global>, against: &Against) -> Result<(), AllocError>
    ensures { OnOk result (objects.Adds (json_tokens (objects.against_json against.now)) json.old json.new) }
{
    json.begin_object()?;
    add_number(json, "ledger", against.ledger)?;
    add_number(json, "entries", against.entries)?;
    add_text(json, "cause", against.cause.as_str())?;
    json.end_object()
}

/// Adds ledgers.
fn add_ledgers(json: &mut Writer<Global>, against: &[Against]) -> Result<(), AllocError>
    ensures { OnOk result (objects.Adds (flat_map (λ a. json_tokens
        (objects.against_json a)) against.now) json.old json.new) }
{
    for one in against {
        add_one(json, one)?;
    }
    Ok(())
}

/// Adds the ledgers that speak against the stop.
fn add_against(json: &mut Writer<Global>, against: &[Against]) -> Result<(), AllocError>
    ensures { OnOk result (objects.Adds (objects.member_tokens (codes "against")
        (objects.list_json (map objects.against_json against.now))) json.old json.new) }
{
    json.key("against")?;
    json.begin_array()?;
    add_ledgers(json, against)?;
    json.end_array()
}

/// Adds texts.
fn add_texts(json: &mut Writer<Global>, texts: &[String]) -> Result<(), AllocError>
    ensures { OnOk result (objects.Adds (flat_map (λ t. json_tokens (string
        (string_bytes t))) texts.now) json.old json.new) }
{
    for text in texts {
        json.string(text.as_str())?;
    }
    Ok(())
}

/// Adds the notes.
fn add_notes(
    json: &mut Writer<Global>,
    notes: &[String],
    further: &[String],
) -> Result<(), AllocError>
    ensures { OnOk result (objects.Adds (objects.member_tokens (codes "notes")
        (objects.list_json (map string (map string_bytes notes.now
        ++ map string_bytes further.now)))) json.old json.new) }
{
    json.key("notes")?;
    json.begin_array()?;
    add_texts(json, notes)?;
    add_texts(json, further)?;
    json.end_array()
}

/// Adds the object.
fn add_all(
    json: &mut Writer<Global>,
    facts: &Facts,
    notes: &[String],
    against: &[Against],
    taken: Option<&str>,
    further: &[String],
) -> Result<(), AllocError>
    ensures { OnOk result (objects.Adds (json_tokens (objects.answer_with facts.now (map string_bytes notes.now)
        against.now (option_copied taken.entry) (map string_bytes further.now))) json.old json.new) }
{
    json.begin_object()?;
    add_answer(json, &facts.answer)?;
    add_rules(json, &facts.numbers)?;
    add_judged(json, facts, taken)?;
    add_copies(json, facts)?;
    add_against(json, against)?;
    add_notes(json, notes, further)?;
    json.end_object()
}

/// The text of what was written, which a reader reads as the same tokens.
pub fn text_in(json: Writer<Global>) -> Result<String, AllocError>
    requires { json.before ≡ [] }
    ensures text { IfOk result (λ text. string_bytes text ≡ print json.tokens) }
    ensures reads_back { IfOk result (λ text. tokens (string_bytes text) ≡ json.tokens) }
{
    match String::from_utf8(json.into_inner()) {
        Ok(text) => Ok(text),
        Err(_) => unreachable!(),
    }
}

/// What is said of a stop, as JSON: one object, on one line. The bookies have these names, by number; the oldest input was
/// taken then, if each tells its time; further notes stand after those that apply.
pub fn json_of(
    alloc: Global,
    facts: &Facts,
    names: &[String],
    against: &[Against],
    taken: Option<&str>,
    further: &[String],
) -> Result<String, AllocError>
    ensures text { IfOk result (λ text. string_bytes text ≡ objects.json_of facts.now (map string_bytes names.now)
        against.now (option_copied taken.entry) (map string_bytes further.now)) }
    ensures reads_back { IfOk result (λ text. objects.IsLineOf (objects.answer_json facts.now
        (map string_bytes names.now)
        against.now (option_copied taken.entry) (map string_bytes further.now)) (string_bytes text)) }
{
    let notes = notes_of(alloc, facts, names, taken)?;
    let mut json = Writer::new(Vec::new(alloc));
    add_all(&mut json, facts, &notes, against, taken, further)?;
    let mut text = text_in(json)?;
    text.push_str("\n")?;
    Ok(text)
}
