// Why a ledger speaks against a stop, in words.
ghost use Rattle.std.specs.Prelude.{◌≡◌, ◌++◌, IfOk, OnOk, map, string_bytes};
ghost use Rattle.reh_census.specs.Bookies.{bookies_of, is_flagged};
ghost use Rattle.reh_against.specs.Causes as model;

use crate::entries::push_first;
use crate::members::push_down;
use crate::stops::Stop;
use reh_census::{Answer, Counted, Ledger, Rule};
use reh_tally::entries_of;
use std::alloc::{AllocError, Global};

/// Adds what the rule says of the ledger, where entries have nothing to say.
fn push_rule(text: &mut String, rule: Rule, weight: u64) -> Result<(), AllocError>
    ensures { OnOk result (string_bytes text.new ≡ string_bytes text.old ++ model.rule_words rule weight) }
{
    match rule {
        Rule::Readable | Rule::Kept => Ok(()),
        Rule::Recoverable => text.push_str("too few bookies are left to recover it"),
        Rule::Writable => text.push_str("its writer finds no ensemble"),
        Rule::Replaceable => write!(text, "no bookies for places of {weight} of its fragments"),
    }
}

/// Adds what the answer says of the ledger, where entries have nothing to say.
fn push_answer(text: &mut String, answer: &Answer, weight: u64) -> Result<(), AllocError>
    ensures { OnOk result (string_bytes text.new ≡ string_bytes text.old ++ model.answer_words answer.now weight) }
{
    match answer {
        Answer::Yes | Answer::Unknown(..) | Answer::NotJudged(_) => Ok(()),
        Answer::No(rule, _) => push_rule(text, *rule, weight),
        Answer::UnknownDisks(_) => text.push_str(
            "fewer known copies than are to be kept, and a disk that goes for good may have more",
        ),
    }
}

/// Why a ledger with these entries speaks against the stop.
fn cause_by(
    alloc: Global,
    stop: &Stop<'_>,
    weight: u64,
    parts: &[Ledger],
    entries: &[Counted],
) -> Result<String, AllocError>
    ensures { IfOk result (λ cause. string_bytes cause ≡ model.cause_by (map string_bytes stop.now.names.now)
        (bookies_of stop.now.bookies.now)
        stop.now.question.now.keep (is_flagged stop.now.stopped.now) stop.now.answer.now weight parts.now entries.now) }
{
    let mut text = String::new(alloc);
    push_answer(&mut text, stop.answer, weight)?;
    push_first(alloc, &mut text, stop, entries)?;
    push_down(&mut text, stop.names, stop.bookies, parts)?;
    Ok(text)
}

/// Why the ledger of these parts speaks against the stop.
pub(crate) fn cause_of(
    alloc: Global,
    stop: &Stop<'_>,
    weight: u64,
    parts: &[Ledger],
) -> Result<String, AllocError>
    ensures { IfOk result (λ cause. model.IsCause (map string_bytes stop.now.names.now)
        (bookies_of stop.now.bookies.now)
        stop.now.question.now.keep (is_flagged stop.now.stopped.now) stop.now.answer.now weight parts.now
        (string_bytes cause)) }
{
    let entries = entries_of(alloc, stop.bookies, parts)?;
    let cause = cause_by(alloc, stop, weight, parts, &entries)?;
    Ok(cause)
}
