// How much of a ledger speaks against a stop.
ghost use Rattle.std.specs.Prelude.{◌≡◌, IfOk, Err};
ghost use Rattle.reh_census.specs.Bookies.{bookies_of, holders, is_flagged};
ghost use Rattle.reh_tally.specs.Few.{AreFew};
ghost use Rattle.reh_tally.specs.declared.census.TallyFault.TheVariants.{TooMany};
ghost use Rattle.reh_against.specs.Weights as model;

use crate::stops::Stop;
use reh_census::{Answer, Judged, Ledger, Numbers, Question, Rule};
use reh_rules::numbers_of;
use reh_tally::{TallyFault, census_of};
use std::alloc::Global;

/// The number of the rule that is broken.
fn broken_by(rule: Rule, numbers: &Numbers) -> u64
    ensures { result ≡ model.broken_by rule numbers.now }
{
    match rule {
        Rule::Readable => numbers.readable.no,
        Rule::Kept => numbers.kept.no,
        Rule::Recoverable => numbers.recoverable,
        Rule::Writable => numbers.writable,
        Rule::Replaceable => numbers.replaceable,
    }
}

/// The number of the rule that may be broken.
fn unknown_by(rule: Rule, numbers: &Numbers) -> u64
    ensures { result ≡ model.unknown_by rule numbers.now }
{
    match rule {
        Rule::Readable => numbers.readable.unknown,
        Rule::Kept => numbers.kept.unknown,
        Rule::Recoverable | Rule::Writable | Rule::Replaceable => 0,
    }
}

/// The number that the answer names.
fn weight_by(answer: &Answer, numbers: &Numbers) -> u64
    ensures { result ≡ model.weight_by answer.now numbers.now }
{
    match answer {
        Answer::Yes | Answer::NotJudged(_) => 0,
        Answer::No(rule, _) => broken_by(*rule, numbers),
        Answer::Unknown(rule, _) => unknown_by(*rule, numbers),
        Answer::UnknownDisks(_) => numbers.disks,
    }
}

/// The question, with nothing asked of new ledgers.
fn without_new(question: &Question) -> Question
    ensures { result ≡ model.without_new question.now }
{
    Question {
        ensemble: None,
        ..*question
    }
}

/// How much of a ledger speaks against the stop, by a census of its parts.
fn counted_weight(alloc: Global, parts: &[Ledger], stop: &Stop<'_>) -> Result<u64, TallyFault>
    ensures weight { IfOk result (λ weight. weight ≡ model.weight_of
        (bookies_of stop.now.bookies.now) stop.now.question.now
        (is_flagged stop.now.stopped.now) stop.now.answer.now parts.now) }
    ensures too_many { result ≡ Err TooMany → AreFew (holders (bookies_of stop.now.bookies.now)) parts.now → ⊥ }
{
    let judged = Judged {
        ledgers: parts.len() as u64,
        assumed: 0,
        unread: 0,
        missing: 0,
    };
    let census = census_of(alloc, stop.bookies, parts, judged)?;
    let question = without_new(stop.question);
    let numbers = numbers_of(alloc, &census, stop.bookies, &question, stop.stopped);
    Ok(weight_by(stop.answer, &numbers))
}

/// How much of a ledger of these parts speaks against the stop: nothing against a yes.
pub(crate) fn weight_of(alloc: Global, parts: &[Ledger], stop: &Stop<'_>) -> Result<u64, TallyFault>
    ensures weight { IfOk result (λ weight. weight ≡ model.weight_of
        (bookies_of stop.now.bookies.now) stop.now.question.now
        (is_flagged stop.now.stopped.now) stop.now.answer.now parts.now) }
    ensures too_many { result ≡ Err TooMany → AreFew (holders (bookies_of stop.now.bookies.now)) parts.now → ⊥ }
{
    match stop.answer {
        Answer::Yes | Answer::NotJudged(_) => Ok(0),
        Answer::No(..) | Answer::Unknown(..) | Answer::UnknownDisks(_) => {
            counted_weight(alloc, parts, stop)
        }
    }
}

/// Whether the rule counts entries.
fn counts_entries(rule: Rule) -> bool
    ensures { result ≡ model.counts_entries rule }
{
    match rule {
        Rule::Readable | Rule::Kept => true,
        Rule::Recoverable | Rule::Writable | Rule::Replaceable => false,
    }
}

/// How many entries of so much that speaks against the stop.
pub(crate) fn entries_by(answer: &Answer, weight: u64) -> u64
    ensures { result ≡ model.entries_by answer.now weight }
{
    match answer {
        Answer::Yes | Answer::NotJudged(_) => 0,
        Answer::No(rule, _) | Answer::Unknown(rule, _) => {
            if counts_entries(*rule) { weight } else { 0 }
        }
        Answer::UnknownDisks(_) => weight,
    }
}
