// The verdict, in words and as a status.
ghost use Rattle.std.specs.Prelude.{◌≡◌, ◌++◌, OnOk, codes, string_bytes};
ghost use Rattle.reh_answer.specs.Texts as texts;

use crate::facts::Facts;
use crate::nouns::{Amount, Noun, has, were, whose};
use reh_census::{Answer, Keep, Question, Rule};
use std::alloc::AllocError;
use std::fmt;

/// The exit status of an answer: 0 for yes, 8 for no, and 9 for unknown.
pub fn status_of(answer: &Answer) -> u8
    ensures { result ≡ texts.status_number answer.now }
{
    match answer {
        Answer::Yes => 0,
        Answer::No(..) => 8,
        Answer::Unknown(..) | Answer::UnknownDisks(_) | Answer::NotJudged(_) => 9,
    }
}

/// How many copies so many entries would have too few of.
#[derive(Clone, Copy)]
struct Asked {
    keep: Keep,
    number: u64,
}

impl fmt::Display for Asked {
    ghost use Rattle.std.specs.Prelude.{Some};

    ghost output = { λ asked. Some (texts.asked asked.keep asked.number) };

    fn fmt<W: fmt::Write>(&self, f: &mut fmt::Formatter<W>) -> fmt::Result {
        let whose = whose(self.number);
        match self.keep {
            Keep::AckQuorum => write!(f, "{whose} ack quorum's copies"),
            Keep::Copies(copies) => write!(f, "{copies} copies"),
            Keep::AckLessOne => write!(f, "one less than {whose} ack quorum's copies"),
        }
    }
}

/// What is said where the stop is a yes with `--keep 1`.
fn hint(keep_1_allows: bool) -> &'static str
    ensures { result.now ≡ texts.hint keep_1_allows }
{
    if keep_1_allows {
        " (--keep 1 allows it)"
    } else {
        ""
    }
}

/// What a rule counts.
fn noun_of(rule: Rule) -> Noun
    ensures { result ≡ texts.noun_of rule }
{
    match rule {
        Rule::Readable | Rule::Kept => Noun::Entry,
        Rule::Recoverable => Noun::Ledger,
        Rule::Writable => Noun::OpenLedger,
        Rule::Replaceable => Noun::Fragment,
    }
}

/// Adds that new ledgers find no ensemble, and so many others.
fn push_new_ledgers(text: &mut String, others: u64) -> Result<(), AllocError>
    ensures { OnOk result (string_bytes text.new ≡ string_bytes text.old ++ texts.new_ledgers_words others) }
{
    if others == 0 {
        return text.push_str("new ledgers would find no ensemble of the size asked for");
    }
    let ledgers = Amount {
        number: others,
        noun: Noun::OpenLedger,
    };
    write!(
        text,
        "{ledgers} would find no ensemble to go on with, and new ledgers none of the size asked for"
    )
}

/// Adds that so many find no ensemble, of which one stands for new ledgers, or none.
fn push_no_ensemble(text: &mut String, new_ledgers: bool, number: u64) -> Result<(), AllocError>
    ensures { OnOk result (string_bytes text.new ≡ string_bytes text.old ++ texts.no_ensemble new_ledgers number) }
{
    if new_ledgers {
        return push_new_ledgers(text, number.saturating_sub(1));
    }
    let ledgers = Amount {
        number,
        noun: Noun::OpenLedger,
    };
    write!(text, "{ledgers} would find no ensemble to go on with")
}

/// Adds which rule is broken, and how often.
fn push_no(
    text: &mut String,
    facts: &Facts,
    keep: Keep,
    rule: Rule,
    number: u64,
) -> Result<(), AllocError>
    ensures { OnOk result (string_bytes text.new ≡ string_bytes text.old
        ++ texts.no_words facts.now.breaks_new_ledgers facts.now.keep_1_allows keep rule number) }
{
    let noun = noun_of(rule);
    let amount = Amount { number, noun };
    let whose = whose(number);
    match rule {
        Rule::Readable => write!(text, "{amount} could not be read"),
        Rule::Kept => {
            let asked = Asked { keep, number };
            let hint = hint(facts.keep_1_allows);
            write!(
                text,
                "{amount} would have fewer than {asked}, and fewer than now{hint}"
            )
        }
        Rule::Recoverable => write!(
            text,
            "{amount} could not be recovered, or {whose} last entries would have fewer copies than now"
        ),
        Rule::Writable => push_no_ensemble(text, facts.breaks_new_ledgers, number),
        Rule::Replaceable => { write!(text, "{amount} would find no bookies for {whose} places") }
    }
}

/// Adds that it is unknown, as a rule may be broken, and how often.
fn push_may(text: &mut String, keep: Keep, rule: Rule, number: u64) -> Result<(), AllocError>
    ensures { OnOk result (string_bytes text.new ≡ string_bytes text.old ++ (codes "unknown, " ++ texts.may_words keep rule number)) }
{
    let noun = noun_of(rule);
    let amount = Amount { number, noun };
    let whose = whose(number);
    match rule {
        Rule::Readable => write!(
            text,
            "unknown, {amount} could be lost: nobody told what some of {whose} bookies hold"
        ),
        Rule::Kept => {
            let asked = Asked { keep, number };
            write!(
                text,
                "unknown, {amount} could have fewer than {asked}, and fewer than now: nobody told what some of {whose} bookies hold"
            )
        }
        Rule::Recoverable | Rule::Writable | Rule::Replaceable => write!(
            text,
            "unknown, {amount} could break a rule: nobody told what some of {whose} bookies hold"
        ),
    }
}

/// Adds that it is unknown, as so many entries may have copies on disks that go for good, and have too few elsewhere.
fn push_disks(text: &mut String, number: u64) -> Result<(), AllocError>
    ensures { OnOk result (string_bytes text.new ≡ string_bytes text.old ++ (codes "unknown, " ++ texts.disks_words number)) }
{
    let noun = Noun::Entry;
    let entries = Amount { number, noun };
    let has = has(number);
    write!(
        text,
        "unknown, {entries} {has} fewer known copies than are to be kept, and a bookie that is down and goes for good may have more"
    )
}

/// Adds that it is unknown, as so many ledgers were not judged, where so many were.
fn push_not_judged(text: &mut String, ledgers: u64, number: u64) -> Result<(), AllocError>
    ensures { OnOk result (string_bytes text.new ≡ string_bytes text.old ++ (codes "unknown, " ++ texts.not_judged_words ledgers number)) }
{
    let all = u128::from(ledgers) + u128::from(number);
    let were = were(number);
    write!(text, "unknown, {number} of {all} ledgers {were} not judged")
}

/// Adds the answer.
fn push_answer(text: &mut String, facts: &Facts, keep: Keep) -> Result<(), AllocError>
    ensures { OnOk result (string_bytes text.new ≡ string_bytes text.old
        ++ texts.answer_words facts.now keep) }
{
    match facts.answer {
        Answer::Yes => text.push_str("yes"),
        Answer::No(rule, number) => {
            text.push_str("no, ")?;
            push_no(text, facts, keep, rule, number)
        }
        Answer::Unknown(rule, number) => push_may(text, keep, rule, number),
        Answer::UnknownDisks(number) => push_disks(text, number),
        Answer::NotJudged(number) => push_not_judged(text, facts.judged.ledgers, number),
    }
}

/// Adds the line of the verdict.
pub(crate) fn push_verdict(
    text: &mut String,
    facts: &Facts,
    question: &Question,
) -> Result<(), AllocError>
    ensures { OnOk result (string_bytes text.new ≡ string_bytes text.old ++ texts.verdict_line facts.now question.now) }
{
    text.push_str("ok-to-stop: ")?;
    push_answer(text, facts, question.keep)?;
    text.push_str("\n")
}
