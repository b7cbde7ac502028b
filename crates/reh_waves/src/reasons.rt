// What speaks against a stop, in words.
ghost use Rattle.std.specs.Prelude.{◌≡◌, ◌++◌, OnOk, codes, string_bytes};
ghost use Rattle.std.specs.Fmt.{decimal};
ghost use Rattle.reh_waves.specs.Texts as texts;

use reh_census::{Answer, Rule};
use std::alloc::AllocError;

/// How many break the rule, after the number: of one, or of more.
fn no_words(rule: Rule, one: bool) -> &'static str
    ensures { result.now ≡ texts.no_words rule one }
{
    match (rule, one) {
        (Rule::Readable, true) => " entry could not be read",
        (Rule::Readable, false) => " entries could not be read",
        (Rule::Kept, true) =>
            " entry would have fewer copies than are to be kept, and fewer than now",
        (Rule::Kept, false) => {
            " entries would have fewer copies than are to be kept, and fewer than now"
        }
        (Rule::Recoverable, true) => {
            " ledger could not be recovered, or its last entries would have fewer copies than now"
        }
        (Rule::Recoverable, false) => {
            " ledgers could not be recovered, or their last entries would have fewer copies than now"
        }
        (Rule::Writable, true) => " ledger, open or new, would find no ensemble",
        (Rule::Writable, false) => " ledgers, open or new, would find no ensemble",
        (Rule::Replaceable, true) => " fragment would find no bookies for its places",
        (Rule::Replaceable, false) => " fragments would find no bookies for their places",
    }
}

/// How many more may break the rule.
fn unknown_words(rule: Rule, one: bool) -> &'static str
    ensures { result.now ≡ texts.unknown_words rule one }
{
    match (rule, one) {
        (Rule::Readable, true) => " entry could be lost: nobody told what some of its bookies hold",
        (Rule::Readable, false) => {
            " entries could be lost: nobody told what some of their bookies hold"
        }
        (_, true) => {
            " entry could have fewer copies than are to be kept: nobody told what some of its bookies hold"
        }
        (_, false) => {
            " entries could have fewer copies than are to be kept: nobody told what some of their bookies hold"
        }
    }
}

/// How many have their last copy on disks, perhaps.
fn disk_words(one: bool) -> &'static str
    ensures { result.now ≡ texts.disk_words one }
{
    if one {
        " entry has no known copy, and a disk that would go may have one"
    } else {
        " entries have no known copy, and disks that would go may have one"
    }
}

/// How many ledgers were not judged.
pub(crate) fn judged_words(one: bool) -> &'static str
    ensures { result.now ≡ texts.judged_words one }
{
    if one {
        " ledger was not judged"
    } else {
        " ledgers were not judged"
    }
}

/// Adds how many it may be, in these words.
fn push_unknown(text: &mut String, count: u64, words: &str) -> Result<(), AllocError>
    ensures { OnOk result (string_bytes text.new ≡ string_bytes text.old ++ (codes "unknown, " ++ (decimal count ++ words.now))) }
{
    write!(text, "unknown, {count}{words}")
}

/// Adds what speaks against a stop.
pub(crate) fn push_reason(text: &mut String, answer: Answer) -> Result<(), AllocError>
    ensures { OnOk result (string_bytes text.new ≡ string_bytes text.old ++ texts.reason_text answer) }
{
    match answer {
        Answer::Yes => text.push_str("yes"),
        Answer::No(rule, count) => {
            let words = no_words(rule, count == 1);
            write!(text, "{count}{words}")
        }
        Answer::Unknown(rule, count) => push_unknown(text, count, unknown_words(rule, count == 1)),
        Answer::UnknownDisks(count) => push_unknown(text, count, disk_words(count == 1)),
        Answer::NotJudged(count) => push_unknown(text, count, judged_words(count == 1)),
    }
}
