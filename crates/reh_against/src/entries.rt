// Where the entries that speak against a stop are left.
ghost use Rattle.std.specs.Prelude.{◌≡◌, ◌++◌, OnOk, map, string_bytes};
ghost use Rattle.reh_census.specs.Bookies.{is_flagged};
ghost use Rattle.reh_against.specs.Causes as model;

use crate::members::{others, push_maybe, push_sure};
use crate::stops::Stop;
use reh_census::{Answer, BookieSet, Class, Counted, Keep, Rule};
use reh_rules::{Breaks, breaks_of};
use std::alloc::{AllocError, Global};

/// Whether an entry breaks the rule.
fn is_broken(rule: Rule, breaks: &Breaks) -> bool
    ensures { result ≡ model.is_broken rule breaks.now }
{
    match rule {
        Rule::Readable => breaks.lost,
        Rule::Kept => breaks.fallen,
        Rule::Recoverable | Rule::Writable | Rule::Replaceable => false,
    }
}

/// Whether it may break the rule.
fn may_be_broken(rule: Rule, breaks: &Breaks) -> bool
    ensures { result ≡ model.may_be_broken rule breaks.now }
{
    match rule {
        Rule::Readable => breaks.may_be_lost,
        Rule::Kept => breaks.may_be_fallen,
        Rule::Recoverable | Rule::Writable | Rule::Replaceable => false,
    }
}

/// Whether an entry speaks for the answer.
fn speaks_by(answer: &Answer, breaks: &Breaks) -> bool
    ensures { result ≡ model.speaks_by answer.now breaks.now }
{
    match answer {
        Answer::No(rule, _) => is_broken(*rule, breaks),
        Answer::Unknown(rule, _) => may_be_broken(*rule, breaks),
        Answer::Yes | Answer::UnknownDisks(_) | Answer::NotJudged(_) => false,
    }
}

/// Whether there is an entry of this class, and it speaks for the answer.
fn some_speaks(answer: &Answer, keep: Keep, stopped: &BookieSet, counted: &Counted) -> bool
    ensures { result ≡ model.some_speaks answer.now keep (is_flagged stopped.now) counted.now }
{
    let breaks = breaks_of(keep, false, stopped, &counted.class);
    counted.count > 0 && speaks_by(answer, &breaks)
}

/// Adds on which bookies an entry is left, if it is on these, and of those nobody told.
fn push_left(
    text: &mut String,
    names: &[String],
    known: &[u16],
    untold: &[u16],
) -> Result<(), AllocError>
    ensures { OnOk result (string_bytes text.new
        ≡ string_bytes text.old ++ model.left_words (map string_bytes names.now) known.now untold.now) }
{
    match untold {
        [] => push_sure(text, names, known),
        _ => push_maybe(text, names, known, untold),
    }
}

/// Adds where an entry of this class is left.
fn push_class(
    alloc: Global,
    text: &mut String,
    names: &[String],
    stopped: &BookieSet,
    class: &Class,
) -> Result<(), AllocError>
    ensures { OnOk result (string_bytes text.new ≡ string_bytes text.old
        ++ model.class_words (map string_bytes names.now) (is_flagged stopped.now) class.now) }
{
    let known = others(alloc, class.known.as_slice(), stopped)?;
    let untold = others(alloc, class.untold.as_slice(), stopped)?;
    push_left(text, names, &known, &untold)?;
    Ok(())
}

/// Adds where the first of the entries that speak for the answer is left.
pub(crate) fn push_first(
    alloc: Global,
    text: &mut String,
    stop: &Stop<'_>,
    entries: &[Counted],
) -> Result<(), AllocError>
    ensures { OnOk result (string_bytes text.new ≡ string_bytes text.old
        ++ model.first_words (map string_bytes stop.now.names.now) stop.now.answer.now stop.now.question.now.keep
        (is_flagged stop.now.stopped.now) entries.now) }
{
    let keep = stop.question.keep;
    for counted in entries {
        if some_speaks(stop.answer, keep, stop.stopped, counted) {
            return push_class(alloc, text, stop.names, stop.stopped, &counted.class);
        }
    }
    Ok(())
}
