// The numbers of the rules, and what is unknown.
ghost use Rattle.std.specs.Prelude.{◌≡◌, ◌++◌, OnOk, string_bytes};
ghost use Rattle.reh_answer.specs.Texts as texts;

use crate::facts::Facts;
use reh_census::Numbers;
use std::alloc::AllocError;

/// Adds the line of the rules, with the number of the last one, where bookies go for good.
pub(crate) fn push_rules(
    text: &mut String,
    numbers: &Numbers,
    for_good: bool,
) -> Result<(), AllocError>
    ensures { OnOk result (string_bytes text.new ≡ string_bytes text.old ++ texts.rules_line numbers.now for_good) }
{
    if !for_good {
        return write!(
            text,
            "rules              readable {}, kept {}, recoverable {}, writable {}\n",
            numbers.readable.no, numbers.kept.no, numbers.recoverable, numbers.writable
        );
    }
    write!(
        text,
        "rules              readable {}, kept {}, recoverable {}, writable {}, replaceable {}\n",
        numbers.readable.no,
        numbers.kept.no,
        numbers.recoverable,
        numbers.writable,
        numbers.replaceable
    )
}

/// Adds a number after its label, where there is one.
fn push_some(text: &mut String, label: &str, number: u64) -> Result<(), AllocError>
    ensures { OnOk result (string_bytes text.new ≡ string_bytes text.old ++ texts.some_words label.now number) }
{
    if number == 0 {
        return Ok(());
    }
    write!(text, "{label}{number}")
}

/// Whether all is told of all entries, each has as many known copies as are to be kept or no disk goes, and all ledgers were
/// judged.
fn is_all_known(facts: &Facts) -> bool
    ensures { result ≡ texts.is_all_known facts.now }
{
    facts.unknown == 0 && (facts.numbers.disks == 0 && facts.numbers.not_judged == 0)
}

/// Adds the line of what is unknown.
fn push_unknown_numbers(text: &mut String, numbers: &Numbers) -> Result<(), AllocError>
    ensures { OnOk result (string_bytes text.new ≡ string_bytes text.old ++ texts.unknown_numbers numbers.now) }
{
    write!(
        text,
        "unknown            readable {}, kept {}",
        numbers.readable.unknown, numbers.kept.unknown
    )?;
    push_some(text, ", disks ", numbers.disks)?;
    push_some(text, ", not judged ", numbers.not_judged)?;
    text.push_str("\n")
}

/// Adds the line of what is unknown, where something is.
pub(crate) fn push_unknown(text: &mut String, facts: &Facts) -> Result<(), AllocError>
    ensures { OnOk result (string_bytes text.new ≡ string_bytes text.old ++ texts.unknown_line facts.now) }
{
    if is_all_known(facts) {
        return Ok(());
    }
    push_unknown_numbers(text, &facts.numbers)
}
