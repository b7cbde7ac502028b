// The lines of a risk.
ghost use Rattle.std.specs.Prelude.{◌≡◌, ◌++◌, OnOk, IfOk, codes, string_bytes};
ghost use Rattle.reh_waves.specs.Texts as texts;

use crate::lines::name_of;
use crate::losses::{Loss, Lost};
use crate::reasons::judged_words;
use crate::risk::Risk;
use reh_census::{Broken, Numbers};
use std::alloc::{AllocError, Global};

/// Adds how many break a rule, and how many more may, behind this text.
fn push_broken(text: &mut String, before: &str, broken: &Broken) -> Result<(), AllocError>
    ensures { OnOk result (string_bytes text.new ≡ string_bytes text.old ++ (before.now ++ texts.broken_text broken.now)) }
{
    let no = broken.no;
    let unknown = broken.unknown;
    if unknown > 0 {
        return write!(text, "{before}{no} unknown {unknown}");
    }
    write!(text, "{before}{no}")
}

/// Adds the words and the number, where it isn't 0.
fn push_more(text: &mut String, words: &str, count: u64) -> Result<(), AllocError>
    ensures { OnOk result (string_bytes text.new ≡ string_bytes text.old ++ texts.more_text words.now count) }
{
    if count == 0 {
        return Ok(());
    }
    write!(text, "{words}{count}")
}

/// Adds the numbers of the rules, behind a space.
fn push_rules(text: &mut String, numbers: &Numbers) -> Result<(), AllocError>
    ensures { OnOk result (string_bytes text.new ≡ string_bytes text.old ++ (codes " " ++ texts.rules_text numbers.now)) }
{
    push_broken(text, " readable ", &numbers.readable)?;
    push_broken(text, ", kept ", &numbers.kept)?;
    write!(
        text,
        ", recoverable {}, writable {}",
        numbers.recoverable, numbers.writable
    )?;
    push_more(text, ", replaceable ", numbers.replaceable)?;
    push_more(text, ", disks ", numbers.disks)
}

/// Adds what is lost.
fn push_lost(
    text: &mut String,
    names: &[String],
    racks: &[String],
    lost: Lost,
) -> Result<(), AllocError>
    ensures { OnOk result (string_bytes text.new ≡ string_bytes text.old ++ texts.lost_text names.now racks.now lost) }
{
    match lost {
        Lost::Bookie(bookie) => write!(text, "bookie {}", name_of(names, bookie)),
        Lost::Rack(rack) => write!(text, "rack {}", name_of(racks, rack)),
        Lost::Pair(one, other) => write!(
            text,
            "pair {} {}",
            name_of(names, one),
            name_of(names, other)
        ),
    }
}

/// Adds the line of a loss.
fn push_loss(
    text: &mut String,
    names: &[String],
    racks: &[String],
    loss: &Loss,
) -> Result<(), AllocError>
    ensures { OnOk result (string_bytes text.new ≡ string_bytes text.old ++ texts.loss_text names.now racks.now loss.now) }
{
    push_lost(text, names, racks, loss.lost)?;
    push_rules(text, &loss.numbers)?;
    text.push_str("\n")
}

/// Adds the lines of losses.
fn push_losses(
    text: &mut String,
    names: &[String],
    racks: &[String],
    losses: &[Loss],
) -> Result<(), AllocError>
    ensures { OnOk result (string_bytes text.new ≡ string_bytes text.old ++ texts.losses_text names.now racks.now losses.now) }
{
    for loss in losses {
        push_loss(text, names, racks, loss)?;
    }
    Ok(())
}

/// Adds the line of the fewest copies.
fn push_fewest(text: &mut String, fewest: Option<usize>) -> Result<(), AllocError>
    ensures { OnOk result (string_bytes text.new ≡ string_bytes text.old ++ texts.fewest_line fewest) }
{
    match fewest {
        Some(copies) => write!(text, "fewest copies {copies}\n"),
        None => text.push_str("fewest copies none\n"),
    }
}

/// Adds that of ledgers that aren't closed.
fn push_least(text: &mut String, least: Option<u64>) -> Result<(), AllocError>
    ensures { OnOk result (string_bytes text.new ≡ string_bytes text.old ++ texts.least_line least) }
{
    match least {
        Some(copies) => write!(text, "fewest copies in ledgers not closed {copies}\n"),
        None => text.push_str("fewest copies in ledgers not closed none\n"),
    }
}

/// Adds a note, where ledgers were not judged.
fn push_unjudged(text: &mut String, count: u64) -> Result<(), AllocError>
    ensures { OnOk result (string_bytes text.new ≡ string_bytes text.old ++ texts.unjudged_text count) }
{
    if count == 0 {
        return Ok(());
    }
    let words = judged_words(count == 1);
    write!(text, "note: {count}{words}\n")
}

/// Adds the lines of the fewest copies.
fn push_both_fewest(text: &mut String, risk: &Risk) -> Result<(), AllocError>
    ensures { OnOk result (string_bytes text.new ≡ string_bytes text.old ++ texts.fewest_text risk.now) }
{
    push_fewest(text, risk.fewest_copies)?;
    push_least(text, risk.fewest_in_tails)
}

/// Adds the lines of all losses.
fn push_all_losses(
    text: &mut String,
    names: &[String],
    racks: &[String],
    risk: &Risk,
) -> Result<(), AllocError>
    ensures { OnOk result (string_bytes text.new ≡ string_bytes text.old ++ texts.all_losses_text names.now racks.now risk.now) }
{
    push_losses(text, names, racks, &risk.bookies)?;
    push_losses(text, names, racks, &risk.racks)?;
    push_losses(text, names, racks, &risk.pairs)
}

/// The lines of a risk, where bookies and racks have these names.
pub fn risk_text(
    alloc: Global,
    names: &[String],
    racks: &[String],
    risk: &Risk,
) -> Result<String, AllocError>
    ensures { IfOk result (λ text. string_bytes text ≡ texts.risk_text names.now racks.now risk.now) }
{
    let mut text = String::new(alloc);
    push_both_fewest(&mut text, risk)?;
    push_all_losses(&mut text, names, racks, risk)?;
    push_unjudged(&mut text, risk.not_judged)?;
    Ok(text)
}
