// Risks as JSON.
ghost use Rattle.std.specs.Prelude.{◌≡◌, ◌++◌, OnOk, IfOk, codes, string_bytes, true};
ghost use Rattle.reh_waves.specs.Json as json;
ghost use Rattle.reh_waves.specs.Json.{ArePrintable};

use crate::losses::{Loss, Lost};
use crate::objects::{push_comma, push_json_name};
use crate::risk::Risk;
use reh_census::Numbers;
use std::alloc::{AllocError, Global};

/// Adds the numbers of the rules, as the last member of an object.
fn push_rules(text: &mut String, numbers: &Numbers) -> Result<(), AllocError>
    ensures { OnOk result (string_bytes text.new ≡ string_bytes text.old ++ (codes "," ++ (json.rules_json numbers.now ++ codes "}"))) }
{
    write!(
        text,
        ",\"rules\":{{\"readable\":{{\"no\":{},\"unknown\":{}}},\"kept\":{{\"no\":{},\"unknown\":{}}},\"recoverable\":{},\"writable\":{},\"replaceable\":{},\"disks\":{}}}}}",
        numbers.readable.no,
        numbers.readable.unknown,
        numbers.kept.no,
        numbers.kept.unknown,
        numbers.recoverable,
        numbers.writable,
        numbers.replaceable,
        numbers.disks
    )
}

/// Adds two bookies.
fn push_pair(text: &mut String, names: &[String], one: u16, other: u16) -> Result<(), AllocError>
    requires { ArePrintable names.now }
    ensures { OnOk result (string_bytes text.new ≡ string_bytes text.old ++ json.pair_json names.now one other) }
{
    push_json_name(text, "\"bookies\":[", names, one)?;
    push_json_name(text, ",", names, other)?;
    text.push_str("]")
}

/// Adds what is lost.
fn push_lost(
    text: &mut String,
    names: &[String],
    racks: &[String],
    lost: Lost,
) -> Result<(), AllocError>
    requires names { ArePrintable names.now }
    requires racks { ArePrintable racks.now }
    ensures { OnOk result (string_bytes text.new ≡ string_bytes text.old ++ json.lost_json names.now racks.now lost) }
{
    match lost {
        Lost::Bookie(bookie) => push_json_name(text, "\"bookie\":", names, bookie),
        Lost::Rack(rack) => push_json_name(text, "\"rack\":", racks, rack),
        Lost::Pair(one, other) => push_pair(text, names, one, other),
    }
}

/// Adds a loss.
fn push_loss(
    text: &mut String,
    names: &[String],
    racks: &[String],
    loss: &Loss,
) -> Result<(), AllocError>
    requires names { ArePrintable names.now }
    requires racks { ArePrintable racks.now }
    ensures { OnOk result (string_bytes text.new ≡ string_bytes text.old ++ json.loss_json names.now racks.now loss.now) }
{
    text.push_str("{")?;
    push_lost(text, names, racks, loss.lost)?;
    push_rules(text, &loss.numbers)
}

/// Adds the losses in a list.
fn push_each(
    text: &mut String,
    names: &[String],
    racks: &[String],
    losses: &[Loss],
) -> Result<(), AllocError>
    requires names { ArePrintable names.now }
    requires racks { ArePrintable racks.now }
    ensures { OnOk result (string_bytes text.new
        ≡ string_bytes text.old ++ json.elements (json.loss_json names.now racks.now) true losses.now) }
{
    let mut is_first = true;
    for loss in losses {
        push_comma(text, is_first)?;
        push_loss(text, names, racks, loss)?;
        is_first = false;
    }
    Ok(())
}

/// Adds the list of the losses, behind this text.
fn push_losses(
    text: &mut String,
    before: &str,
    names: &[String],
    racks: &[String],
    losses: &[Loss],
) -> Result<(), AllocError>
    requires names { ArePrintable names.now }
    requires racks { ArePrintable racks.now }
    ensures { OnOk result (string_bytes text.new ≡ string_bytes text.old ++ (before.now ++ json.losses_json names.now racks.now losses.now)) }
{
    write!(text, "{before}[")?;
    push_each(text, names, racks, losses)?;
    text.push_str("]")
}

/// Adds the fewest copies.
fn push_fewest(text: &mut String, fewest: Option<usize>) -> Result<(), AllocError>
    ensures { OnOk result (string_bytes text.new ≡ string_bytes text.old ++ json.fewest_field fewest) }
{
    match fewest {
        Some(copies) => write!(text, "{{\"fewest_copies\":{copies}"),
        None => text.push_str("{\"fewest_copies\":null"),
    }
}

/// Adds those of ledgers that aren't closed.
fn push_least(text: &mut String, least: Option<u64>) -> Result<(), AllocError>
    ensures { OnOk result (string_bytes text.new ≡ string_bytes text.old ++ json.least_field least) }
{
    match least {
        Some(copies) => write!(text, ",\"fewest_copies_not_closed\":{copies}"),
        None => text.push_str(",\"fewest_copies_not_closed\":null"),
    }
}

/// Adds the fewest copies, and how many ledgers were not judged.
fn push_both_fewest(text: &mut String, risk: &Risk) -> Result<(), AllocError>
    ensures { OnOk result (string_bytes text.new ≡ string_bytes text.old ++ json.fewest_json risk.now) }
{
    push_fewest(text, risk.fewest_copies)?;
    push_least(text, risk.fewest_in_tails)?;
    write!(text, ",\"not_judged\":{}", risk.not_judged)
}

/// Adds all losses.
fn push_all_losses(
    text: &mut String,
    names: &[String],
    racks: &[String],
    risk: &Risk,
) -> Result<(), AllocError>
    requires names { ArePrintable names.now }
    requires racks { ArePrintable racks.now }
    ensures { OnOk result (string_bytes text.new ≡ string_bytes text.old ++ json.all_losses_json names.now racks.now risk.now) }
{
    push_losses(text, ",\"bookies\":", names, racks, &risk.bookies)?;
    push_losses(text, ",\"racks\":", names, racks, &risk.racks)?;
    push_losses(text, ",\"pairs\":", names, racks, &risk.pairs)
}

/// The risk as one object, where bookies and racks have these names.
pub fn risk_json(
    alloc: Global,
    names: &[String],
    racks: &[String],
    risk: &Risk,
) -> Result<String, AllocError>
    requires names { ArePrintable names.now }
    requires racks { ArePrintable racks.now }
    ensures { IfOk result (λ text. string_bytes text ≡ json.risk_json names.now racks.now risk.now) }
{
    let mut text = String::new(alloc);
    push_both_fewest(&mut text, risk)?;
    push_all_losses(&mut text, names, racks, risk)?;
    text.push_str("}\n")?;
    Ok(text)
}
