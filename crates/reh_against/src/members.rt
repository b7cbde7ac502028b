// Names of bookies.
ghost use Rattle.std.specs.Prelude.{◌≡◌, ◌++◌, IfOk, OnOk, flat_map, map, string_bytes};
ghost use Rattle.reh_census.specs.Bookies.{bookies_of, is_flagged};
ghost use Rattle.reh_census.specs.Copies.{is_in};
ghost use Rattle.reh_answer.specs.Texts.{name_of};
ghost use Rattle.reh_against.specs.Causes as model;

use reh_census::{BookieSet, Bookies, Ledger};
use std::alloc::{AllocError, Global};

/// Adds the bookie's name, or its number where the names have none for it.
fn push_name(text: &mut String, names: &[String], bookie: u16) -> Result<(), AllocError>
    ensures { OnOk result (string_bytes text.new
        ≡ string_bytes text.old ++ name_of (map string_bytes names.now) bookie) }
{
    match names.get(bookie as usize) {
        Some(name) => text.push_str(name.as_str()),
        None => write!(text, "bookie {bookie}"),
    }
}

/// Adds a comma and the name.
fn push_next(text: &mut String, names: &[String], bookie: u16) -> Result<(), AllocError>
    ensures { OnOk result (string_bytes text.new
        ≡ string_bytes text.old ++ model.next (map string_bytes names.now) bookie) }
{
    text.push_str(", ")?;
    push_name(text, names, bookie)
}

/// Adds names, each after a comma.
fn push_more(text: &mut String, names: &[String], bookies: &[u16]) -> Result<(), AllocError>
    ensures { OnOk result (string_bytes text.new ≡ string_bytes text.old
        ++ flat_map (model.next (map string_bytes names.now)) bookies.now) }
{
    for bookie in bookies {
        push_next(text, names, *bookie)?;
    }
    Ok(())
}

/// Adds names, with commas between them.
pub(crate) fn push_listed(
    text: &mut String,
    names: &[String],
    bookies: &[u16],
) -> Result<(), AllocError>
    ensures { OnOk result (string_bytes text.new
        ≡ string_bytes text.old ++ model.listed (map string_bytes names.now) bookies.now) }
{
    match bookies {
        [] => Ok(()),
        [first, others @ ..] => {
            push_name(text, names, *first)?;
            push_more(text, names, others)
        }
    }
}

/// Adds on which bookies an entry is left, where all is told.
pub(crate) fn push_sure(
    text: &mut String,
    names: &[String],
    bookies: &[u16],
) -> Result<(), AllocError>
    ensures { OnOk result (string_bytes text.new
        ≡ string_bytes text.old ++ model.sure_words (map string_bytes names.now) bookies.now) }
{
    match bookies {
        [] => text.push_str("then nowhere"),
        [only] => {
            text.push_str("then on ")?;
            push_name(text, names, *only)?;
            text.push_str(" alone")
        }
        _ => {
            text.push_str("then on ")?;
            push_listed(text, names, bookies)
        }
    }
}

/// Adds on which bookies an entry is left, and on which it may be, of which nobody told.
fn push_both(
    text: &mut String,
    names: &[String],
    known: &[u16],
    untold: &[u16],
) -> Result<(), AllocError>
    ensures { OnOk result (string_bytes text.new
        ≡ string_bytes text.old ++ model.both_words (map string_bytes names.now) known.now untold.now) }
{
    text.push_str("then on ")?;
    push_listed(text, names, known)?;
    text.push_str(", and maybe on ")?;
    push_listed(text, names, untold)
}

/// Adds on which bookies an entry may be left, of which nobody told.
fn push_untold(text: &mut String, names: &[String], untold: &[u16]) -> Result<(), AllocError>
    ensures { OnOk result (string_bytes text.new
        ≡ string_bytes text.old ++ model.untold_words (map string_bytes names.now) untold.now) }
{
    text.push_str("then maybe on ")?;
    push_listed(text, names, untold)
}

/// Adds on which bookies an entry is left, where nobody told of some.
pub(crate) fn push_maybe(
    text: &mut String,
    names: &[String],
    known: &[u16],
    untold: &[u16],
) -> Result<(), AllocError>
    ensures { OnOk result (string_bytes text.new
        ≡ string_bytes text.old ++ model.maybe_words (map string_bytes names.now) known.now untold.now) }
{
    match known {
        [] => push_untold(text, names, untold),
        _ => push_both(text, names, known, untold),
    }
}

/// Those of these bookies that aren't stopped.
pub(crate) fn others(
    alloc: Global,
    bookies: &[u16],
    stopped: &BookieSet,
) -> Result<Vec<u16>, AllocError>
    ensures { IfOk result (λ others. others.items ≡ model.others (is_flagged stopped.now) bookies.now) }
{
    let mut others = Vec::new(alloc);
    for bookie in bookies {
        if !stopped.contains(*bookie) {
            others.push(*bookie)?;
        }
    }
    Ok(others)
}

/// Whether the bookie is one of these.
fn is_one_of(names: &[u16], bookie: u16) -> bool
    ensures { result ≡ is_in names.now bookie }
{
    names.iter().any(|name| *name == bookie)
}

/// Whether the bookie is a member of this part of a ledger.
fn is_member_of(ledger: &Ledger, bookie: u16) -> bool
    ensures { result ≡ model.is_member_of bookie ledger.now }
{
    let fragments = ledger.fragments();
    fragments
        .iter()
        .any(|fragment| is_one_of(fragment.ensemble.as_slice(), bookie))
}

/// Whether it is one of the ledger of these parts.
fn is_member(parts: &[Ledger], bookie: u16) -> bool
    ensures { result ≡ model.is_member parts.now bookie }
{
    parts.iter().any(|part| is_member_of(part, bookie))
}

/// Whether it is one that is down.
fn is_down_member(bookies: &Bookies, parts: &[Ledger], bookie: u16) -> bool
    ensures { result ≡ model.is_down_member (bookies_of bookies.now) parts.now bookie }
{
    !bookies.is_registered(bookie) && is_member(parts, bookie)
}

/// Adds that the bookie is down, if it is a member of the ledger that is.
fn push_if_down(
    text: &mut String,
    names: &[String],
    bookies: &Bookies,
    parts: &[Ledger],
    bookie: u16,
) -> Result<(), AllocError>
    ensures { OnOk result (string_bytes text.new ≡ string_bytes text.old
        ++ model.down_if (map string_bytes names.now) bookie (model.is_down_member
        (bookies_of bookies.now) parts.now bookie)) }
{
    if !is_down_member(bookies, parts, bookie) {
        return Ok(());
    }
    text.push_str("; ")?;
    push_name(text, names, bookie)?;
    text.push_str(" is down")
}

/// Adds which members of the ledger are down.
pub(crate) fn push_down(
    text: &mut String,
    names: &[String],
    bookies: &Bookies,
    parts: &[Ledger],
) -> Result<(), AllocError>
    ensures { OnOk result (string_bytes text.new ≡ string_bytes text.old
        ++ model.down_words (map string_bytes names.now) (bookies_of bookies.now) parts.now) }
{
    for bookie in 0..bookies.len() {
        push_if_down(text, names, bookies, parts, bookie)?;
    }
    Ok(())
}
