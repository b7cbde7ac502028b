// The picture of some ledgers of an inventory.
ghost use Rattle.std.specs.Prelude.{◌≡◌, IfOk, IsTrue, None, OnOk, Ok, string_bytes, true};
ghost use Rattle.std.specs.List.{list_all};
ghost use Rattle.reh_cut.specs.Cuts as model;
ghost use Rattle.reh_cut.specs.Faults.{FailsWith};
ghost use Rattle.reh_cut.specs.Passed.{NamesFault, each_line_fault, line_fault, lines_fault, refill_fault, unknown_fault};
ghost use Rattle.reh_picture.specs.Listings.{Lists};
ghost use Rattle.reh_picture.specs.Pictures.{picture_of};

use crate::checks::{first_unknown, refills, shows_bookies, shows_ledgers};
use crate::faults::{CutFault, no_picture};
use crate::names::{Others, names_of};
use crate::passed::{check_count, check_limits, check_size};
use crate::said::Assume;
use crate::texts::{Written, picture_text};
use reh_cluster::State;
use reh_inventory::{Head, LedgerLine, Name};
use reh_picture::{Listed, PictureFault, list_picture, read_picture};
use std::alloc::Global;

/// The picture of these ledgers: their bookies, and then others of the first line, up to as many as a picture may have, those
/// that can be written to first, by name. What nobody tells of a bookie and an entry that is written to it is as the rule
/// says; where nothing is assumed, such a ledger is refused. What is assumed is marked as that.
///
/// The text is read back before it is given out, and compared with the lines, so it is refused where no picture can show
/// them. Limits that a single line passes are found before, and so is a bookie that is empty and holds entries.
pub fn cut(
    alloc: Global,
    head: &Head,
    lines: &[LedgerLine],
    assume: Assume,
) -> Result<String, CutFault>
    ensures cut { IfOk result (λ text. model.IsCut head.now lines.now assume (string_bytes text)) }
    ensures faultless { IfOk result (λ _. lines_fault head.now assume lines.now ≡ None) }
    ensures fault { NamesFault result (lines_fault head.now assume lines.now) }
{
    cut_with(alloc, head, lines, assume, Others::ByName)
}

/// The same picture, where the other bookies come in this order.
pub fn cut_with(
    alloc: Global,
    head: &Head,
    lines: &[LedgerLine],
    assume: Assume,
    others: Others,
) -> Result<String, CutFault>
    ensures cut { IfOk result (λ text. model.IsCut head.now lines.now assume (string_bytes text)) }
    ensures faultless { IfOk result (λ _. lines_fault head.now assume lines.now ≡ None) }
    ensures fault { NamesFault result (lines_fault head.now assume lines.now) }
{
    check_lines(alloc, head, assume, lines)?;
    cut_checked(alloc, head, lines, assume, others)
}

/// The picture of lines in which no bookie that is empty holds entries.
fn cut_checked(
    alloc: Global,
    head: &Head,
    lines: &[LedgerLine],
    assume: Assume,
    others: Others,
) -> Result<String, CutFault>
    requires { list_all (model.keeps_empties head.now) lines.now ≡ true }
    ensures { IfOk result (λ text. model.IsCut head.now lines.now assume (string_bytes text)) }
{
    let names = names_of(alloc, head, lines, others)?;
    let Written { text, words } = picture_text(alloc, head, assume, &names, lines)?;
    check_size(text.len(), lines.len())?;
    check_cut(alloc, head, assume, lines, words, text.as_bytes())?;
    Ok(text)
}

/// What a text of so many ledgers lists, as a picture; the entries that are held take so many words.
fn listed_in(alloc: Global, text: &[u8], words: u64, ledgers: usize) -> Result<Listed, CutFault>
    ensures { IfOk result (Lists text.now) }
{
    match list_picture(alloc, text) {
        Ok(listed) => Ok(listed),
        Err(fault) => Err(no_picture(fault, words, ledgers)),
    }
}

/// The state that a text shows, as a picture without a fault.
fn state_in(alloc: Global, text: &[u8]) -> Result<State, CutFault>
    ensures { IfOk result (λ state. picture_of text.now ≡ Ok state) }
{
    match read_picture(alloc, text) {
        Ok(state) => Ok(state),
        Err(PictureFault::NoMemory) => Err(CutFault::NoMemory),
        Err(_) => Err(CutFault::Differs),
    }
}

/// Whether the text, whose entries take so many words, is a picture that shows these ledgers as their lines do.
fn check_cut(
    alloc: Global,
    head: &Head,
    assume: Assume,
    lines: &[LedgerLine],
    words: u64,
    text: &[u8],
) -> Result<(), CutFault>
    requires { list_all (model.keeps_empties head.now) lines.now ≡ true }
    ensures { OnOk result (model.IsCut head.now lines.now assume text.now) }
{
    let listed = listed_in(alloc, text, words, lines.len())?;
    check_listed(alloc, head, assume, lines, text, &listed)
}

/// Whether the text, which lists this, is such a picture.
fn check_listed(
    alloc: Global,
    head: &Head,
    assume: Assume,
    lines: &[LedgerLine],
    text: &[u8],
    listed: &Listed,
) -> Result<(), CutFault>
    requires lists { Lists text.now listed.now }
    requires empties { list_all (model.keeps_empties head.now) lines.now ≡ true }
    ensures { OnOk result (model.IsCut head.now lines.now assume text.now) }
{
    let state = state_in(alloc, text)?;
    check_shown(head, assume, lines, listed, &state)
}

/// That a picture which lists this, with that state, shows these ledgers as their lines do, or else that it differs.
fn check_shown(
    head: &Head,
    assume: Assume,
    lines: &[LedgerLine],
    listed: &Listed,
    state: &State,
) -> Result<(), CutFault>
    ensures { OnOk result (model.IsShown head.now lines.now assume listed.now state.now) }
{
    if is_shown(head, assume, lines, listed, state) {
        Ok(())
    } else {
        Err(CutFault::Differs)
    }
}

/// Whether a picture that lists this, with that state, shows these ledgers as their lines do.
fn is_shown(
    head: &Head,
    assume: Assume,
    lines: &[LedgerLine],
    listed: &Listed,
    state: &State,
) -> bool
    ensures { IsTrue result → model.IsShown head.now lines.now assume listed.now state.now }
{
    state.grace() == head.grace
        && state.delay() == head.delay
        && shows_bookies(head, &listed.listing, &listed.marks)
        && shows_ledgers(head, assume, &listed.listing, lines)
}

/// The first fault of lines that is found without a picture.
fn check_lines(
    alloc: Global,
    head: &Head,
    assume: Assume,
    lines: &[LedgerLine],
) -> Result<(), CutFault>
    ensures fault { FailsWith result (lines_fault head.now assume lines.now) }
    ensures empties { OnOk result (list_all (model.keeps_empties head.now) lines.now ≡ true) }
{
    check_count(lines.len())?;
    check_each(alloc, head, assume, lines)
}

/// The first fault of a line by itself. They are at most 512, so it may call itself for those after the first.
fn check_each(
    alloc: Global,
    head: &Head,
    assume: Assume,
    lines: &[LedgerLine],
) -> Result<(), CutFault>
    ensures fault { FailsWith result (each_line_fault head.now assume lines.now) }
    ensures empties { OnOk result (list_all (model.keeps_empties head.now) lines.now ≡ true) }
{
    let Some((line, others)) = lines.split_first() else {
        return Ok(());
    };
    check_line(alloc, head, assume, line)?;
    check_each(alloc, head, assume, others)
}

/// The first fault of a line that is found without a picture.
fn check_line(alloc: Global, head: &Head, assume: Assume, line: &LedgerLine) -> Result<(), CutFault>
    ensures fault { FailsWith result (line_fault head.now assume line.now) }
    ensures empties { OnOk result (model.keeps_empties head.now line.now ≡ true) }
{
    check_limits(alloc, line)?;
    check_empties(head, line)?;
    check_known(alloc, head, assume, line)
}

/// That no bookie which came back without its disk holds entries of the line's ledger.
fn check_empties(head: &Head, line: &LedgerLine) -> Result<(), CutFault>
    ensures fault { FailsWith result (refill_fault head.now line.now) }
    ensures empties { OnOk result (model.keeps_empties head.now line.now ≡ true) }
{
    if refills(head, line) {
        Err(CutFault::HoldsThoughEmpty(line.id))
    } else {
        Ok(())
    }
}

/// That somebody says what the members of the last fragment hold of a ledger that isn't closed.
fn check_known(
    alloc: Global,
    head: &Head,
    assume: Assume,
    line: &LedgerLine,
) -> Result<(), CutFault>
    ensures { FailsWith result (unknown_fault head.now assume line.now) }
{
    match first_unknown(head, assume, line) {
        Some(name) => {
            let name = Name::new(alloc, name.as_str())?;
            Err(CutFault::Untold(line.id, name))
        }
        None => Ok(()),
    }
}
