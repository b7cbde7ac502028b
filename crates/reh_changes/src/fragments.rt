// What changed in a ledger's fragments.
ghost use Rattle.std.specs.Prelude.{◌≡◌, ◌++◌, ◌∷◌, [], OnOk, string_bytes, slice_get, codes};
ghost use Rattle.std.specs.Option.{option_copied};
ghost use Rattle.reh_commands.specs.Texts as texts;
ghost use Rattle.reh_changes.specs.Changes as changes;
ghost use Rattle.reh_changes.specs.Fragments.{lines_at, member_line, whole_line, whole_words};

use reh_cluster::Names;
use reh_commands::{push_name, push_names};
use reh_meta::Fragment;
use reh_types::{BookieIx, LedgerId};
use std::alloc::AllocError;

/// Adds the lines of a ledger's fragments that changed, came or went.
pub(crate) fn push_fragments(
    text: &mut String,
    names: &Names,
    id: LedgerId,
    was: &[Fragment],
    now: &[Fragment],
) -> Result<(), AllocError>
    ensures { OnOk result (string_bytes text.new ≡ string_bytes text.old
        ++ changes.fragment_lines names.now id 0 was.now now.now) }
{
    for f in 0..was.len().max(now.len()) {
        push_fragment(text, names, id, f, fragment_at(was, f), fragment_at(now, f))?;
    }
    Ok(())
}

/// The fragment of that number, if there is one.
fn fragment_at(fragments: &[Fragment], number: usize) -> Option<&Fragment>
    ensures { option_copied result ≡ slice_get fragments.now number }
{
    fragments.get(number)
}

/// Adds the lines of a fragment by its number, where there was one or is one.
fn push_fragment(
    text: &mut String,
    names: &Names,
    id: LedgerId,
    number: usize,
    was: Option<&Fragment>,
    now: Option<&Fragment>,
) -> Result<(), AllocError>
    ensures { OnOk result (string_bytes text.new ≡ string_bytes text.old
        ++ lines_at names.now id number (option_copied was.entry) (option_copied now.entry)) }
{
    match (was, now) {
        (Some(was), Some(now)) => {
            push_members(text, names, id, number, &was.ensemble, &now.ensemble)
        }
        (Some(_), None) | (None, Some(_)) => push_whole(text, names, id, number, was, now),
        (None, None) => Ok(()),
    }
}

/// Adds the line of a fragment that came or went.
fn push_whole(
    text: &mut String,
    names: &Names,
    id: LedgerId,
    number: usize,
    was: Option<&Fragment>,
    now: Option<&Fragment>,
) -> Result<(), AllocError>
    ensures { OnOk result (string_bytes text.new ≡ string_bytes text.old
        ++ whole_line names.now id number (option_copied was.entry) (option_copied now.entry)) }
{
    write!(text, "  ledger {} fragment {number}", id.0)?;
    push_words(text, names, was)?;
    text.push_str(" ->")?;
    push_words(text, names, now)?;
    text.push('\n')
}

/// Adds a fragment's first entry and ensemble, or `-` where there is no fragment, each word after a space.
fn push_words(
    text: &mut String,
    names: &Names,
    fragment: Option<&Fragment>,
) -> Result<(), AllocError>
    ensures { OnOk result (string_bytes text.new ≡ string_bytes text.old
        ++ texts.behind_spaces (whole_words names.now (option_copied fragment.entry))) }
{
    match fragment {
        Some(fragment) => {
            write!(text, " first {}", fragment.first)?;
            push_names(text, names, &fragment.ensemble)
        }
        None => text.push_str(" -"),
    }
}

/// Adds the lines of the members of a fragment's ensemble that changed.
fn push_members(
    text: &mut String,
    names: &Names,
    id: LedgerId,
    fragment: usize,
    was: &[BookieIx],
    now: &[BookieIx],
) -> Result<(), AllocError>
    ensures { OnOk result (string_bytes text.new ≡ string_bytes text.old
        ++ changes.member_lines names.now id fragment 0 was.now now.now) }
{
    for i in 0..was.len().min(now.len()) {
        push_member(text, names, id, fragment, i, was[i], now[i])?;
    }
    Ok(())
}

/// Adds the line of a member by its index, if it changed.
fn push_member(
    text: &mut String,
    names: &Names,
    id: LedgerId,
    fragment: usize,
    index: usize,
    was: BookieIx,
    now: BookieIx,
) -> Result<(), AllocError>
    ensures { OnOk result (string_bytes text.new ≡ string_bytes text.old
        ++ member_line names.now id fragment index was now) }
{
    if was == now {
        return Ok(());
    }
    write!(text, "  ledger {} fragment {fragment} index {index}", id.0)?;
    push_replaced(text, names, was, now)?;
    text.push('\n')
}

/// Adds the names of two bookies, of which the second stands in the first one's place, each word after a space.
fn push_replaced(
    text: &mut String,
    names: &Names,
    was: BookieIx,
    now: BookieIx,
) -> Result<(), AllocError>
    ensures { OnOk result (string_bytes text.new ≡ string_bytes text.old
        ++ texts.behind_spaces (texts.name_of names.now was ∷ codes "->" ∷ texts.name_of names.now now ∷ [])) }
{
    push_name(text, names, was)?;
    text.push_str(" ->")?;
    push_name(text, names, now)
}
