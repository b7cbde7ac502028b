// The text of a census.
ghost use Rattle.std.specs.Prelude.{◌≡◌, ◌++◌, ◌∷◌, IfOk, OnOk, string_bytes, codes, map, length};
ghost use Rattle.std.specs.List.{zip};
ghost use Rattle.reh_census_file.specs.Lines.{behind_spaces, line_of, lines_of};
ghost use Rattle.reh_census_file.specs.Texts as spec;

use crate::lists::NameList;
use crate::values::NamedCensus;
use reh_census::{Bookie, Counted, CountedEnsemble, CountedTail, Judged};
use std::alloc::{AllocError, Global};

/// The name of this number, or an empty one where no name has it.
fn name_of(names: &NameList, number: u16) -> &str
    ensures { result.now ≡ spec.name_of names.now number }
{
    match names.name(number) {
        Some(name) => name,
        None => "",
    }
}

/// Adds the names of these numbers, each after a space.
fn push_names(text: &mut String, names: &NameList, numbers: &[u16]) -> Result<(), AllocError>
    ensures { OnOk result (string_bytes text.new ≡ string_bytes text.old
        ++ behind_spaces (spec.names_of names.now numbers.now)) }
{
    for number in numbers {
        write!(text, " {}", name_of(names, *number))?;
    }
    Ok(())
}

/// The word for when the oldest input was taken.
fn taken_word(census: &NamedCensus) -> &str
    ensures { result.now ≡ spec.taken_word census.now.taken }
{
    match census.taken() {
        Some(time) => time,
        None => "-",
    }
}

/// The word for whether what is assumed counts as untold.
fn strict_word(is_strict: bool) -> &'static str
    ensures { result.now ≡ spec.strict_word is_strict }
{
    if is_strict { "yes" } else { "no" }
}

/// Adds the lines at the head.
fn push_head(text: &mut String, census: &NamedCensus) -> Result<(), AllocError>
    ensures { OnOk result (string_bytes text.new ≡ string_bytes text.old
        ++ lines_of (spec.head_words census.now)) }
{
    write!(
        text,
        "census 1\nstrict {}\ntaken {}\n",
        strict_word(census.is_strict()),
        taken_word(census)
    )
}

/// Adds the line of a bookie.
fn push_bookie(
    text: &mut String,
    racks: &NameList,
    name: &str,
    bookie: &Bookie,
) -> Result<(), AllocError>
    ensures { OnOk result (string_bytes text.new ≡ string_bytes text.old
        ++ line_of (spec.bookie_words racks.now name.now bookie.now)) }
{
    let up = if bookie.is_registered { "up" } else { "down" };
    let read_only = if bookie.is_read_only {
        " read-only"
    } else {
        ""
    };
    let empty = if bookie.is_empty { " empty" } else { "" };
    write!(text, "bookie {name} {up}{read_only}{empty}")?;
    match bookie.rack {
        Some(rack) => write!(text, " rack {}\n", name_of(racks, rack)),
        None => text.push('\n'),
    }
}

/// Adds the lines of all bookies.
fn push_bookies(text: &mut String, census: &NamedCensus) -> Result<(), AllocError>
    ensures { OnOk result (string_bytes text.new ≡ string_bytes text.old
        ++ lines_of (spec.bookie_lines census.now)) }
{
    let names = census.names();
    let racks = census.racks();
    let bookies = census.bookies().as_slice();
    for (number, bookie) in bookies.iter().enumerate() {
        let Some(name) = names.name(number as u16) else {
            return Ok(());
        };
        push_bookie(text, racks, name, bookie)?;
    }
    Ok(())
}

/// Adds the line of what was judged.
fn push_judged(text: &mut String, judged: Judged) -> Result<(), AllocError>
    ensures { OnOk result (string_bytes text.new ≡ string_bytes text.old
        ++ line_of (spec.judged_words judged)) }
{
    write!(
        text,
        "ledgers {} assumed {} unread {} missing {}\n",
        judged.ledgers, judged.assumed, judged.unread, judged.missing
    )
}

/// Adds the line of a class of entries.
fn push_class(text: &mut String, names: &NameList, counted: &Counted) -> Result<(), AllocError>
    ensures { OnOk result (string_bytes text.new ≡ string_bytes text.old
        ++ line_of (spec.entries_words names.now counted.now)) }
{
    let class = &counted.class;
    let known = class.known.as_slice();
    let untold = class.untold.as_slice();
    write!(
        text,
        "entries {} write {} ack {} known {}",
        counted.count,
        class.write_quorum,
        class.ack_quorum,
        known.len()
    )?;
    push_names(text, names, known)?;
    write!(text, " untold {}", untold.len())?;
    push_names(text, names, untold)?;
    text.push('\n')
}

/// The word for whether ledgers are open.
fn state_word(is_open: bool) -> &'static str
    ensures { result.now ≡ spec.state_word is_open }
{
    if is_open { "open" } else { "in-recovery" }
}

/// Adds the line of a tail.
fn push_tail(text: &mut String, names: &NameList, counted: &CountedTail) -> Result<(), AllocError>
    ensures { OnOk result (string_bytes text.new ≡ string_bytes text.old
        ++ line_of (spec.tail_words names.now counted.now)) }
{
    let tail = &counted.tail;
    write!(
        text,
        "tail {} {} size {} write {} ack {}",
        counted.count,
        state_word(tail.is_open),
        tail.size,
        tail.write_quorum,
        tail.ack_quorum
    )?;
    push_names(text, names, tail.ensemble.as_slice())?;
    text.push('\n')
}

/// Adds the line of an ensemble.
fn push_ensemble(
    text: &mut String,
    names: &NameList,
    counted: &CountedEnsemble,
) -> Result<(), AllocError>
    ensures { OnOk result (string_bytes text.new ≡ string_bytes text.old
        ++ line_of (spec.ensemble_words names.now counted.now)) }
{
    write!(text, "ensemble {}", counted.count)?;
    push_names(text, names, counted.members.as_slice())?;
    text.push('\n')
}

/// Adds the lines of classes of entries.
fn push_classes(text: &mut String, names: &NameList, classes: &[Counted]) -> Result<(), AllocError>
    ensures { OnOk result (string_bytes text.new ≡ string_bytes text.old
        ++ lines_of (map (spec.entries_words names.now) classes.now)) }
{
    for counted in classes {
        push_class(text, names, counted)?;
    }
    Ok(())
}

/// Adds the lines of tails.
fn push_tails(text: &mut String, names: &NameList, tails: &[CountedTail]) -> Result<(), AllocError>
    ensures { OnOk result (string_bytes text.new ≡ string_bytes text.old
        ++ lines_of (map (spec.tail_words names.now) tails.now)) }
{
    for counted in tails {
        push_tail(text, names, counted)?;
    }
    Ok(())
}

/// Adds the lines of ensembles.
fn push_ensembles(
    text: &mut String,
    names: &NameList,
    ensembles: &[CountedEnsemble],
) -> Result<(), AllocError>
    ensures { OnOk result (string_bytes text.new ≡ string_bytes text.old
        ++ lines_of (map (spec.ensemble_words names.now) ensembles.now)) }
{
    for counted in ensembles {
        push_ensemble(text, names, counted)?;
    }
    Ok(())
}

/// Adds all lines but the last.
fn push_body(text: &mut String, census: &NamedCensus) -> Result<(), AllocError>
    ensures { OnOk result (string_bytes text.new ≡ string_bytes text.old
        ++ lines_of (spec.body_words census.now)) }
{
    let names = census.names();
    let counted = census.census();
    push_head(text, census)?;
    push_bookies(text, census)?;
    push_judged(text, counted.judged())?;
    push_classes(text, names, counted.entries())?;
    push_tails(text, names, counted.tails())?;
    push_ensembles(text, names, counted.ensembles())
}

/// How many lines stand before the last one.
fn body_len(census: &NamedCensus) -> usize
    ensures { result ≡ length (spec.body_words census.now) }
{
    let bookies = census.bookies().as_slice();
    let named = census.names().len().min(bookies.len());
    let counted = census.census();
    let entries = counted.entries();
    let tails = counted.tails();
    let ensembles = counted.ensembles();
    4 + named + entries.len() + tails.len() + ensembles.len()
}

/// The text of a census.
pub fn census_text(alloc: Global, census: &NamedCensus) -> Result<String, AllocError>
    ensures { IfOk result (λ text. string_bytes text ≡ spec.text_of census.now) }
{
    let mut text = String::new(alloc);
    push_body(&mut text, census)?;
    write!(text, "end {}\n", body_len(census))?;
    Ok(text)
}
