// Sets of a picture's bookies, by a flag for each of them.
ghost use Rattle.std.specs.Prelude.{◌≡◌, ℕ, map, IfOk};
ghost use Rattle.reh_types.specs.Sets as set;
ghost use Rattle.reh_inventory_plan.specs.Asked as asked;
ghost use Rattle.reh_inventory_plan.specs.Pictures as model;

use crate::asked::passes;
use reh_census_file::NameList;
use reh_cluster::Names;
use reh_picture::BookieMarks;
use reh_types::{BookieIx, BookieSet, MAX_BOOKIES};
use std::alloc::{AllocError, Global};

/// The bookies whose flags are set.
pub(crate) fn set_of(flags: &[bool]) -> BookieSet
    ensures { (b : ℕ) → set.contains result b ≡ model.is_set flags.now b }
{
    let mut bookies = BookieSet::new();
    for number in 0..MAX_BOOKIES {
        if is_set(flags, number) {
            bookies.insert(BookieIx(number as u8));
        }
    }
    bookies
}

/// Whether the flag of that number is there and set.
fn is_set(flags: &[bool], number: usize) -> bool
    ensures { result ≡ model.is_flagged flags.now number }
{
    match flags.get(number) {
        Some(flag) => *flag,
        None => false,
    }
}

/// Which of the bookies have one of these names; all, where there are none and any will do.
pub(crate) fn named_flags(
    alloc: Global,
    names: &Names,
    words: &NameList,
    any_if_none: bool,
) -> Result<Vec<bool>, AllocError>
    ensures { IfOk result (λ flags. flags.items ≡ map (asked.passes words.now any_if_none) names.now) }
{
    let mut flags = Vec::new(alloc);
    for number in 0..names.len() as u8 {
        flags.push(is_named(names, words, any_if_none, BookieIx(number)))?;
    }
    Ok(flags)
}

/// Whether that bookie has one of these names.
fn is_named(names: &Names, words: &NameList, any_if_none: bool, bookie: BookieIx) -> bool
    ensures { result ≡ model.is_named names.now (asked.passes words.now any_if_none) bookie }
{
    match names.name(bookie) {
        Some(name) => passes(words, any_if_none, name),
        None => false,
    }
}

/// Which of the bookies are marked as read-only.
pub(crate) fn read_only_flags(alloc: Global, marks: &[BookieMarks]) -> Result<Vec<bool>, AllocError>
    ensures { IfOk result (λ flags. flags.items ≡ map (λ m. m.is_read_only) marks.now) }
{
    let mut flags = Vec::new(alloc);
    for mark in marks {
        flags.push(mark.is_read_only())?;
    }
    Ok(flags)
}
