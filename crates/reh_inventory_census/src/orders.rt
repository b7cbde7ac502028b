// Names in the order of their bytes.
ghost use Rattle.std.specs.Prelude.{◌≡◌, ◌≤◌, length, map, IfOk, IsPermutation, IsSorted};
ghost use Rattle.std.specs.Cmp.Lexicographic.{slice_cmp};
ghost use Rattle.std.specs.List.{IsDistinct};
ghost use Rattle.std.specs.Ordering.{nat_cmp};
ghost use Rattle.std.specs.Str.{bytes_eq};
ghost use Rattle.reh_census_file.specs.declared.lists.TheConstants.{MAX_NAMES};

use reh_census_file::{MAX_NAMES, NameList};
use std::alloc::{AllocError, Global};

/// The names of a list, in the order of their numbers.
fn texts_of<'a>(alloc: Global, names: &'a NameList) -> Result<Vec<&'a str>, AllocError>
    ensures same { IfOk result (λ texts. map (λ text. text.now) texts.items ≡ names.now) }
    ensures few { IfOk result (λ texts. length texts.items ≤ MAX_NAMES) }
    ensures different { IfOk result (λ texts. IsDistinct bytes_eq (map (λ text. text.now) texts.items)) }
{
    let mut texts = Vec::new(alloc);
    for number in 0..names.len() {
        if let Some(name) = names.name(number as u16) {
            texts.push(name)?;
        }
    }
    Ok(texts)
}

/// The list of these names, each of which is there once.
fn list_of(alloc: Global, texts: &[&str]) -> Result<NameList, AllocError>
    requires few { length texts.now ≤ MAX_NAMES }
    requires different { IsDistinct bytes_eq (map (λ text. text.now) texts.now) }
    ensures { IfOk result (λ names. names ≡ map (λ text. text.now) texts.now) }
{
    let mut names = NameList::new(alloc);
    for text in texts {
        names.add(text)?;
    }
    Ok(names)
}

/// The same names, in the order of their bytes.
pub fn in_order(alloc: Global, names: &NameList) -> Result<NameList, AllocError>
    ensures same { IfOk result (λ ordered. IsPermutation names.now ordered) }
    ensures ordered { IfOk result (λ ordered. IsSorted (slice_cmp nat_cmp) ordered) }
{
    let mut texts = texts_of(alloc, names)?;
    texts.sort()?;
    let ordered = list_of(alloc, &texts)?;
    Ok(ordered)
}
