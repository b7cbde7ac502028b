// The names of commands and of bookies, as lists.
ghost use Rattle.std.specs.Prelude.{◌≡◌, ◌<◌, ◌++◌, ◌∷◌, [], map, slice_get, IfOk, OnOk};
ghost use Rattle.std.specs.Option.{option_map_or};
ghost use Rattle.reh_types.specs.declared.limits.TheConstants.{MAX_BOOKIES};
ghost use Rattle.reh_lint.specs.Lints as model;

use reh_cluster::Names;
use reh_commands::Verb;
use reh_types::BookieIx;
use std::alloc::{AllocError, Global};

/// The names of bookies, in picture order.
///
/// # Errors
///
/// Out of memory.
pub fn bookie_names<'a>(alloc: Global, names: &'a Names) -> Result<Vec<&'a str>, AllocError>
    ensures { IfOk result (λ list. map (λ name. name.now) list.items ≡ names.now) }
{
    let mut list = Vec::new(alloc);
    for number in 0..names.len() {
        push_numbered(&mut list, names, number)?;
    }
    Ok(list)
}

/// Adds the name of this number as the last, if there is one.
fn push_numbered<'a>(
    list: &mut Vec<&'a str>,
    names: &'a Names,
    number: usize,
) -> Result<(), AllocError>
    requires { number < MAX_BOOKIES }
    ensures { OnOk result (map (λ name. name.now) list.new.items ≡ map (λ name. name.now) list.old.items
        ++ option_map_or (λ name. name ∷ []) (slice_get names.now number) []) }
{
    if let Some(name) = names.name(BookieIx(number as u8)) {
        list.push(name)?;
    }
    Ok(())
}

/// The names of all commands.
pub(crate) fn verb_names<'a>(alloc: Global) -> Result<Vec<&'a str>, AllocError>
    ensures { IfOk result (λ list. map (λ name. name.now) list.items ≡ model.verb_names) }
{
    let verbs = Verb::all();
    let mut list = Vec::new(alloc);
    for verb in &verbs {
        list.push(verb.name())?;
    }
    Ok(list)
}
