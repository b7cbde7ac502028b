// The ids that are near one that is none of them.
ghost use Rattle.std.specs.Prelude.{◌≡◌, ◌∷◌, ◌++◌, [], map, IfOk, OnOk, string_bytes};
ghost use Rattle.std.specs.Fmt.{decimal};
ghost use Rattle.reh_near.specs.Near as model;

use crate::near::{Near, near_to};
use std::alloc::{AllocError, Global};

/// What follows a fault that names an id which is none of these: those that are near it by their digits, as of names. The
/// one that begins with its digits, where exactly one does; else the three nearest.
pub fn near_ids(alloc: Global, ids: &[u64], id: u64) -> Result<String, AllocError>
    ensures { IfOk result (λ text. string_bytes text ≡ model.near_ids_text ids.now id) }
{
    let texts = texts_of(alloc, ids)?;
    let names = names_of(alloc, &texts)?;
    let word = digits_of(alloc, id)?;
    let near = near_to(alloc, &names, word.as_bytes())?;
    id_text(alloc, near)
}

/// The text of what is near an id.
fn id_text(alloc: Global, near: Near<'_>) -> Result<String, AllocError>
    ensures { IfOk result (λ text. string_bytes text ≡ model.id_text (model.told near.entry)) }
{
    match near {
        Near::Longer(id) => {
            let near = Near::One(id);
            format!(in alloc; "{near}")
        }
        near => format!(in alloc; "{near}"),
    }
}

/// The same ids, in digits.
pub fn nearest_ids(alloc: Global, ids: &[u64], id: u64) -> Result<Vec<String>, AllocError>
    ensures { IfOk result (λ near. map string_bytes near.items ≡ model.nearest_ids ids.now id) }
{
    let texts = texts_of(alloc, ids)?;
    let names = names_of(alloc, &texts)?;
    let word = digits_of(alloc, id)?;
    let near = near_to(alloc, &names, word.as_bytes())?;
    copies_of(alloc, near)
}

/// The ids that are told, each as a text of its own.
fn copies_of(alloc: Global, near: Near<'_>) -> Result<Vec<String>, AllocError>
    ensures { IfOk result (λ ids. map string_bytes ids.items ≡ model.told_ids (model.told near.entry)) }
{
    let mut ids = Vec::new(alloc);
    match near {
        Near::Nothing => {}
        Near::Longer(one) | Near::One(one) => push_copy(alloc, &mut ids, one)?,
        Near::Two(one, two) => {
            push_copy(alloc, &mut ids, one)?;
            push_copy(alloc, &mut ids, two)?;
        }
        Near::Three(one, two, three) => {
            push_copy(alloc, &mut ids, one)?;
            push_copy(alloc, &mut ids, two)?;
            push_copy(alloc, &mut ids, three)?;
        }
    }
    Ok(ids)
}

/// Adds a text as the last.
fn push_copy(alloc: Global, texts: &mut Vec<String>, text: &str) -> Result<(), AllocError>
    ensures { OnOk result (map string_bytes texts.new.items ≡ map string_bytes texts.old.items ++ text.now ∷ []) }
{
    texts.push(String::from_str(alloc, text)?)?;
    Ok(())
}

/// The ids in digits.
fn texts_of(alloc: Global, ids: &[u64]) -> Result<Vec<String>, AllocError>
    ensures { IfOk result (λ texts. map string_bytes texts.items ≡ map decimal ids.now) }
{
    let mut texts = Vec::new(alloc);
    for id in ids {
        texts.push(digits_of(alloc, *id)?)?;
    }
    Ok(texts)
}

/// An id in digits.
fn digits_of(alloc: Global, id: u64) -> Result<String, AllocError>
    ensures { IfOk result (λ text. string_bytes text ≡ decimal id) }
{
    format!(in alloc; "{id}")
}

/// The same texts, borrowed.
fn names_of<'a>(alloc: Global, texts: &'a [String]) -> Result<Vec<&'a str>, AllocError>
    ensures { IfOk result (λ names. map (λ name. name.now) names.items ≡ map string_bytes texts.now) }
{
    let mut names = Vec::new(alloc);
    for text in texts {
        names.push(text.as_str())?;
    }
    Ok(names)
}
