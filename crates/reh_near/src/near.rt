// The names that are near a word.
ghost use Rattle.std.specs.Prelude.{◌≡◌, ◌≢◌, ◌==◌, ◌++◌, ◌∷◌, [], All, length, map, max, take, Some, None, if◌then◌else◌, IfOk, MatchOption, OnOk};
ghost use Rattle.std.specs.List.{filter};
ghost use Rattle.std.specs.Option.{IsSomeAnd};
ghost use Rattle.reh_near.specs.Near as model;

use crate::distances::distance_of;
use std::alloc::{AllocError, Global};
use std::fmt;

/// A longer word has no near names, and a longer name is near no word: so many bytes are compared at most.
pub const MAX_BYTES: usize = 300;

/// The names that are near a word which is none of them, at most three. Its text is what follows a fault that names the
/// word.
#[derive(Clone, Copy)]
pub enum Near<'a> {
    /// The one name that begins with the word.
    Longer(&'a str),
    /// No name is near.
    Nothing,
    /// The one that is near.
    One(&'a str),
    /// The two that are near, the nearest first.
    Two(&'a str, &'a str),
    /// The three nearest, the nearest first.
    Three(&'a str, &'a str, &'a str),
}

/// A near name, and how late it is told.
#[derive(Clone, Copy)]
struct Candidate<'a> {
    name: &'a str,
    rank: usize,
}

/// What is near a word among names: the one name that begins with it, where exactly one does; else the three names at the
/// least distance, the nearest first, and those at the same distance in the order of the names. Names of which only the
/// port is missing stand before them. A name is near if it begins with the word, or if at most half as many bytes have to
/// be put in, taken out or replaced as the longer of both has, of at most 300 bytes.
pub fn near_to<'a>(alloc: Global, names: &[&'a str], word: &[u8]) -> Result<Near<'a>, AllocError>
    ensures { IfOk result (λ near. model.told near
        ≡ model.near_to (map (λ name. name.now) names.now) word.now) }
{
    match only_longer(names, word) {
        Some(name) => Ok(Near::Longer(name)),
        None => {
            let near = near_first(alloc, names, word)?;
            Ok(nearest(&near))
        }
    }
}

/// The one name that begins with the word.
fn only_longer<'a>(names: &[&'a str], word: &[u8]) -> Option<&'a str>
    ensures { MatchOption result
        (length (filter (model.begins_with word.now) (map (λ name. name.now) names.now)) ≢ 1)
        (λ name. filter (model.begins_with word.now) (map (λ name. name.now) names.now) ≡ name.now ∷ []) }
{
    let mut found: Option<&'a str> = None;
    for name in names {
        if begins_with(name, word) {
            if found.is_some() {
                return None;
            }
            found = Some(*name);
        }
    }
    found
}

/// Whether a name begins with the word, which isn't empty.
fn begins_with(name: &str, word: &[u8]) -> bool
    ensures { result ≡ model.begins_with word.now name.now }
{
    !word.is_empty() && name.as_bytes().starts_with(word)
}

/// The first three of these names, or fewer.
#[tactic(auto, using(crate::proofs::NearestLaws::none, crate::proofs::NearestLaws::one, crate::proofs::NearestLaws::two, crate::proofs::NearestLaws::three))]
fn nearest<'a>(names: &[&'a str]) -> Near<'a>
    ensures { model.told result ≡ model.told_nearest (take 3 (map (λ name. name.now) names.now)) }
{
    match names {
        [] => Near::Nothing,
        [one] => Near::One(*one),
        [one, two] => Near::Two(*one, *two),
        [one, two, three, ..] => Near::Three(*one, *two, *three),
    }
}

/// The near names, the nearest first.
fn near_first<'a>(alloc: Global, names: &[&'a str], word: &[u8]) -> Result<Vec<&'a str>, AllocError>
    ensures { IfOk result (λ near. map (λ name. name.now) near.items
        ≡ model.near_first word.now (map (λ name. name.now) names.now)) }
{
    let candidates = candidates(alloc, names, word)?;
    let mut near = Vec::new(alloc);
    for rank in 0..MAX_BYTES + 1 {
        push_at(&mut near, &candidates, rank)?;
    }
    Ok(near)
}

/// The near names in their order, each with its rank.
fn candidates<'a>(
    alloc: Global,
    names: &[&'a str],
    word: &[u8],
) -> Result<Vec<Candidate<'a>>, AllocError>
    ensures names { IfOk result (λ near. map (λ c. c.name.now) near.items
        ≡ filter (model.is_near word.now) (map (λ name. name.now) names.now)) }
    ensures ranks { IfOk result (λ near. All (λ c. c.rank ≡ model.rank_of word.now c.name.now) near.items) }
{
    let mut near = Vec::new(alloc);
    for name in names {
        if let Some(rank) = near_rank(alloc, word, name)? {
            near.push(Candidate { name, rank })?;
        }
    }
    Ok(near)
}

/// How late a name is told, if it is near the word.
fn near_rank(alloc: Global, word: &[u8], name: &str) -> Result<Option<usize>, AllocError>
    ensures { IfOk result (λ rank. rank
        ≡ (if model.is_near word.now name.now then Some (model.rank_of word.now name.now) else None)) }
{
    let longer = word.len().max(name.len());
    if longer > MAX_BYTES {
        return Ok(None);
    }
    let distance = distance_of(alloc, word, name.as_bytes())?;
    if !begins_with(name, word) && distance > longer / 2 {
        return Ok(None);
    }
    if lacks_port(name, word) {
        return Ok(Some(0));
    }
    Ok(Some(distance))
}

/// Whether only the port is missing: the name begins with the word, and goes on with a colon.
fn lacks_port(name: &str, word: &[u8]) -> bool
    ensures { result ≡ model.lacks_port word.now name.now }
{
    begins_with(name, word) && name.as_bytes().get(word.len()) == Some(&b':')
}

/// Adds the names of the candidates of this rank.
fn push_at<'a>(
    near: &mut Vec<&'a str>,
    candidates: &[Candidate<'a>],
    rank: usize,
) -> Result<(), AllocError>
    ensures { OnOk result (map (λ name. name.now) near.new.items ≡ map (λ name. name.now) near.old.items
        ++ map (λ c. c.name.now) (filter (λ c. c.rank == rank) candidates.now)) }
{
    for candidate in candidates {
        if candidate.rank == rank {
            near.push(candidate.name)?;
        }
    }
    Ok(())
}

impl fmt::Display for Near<'_> {
    ghost use Rattle.std.specs.Prelude.{Some};
    ghost use Rattle.reh_near.specs.Near.{near_text, told};

    ghost output = { λ near. Some (near_text (told near)) };

    fn fmt<W: fmt::Write>(&self, f: &mut fmt::Formatter<W>) -> fmt::Result {
        match self {
            Near::Longer(name) => write!(f, ": its full name is '{name}'"),
            Near::Nothing => Ok(()),
            Near::One(one) => write!(f, ": near it is '{one}'"),
            Near::Two(one, two) => write!(f, ": near it are '{one}' and '{two}'"),
            Near::Three(one, two, three) => {
                write!(f, ": near it are '{one}', '{two}' and '{three}'")
            }
        }
    }
}
