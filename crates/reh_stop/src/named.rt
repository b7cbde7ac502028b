// The bookies that words name, by themselves or by their racks.
ghost use Rattle.std.specs.Prelude.{◌≡◌, ◌<◌, ◌++◌, ℕ, None, true, false, not, length, map, position, IfOk, IfSome, OnOk};
ghost use Rattle.std.specs.List.{list_all, list_any};
ghost use Rattle.reh_census.specs.Striping.{range};
ghost use Rattle.reh_inputs.specs.Shown.{is_in};
ghost use Rattle.reh_stop.specs.Named as model;

use reh_census::BookieSet;
use reh_inputs::{Cluster, ClusterNames, Shown};
use std::alloc::{AllocError, Global};

/// Whether one of the words is this name.
fn is_word(words: &[&str], name: &str) -> bool
    ensures { result ≡ model.is_word words.now name.now }
{
    words.iter().any(|word| word.as_bytes() == name.as_bytes())
}

/// The names that the words give.
pub(crate) fn names_in<'a>(
    alloc: Global,
    names: &ClusterNames,
    words: &[&'a str],
) -> Result<Vec<&'a str>, AllocError>
    ensures { IfOk result (λ given. model.texts given.items ≡ model.names_in names.now words.now) }
{
    let mut given = Vec::new(alloc);
    for word in words {
        add_names(alloc, names, word, &mut given)?;
    }
    Ok(given)
}

/// Adds the names that a word gives.
fn add_names<'a>(
    alloc: Global,
    names: &ClusterNames,
    word: &'a str,
    given: &mut Vec<&'a str>,
) -> Result<(), AllocError>
    ensures { OnOk result (model.texts given.new.items
        ≡ model.texts given.old.items ++ model.names_of names.now word.now) }
{
    if names.find(word).is_some() {
        given.push(word)?;
        return Ok(());
    }
    let parts = parts_of(alloc, word)?;
    given.extend_from_slice(&parts)?;
    Ok(())
}

/// What stands between the commas of a word.
fn parts_of<'a>(alloc: Global, word: &'a str) -> Result<Vec<&'a str>, AllocError>
    ensures { IfOk result (λ parts. model.texts parts.items ≡ model.parts_of word.now) }
{
    word.split(',').collect(alloc)
}

/// Whether the word is a bookie's name.
fn is_name(names: &ClusterNames, word: &str) -> bool
    ensures { result ≡ model.is_name names.now word.now }
{
    names.find(word).is_some()
}

/// Whether each of the words is a bookie's name.
fn are_names(names: &ClusterNames, words: &[&str]) -> bool
    ensures { result ≡ list_all (λ word. model.is_name names.now word.now) words.now }
{
    words.iter().all(|word| is_name(names, word))
}

/// Whether the word is a bookie's name, and a list of bookies' names too.
fn is_ambiguous(alloc: Global, names: &ClusterNames, word: &str) -> Result<bool, AllocError>
    ensures { IfOk result (λ is. is ≡ model.is_ambiguous names.now word.now) }
{
    if !is_name(names, word) {
        return Ok(false);
    }
    let parts = parts_of(alloc, word)?;
    Ok(1 < parts.len() && are_names(names, &parts))
}

/// The first word that is a bookie's name, and a list of bookies' names too, if there is one.
pub(crate) fn first_ambiguous<'a>(
    alloc: Global,
    names: &ClusterNames,
    words: &[&'a str],
) -> Result<Option<&'a str>, AllocError>
    ensures none { IfOk result (λ found. found ≡ None → model.AreClear names.now words.now) }
    ensures some { IfOk result (λ found. IfSome found (model.IsFirstAmbiguous names.now words.now)) }
{
    for word in words {
        if is_ambiguous(alloc, names, word)? {
            return Ok(Some(*word));
        }
    }
    Ok(None)
}

/// The first word that is no bookie's name, if there is one.
pub(crate) fn first_unknown(names: &ClusterNames, words: &[&str]) -> Option<usize>
    ensures first { result ≡ position (λ word. not (model.is_name names.now word.now)) words.now }
    ensures within { IfSome result (λ found. found < length words.now) }
{
    words.iter().position(|word| names.find(word).is_none())
}

/// The first word that is a word before it, too, if there is one.
pub(crate) fn first_twice(words: &[&str]) -> Option<usize>
    ensures none { result ≡ None
        → (number : ℕ) → number < length words.now → model.is_repeated words.now number ≡ false }
    ensures first { IfSome result (λ found. (model.is_repeated words.now found ≡ true)
        × ((number : ℕ) → number < found → model.is_repeated words.now number ≡ false)) }
    ensures within { IfSome result (λ found. found < length words.now) }
{
    for number in 0..words.len() {
        if is_word(&words[..number], words[number]) {
            return Some(number);
        }
    }
    None
}

/// The first word that is no bookie's rack, if there is one.
pub(crate) fn first_unknown_rack(shown: &[Shown], words: &[&str]) -> Option<usize>
    ensures first { result ≡ position (λ word. not (list_any (is_in word.now) shown.now)) words.now }
    ensures within { IfSome result (λ found. found < length words.now) }
{
    words.iter().position(|word| !has_bookie(shown, word))
}

/// Whether some bookie is in the rack.
fn has_bookie(shown: &[Shown], rack: &str) -> bool
    ensures { result ≡ list_any (is_in rack.now) shown.now }
{
    shown.iter().any(|bookie| bookie.is_in(rack))
}

/// Whether the bookie is in one of the racks.
fn is_in_one(racks: &[&str], bookie: &Shown) -> bool
    ensures { result ≡ model.is_in_one racks.now bookie.now }
{
    racks.iter().any(|rack| bookie.is_in(rack))
}

/// Whether the words name the bookie of that number, or its rack.
fn is_stopped(cluster: &Cluster, words: &[&str], racks: &[&str], bookie: u16) -> bool
    ensures { result ≡ model.is_stopped cluster.now words.now racks.now bookie }
{
    let by_name = match cluster.names().name(bookie) {
        Some(name) => is_word(words, name),
        None => false,
    };
    let by_rack = match cluster.shown().get(bookie as usize) {
        Some(shown) => is_in_one(racks, shown),
        None => false,
    };
    by_name || by_rack
}

/// The bookies that the words name, by themselves or by their racks.
pub(crate) fn stopped_of(
    alloc: Global,
    cluster: &Cluster,
    words: &[&str],
    racks: &[&str],
) -> Result<BookieSet, AllocError>
    ensures { IfOk result (λ stopped. stopped
        ≡ map (model.is_stopped cluster.now words.now racks.now) (range 0 (length cluster.now.names))) }
{
    let mut flags = Vec::new(alloc);
    for bookie in 0..cluster.names().len() {
        flags.push(is_stopped(cluster, words, racks, bookie as u16))?;
    }
    Ok(BookieSet::of(flags))
}
