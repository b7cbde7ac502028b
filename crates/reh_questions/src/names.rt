// Bookies and racks that words of the command line name.
ghost use Rattle.std.specs.Prelude.{◌≡◌, map, string_bytes, IfOk};
ghost use Rattle.reh_questions.specs.Names as model;

use reh_cluster::Names;
use reh_files::RunFault;
use reh_inputs::{Cluster, ClusterNames};
use reh_lint::bookie_names;
use reh_near::{Near, near_to};
use std::alloc::{AllocError, Global};

/// That the word of this number names no bookie of the picture in a file, and what is near; or out of memory.
pub fn unknown(alloc: Global, path: &str, names: &Names, words: &[&str], number: usize) -> RunFault
    ensures { model.IsMisnamed (model.unknown_text path.now names.now (model.word_at words.now number)) result }
{
    misnamed(unknown_text(alloc, path, names, name_at(words, number)))
}

/// The text of that.
fn unknown_text(alloc: Global, path: &str, names: &Names, name: &str) -> Result<String, AllocError>
    ensures { IfOk result (λ text. string_bytes text ≡ model.unknown_text path.now names.now name.now) }
{
    let known = bookie_names(alloc, names)?;
    unknown_among_text(alloc, path, &known, name)
}

/// That the name is none of these, which are those of the bookies in a file, and what is near; or out of memory.
pub fn unknown_among(alloc: Global, path: &str, known: &[&str], name: &str) -> RunFault
    ensures { model.IsMisnamed (model.unknown_text path.now (map (λ name. name.now) known.now) name.now) result }
{
    misnamed(unknown_among_text(alloc, path, known, name))
}

/// The text of that.
fn unknown_among_text(
    alloc: Global,
    path: &str,
    known: &[&str],
    name: &str,
) -> Result<String, AllocError>
    ensures { IfOk result (λ text. string_bytes text
        ≡ model.unknown_text path.now (map (λ name. name.now) known.now) name.now) }
{
    let told = known_text(alloc, known, name)?;
    format!(in alloc; "{path} has no bookie '{name}'{told}")
}

/// What is told of the names that there are, after one that there is not: those near it; else how many there are, and the
/// first.
fn known_text(alloc: Global, known: &[&str], name: &str) -> Result<String, AllocError>
    ensures { IfOk result (λ text. string_bytes text
        ≡ model.known_text (map (λ name. name.now) known.now) name.now) }
{
    match near_to(alloc, known, name.as_bytes())? {
        Near::Nothing => count_text(alloc, known),
        near => format!(in alloc; "{near}"),
    }
}

/// How many names there are, and the first, if there is one.
#[tactic(auto, using(crate::proofs::NameLaws::count_of_some, crate::proofs::NameLaws::count_of_none))]
fn count_text(alloc: Global, known: &[&str]) -> Result<String, AllocError>
    ensures { IfOk result (λ text. string_bytes text ≡ model.count_text (map (λ name. name.now) known.now)) }
{
    match known.first() {
        Some(first) => {
            let count = known.len();
            format!(in alloc; ": there are {count}, such as '{first}'")
        }
        None => Ok(String::new(alloc)),
    }
}

/// That the name is no bookie's of any input, and what is near; or out of memory.
pub(crate) fn unknown_to_all(alloc: Global, names: &ClusterNames, name: &str) -> RunFault
    ensures text { model.IsMisnamed (model.unknown_to_all_text names.now name.now) result }
    ensures names { model.IsOfNames result }
{
    misnamed(unknown_to_all_text(alloc, names, name))
}

/// The text of that.
fn unknown_to_all_text(
    alloc: Global,
    names: &ClusterNames,
    name: &str,
) -> Result<String, AllocError>
    ensures { IfOk result (λ text. string_bytes text ≡ model.unknown_to_all_text names.now name.now) }
{
    let known = texts_of(alloc, names.as_slice())?;
    let told = known_text(alloc, &known, name)?;
    format!(in alloc; "no input has a bookie '{name}'{told}")
}

/// The texts of these names.
fn texts_of<'a>(alloc: Global, names: &'a [String]) -> Result<Vec<&'a str>, AllocError>
    ensures { IfOk result (λ list. map (λ name. name.now) list.items ≡ map string_bytes names.now) }
{
    let mut list = Vec::new(alloc);
    for name in names {
        list.push(name.as_str())?;
    }
    Ok(list)
}

/// That the name is no bookie's rack, and what is near; or out of memory.
pub(crate) fn unknown_rack(alloc: Global, cluster: &Cluster, name: &str) -> RunFault
    ensures { model.IsOfNames result }
{
    misnamed(unknown_rack_text(alloc, cluster, name))
}

/// The text of that.
fn unknown_rack_text(alloc: Global, cluster: &Cluster, name: &str) -> Result<String, AllocError> {
    let mut racks = Vec::new(alloc);
    for number in cluster.rack_numbers(alloc)?.iter() {
        if let Some(shown) = cluster.shown().get(*number as usize) {
            racks.push(shown.rack().unwrap_or(""))?;
        }
    }
    let told = known_text(alloc, &racks, name)?;
    format!(in alloc; "no bookie is in rack '{name}'{told}")
}

/// That no bookie is named; or out of memory.
pub(crate) fn nobody(alloc: Global) -> RunFault
    ensures { model.IsMisnamed model.nobody_text result }
{
    misnamed(format!(in alloc; "no bookie is named: give --lose or --lose-rack"))
}

/// That the word of this number names a bookie which a word before it names; or out of memory.
pub fn named_twice(alloc: Global, words: &[&str], number: usize) -> RunFault
    ensures { model.IsMisnamed (model.again_text (model.word_at words.now number)) result }
{
    named_again(alloc, name_at(words, number))
}

/// That the bookie of this name is named before, too; or out of memory.
pub fn named_again(alloc: Global, name: &str) -> RunFault
    ensures { model.IsMisnamed (model.again_text name.now) result }
{
    misnamed(format!(in alloc; "bookie '{name}' is named twice"))
}

/// That the word can be read in two ways; or out of memory.
pub(crate) fn ambiguous(alloc: Global, word: &str) -> RunFault
    ensures { model.IsMisnamed (model.ambiguous_text word.now) result }
{
    misnamed(format!(in alloc; "'{word}' is one bookie, and a list of others"))
}

/// The fault with this text.
pub(crate) fn misnamed(text: Result<String, AllocError>) -> RunFault
    ensures { model.TellsText text result }
{
    match text {
        Ok(text) => RunFault::Misnamed(text),
        Err(want) => RunFault::from(want),
    }
}

/// The word of that number.
fn name_at<'a>(words: &[&'a str], number: usize) -> &'a str
    ensures { result.now ≡ model.word_at words.now number }
{
    match words.get(number) {
        Some(name) => *name,
        None => "",
    }
}
