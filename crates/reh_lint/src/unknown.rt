// The word of a faulty line that names nothing.
ghost use Rattle.std.specs.Prelude.{◌≡◌, ◌==◌, filter, length, map, not, option_map, IfOk};
ghost use Rattle.std.specs.List.{slice_split};
ghost use Rattle.std.specs.Str.Lines.{strip_carriage_return};
ghost use Rattle.reh_commands.specs.Script as script;
ghost use Rattle.reh_lint.specs.Unknown as model;

use reh_cluster::Names;
use reh_commands::{Role, Verb};
use std::alloc::{AllocError, Global};

/// The words of a line, without the one CR at its end.
pub(crate) fn line_words(alloc: Global, line: &[u8]) -> Result<Vec<&[u8]>, AllocError>
    ensures { IfOk result (λ words. map (λ word. word.now) words.items ≡ model.line_words line.now) }
{
    words_of(alloc, without_cr(line))
}

/// The words of a text.
fn words_of(alloc: Global, text: &[u8]) -> Result<Vec<&[u8]>, AllocError>
    ensures { IfOk result (λ words. map (λ word. word.now) words.items ≡ script.words_of text.now) }
{
    let parts = parts_of(alloc, text)?;
    filled(alloc, &parts)
}

/// The parts of a text between spaces and tabs.
fn parts_of(alloc: Global, text: &[u8]) -> Result<Vec<&[u8]>, AllocError>
    ensures { IfOk result (λ parts. map (λ part. part.now) parts.items ≡ slice_split script.is_blank text.now) }
{
    text.split(|byte| is_blank(*byte)).collect(alloc)
}

/// Those of some parts that aren't empty.
fn filled<'a>(alloc: Global, parts: &[&'a [u8]]) -> Result<Vec<&'a [u8]>, AllocError>
    ensures { IfOk result (λ words. map (λ word. word.now) words.items
        ≡ filter (λ part. not (length part == 0)) (map (λ part. part.now) parts.now)) }
{
    let mut words = Vec::new(alloc);
    for part in parts {
        if !part.is_empty() {
            words.push(*part)?;
        }
    }
    Ok(words)
}

/// Whether the byte parts words.
fn is_blank(byte: u8) -> bool
    ensures { result ≡ script.is_blank byte }
{
    byte == b' ' || byte == b'\t'
}

/// A line without the one CR at its end.
fn without_cr(line: &[u8]) -> &[u8]
    ensures { result.now ≡ strip_carriage_return line.now }
{
    match line {
        [bytes @ .., b'\r'] => bytes,
        _ => line,
    }
}

/// Of the words of a line with an unknown command, that command: the first.
pub(crate) fn unknown_command<'a>(words: &[&'a [u8]]) -> Option<&'a [u8]>
    ensures { option_map (λ word. word.now) result ≡ model.unknown_command (map (λ word. word.now) words.now) }
{
    match words {
        [first, ..] => Some(*first),
        [] => None,
    }
}

/// Of the words of a line with an unknown name, that name: the first that has to be a bookie's and isn't.
pub(crate) fn unknown_name<'a>(names: &Names, words: &[&'a [u8]]) -> Option<&'a [u8]>
    ensures { option_map (λ word. word.now) result ≡ model.unknown_name names.now (map (λ word. word.now) words.now) }
{
    let [first, words @ ..] = words else {
        return None;
    };
    match verb_named(first) {
        Some(verb) => first_unknown(names, words, verb.roles()),
        None => None,
    }
}

/// The first of the words that has to be a bookie's name, by its role, and isn't.
fn first_unknown<'a>(names: &Names, words: &[&'a [u8]], roles: &[Role]) -> Option<&'a [u8]>
    ensures { option_map (λ word. word.now) result
        ≡ model.first_unknown names.now (map (λ word. word.now) words.now) roles.now }
{
    let [word, words @ ..] = words else {
        return None;
    };
    let [role, roles @ ..] = roles else {
        return None;
    };
    if is_unknown(names, word, *role) {
        return Some(*word);
    }
    first_unknown(names, words, roles)
}

/// Whether a word of this role has to be a bookie's name and isn't.
fn is_unknown(names: &Names, word: &[u8], role: Role) -> bool
    ensures { result ≡ model.is_unknown names.now (word.now, role) }
{
    stands_for_bookie(role) && names.find(word).is_none()
}

/// Whether a word of this role has to be a bookie's name.
fn stands_for_bookie(role: Role) -> bool
    ensures { result ≡ model.is_name (script.kind_of role) }
{
    matches!(role, Role::Bookie | Role::Worker)
}

/// The verb that a word names, if it names one.
fn verb_named(word: &[u8]) -> Option<Verb>
    ensures { result ≡ script.verb_of word.now }
{
    let verbs = Verb::all();
    verbs
        .iter()
        .copied()
        .find(|verb| verb.name().as_bytes() == word)
}
