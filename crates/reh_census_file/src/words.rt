// The words of a line, one after another, and the values that they stand for.
ghost use Rattle.std.specs.Prelude.{◌≡◌, ◌≤◌, ◌∷◌, [], length, MatchOption, map, count_by, option_map, if◌then◌else◌};
ghost use Rattle.std.specs.Char.{is_ascii_graphic};
ghost use Rattle.std.specs.Fmt.{decimal};
ghost use Rattle.std.specs.Str.{bytes_eq};
ghost use Rattle.std.specs.List.{list_all, position_or_len};
ghost use Rattle.reh_census_file.specs.Canonical as canonical;
ghost use Rattle.reh_census_file.specs.Reading as reading;
ghost use Rattle.reh_census_file.specs.Reading.{Gives, words_of, words_after};

use crate::faults::{Expected, Keyword, LineFault};
use crate::lists::NameList;
use itoa::Buffer;
use std::alloc::Global;

/// The greatest number that a census may have: 2^63.
pub const MAX_COUNT: u64 = 1 << 63;

/// How many bytes a name may have.
pub const MAX_NAME_BYTES: usize = 300;

/// How many bytes stand before the first space.
fn word_len(text: &[u8]) -> usize
    ensures count { result ≡ position_or_len reading.is_space text.now }
    ensures within { result ≤ length text.now }
{
    for index in 0..text.len() {
        if text[index] == b' ' {
            return index;
        }
    }
    text.len()
}

/// The first word of a line, and what follows it, from the space on that ends it.
pub(crate) fn first_word(line: &[u8]) -> (&[u8], &[u8])
    ensures { words_of line.now ≡ result.0.now ∷ words_after result.1.now }
{
    line.split_at(word_len(line))
}

/// The word that follows, if there is one, and what follows that.
pub(crate) fn next_word(rest: &[u8]) -> Option<(&[u8], &[u8])>
    ensures { MatchOption result (words_after rest.now ≡ [])
        (λ found. words_after rest.now ≡ found.0.now ∷ words_after found.1.now) }
{
    match rest {
        [] => None,
        [_, text @ ..] => Some(first_word(text)),
    }
}

/// How many spaces a text has.
fn space_count(text: &[u8]) -> usize
    ensures count { result ≡ count_by reading.is_space text.now }
    ensures within { result ≤ length text.now }
{
    let mut count = 0;
    for byte in text {
        if *byte == b' ' {
            count += 1;
        }
    }
    count
}

/// How many words follow.
pub(crate) fn word_count(rest: &[u8]) -> u64
    ensures { result ≡ length (words_after rest.now) }
{
    match rest {
        [] => 0,
        [_, text @ ..] => space_count(text) as u64 + 1,
    }
}

/// Whether each byte is one of 0x21 to 0x7E.
fn is_printed(word: &[u8]) -> bool
    ensures { result ≡ list_all is_ascii_graphic word.now }
{
    for byte in word {
        if !byte.is_ascii_graphic() {
            return false;
        }
    }
    true
}

/// Whether a word may be a name.
fn is_name(word: &[u8]) -> bool
    ensures { result ≡ canonical.is_name word.now }
{
    !word.is_empty() && word.len() <= MAX_NAME_BYTES && is_printed(word)
}

/// Whether the word has the decimal digits of this number.
fn is_written(number: u64, word: &[u8]) -> bool
    ensures { result ≡ bytes_eq (decimal number) word.now }
{
    Buffer::new().format(number).as_bytes() == word
}

/// The number of at most 2^63 that is written so, if there is one.
fn number_of(word: &[u8]) -> Option<u64>
    ensures { result ≡ reading.number_of word.now }
{
    if word.len() > 19 {
        return None;
    }
    let mut value = 0u64;
    for digit in word {
        if !digit.is_ascii_digit() {
            return None;
        }
        value = value * 10 + u64::from(*digit - b'0');
    }
    if value > MAX_COUNT {
        return None;
    }
    if is_written(value, word) {
        Some(value)
    } else {
        None
    }
}

/// What follows this word.
#[tactic(auto, unfolding(crate::specs::Reading::word_at))]
pub(crate) fn word_at(wanted: Keyword, rest: &[u8]) -> Result<&[u8], LineFault>
    ensures { Gives (λ after. words_after after.now) result (reading.word_at wanted (words_after rest.now)) }
{
    match next_word(rest) {
        Some((word, after)) if word == wanted.text().as_bytes() => Ok(after),
        _ => Err(LineFault::At(Expected::Keyword(wanted))),
    }
}

/// Whether this word comes next, and what follows it, if it does.
#[tactic(auto, unfolding(crate::specs::Reading::flag_at))]
pub(crate) fn flag_at(wanted: Keyword, rest: &[u8]) -> (bool, &[u8])
    ensures { (result.0, words_after result.1.now) ≡ reading.flag_at wanted (words_after rest.now) }
{
    match next_word(rest) {
        Some((word, after)) if word == wanted.text().as_bytes() => (true, after),
        _ => (false, rest),
    }
}

/// Which of two words comes next, and what follows it: true is the first.
#[tactic(auto, unfolding(crate::specs::Reading::choice_at))]
pub(crate) fn choice_at<'a>(
    one: &'static str,
    other: &'static str,
    expected: Expected,
    rest: &'a [u8],
) -> Result<(bool, &'a [u8]), LineFault>
    ensures { Gives (λ x. (x.0, words_after x.1.now)) result
        (reading.choice_at one.now other.now expected (words_after rest.now)) }
{
    match next_word(rest) {
        Some((word, after)) if word == one.as_bytes() => Ok((true, after)),
        Some((word, after)) if word == other.as_bytes() => Ok((false, after)),
        _ => Err(LineFault::At(expected)),
    }
}

/// A number, and what follows it.
#[tactic(auto, unfolding(crate::specs::Reading::number_at))]
pub(crate) fn number_at(rest: &[u8]) -> Result<(u64, &[u8]), LineFault>
    ensures { Gives (λ x. (x.0, words_after x.1.now)) result (reading.number_at (words_after rest.now)) }
{
    let Some((word, after)) = next_word(rest) else {
        return Err(LineFault::At(Expected::Number));
    };
    match number_of(word) {
        Some(number) => Ok((number, after)),
        None => Err(LineFault::At(Expected::Number)),
    }
}

/// A number that isn't 0, and what follows it.
#[tactic(auto, unfolding(crate::specs::Reading::count_at))]
pub(crate) fn count_at(rest: &[u8]) -> Result<(u64, &[u8]), LineFault>
    ensures { Gives (λ x. (x.0, words_after x.1.now)) result (reading.count_at (words_after rest.now)) }
{
    let Some((word, after)) = next_word(rest) else {
        return Err(LineFault::At(Expected::Count));
    };
    match number_of(word) {
        None | Some(0) => Err(LineFault::At(Expected::Count)),
        Some(number) => Ok((number, after)),
    }
}

/// A number after its word, and what follows it.
#[tactic(auto, unfolding(crate::specs::Reading::number_behind))]
pub(crate) fn number_behind(wanted: Keyword, rest: &[u8]) -> Result<(u64, &[u8]), LineFault>
    ensures { Gives (λ x. (x.0, words_after x.1.now)) result
        (reading.number_behind wanted (words_after rest.now)) }
{
    let behind = word_at(wanted, rest)?;
    number_at(behind)
}

/// The text of a word that may be a name.
fn name_text(word: &[u8]) -> Option<&str>
    ensures { option_map (λ text. text.now) result ≡ (if canonical.is_name word.now then Some word.now else None) }
{
    if !is_name(word) {
        return None;
    }
    match str::from_utf8(word) {
        Ok(text) => Some(text),
        Err(_) => None,
    }
}

/// A name, and what follows it.
#[tactic(auto, unfolding(crate::specs::Reading::name_at))]
pub(crate) fn name_at(rest: &[u8]) -> Result<(&str, &[u8]), LineFault>
    ensures { Gives (λ x. (x.0.now, words_after x.1.now)) result (reading.name_at (words_after rest.now)) }
{
    let Some((word, after)) = next_word(rest) else {
        return Err(LineFault::At(Expected::Name));
    };
    match name_text(word) {
        Some(name) => Ok((name, after)),
        None => Err(LineFault::At(Expected::Name)),
    }
}

/// A time, or that there is none, and what follows it.
#[tactic(auto, unfolding(crate::specs::Reading::time_at))]
pub(crate) fn time_at(rest: &[u8]) -> Result<(Option<&str>, &[u8]), LineFault>
    ensures { Gives (λ x. (option_map (λ t. t.now) x.0, words_after x.1.now)) result
        (reading.time_at (words_after rest.now)) }
{
    let Some((word, after)) = next_word(rest) else {
        return Err(LineFault::At(Expected::Time));
    };
    if word == b"-".as_slice() {
        return Ok((None, after));
    }
    match name_text(word) {
        Some(time) => Ok((Some(time), after)),
        None => Err(LineFault::At(Expected::Time)),
    }
}

/// The number of the bookie of this name, and what follows it.
#[tactic(auto, unfolding(crate::specs::Reading::bookie_at))]
fn bookie_at<'a>(names: &NameList, rest: &'a [u8]) -> Result<(u16, &'a [u8]), LineFault>
    ensures { Gives (λ x. (x.0, words_after x.1.now)) result
        (reading.bookie_at names.now (words_after rest.now)) }
{
    let Some((word, after)) = next_word(rest) else {
        return Err(LineFault::At(Expected::KnownBookie));
    };
    match names.find(word) {
        Some(number) => Ok((number, after)),
        None => Err(LineFault::At(Expected::KnownBookie)),
    }
}

/// So many bookies, and what follows them.
pub(crate) fn bookies_at<'a>(
    alloc: Global,
    names: &NameList,
    count: u64,
    rest: &'a [u8],
) -> Result<(Vec<u16>, &'a [u8]), LineFault>
    ensures { Gives (λ x. (x.0.items, words_after x.1.now)) result
        (reading.bookies_at names.now count (words_after rest.now)) }
{
    let mut numbers = Vec::new(alloc);
    let mut left = rest;
    for _ in 0..count {
        let (number, after) = bookie_at(names, left)?;
        numbers.push(number)?;
        left = after;
    }
    Ok((numbers, left))
}

/// Bookies after a word and their number, and what follows them.
#[tactic(auto, unfolding(crate::specs::Reading::bookies_behind))]
pub(crate) fn bookies_behind<'a>(
    alloc: Global,
    names: &NameList,
    wanted: Keyword,
    rest: &'a [u8],
) -> Result<(Vec<u16>, &'a [u8]), LineFault>
    ensures { Gives (λ x. (x.0.items, words_after x.1.now)) result
        (reading.bookies_behind names.now wanted (words_after rest.now)) }
{
    let (count, behind) = number_behind(wanted, rest)?;
    bookies_at(alloc, names, count, behind)
}

/// No further word.
pub(crate) fn no_more(rest: &[u8]) -> Result<(), LineFault>
    ensures { Gives (λ x. x) result (reading.no_more (words_after rest.now)) }
{
    match next_word(rest) {
        None => Ok(()),
        Some(_) => Err(LineFault::At(Expected::LineEnd)),
    }
}

/// The version, which is 1, and nothing after it.
#[tactic(auto, unfolding(crate::specs::Reading::version_at))]
pub(crate) fn version_at(rest: &[u8]) -> Result<(), LineFault>
    ensures { Gives (λ x. x) result (reading.version_at (words_after rest.now)) }
{
    match next_word(rest) {
        Some((word, after)) if word == b"1".as_slice() => no_more(after),
        _ => Err(LineFault::At(Expected::Version)),
    }
}

/// How many lines stand before the last one, and nothing after it.
#[tactic(auto, unfolding(crate::specs::Reading::lines_at))]
pub(crate) fn lines_at(lines: u64, rest: &[u8]) -> Result<(), LineFault>
    ensures { Gives (λ x. x) result (reading.lines_at lines (words_after rest.now)) }
{
    match next_word(rest) {
        Some((word, after)) if is_written(lines, word) => no_more(after),
        _ => Err(LineFault::At(Expected::End(lines))),
    }
}

/// What follows this word, which begins a line.
#[tactic(auto, unfolding(crate::specs::Reading::word_at))]
pub(crate) fn line_behind(wanted: Keyword, line: &[u8]) -> Result<&[u8], LineFault>
    ensures { Gives (λ after. words_after after.now) result (reading.word_at wanted (words_of line.now)) }
{
    let (word, after) = first_word(line);
    if word == wanted.text().as_bytes() {
        Ok(after)
    } else {
        Err(LineFault::At(Expected::Keyword(wanted)))
    }
}
