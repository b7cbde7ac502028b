// Reading a census.
ghost use Rattle.std.specs.Prelude.{◌≡◌, ◌∷◌, ◌<◌, [], ◌+◌, ◌^◌, codes, nat_eq, length, MatchOption, position, IfOk, Ok};
ghost use Rattle.std.specs.List.{starts_with, position_or_len};
ghost use Rattle.reh_census_file.specs.Drafts as drafts;
ghost use Rattle.reh_census_file.specs.Reading.{Gives, words_after, words_of};
ghost use Rattle.reh_census_file.specs.Canonical.{IsCanonical};
ghost use Rattle.reh_census_file.specs.Texts.{text_of};
ghost use Rattle.reh_census_file.specs.Values.{NamedCensus as NamedCensusValue};
ghost use Rattle.reh_census_file.specs.Whole as whole;
ghost use Rattle.reh_census_file.specs.Whole.{GivesAll, parts_of};
ghost use Rattle.std.specs.Option.{option_map};

use crate::drafts::Draft;
use crate::faults::{CensusFault, Expected, Keyword, LineFault};
use crate::values::NamedCensus;
use crate::words::{choice_at, first_word, line_behind, lines_at, no_more, time_at, version_at};
use reh_census::{Bookies, Census, Judged};
use std::alloc::Global;

/// Whether these bytes are to be read as a census: they begin as one.
pub fn is_census(bytes: &[u8]) -> bool
    ensures { result ≡ starts_with nat_eq bytes.now (codes "census ") }
{
    bytes.starts_with(b"census ")
}

/// Where the first line ends, if it does.
fn line_len(text: &[u8]) -> Option<usize>
    ensures { result ≡ position whole.is_line_end text.now }
{
    for index in 0..text.len() {
        if text[index] == b'\n' {
            return Some(index);
        }
    }
    None
}

/// The first line, and what comes after the LF that ends it, if one does.
fn next_line(text: &[u8]) -> Option<(&[u8], &[u8])>
    ensures parts { MatchOption result (parts_of text.now ≡ text.now ∷ [])
        (λ found. parts_of text.now ≡ found.0.now ∷ parts_of found.1.now) }
    ensures some { MatchOption result (Unit {0}) (λ found. 0 < length (parts_of found.1.now)) }
    ensures shorter { MatchOption result (Unit {0}) (λ found. length found.1.now < length text.now) }
{
    let end = line_len(text)?;
    Some((&text[..end], &text[end + 1..]))
}

/// A fault of this line.
fn fault_at(line: u64, stop: LineFault) -> CensusFault
    ensures { result ≡ whole.fault_at line stop }
{
    match stop {
        LineFault::At(expected) => CensusFault::Line(line, expected),
        LineFault::NoMemory => CensusFault::NoMemory,
    }
}

/// The line of the version.
#[tactic(auto, unfolding(crate::specs::Whole::version_line))]
fn version_line(line: &[u8]) -> Result<(), LineFault>
    ensures { Gives (λ x. x) result (whole.version_line (words_of line.now)) }
{
    let rest = line_behind(Keyword::Census, line)?;
    version_at(rest)
}

/// The line that says whether what is assumed counts as untold.
#[tactic(auto, unfolding(crate::specs::Whole::strict_line))]
fn strict_line(line: &[u8]) -> Result<bool, LineFault>
    ensures { Gives (λ x. x) result (whole.strict_line (words_of line.now)) }
{
    let rest = line_behind(Keyword::Strict, line)?;
    let (is_strict, rest) = choice_at("yes", "no", Expected::YesOrNo, rest)?;
    no_more(rest)?;
    Ok(is_strict)
}

/// The line of the time.
#[tactic(auto, unfolding(crate::specs::Whole::taken_line))]
fn taken_line(line: &[u8]) -> Result<Option<&str>, LineFault>
    ensures { Gives (λ x. option_map (λ t. t.now) x) result (whole.taken_line (words_of line.now)) }
{
    let rest = line_behind(Keyword::Taken, line)?;
    let (taken, rest) = time_at(rest)?;
    no_more(rest)?;
    Ok(taken)
}

/// What comes after the first line, which tells the version.
#[tactic(auto, unfolding(crate::specs::Whole::line_by))]
fn behind_version(text: &[u8]) -> Result<&[u8], CensusFault>
    ensures { GivesAll (λ rest. (tt, parts_of rest.now)) result
        (whole.line_by whole.version_line 1 (parts_of text.now)) }
{
    let Some((line, rest)) = next_line(text) else {
        return Err(CensusFault::Line(1, Expected::MoreLines));
    };
    match version_line(line) {
        Ok(()) => Ok(rest),
        Err(stop) => Err(fault_at(1, stop)),
    }
}

/// What the second line tells, and what comes after it.
#[tactic(auto, unfolding(crate::specs::Whole::line_by))]
fn read_strict(text: &[u8]) -> Result<(bool, &[u8]), CensusFault>
    ensures { GivesAll (λ x. (x.0, parts_of x.1.now)) result
        (whole.line_by whole.strict_line 2 (parts_of text.now)) }
{
    let Some((line, rest)) = next_line(text) else {
        return Err(CensusFault::Line(2, Expected::MoreLines));
    };
    match strict_line(line) {
        Ok(is_strict) => Ok((is_strict, rest)),
        Err(stop) => Err(fault_at(2, stop)),
    }
}

/// What the third line tells, and what comes after it.
#[tactic(auto, unfolding(crate::specs::Whole::line_by))]
fn read_taken(text: &[u8]) -> Result<(Option<&str>, &[u8]), CensusFault>
    ensures { GivesAll (λ x. (option_map (λ t. t.now) x.0, parts_of x.1.now)) result
        (whole.line_by whole.taken_line 3 (parts_of text.now)) }
{
    let Some((line, rest)) = next_line(text) else {
        return Err(CensusFault::Line(3, Expected::MoreLines));
    };
    match taken_line(line) {
        Ok(taken) => Ok((taken, rest)),
        Err(stop) => Err(fault_at(3, stop)),
    }
}

/// Whether a last line may come after so many, and these are its words after `end`.
#[tactic(auto, unfolding(crate::specs::Whole::end_line))]
fn end_line(lines: u64, draft: &Draft, words: &[u8]) -> Result<(), LineFault>
    ensures { Gives (λ _. draft.now) result (whole.end_line lines draft.now (words_after words.now)) }
{
    if draft.judged.is_none() {
        return Err(LineFault::At(Expected::Line(draft.part())));
    }
    lines_at(lines, words)
}

/// Whether these are the words after `end` on the line after so many, and nothing comes after that line.
fn check_end(lines: u64, draft: &Draft, words: &[u8], rest: &[u8]) -> Result<(), CensusFault>
    requires { lines + 2 < 2 ^ 64 }
    ensures { GivesAll (λ _. draft.now) result
        (whole.last_at lines draft.now (words_after words.now) (parts_of rest.now)) }
{
    if let Err(stop) = end_line(lines, draft, words) {
        return Err(fault_at(lines + 1, stop));
    }
    if rest.is_empty() {
        Ok(())
    } else {
        Err(CensusFault::Line(lines + 2, Expected::NoMoreLines))
    }
}

/// Takes the lines after the head. What an error leaves isn't told.
fn read_lines(draft: &mut Draft, alloc: Global, text: &[u8]) -> Result<(), CensusFault>
    ensures { GivesAll (λ _. draft.new) result (whole.body_at 3 draft.old (parts_of text.now)) }
{
    let mut lines = 3u64;
    let mut left = text;
    while let Some((line, rest)) = next_line(left) {
        let (first, words) = first_word(line);
        if first == b"end".as_slice() {
            return check_end(lines, draft, words, rest);
        }
        if let Err(stop) = draft.take(alloc, first, words) {
            return Err(fault_at(lines + 1, stop));
        }
        lines += 1;
        left = rest;
    }
    Err(CensusFault::Line(lines + 1, Expected::MoreLines))
}

/// The census that these parts of a text told.
fn census_of(
    alloc: Global,
    is_strict: bool,
    taken: Option<&str>,
    draft: Draft,
) -> Result<NamedCensus, CensusFault>
    ensures { GivesAll (λ c. c) result (Ok (whole.census_in is_strict (option_map (λ t. t.now) taken.entry) draft)) }
{
    let judged = draft.judged.unwrap_or(Judged {
        ledgers: 0,
        assumed: 0,
        unread: 0,
        missing: 0,
    });
    let taken = match taken {
        Some(time) => Some(String::from_str(alloc, time)?),
        None => None,
    };
    let bookies = Bookies::of(draft.bookies);
    let census = Census::of(draft.entries, draft.tails, draft.ensembles, judged);
    Ok(NamedCensus::of(draft.names, draft.racks, bookies, census, is_strict, taken))
}

/// The census that a text tells.
#[tactic(auto, unfolding(crate::specs::Whole::census_at))]
fn read_all(alloc: Global, bytes: &[u8]) -> Result<NamedCensus, CensusFault>
    ensures { GivesAll (λ c. c) result (whole.read bytes.now) }
{
    let rest = behind_version(bytes)?;
    let (is_strict, rest) = read_strict(rest)?;
    let (taken, rest) = read_taken(rest)?;
    let mut draft = Draft::new(alloc);
    read_lines(&mut draft, alloc, rest)?;
    census_of(alloc, is_strict, taken, draft)
}

/// The census that these bytes are the text of, or the first line that makes them no text of any.
pub fn read_census(alloc: Global, bytes: &[u8]) -> Result<NamedCensus, CensusFault>
    // What is read has this text, each byte of it.
    ensures text { IfOk result (λ c. text_of c ≡ bytes.now) }
    ensures canonical { IfOk result IsCanonical }
    // What has the text of a canonical census is read as that census, unless memory runs out.
    ensures only { (c : NamedCensusValue) → IsCanonical c → text_of c ≡ bytes.now → GivesAll (λ c. c) result (Ok c) }
    // Which fault it is.
    ensures exact { GivesAll (λ c. c) result (whole.read bytes.now) }
{
    read_all(alloc, bytes)
}
