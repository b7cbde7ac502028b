// The lines of a census, after their first words.
ghost use Rattle.std.specs.Prelude.{codes};
ghost use Rattle.reh_census_file.specs.LineReading as reading;
ghost use Rattle.reh_census_file.specs.LineReading.{seen};
ghost use Rattle.std.specs.Option.{option_map};
ghost use Rattle.reh_census_file.specs.declared.faults.Expected.TheVariants as expected;
ghost use Rattle.reh_census_file.specs.Reading.{Gives, words_after};
ghost use Rattle.reh_census_file.specs.Reading as words;

use crate::faults::{Expected, Keyword, LineFault};
use crate::lists::NameList;
use crate::words::{
    bookies_at, bookies_behind, choice_at, count_at, flag_at, name_at, next_word, no_more,
    number_at, number_behind, word_count,
};
use reh_census::{Class, Counted, CountedEnsemble, CountedTail, Judged, Names, Tail};
use std::alloc::Global;

/// A bookie, as its line has it.
#[derive(Drop)]
pub(crate) struct BookieLine<'a> {
    pub name: &'a str,
    pub is_registered: bool,
    pub is_read_only: bool,
    pub is_empty: bool,
    pub rack: Option<&'a str>,
}

/// Whether ledgers are open, and what follows that.
fn state_at(rest: &[u8]) -> Result<(bool, &[u8]), LineFault>
    ensures { Gives (λ x. (x.0, words_after x.1.now)) result
        (words.choice_at (codes "open") (codes "in-recovery") expected.OpenOrInRecovery (words_after rest.now)) }
{
    choice_at("open", "in-recovery", Expected::OpenOrInRecovery, rest)
}

/// The name of a rack, and nothing after it.
#[tactic(auto, unfolding(crate::specs::LineReading::rack_behind))]
fn rack_behind(rest: &[u8]) -> Result<Option<&str>, LineFault>
    ensures { Gives (λ x. option_map (λ rack. rack.now) x) result (reading.rack_behind (words_after rest.now)) }
{
    let (name, after) = name_at(rest)?;
    no_more(after)?;
    Ok(Some(name))
}

/// The rack, if there is one.
#[tactic(auto, unfolding(crate::specs::LineReading::rack_at))]
fn rack_at(rest: &[u8]) -> Result<Option<&str>, LineFault>
    ensures { Gives (λ x. option_map (λ rack. rack.now) x) result (reading.rack_at (words_after rest.now)) }
{
    match next_word(rest) {
        None => Ok(None),
        Some((word, after)) if word == b"rack".as_slice() => rack_behind(after),
        Some(_) => Err(LineFault::At(Expected::BookieEnd)),
    }
}

/// A bookie.
#[tactic(auto, unfolding(crate::specs::LineReading::bookie_line_at))]
pub(crate) fn bookie_line_at(rest: &[u8]) -> Result<BookieLine<'_>, LineFault>
    ensures { Gives seen result (reading.bookie_line_at (words_after rest.now)) }
{
    let (name, rest) = name_at(rest)?;
    let (is_registered, rest) = choice_at("up", "down", Expected::UpOrDown, rest)?;
    let (is_read_only, rest) = flag_at(Keyword::ReadOnly, rest);
    let (is_empty, rest) = flag_at(Keyword::Empty, rest);
    let rack = rack_at(rest)?;
    Ok(BookieLine {
        name,
        is_registered,
        is_read_only,
        is_empty,
        rack,
    })
}

/// What was judged.
#[tactic(auto, unfolding(crate::specs::LineReading::judged_at))]
pub(crate) fn judged_at(rest: &[u8]) -> Result<Judged, LineFault>
    ensures { Gives (λ x. x) result (reading.judged_at (words_after rest.now)) }
{
    let (ledgers, rest) = number_at(rest)?;
    let (assumed, rest) = number_behind(Keyword::Assumed, rest)?;
    let (unread, rest) = number_behind(Keyword::Unread, rest)?;
    let (missing, rest) = number_behind(Keyword::Missing, rest)?;
    no_more(rest)?;
    Ok(Judged {
        ledgers,
        assumed,
        unread,
        missing,
    })
}

/// Entries of a class.
#[tactic(auto, unfolding(crate::specs::LineReading::entries_at))]
pub(crate) fn entries_at(alloc: Global, names: &NameList, rest: &[u8]) -> Result<Counted, LineFault>
    ensures { Gives (λ x. x) result (reading.entries_at names.now (words_after rest.now)) }
{
    let (count, rest) = count_at(rest)?;
    let (write_quorum, rest) = number_behind(Keyword::Write, rest)?;
    let (ack_quorum, rest) = number_behind(Keyword::Ack, rest)?;
    let (known, rest) = bookies_behind(alloc, names, Keyword::Known, rest)?;
    let (untold, rest) = bookies_behind(alloc, names, Keyword::Untold, rest)?;
    no_more(rest)?;
    let class = Class {
        known: Names::of(known),
        untold: Names::of(untold),
        ack_quorum,
        write_quorum,
    };
    Ok(Counted { class, count })
}

/// Ledgers of a tail.
#[tactic(auto, unfolding(crate::specs::LineReading::tail_at))]
pub(crate) fn tail_at(
    alloc: Global,
    names: &NameList,
    rest: &[u8],
) -> Result<CountedTail, LineFault>
    ensures { Gives (λ x. x) result (reading.tail_at names.now (words_after rest.now)) }
{
    let (count, rest) = count_at(rest)?;
    let (is_open, rest) = state_at(rest)?;
    let (size, rest) = number_behind(Keyword::Size, rest)?;
    let (write_quorum, rest) = number_behind(Keyword::Write, rest)?;
    let (ack_quorum, rest) = number_behind(Keyword::Ack, rest)?;
    let (ensemble, rest) = bookies_at(alloc, names, size, rest)?;
    no_more(rest)?;
    let tail = Tail {
        size,
        write_quorum,
        ack_quorum,
        is_open,
        ensemble: Names::of(ensemble),
    };
    Ok(CountedTail { tail, count })
}

/// Fragments with these members.
#[tactic(auto, unfolding(crate::specs::LineReading::ensemble_at))]
pub(crate) fn ensemble_at(
    alloc: Global,
    names: &NameList,
    rest: &[u8],
) -> Result<CountedEnsemble, LineFault>
    ensures { Gives (λ x. x) result (reading.ensemble_at names.now (words_after rest.now)) }
{
    let (count, rest) = count_at(rest)?;
    let (members, _) = bookies_at(alloc, names, word_count(rest), rest)?;
    Ok(CountedEnsemble {
        members: Names::of(members),
        count,
    })
}
