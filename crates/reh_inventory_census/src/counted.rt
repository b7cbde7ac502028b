// The ledger of a line, as a census counts it.
ghost use Rattle.std.specs.Prelude.{◌≡◌, ◌≢◌, ◌<◌, false, None, Some, fold, length, map, IfErr, IfOk};
ghost use Rattle.std.specs.List.{list_any};
ghost use Rattle.reh_census.specs.Ledgers.{IsLedger};
ghost use Rattle.reh_census.specs.Striping.{range};
ghost use Rattle.reh_inventory_census.specs.Counted as model;
ghost use Rattle.reh_inventory_census.specs.Shown.{SaysNoMore, Shows};

use crate::faults::CountFault;
use reh_census::{
    Content as CountedContent, Fragment as CountedFragment, Ledger, LedgerState as State, Names,
    Range, Ranges, Told,
};
use reh_census_file::NameList;
use reh_inventory::{Content, Entries, Fragment, LedgerLine, LedgerState, Sizes};
use reh_inventory_fields::{MAX_NUMBER, Name};
use std::alloc::{AllocError, Global};

/// How what is told of a ledger is read.
#[derive(Clone, Copy)]
struct Reading {
    /// Whether what is assumed counts as untold.
    is_strict: bool,
    /// One past the last entry that is counted.
    end: u64,
    /// Whether entries of a last fragment without a stop are counted.
    has_loose: bool,
    /// Whether entries of other fragments are counted, too.
    has_both: bool,
}

/// Whether one of the ranges has each entry below this end.
fn covers(ranges: &[Range], end: u64) -> bool
    ensures { result ≡ list_any (model.covers end) ranges.now }
{
    for range in ranges {
        if range.first == 0 && end.saturating_sub(1) <= range.last {
            return true;
        }
    }
    false
}

/// Whether the content speaks of some entries that are counted, and not of others.
fn speaks_partly(end: u64, content: &Content) -> bool
    ensures { result ≡ model.speaks_partly end content.now.told }
{
    match &content.told {
        Some(ranges) => !ranges.as_slice().is_empty() && !covers(ranges.as_slice(), end),
        None => false,
    }
}

/// Whether the content speaks of no entry.
fn speaks_of_none(content: &Content) -> bool
    ensures { result ≡ model.speaks_of_none content.now.told }
{
    match &content.told {
        Some(ranges) => ranges.as_slice().is_empty(),
        None => false,
    }
}

/// Whether the content says nothing of a last fragment without a stop.
fn needs_stop(content: &Content) -> bool
    ensures { result ≡ model.needs_stop content.now }
{
    content.is_assumed || matches!(&content.entries, Entries::Lacks(_))
}

/// Whether the content counts as untold.
fn is_unheard(reading: Reading, content: &Content) -> bool
    ensures { result ≡ model.is_unheard reading.is_strict content.now }
{
    (reading.is_strict && content.is_assumed) || speaks_of_none(content)
}

/// Whether the content tells what its bookie holds of some entries that are counted, and not of others.
fn is_partial(reading: Reading, content: &Content) -> bool
    ensures { result ≡ model.is_partial reading content.now }
{
    !is_unheard(reading, content)
        && (speaks_partly(reading.end, content) || (reading.has_both && needs_stop(content)))
}

/// A copy of ranges of entries.
fn copy_of(alloc: Global, ranges: &Ranges) -> Result<Ranges, AllocError>
    ensures { IfOk result (λ copy. copy ≡ ranges.now) }
{
    let copy = Vec::from_slice(alloc, ranges.as_slice())?;
    Ok(Ranges::of(copy))
}

/// What a content tells a census.
fn told_by(alloc: Global, reading: Reading, content: &Content) -> Result<Told, AllocError>
    ensures { IfOk result (λ told. told ≡ model.told_by reading content.now) }
{
    if is_partial(reading, content) {
        return Ok(Told::Untold);
    }
    if is_unheard(reading, content) || (reading.has_loose && needs_stop(content)) {
        return Ok(Told::Untold);
    }
    match &content.entries {
        Entries::Holds(ranges) => Ok(Told::Holds(copy_of(alloc, ranges)?)),
        Entries::Lacks(ranges) => Ok(Told::Lacks(copy_of(alloc, ranges)?)),
    }
}

/// The number of the bookie of this name; one that isn't among the names isn't registered.
pub(crate) fn number_of(names: &NameList, name: &Name) -> u16
    ensures { result ≡ model.number_in names.now name.now }
{
    names.find(name.as_str().as_bytes()).unwrap_or(u16::MAX)
}

/// The members of an ensemble, by number.
fn members_of(alloc: Global, names: &NameList, ensemble: &[Name]) -> Result<Names, AllocError>
    ensures { IfOk result (λ members. members ≡ map (model.number_in names.now) ensemble.now) }
{
    let mut members = Vec::new(alloc);
    for name in ensemble {
        members.push(number_of(names, name))?;
    }
    Ok(Names::of(members))
}

/// What contents tell a census.
fn contents_of(
    alloc: Global,
    names: &NameList,
    reading: Reading,
    contents: &[Content],
) -> Result<Vec<CountedContent>, AllocError>
    ensures { IfOk result (λ counted. counted.items
        ≡ map (model.content_by names.now reading) contents.now) }
{
    let mut counted = Vec::new(alloc);
    for content in contents {
        let told = told_by(alloc, reading, content)?;
        let bookie = number_of(names, &content.bookie);
        counted.push(CountedContent { bookie, told })?;
    }
    Ok(counted)
}

/// One past the greatest entry of these ranges, or this end, if that is greater.
fn end_after(ranges: &[Range], least: u64) -> u64
    ensures { result ≡ fold model.end_after least ranges.now }
{
    let mut end = least;
    for range in ranges {
        end = end.max(range.last.min(MAX_NUMBER) + 1);
    }
    end
}

/// One past the greatest entry that a bookie is told or assumed to hold; 0 where there is none.
pub fn end_told(contents: &[Content]) -> u64
    ensures { result ≡ model.end_told contents.now }
{
    let mut end = 0;
    for content in contents {
        if let Entries::Holds(ranges) = &content.entries {
            end = end_after(ranges.as_slice(), end);
        }
    }
    end
}

/// Where a ledger in this state ends, if that is known.
pub fn end_of(state: LedgerState) -> Option<u64>
    ensures { result ≡ model.end_of state }
{
    match state {
        LedgerState::Closed { end } => Some(end),
        LedgerState::Open | LedgerState::InRecovery => None,
    }
}

/// A ledger's state, as a census has it.
fn state_of(state: LedgerState) -> State
    ensures { result ≡ model.state_of state }
{
    match state {
        LedgerState::Open => State::Open,
        LedgerState::InRecovery => State::InRecovery,
        LedgerState::Closed { .. } => State::Closed,
    }
}

/// Where the fragment of this number stops: where the next one begins, or where the ledger ends, if that is known.
pub fn stop_of(line: &LedgerLine, fragment: usize) -> Option<u64>
    requires { fragment < length line.now.fragments }
    ensures { result ≡ model.stop_of line.now fragment }
{
    match line.fragments.as_slice().get(fragment + 1) {
        Some(next) => Some(next.first),
        None => end_of(line.state),
    }
}

/// The fragment of this number, of a ledger whose entries are told up to this end.
fn fragment_of(
    alloc: Global,
    names: &NameList,
    end: u64,
    line: &LedgerLine,
    fragment: usize,
) -> Result<CountedFragment, AllocError>
    requires { fragment < length line.now.fragments }
    ensures { IfOk result (λ made. made ≡ model.fragment_of names.now end line.now fragment) }
{
    let listed = &line.fragments.as_slice()[fragment];
    let first = listed.first;
    let stop = match stop_of(line, fragment) {
        Some(stop) => stop,
        None => first.max(end),
    };
    let ensemble = members_of(alloc, names, listed.ensemble.as_slice())?;
    Ok(CountedFragment {
        first,
        stop,
        ensemble,
    })
}

/// The fragments of a ledger whose entries are told up to this end.
fn fragments_of(
    alloc: Global,
    names: &NameList,
    end: u64,
    line: &LedgerLine,
) -> Result<Vec<CountedFragment>, AllocError>
    ensures { IfOk result (λ fragments. fragments.items
        ≡ map (model.fragment_of names.now end line.now) (range 0 (length line.now.fragments))) }
{
    let mut fragments = Vec::new(alloc);
    for fragment in 0..line.fragments.as_slice().len() {
        let made = fragment_of(alloc, names, end, line, fragment)?;
        fragments.push(made)?;
    }
    Ok(fragments)
}

/// The first entry of the last fragment, 0 where there is none.
pub fn last_first(line: &LedgerLine) -> u64
    ensures { result ≡ model.last_first line.now }
{
    match line.fragments.as_slice().last() {
        Some(fragment) => fragment.first,
        None => 0,
    }
}

/// How what is told of a ledger is read.
fn reading_of(is_strict: bool, line: &LedgerLine) -> Reading
    ensures { result ≡ model.reading_of is_strict line.now }
{
    let end = end_told(line.contents.as_slice()).max(last_first(line));
    let has_loose = end_of(line.state).is_none() && end > last_first(line);
    Reading {
        is_strict,
        end: end_of(line.state).unwrap_or(end),
        has_loose,
        has_both: has_loose && line.fragments.as_slice().len() > 1,
    }
}

/// What holds of the members of which no content tells.
fn rest_of(alloc: Global, assumes_striped: bool, reading: Reading) -> Told
    ensures { result ≡ model.rest_of assumes_striped reading }
{
    if assumes_striped && !reading.is_strict && !reading.has_loose {
        Told::Lacks(Ranges::of(Vec::new(alloc)))
    } else {
        Told::Untold
    }
}

/// The ledger of a line that is read so, of whose members this is told.
fn make_ledger(
    alloc: Global,
    names: &NameList,
    reading: Reading,
    line: &LedgerLine,
    contents: Vec<CountedContent>,
    rest: Told,
) -> Result<Ledger, CountFault>
    ensures ledger { IfOk result
        (λ ledger. ledger ≡ model.ledger_with names.now reading line.now contents.items rest) }
    ensures sound { IfOk result IsLedger }
    ensures unfit { IfErr result (λ fault. fault ≢ CountFault.NoMemory → (fault ≡ CountFault.Unfit line.now.id)
        × ¬ IsLedger (model.ledger_with names.now reading line.now contents.items rest)) }
{
    let fragments = fragments_of(alloc, names, reading.end, line)?;
    let Sizes {
        ensemble,
        write_quorum,
        ack_quorum,
    } = line.sizes;
    Ledger::try_new(
        state_of(line.state),
        ensemble,
        write_quorum,
        ack_quorum,
        fragments,
        contents,
        rest,
    )
    .ok_or(CountFault::Unfit(line.id))
}

/// The ledger of a line, as a census counts it, where bookies have the numbers of their names. In a strict reading what is
/// assumed counts as untold.
///
/// A ledger of a census says one thing of all entries of a bookie. Where the line may say more of a bookie, what it holds of
/// some entries that are counted and nothing of others, the bookie counts as untold. So the ledger never says more than the
/// line, and it says the same if there is no such bookie.
pub(crate) fn counted_ledger(
    alloc: Global,
    names: &NameList,
    assumes_striped: bool,
    is_strict: bool,
    line: &LedgerLine,
) -> Result<Ledger, CountFault>
    ensures ledger { IfOk result
        (λ ledger. ledger ≡ model.counted names.now assumes_striped is_strict line.now) }
    ensures says { IfOk result (SaysNoMore names.now assumes_striped is_strict line.now) }
    ensures shows { IfOk result (λ ledger.
        model.is_told_partly assumes_striped (model.reading_of is_strict line.now) line.now ≡ false
        → Shows names.now assumes_striped is_strict line.now ledger) }
    ensures unfit { IfErr result (λ fault. fault ≢ CountFault.NoMemory → (fault ≡ CountFault.Unfit line.now.id)
        × ¬ IsLedger (model.counted names.now assumes_striped is_strict line.now)) }
{
    let reading = reading_of(is_strict, line);
    let contents = contents_of(alloc, names, reading, line.contents.as_slice())?;
    let rest = rest_of(alloc, assumes_striped, reading);
    make_ledger(alloc, names, reading, line, contents, rest)
}

/// What a content tells a census of what is assumed alone.
fn assumed_by(
    alloc: Global,
    names: &NameList,
    reading: Reading,
    content: &Content,
) -> Result<CountedContent, AllocError>
    ensures { IfOk result (λ counted. counted ≡ model.assumed_by names.now reading content.now) }
{
    let bookie = number_of(names, &content.bookie);
    let told = if content.is_assumed {
        told_by(alloc, reading, content)?
    } else {
        Told::Untold
    };
    Ok(CountedContent { bookie, told })
}

/// What contents tell a census of what is assumed alone.
fn assumed_contents(
    alloc: Global,
    names: &NameList,
    reading: Reading,
    contents: &[Content],
) -> Result<Vec<CountedContent>, AllocError>
    ensures { IfOk result (λ counted. counted.items
        ≡ map (model.assumed_by names.now reading) contents.now) }
{
    let mut counted = Vec::new(alloc);
    for content in contents {
        counted.push(assumed_by(alloc, names, reading, content)?)?;
    }
    Ok(counted)
}

/// The same ledger, if of its entries just that is told which is assumed.
pub(crate) fn assumed_ledger(
    alloc: Global,
    names: &NameList,
    assumes_striped: bool,
    line: &LedgerLine,
) -> Result<Ledger, CountFault>
    ensures ledger { IfOk result
        (λ ledger. ledger ≡ model.assumed names.now assumes_striped line.now) }
    ensures unfit { IfErr result (λ fault. fault ≢ CountFault.NoMemory → (fault ≡ CountFault.Unfit line.now.id)
        × ¬ IsLedger (model.assumed names.now assumes_striped line.now)) }
{
    let reading = reading_of(false, line);
    let contents = assumed_contents(alloc, names, reading, line.contents.as_slice())?;
    let rest = rest_of(alloc, assumes_striped, reading);
    make_ledger(alloc, names, reading, line, contents, rest)
}
