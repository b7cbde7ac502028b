// The ledgers of a picture, as a census counts them.
ghost use Rattle.std.specs.Prelude.{◌≡◌, ◌<◌, ◌++◌, ◌∷◌, [], ◌==◌, IfNone, IfOk, IfSome, OnOk, List, fold, length, map};
ghost use Rattle.std.specs.BTreeMap.{get};
ghost use Rattle.std.specs.List.{filter};
ghost use Rattle.std.specs.Ordering.{nat_cmp};
ghost use Rattle.reh_census.specs.Ledgers.{IsLedger};
ghost use Rattle.reh_census.specs.Striping.{range};
ghost use Rattle.reh_picture.specs.Contents.{Holding as HoldingValue};
ghost use Rattle.reh_inputs.specs.ByLedger.{AreOf};
ghost use Rattle.reh_inputs.specs.Ledgers as model;

use crate::by_ledger::ByLedger;
use reh_census::{Content, Fragment, Ledger, LedgerState, Names, Range, Ranges, Told};
use reh_cluster::Ledger as Listed;
use reh_meta::LedgerMeta;
use reh_picture::Holding;
use reh_types::{BookieIx, LedgerState as State};
use std::alloc::{AllocError, Global};

/// The number that a bookie of a picture has in the cluster.
fn number_of(numbers: &[u16], bookie: BookieIx) -> u16
    ensures { result ≡ model.number_in numbers.now bookie }
{
    match numbers.get(bookie.0 as usize) {
        Some(number) => *number,
        None => u16::MAX,
    }
}

/// The members of an ensemble, by their numbers in the cluster.
fn members_of(alloc: Global, numbers: &[u16], ensemble: &[BookieIx]) -> Result<Names, AllocError>
    ensures { IfOk result (λ members. members ≡ map (model.number_in numbers.now) ensemble.now) }
{
    let mut members = Vec::with_capacity(alloc, ensemble.len())?;
    for bookie in ensemble {
        members.push(number_of(numbers, *bookie))?;
    }
    Ok(Names::of(members))
}

/// Where the entries of these ranges end: one past the greatest.
fn end_of(ranges: &[(u32, u32)], least: u64) -> u64
    ensures { result ≡ fold model.end_after least ranges.now }
{
    let mut end = least;
    for range in ranges {
        end = end.max(range.1 as u64 + 1);
    }
    end
}

/// One past the greatest entry that these say to be held or assumed; 0 where there is none.
fn end_told(held: &[&Holding]) -> u64
    ensures { result ≡ fold (λ end h. fold model.end_after end h.now.ranges) 0 held.now }
{
    let mut end = 0;
    for holding in held {
        end = end_of(holding.ranges(), end);
    }
    end
}

/// The entries of ranges, as a census has them.
fn ranges_of(alloc: Global, ranges: &[(u32, u32)]) -> Result<Ranges, AllocError>
    ensures { IfOk result (λ copy. copy ≡ map model.range_of ranges.now) }
{
    let mut copy = Vec::with_capacity(alloc, ranges.len())?;
    for range in ranges {
        copy.push(Range {
            first: range.0 as u64,
            last: range.1 as u64,
        })?;
    }
    Ok(Ranges::of(copy))
}

/// What counts as told of what a bookie holds.
#[derive(Clone, Copy)]
pub enum Reading {
    /// What is told, and what is assumed to be held. An assumed list that is empty tells nothing.
    All,
    /// What is told alone: a bookie of which something is assumed is untold.
    Told,
    /// What is assumed alone: a bookie of which nothing is assumed holds nothing.
    Assumed,
    /// Nothing: all bookies hold nothing.
    Nothing,
}

/// How a ledger in this state is read. While it isn't closed, what is assumed tells nothing: its last entries may be on
/// that bookie, too.
fn reading_in(state: State, reading: Reading) -> Reading
    ensures { result ≡ model.reading_in state reading }
{
    match (state, reading) {
        (State::Closed { .. }, reading) => reading,
        (_, Reading::All) => Reading::Told,
        (_, Reading::Assumed) => Reading::Nothing,
        (_, reading) => reading,
    }
}

/// Whether a holding tells nothing, since it is assumed: all of them, or an empty list alone.
fn is_unsaid(reading: Reading, holding: &Holding) -> bool
    ensures { result ≡ model.is_unsaid reading holding.now.is_assumed holding.now.ranges }
{
    match reading {
        Reading::All => holding.is_assumed() && holding.ranges().is_empty(),
        Reading::Told => holding.is_assumed(),
        Reading::Assumed | Reading::Nothing => false,
    }
}

/// What a holding tells.
fn told_by(alloc: Global, reading: Reading, holding: &Holding) -> Result<Told, AllocError>
    ensures { IfOk result (λ told. told ≡ model.told_by reading holding.now) }
{
    if is_unsaid(reading, holding) {
        return Ok(Told::Untold);
    }
    match (reading, holding.is_assumed()) {
        (Reading::Assumed, false) | (Reading::Nothing, _) => {
            Ok(Told::Holds(Ranges::of(Vec::new(alloc))))
        }
        _ => {
            let ranges = ranges_of(alloc, holding.ranges())?;
            Ok(Told::Holds(ranges))
        }
    }
}

/// What holds of a bookie of which no content tells.
fn rest_of(alloc: Global, reading: Reading) -> Told
    ensures { result ≡ model.rest_of reading }
{
    match reading {
        Reading::All | Reading::Told => Told::Untold,
        Reading::Assumed | Reading::Nothing => Told::Holds(Ranges::of(Vec::new(alloc))),
    }
}

/// Adds what a holding tells.
fn add_content(
    alloc: Global,
    numbers: &[u16],
    reading: Reading,
    holding: &Holding,
    contents: &mut Vec<Content>,
) -> Result<(), AllocError>
    ensures { OnOk result (contents.new.items
        ≡ contents.old.items ++ model.content_by numbers.now reading holding.now ∷ []) }
{
    let told = told_by(alloc, reading, holding)?;
    let bookie = number_of(numbers, holding.bookie());
    contents.push(Content { bookie, told })?;
    Ok(())
}

/// What these holdings of a ledger tell.
fn contents_of(
    alloc: Global,
    numbers: &[u16],
    reading: Reading,
    held: &[&Holding],
) -> Result<Vec<Content>, AllocError>
    ensures { IfOk result (λ contents. contents.items
        ≡ map (λ h. model.content_by numbers.now reading h.now) held.now) }
{
    let mut contents = Vec::with_capacity(alloc, held.len())?;
    for holding in held {
        add_content(alloc, numbers, reading, holding, &mut contents)?;
    }
    Ok(contents)
}

/// A fragment, by its number, of a ledger whose entries are told up to this end.
fn fragment_of(
    alloc: Global,
    numbers: &[u16],
    end: u64,
    metadata: &LedgerMeta,
    fragment: usize,
) -> Result<Fragment, AllocError>
    requires { fragment < length metadata.now.fragments }
    ensures { IfOk result (λ made. made ≡ model.fragment_of numbers.now end metadata.now fragment) }
{
    let listed = &metadata.fragments()[fragment];
    let first = listed.first as u64;
    let stop = match metadata.end_of(fragment) {
        Some(stop) => stop as u64,
        None => first.max(end),
    };
    let ensemble = members_of(alloc, numbers, &listed.ensemble)?;
    Ok(Fragment {
        first,
        stop,
        ensemble,
    })
}

/// The fragments of a ledger whose entries are told up to this end.
fn fragments_of(
    alloc: Global,
    numbers: &[u16],
    end: u64,
    metadata: &LedgerMeta,
) -> Result<Vec<Fragment>, AllocError>
    ensures { IfOk result (λ fragments. fragments.items
        ≡ map (model.fragment_of numbers.now end metadata.now) (range 0 (length metadata.now.fragments))) }
{
    let mut fragments = Vec::with_capacity(alloc, metadata.fragments().len())?;
    for fragment in 0..metadata.fragments().len() {
        let made = fragment_of(alloc, numbers, end, metadata, fragment)?;
        fragments.push(made)?;
    }
    Ok(fragments)
}

/// A ledger's state.
fn state_of(state: State) -> LedgerState
    ensures { result ≡ model.state_of state }
{
    match state {
        State::Open => LedgerState::Open,
        State::InRecovery => LedgerState::InRecovery,
        State::Closed { .. } => LedgerState::Closed,
    }
}

/// A ledger that has these holdings, as a census counts it.
fn ledger_with(
    alloc: Global,
    numbers: &[u16],
    reading: Reading,
    held: &[&Holding],
    listed: &Listed,
) -> Result<Option<Ledger>, AllocError>
    ensures made { IfOk result (λ made. IfSome made (λ ledger. (holdings : List HoldingValue)
        → map (λ h. h.now) held.now ≡ filter (λ h. h.ledger == listed.now.id) holdings → ledger
        ≡ model.ledger_of numbers.now reading holdings listed.now.id listed.now.metadata)) }
    ensures unfit { IfOk result (λ made. IfNone made ((holdings : List HoldingValue)
        → map (λ h. h.now) held.now ≡ filter (λ h. h.ledger == listed.now.id) holdings
        → IsLedger (model.ledger_of numbers.now reading holdings listed.now.id listed.now.metadata) → ⊥)) }
{
    let metadata = listed.metadata();
    let reading = reading_in(metadata.state(), reading);
    let end = end_told(held);
    let fragments = fragments_of(alloc, numbers, end, metadata)?;
    let contents = contents_of(alloc, numbers, reading, held)?;
    let state = state_of(metadata.state());
    let size = metadata.size() as u64;
    let write_quorum = metadata.write_quorum() as u64;
    let ack_quorum = metadata.ack_quorum() as u64;
    let rest = rest_of(alloc, reading);
    Ok(Ledger::try_new(
        state,
        size,
        write_quorum,
        ack_quorum,
        fragments,
        contents,
        rest,
    ))
}

/// A ledger of a picture whose bookies have these numbers in the cluster, as a census counts it; none where a census can't
/// count it.
pub(crate) fn ledger_of(
    alloc: Global,
    numbers: &[u16],
    reading: Reading,
    by_ledger: &ByLedger<'_>,
    listed: &Listed,
) -> Result<Option<Ledger>, AllocError>
    ensures made { IfOk result (λ made. IfSome made (λ ledger. (holdings : List HoldingValue)
        → AreOf holdings (get nat_cmp by_ledger.now) → ledger
        ≡ model.ledger_of numbers.now reading holdings listed.now.id listed.now.metadata)) }
    ensures unfit { IfOk result (λ made. IfNone made ((holdings : List HoldingValue)
        → AreOf holdings (get nat_cmp by_ledger.now)
        → IsLedger (model.ledger_of numbers.now reading holdings listed.now.id listed.now.metadata) → ⊥)) }
{
    match by_ledger.get(&listed.id()) {
        Some(held) => ledger_with(alloc, numbers, reading, held, listed),
        None => ledger_with(alloc, numbers, reading, &[], listed),
    }
}
