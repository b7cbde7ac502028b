// What census files count, with the numbers that their bookies have in the cluster.
ghost use Rattle.std.specs.Prelude.{◌≡◌, ◌<◌, ◌≤◌, ◌^◌, ◌++◌, ◌+◌, All, IfNone, IfOk, IfSome, OnOk, fold, map, slice_get};
ghost use Rattle.std.specs.Option.{option_map_or};
ghost use Rattle.reh_census.specs.Counting.{judged_sum};
ghost use Rattle.reh_census.specs.Tails.{IsTail};
ghost use Rattle.reh_census_file.specs.declared.lists.TheConstants.{MAX_NAMES};
ghost use Rattle.reh_inputs.specs.Inputs.{of_census};
ghost use Rattle.reh_inputs.specs.Ledgers.{number_in};
ghost use Rattle.reh_inputs.specs.Renumbered as model;
ghost use Rattle.reh_inputs.specs.Uncounted.{IsFewJudged};
ghost use Rattle.reh_inputs.specs.United.{number_of};

use crate::inputs::Input;
use crate::names::ClusterNames;
use reh_census::{Census, Class, Counted, CountedEnsemble, CountedTail, Judged, Names, Tail};
use reh_census_file::{MAX_COUNT, MAX_NAMES, NameList, NamedCensus};
use std::alloc::{AllocError, Global};

/// Entries, ledgers that aren't closed, and fragments, counted in no order.
#[derive(Drop)]
pub(crate) struct Counts {
    pub entries: Vec<Counted>,
    pub tails: Vec<CountedTail>,
    pub ensembles: Vec<CountedEnsemble>,
}

/// The number that a bookie of a census has in the cluster.
fn number_by(numbers: &[u16], bookie: u16) -> u16
    ensures { result ≡ number_in numbers.now bookie }
{
    match numbers.get(bookie as usize) {
        Some(number) => *number,
        None => u16::MAX,
    }
}

/// Bookies of a census, by their numbers in the cluster.
fn renumbered(alloc: Global, numbers: &[u16], bookies: &Names) -> Result<Names, AllocError>
    ensures { IfOk result (λ made. made ≡ model.renumbered numbers.now bookies.now) }
{
    let listed = bookies.as_slice();
    let mut made = Vec::new(alloc);
    for bookie in listed {
        made.push(number_by(numbers, *bookie))?;
    }
    Ok(Names::of(made))
}

/// Entries that a census counts.
fn counted_by(alloc: Global, numbers: &[u16], counted: &Counted) -> Result<Counted, AllocError>
    ensures { IfOk result (λ made. made ≡ model.counted_by numbers.now counted.now) }
{
    let known = renumbered(alloc, numbers, &counted.class.known)?;
    let untold = renumbered(alloc, numbers, &counted.class.untold)?;
    let class = Class {
        known,
        untold,
        ack_quorum: counted.class.ack_quorum,
        write_quorum: counted.class.write_quorum,
    };
    Ok(Counted {
        class,
        count: counted.count,
    })
}

/// Ledgers of a tail that a census counts.
fn counted_tail_by(
    alloc: Global,
    numbers: &[u16],
    counted: &CountedTail,
) -> Result<CountedTail, AllocError>
    ensures { IfOk result (λ made. made ≡ model.counted_tail_by numbers.now counted.now) }
{
    let ensemble = renumbered(alloc, numbers, &counted.tail.ensemble)?;
    let tail = Tail {
        size: counted.tail.size,
        write_quorum: counted.tail.write_quorum,
        ack_quorum: counted.tail.ack_quorum,
        is_open: counted.tail.is_open,
        ensemble,
    };
    Ok(CountedTail {
        tail,
        count: counted.count,
    })
}

/// Fragments of an ensemble that a census counts.
fn counted_ensemble_by(
    alloc: Global,
    numbers: &[u16],
    counted: &CountedEnsemble,
) -> Result<CountedEnsemble, AllocError>
    ensures { IfOk result (λ made. made ≡ model.counted_ensemble_by numbers.now counted.now) }
{
    let members = renumbered(alloc, numbers, &counted.members)?;
    Ok(CountedEnsemble {
        members,
        count: counted.count,
    })
}

/// Adds the entries that a census counts.
fn add_entries(
    alloc: Global,
    numbers: &[u16],
    counted: &[Counted],
    entries: &mut Vec<Counted>,
) -> Result<(), AllocError>
    ensures { OnOk result (entries.new.items
        ≡ entries.old.items ++ map (model.counted_by numbers.now) counted.now) }
{
    for one in counted {
        entries.push(counted_by(alloc, numbers, one)?)?;
    }
    Ok(())
}

/// Adds the tails that a census counts.
fn add_tails(
    alloc: Global,
    numbers: &[u16],
    counted: &[CountedTail],
    tails: &mut Vec<CountedTail>,
) -> Result<(), AllocError>
    ensures { OnOk result (tails.new.items
        ≡ tails.old.items ++ map (model.counted_tail_by numbers.now) counted.now) }
{
    for one in counted {
        tails.push(counted_tail_by(alloc, numbers, one)?)?;
    }
    Ok(())
}

/// Adds the ensembles that a census counts.
fn add_ensembles(
    alloc: Global,
    numbers: &[u16],
    counted: &[CountedEnsemble],
    ensembles: &mut Vec<CountedEnsemble>,
) -> Result<(), AllocError>
    ensures { OnOk result (ensembles.new.items
        ≡ ensembles.old.items ++ map (model.counted_ensemble_by numbers.now) counted.now) }
{
    for one in counted {
        ensembles.push(counted_ensemble_by(alloc, numbers, one)?)?;
    }
    Ok(())
}

/// The number of the bookie of that number in a census.
fn number_at(names: &ClusterNames, named: &NameList, bookie: usize) -> u16
    requires { bookie < MAX_NAMES }
    ensures { result ≡ option_map_or (number_of names.now) (slice_get named.now bookie) 65535 }
{
    match named.name(bookie as u16) {
        Some(name) => names.find(name).unwrap_or(u16::MAX),
        None => u16::MAX,
    }
}

/// The number of each bookie of a census in the cluster.
fn numbers_in(alloc: Global, names: &ClusterNames, named: &NameList) -> Result<Vec<u16>, AllocError>
    ensures { IfOk result (λ numbers. numbers.items ≡ map (number_of names.now) named.now) }
{
    let mut numbers = Vec::new(alloc);
    for bookie in 0..named.len() {
        numbers.push(number_at(names, named, bookie))?;
    }
    Ok(numbers)
}

/// Adds what a census counts.
fn add_census(
    alloc: Global,
    names: &ClusterNames,
    census: &NamedCensus,
    counts: &mut Counts,
) -> Result<(), AllocError>
    ensures entries { OnOk result (counts.new.entries.items
        ≡ counts.old.entries.items ++ model.entries_in names.now census.now) }
    ensures tails { OnOk result (counts.new.tails.items
        ≡ counts.old.tails.items ++ model.tails_in names.now census.now) }
    ensures ensembles { OnOk result (counts.new.ensembles.items
        ≡ counts.old.ensembles.items ++ model.ensembles_in names.now census.now) }
    ensures well_formed { OnOk result (All (λ t. IsTail t.tail) counts.old.tails.items
        → All (λ t. IsTail t.tail) counts.new.tails.items) }
{
    let numbers = numbers_in(alloc, names, census.names())?;
    let counted = census.census();
    add_entries(alloc, &numbers, counted.entries(), &mut counts.entries)?;
    add_tails(alloc, &numbers, counted.tails(), &mut counts.tails)?;
    add_ensembles(alloc, &numbers, counted.ensembles(), &mut counts.ensembles)
}

/// Adds what an input counts, if it is a census file.
fn add_file(
    alloc: Global,
    names: &ClusterNames,
    input: &Input,
    counts: &mut Counts,
) -> Result<(), AllocError>
    ensures entries { OnOk result (counts.new.entries.items
        ≡ counts.old.entries.items ++ of_census (model.entries_in names.now) input.now) }
    ensures tails { OnOk result (counts.new.tails.items
        ≡ counts.old.tails.items ++ of_census (model.tails_in names.now) input.now) }
    ensures ensembles { OnOk result (counts.new.ensembles.items
        ≡ counts.old.ensembles.items ++ of_census (model.ensembles_in names.now) input.now) }
    ensures well_formed { OnOk result (All (λ t. IsTail t.tail) counts.old.tails.items
        → All (λ t. IsTail t.tail) counts.new.tails.items) }
{
    match input {
        Input::Picture(_) => Ok(()),
        Input::Census(census) => add_census(alloc, names, census, counts),
    }
}

/// Adds what the census files among inputs count.
pub(crate) fn add_files(
    alloc: Global,
    names: &ClusterNames,
    inputs: &[Input],
    counts: &mut Counts,
) -> Result<(), AllocError>
    requires { All (λ t. IsTail t.tail) counts.old.tails.items }
    ensures entries { OnOk result (counts.new.entries.items
        ≡ counts.old.entries.items ++ (model.files_of names.now inputs.now).entries) }
    ensures tails { OnOk result (counts.new.tails.items
        ≡ counts.old.tails.items ++ (model.files_of names.now inputs.now).tails) }
    ensures ensembles { OnOk result (counts.new.ensembles.items
        ≡ counts.old.ensembles.items ++ (model.files_of names.now inputs.now).ensembles) }
    ensures well_formed { OnOk result (All (λ t. IsTail t.tail) counts.new.tails.items) }
{
    for input in inputs {
        add_file(alloc, names, input, counts)?;
    }
    Ok(())
}

/// Moves counts after others.
pub(crate) fn append_counts(counts: &mut Counts, more: &mut Counts) -> Result<(), AllocError>
    ensures entries { OnOk result (counts.new.entries.items ≡ counts.old.entries.items ++ more.old.entries.items) }
    ensures tails { OnOk result (counts.new.tails.items ≡ counts.old.tails.items ++ more.old.tails.items) }
    ensures ensembles { OnOk result (counts.new.ensembles.items ≡ counts.old.ensembles.items ++ more.old.ensembles.items) }
{
    counts.entries.append(&mut more.entries)?;
    counts.tails.append(&mut more.tails)?;
    counts.ensembles.append(&mut more.ensembles)
}

/// The sum, if a census counts so much.
fn sum_of(one: u64, other: u64) -> Option<u64>
    ensures sum { IfSome result (λ sum. (sum ≡ one + other) × (sum ≤ 2 ^ 63)) }
    ensures too_many { IfNone result (2 ^ 63 < one + other) }
{
    let sum = one.checked_add(other)?;
    if sum > MAX_COUNT {
        return None;
    }
    Some(sum)
}

/// What was judged in two parts, if a census counts so much.
pub(crate) fn judged_in(one: Judged, other: Judged) -> Option<Judged>
    ensures sum { IfSome result (λ sum. sum ≡ judged_sum one other) }
    ensures few { IfSome result IsFewJudged }
    ensures too_many { IfNone result (IsFewJudged (judged_sum one other) → ⊥) }
{
    let ledgers = sum_of(one.ledgers, other.ledgers)?;
    let assumed = sum_of(one.assumed, other.assumed)?;
    let unread = sum_of(one.unread, other.unread)?;
    let missing = sum_of(one.missing, other.missing)?;
    let _not_judged = sum_of(unread, missing)?;
    Some(Judged {
        ledgers,
        assumed,
        unread,
        missing,
    })
}

/// What was judged, with what an input judged if it is a census file.
fn with_judged(judged: Judged, input: &Input) -> Option<Judged>
    ensures sum { IfSome result (λ sum. sum ≡ model.with_judged judged input.now) }
    ensures too_many { IfNone result (IsFewJudged (model.with_judged judged input.now) → ⊥) }
{
    match input {
        Input::Picture(_) => Some(judged),
        Input::Census(census) => judged_in(judged, census.census().judged()),
    }
}

/// What the census files among inputs judged, if a census counts so much.
pub(crate) fn judged_of(inputs: &[Input]) -> Option<Judged>
    ensures sum { IfSome result (λ judged. judged ≡ fold model.with_judged (model.judged_by 0 0) inputs.now) }
    ensures too_many { IfNone result (IsFewJudged (fold model.with_judged (model.judged_by 0 0) inputs.now) → ⊥) }
{
    let mut judged = Judged {
        ledgers: 0,
        assumed: 0,
        unread: 0,
        missing: 0,
    };
    for input in inputs {
        judged = with_judged(judged, input)?;
    }
    Some(judged)
}
