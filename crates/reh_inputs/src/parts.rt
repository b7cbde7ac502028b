// What runs of inputs show, once the cluster is known: each run is one worker's.
ghost use Rattle.std.specs.Prelude.{◌≡◌, ◌⊎◌, ◌<◌, ◌≤◌, ◌+◌, ◌^◌, ◌++◌, ◌∷◌, [], All, List, ℕ, Bool, length, map, Err, IfErr, IfOk, MatchResult, OnOk};
ghost use Rattle.std.specs.List.{flat_map, list_any};
ghost use Rattle.std.specs.BTreeMap.{get};
ghost use Rattle.std.specs.Ordering.{nat_cmp};
ghost use Rattle.std.specs.Thread.{IsSync};
ghost use Rattle.reh_census.specs.Bookies.{bookies_of, holders};
ghost use Rattle.reh_census.specs.Counting.{CountsEnsembles, CountsEntries, CountsTails, count_in, entries_in};
ghost use Rattle.reh_census.specs.Ledgers.{IsLedger};
ghost use Rattle.reh_census.specs.Tails.{IsTail};
ghost use Rattle.reh_tally.specs.Few.{AreFew};
ghost use Rattle.reh_inputs.specs.ByLedger.{AreOf};
ghost use Rattle.reh_inputs.specs.Gathered as model;
ghost use Rattle.reh_inputs.specs.Inputs.{of_picture};
ghost use Rattle.reh_inputs.specs.Parts.{IsPart};
ghost use Rattle.reh_inputs.specs.Uncounted.{HasUnfit, InputHasUnfit, IsPartFault, IsTooMuch, IsUnfitAt, IsUnfitFault};
ghost use Rattle.reh_inputs.specs.declared.inputs.Input.{Input as InputValue};

use crate::by_ledger::{ByLedger, group_by_ledger};
use crate::files::{Counts, append_counts};
use crate::gathered::{GatherFault, judged_by};
use crate::inputs::Input;
use crate::ledgers::{Reading, ledger_of};
use crate::names::ClusterNames;
use crate::united::numbers_of;
use reh_census::{Bookies, Counted, Ledger};
use reh_cluster::Ledger as PicturedLedger;
use reh_picture::Listed;
use reh_tally::{
    are_few, census_of, ensembles_of, entries_of, merged, merged_ensembles, merged_tails, tails_of,
};
use std::alloc::Global;
use std::thread::{Threads, join};

/// What a run of inputs shows: the pictures' ledgers, what is counted of them, and how many of the entries rest on an
/// assumption.
#[derive(Drop)]
pub(crate) struct Part {
    pub(crate) ledgers: Vec<Ledger>,
    pub(crate) counts: Counts,
    pub(crate) assumed: u64,
}

/// Adds a ledger of an input.
fn add_ledger(
    alloc: Global,
    numbers: &[u16],
    reading: Reading,
    input: usize,
    listed: &Listed,
    held: &ByLedger<'_>,
    ledger: &PicturedLedger,
    ledgers: &mut Vec<Ledger>,
) -> Result<(), GatherFault>
    requires { AreOf listed.now.listing.holdings.items (get nat_cmp held.now) }
    ensures added { OnOk result (ledgers.new.items
        ≡ ledgers.old.items ++ model.ledger_in numbers.now reading listed.now ledger.now ∷ []) }
    ensures fault { IfErr result (IsUnfitFault (λ number id. (number ≡ input) × (id ≡ ledger.now.id)
        × (IsLedger (model.ledger_in numbers.now reading listed.now ledger.now) → ⊥))) }
{
    match ledger_of(alloc, numbers, reading, held, ledger)? {
        Some(made) => {
            ledgers.push(made)?;
            Ok(())
        }
        None => Err(GatherFault::Unfit {
            input,
            ledger: ledger.id().0,
        }),
    }
}

/// Adds the ledgers of an input whose bookies have these numbers.
fn add_ledgers(
    alloc: Global,
    numbers: &[u16],
    reading: Reading,
    input: usize,
    listed: &Listed,
    ledgers: &mut Vec<Ledger>,
) -> Result<(), GatherFault>
    ensures added { OnOk result (ledgers.new.items
        ≡ ledgers.old.items ++ map (model.ledger_in numbers.now reading listed.now) listed.now.listing.ledgers.items) }
    ensures fault { IfErr result (IsUnfitFault (λ number id. (number ≡ input) × HasUnfit numbers.now reading listed.now id)) }
{
    let held = group_by_ledger(alloc, &listed.listing.holdings)?;
    for ledger in &listed.listing.ledgers {
        add_ledger(
            alloc, numbers, reading, input, listed, &held, ledger, ledgers,
        )?;
    }
    Ok(())
}

/// Adds the ledgers of an input, if it is a picture.
fn add_ledgers_in(
    alloc: Global,
    names: &ClusterNames,
    reading: Reading,
    input: usize,
    one: &Input,
    ledgers: &mut Vec<Ledger>,
) -> Result<(), GatherFault>
    ensures added { OnOk result (ledgers.new.items
        ≡ ledgers.old.items ++ of_picture (model.ledgers_in names.now reading) one.now) }
    ensures fault { IfErr result (IsUnfitFault (λ number id. (number ≡ input) × InputHasUnfit names.now reading one.now id)) }
{
    let Input::Picture(listed) = one else {
        return Ok(());
    };
    let numbers = numbers_of(alloc, names, &listed.listing.names)?;
    add_ledgers(alloc, &numbers, reading, input, listed, ledgers)
}

/// The ledgers of the pictures among inputs, the first of which has this number.
fn ledgers_of(
    alloc: Global,
    names: &ClusterNames,
    reading: Reading,
    first: usize,
    inputs: &[Input],
) -> Result<Vec<Ledger>, GatherFault>
    requires { first + length inputs.now < 2 ^ 64 }
    ensures ledgers { IfOk result (λ ledgers. ledgers.items
        ≡ flat_map (of_picture (model.ledgers_in names.now reading)) inputs.now) }
    ensures fault { IfErr result (IsUnfitFault (IsUnfitAt names.now reading first inputs.now)) }
{
    let mut ledgers = Vec::new(alloc);
    for (input, one) in inputs.iter().enumerate() {
        add_ledgers_in(alloc, names, reading, first + input, one, &mut ledgers)?;
    }
    Ok(ledgers)
}

/// How many of the entries have a known copy.
fn count_held(entries: &[Counted]) -> u64
    requires { entries_in entries.now ≤ 2 ^ 63 }
    ensures { result ≡ count_in entries.now model.is_held }
{
    let mut held = 0;
    for counted in entries {
        if counted.class.known.as_slice().len() > 0 {
            held += counted.count;
        }
    }
    held
}

/// Whether something is assumed in a picture.
fn is_assumed_in_picture(listed: &Listed) -> bool
    ensures { result ≡ list_any (λ h. h.is_assumed) listed.now.listing.holdings.items }
{
    for holding in &listed.listing.holdings {
        if holding.is_assumed() {
            return true;
        }
    }
    false
}

/// Whether something is assumed in an input.
fn is_assumed_in(input: &Input) -> bool
    ensures { result ≡ model.is_assumed_in input.now }
{
    match input {
        Input::Picture(listed) => is_assumed_in_picture(listed),
        Input::Census(_) => false,
    }
}

/// Whether something is assumed in any of them.
fn is_assumed_in_any(inputs: &[Input]) -> bool
    ensures { result ≡ list_any model.is_assumed_in inputs.now }
{
    for input in inputs {
        if is_assumed_in(input) {
            return true;
        }
    }
    false
}

/// How many entries rest on an assumption: some bookie that may hold copies is assumed to hold them.
fn count_assumed(
    alloc: Global,
    bookies: &Bookies,
    names: &ClusterNames,
    first: usize,
    inputs: &[Input],
) -> Result<u64, GatherFault>
    requires { first + length inputs.now < 2 ^ 64 }
    ensures assumed { IfOk result (λ assumed. assumed
        ≡ model.assumed_among (holders (bookies_of bookies.now)) names.now inputs.now) }
    ensures fault { IfErr result (λ fault. (strict : Bool)
        → IsPartFault (holders (bookies_of bookies.now)) names.now strict first inputs.now fault) }
{
    if !is_assumed_in_any(inputs) {
        return Ok(0);
    }
    let ledgers = ledgers_of(alloc, names, Reading::Assumed, first, inputs)?;
    let census = census_of(alloc, bookies, &ledgers, judged_by(&ledgers, 0))?;
    Ok(count_held(census.entries()))
}

/// The same, where the question is not strict, and else none.
fn assumed_of(
    alloc: Global,
    bookies: &Bookies,
    names: &ClusterNames,
    strict: bool,
    first: usize,
    inputs: &[Input],
) -> Result<u64, GatherFault>
    requires { first + length inputs.now < 2 ^ 64 }
    ensures assumed { IfOk result (λ assumed. assumed
        ≡ model.assumed_of strict (holders (bookies_of bookies.now)) names.now inputs.now) }
    ensures fault { IfErr result (IsPartFault (holders (bookies_of bookies.now)) names.now strict first inputs.now) }
{
    if strict {
        return Ok(0);
    }
    count_assumed(alloc, bookies, names, first, inputs)
}

/// How inputs are read. With `strict`, what is assumed counts as untold.
fn reading_of(strict: bool) -> Reading
    ensures { result ≡ model.reading_of strict }
{
    if strict { Reading::Told } else { Reading::All }
}

/// What is counted of these ledgers, with what is of one kind joined.
fn counts_of(alloc: Global, bookies: &Bookies, ledgers: &[Ledger]) -> Result<Counts, GatherFault>
    ensures entries { IfOk result (λ counts. CountsEntries counts.entries.items (holders (bookies_of bookies.now)) ledgers.now) }
    ensures tails { IfOk result (λ counts. CountsTails counts.tails.items ledgers.now) }
    ensures ensembles { IfOk result (λ counts. CountsEnsembles counts.ensembles.items ledgers.now) }
    ensures well_formed { IfOk result (λ counts. All (λ t. IsTail t.tail) counts.tails.items) }
    ensures fault { IfErr result (IsTooMuch (AreFew (holders (bookies_of bookies.now)) ledgers.now)) }
{
    if !are_few(ledgers) {
        return Err(GatherFault::TooMany);
    }
    let ensembles = merged_ensembles(alloc, ensembles_of(alloc, ledgers)?)?;
    let tails = merged_tails(alloc, tails_of(alloc, ledgers)?)?;
    let entries = merged(alloc, entries_of(alloc, bookies, ledgers)?)?;
    Ok(Counts {
        entries,
        tails,
        ensembles,
    })
}

/// What a run of inputs shows, the first of which has this number.
fn part_of(
    alloc: Global,
    bookies: &Bookies,
    names: &ClusterNames,
    strict: bool,
    first: usize,
    inputs: &[Input],
) -> Result<Part, GatherFault>
    requires { first + length inputs.now < 2 ^ 64 }
    ensures { MatchResult result (IsPart (holders (bookies_of bookies.now)) names.now strict inputs.now)
        (IsPartFault (holders (bookies_of bookies.now)) names.now strict first inputs.now) }
{
    let ledgers = ledgers_of(alloc, names, reading_of(strict), first, inputs)?;
    let assumed = assumed_of(alloc, bookies, names, strict, first, inputs)?;
    let counts = counts_of(alloc, bookies, &ledgers)?;
    Ok(Part {
        ledgers,
        counts,
        assumed,
    })
}

/// What a run of inputs shows, and the one after it.
fn joined(low: Part, high: Part) -> Result<Part, GatherFault>
    ensures { (holders : List ℕ) (names : List (List ℕ)) (strict : Bool) (first : ℕ) (before behind : List InputValue)
        → IsPart holders names strict before low → IsPart holders names strict behind high
        → MatchResult result (IsPart holders names strict (before ++ behind))
        (IsPartFault holders names strict first (before ++ behind)) }
{
    let mut part = low;
    let mut more = high;
    let Some(assumed) = part.assumed.checked_add(more.assumed) else {
        return Err(GatherFault::TooMany);
    };
    part.ledgers.append(&mut more.ledgers)?;
    append_counts(&mut part.counts, &mut more.counts)?;
    part.assumed = assumed;
    Ok(part)
}

/// Which fault is told of a run that has one, and of the one after it: as for one worker, a ledger that can't be counted
/// comes before too much that is counted.
fn told_first(fault: GatherFault, high: Result<Part, GatherFault>) -> GatherFault
    ensures { (result ≡ fault) ⊎ (high ≡ Err result) }
{
    let Err(other) = high else {
        return fault;
    };
    match fault {
        GatherFault::TooMany => other,
        _ => fault,
    }
}

/// The same, or why there is none.
fn both(
    low: Result<Part, GatherFault>,
    high: Result<Part, GatherFault>,
) -> Result<Part, GatherFault>
    ensures { (holders : List ℕ) (names : List (List ℕ)) (strict : Bool) (first next : ℕ) (before behind : List InputValue)
        → next ≡ first + length before
        → MatchResult low (IsPart holders names strict before) (IsPartFault holders names strict first before)
        → MatchResult high (IsPart holders names strict behind) (IsPartFault holders names strict next behind)
        → MatchResult result (IsPart holders names strict (before ++ behind))
        (IsPartFault holders names strict first (before ++ behind)) }
{
    match (low, high) {
        (Ok(low), Ok(high)) => joined(low, high),
        (Ok(_), Err(fault)) => Err(fault),
        (Err(fault), high) => Err(told_first(fault, high)),
    }
}

/// What inputs show, the first of which has this number: by so many workers, each of whom takes a run of them. The last
/// one is the caller's own thread.
#[cycle(parts)]
pub(crate) fn parts_of<R: Threads + Sync>(
    rt: &R,
    alloc: Global,
    bookies: &Bookies,
    names: &ClusterNames,
    strict: bool,
    first: usize,
    inputs: &[Input],
    workers: usize,
) -> Result<Part, GatherFault>
    requires { first + length inputs.now < 2 ^ 64 }
    ensures { MatchResult result (IsPart (holders (bookies_of bookies.now)) names.now strict inputs.now)
        (IsPartFault (holders (bookies_of bookies.now)) names.now strict first inputs.now) }
{
    if workers < 2 {
        return part_of(alloc, bookies, names, strict, first, inputs);
    }
    let others = workers / 2;
    let own = workers - others;
    let middle = (inputs.len() / workers)
        .saturating_mul(others)
        .min(inputs.len());
    let (before, behind) = inputs.split_at(middle);
    let next = first + middle;
    let front = || -> Result<Part, GatherFault>
        requires { IsSync R.row × (first + length before.now < 2 ^ 64) }
        ensures { MatchResult result (IsPart (holders (bookies_of bookies.entry.now)) names.entry.now strict before.entry.now)
            (IsPartFault (holders (bookies_of bookies.entry.now)) names.entry.now strict first before.entry.now) }
    { parts_of(rt, alloc, bookies, names, strict, first, before, others) };
    let back = || -> Result<Part, GatherFault>
        requires { IsSync R.row × (next + length behind.now < 2 ^ 64) }
        ensures { MatchResult result (IsPart (holders (bookies_of bookies.entry.now)) names.entry.now strict behind.entry.now)
            (IsPartFault (holders (bookies_of bookies.entry.now)) names.entry.now strict next behind.entry.now) }
    { parts_of(rt, alloc, bookies, names, strict, next, behind, own) };
    let (low, high) = join(rt, front, back);
    both(low, high)
}

/// Lets go of inputs, by so many workers.
#[cycle(drops)]
pub fn let_go<R: Threads + Sync>(rt: &R, inputs: Vec<Input>, workers: usize) {
    if workers < 2 {
        return;
    }
    let mut low = inputs;
    let others = workers / 2;
    let own = workers - others;
    let middle = (low.len() / workers).saturating_mul(others).min(low.len());
    let Ok(high) = low.split_off(middle) else {
        return;
    };
    let front = move ||
        requires { IsSync R.row }
    { let_go(rt, low, others) };
    let back = move ||
        requires { IsSync R.row }
    { let_go(rt, high, own) };
    join(rt, front, back);
}
