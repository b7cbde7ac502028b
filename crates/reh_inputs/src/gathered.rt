// What inputs show together, as a census counts it.
ghost use Rattle.std.specs.Prelude.{◌≡◌, ◌+◌, ◌++◌, All, Bool, List, ℕ, None, Some, fold, length, nat_eq, slice_get, take, IfErr, IfOk, OnOk};
ghost use Rattle.std.specs.List.{flat_map, IsDistinct};
ghost use Rattle.std.specs.Option.{IsSomeAnd};
ghost use Rattle.reh_census.specs.declared.censuses.Tail.{Tail as TailValue};
ghost use Rattle.reh_census.specs.declared.classes.Class.{Class as ClassValue};
ghost use Rattle.reh_census.specs.Counting.{count_ensembles_in, count_in, count_tails_in, judged_sum};
ghost use Rattle.reh_census.specs.Order.{IsInOrder};
ghost use Rattle.reh_census.specs.Tails.{IsTail};
ghost use Rattle.reh_inputs.specs.Cluster.{bookies_of};
ghost use Rattle.reh_inputs.specs.Empties.{EmptiesHoldNothing};
ghost use Rattle.reh_inputs.specs.Faults.{IsGatherFault, IsUniteFault};
ghost use Rattle.reh_inputs.specs.Gathered as model;
ghost use Rattle.reh_inputs.specs.Inputs.{of_picture};
ghost use Rattle.reh_inputs.specs.Renumbered.{files_of, judged_by, with_judged};
ghost use Rattle.reh_inputs.specs.Uncounted.{AreFewTogether, AreFewWith, IsFewJudged, IsIdFault, IsTooMuch};
ghost use Rattle.reh_inputs.specs.United.{AreAlike, united};
ghost use Rattle.reh_inputs.specs.declared.inputs.Input.{Input as InputValue};

use crate::apart::{add_ids, ids_of};
use crate::cluster::{Cluster, ClusterFault};
use crate::empties::{EmptyHolds, check_empties};
use crate::files::{Counts, add_files, judged_in, judged_of};
use crate::inputs::Input;
use crate::names::ClusterNames;
use crate::parts::{Part, parts_of};
use crate::together::Gathered;
use crate::united::{UniteFault, unite};
use indexmap::IndexSet;
use reh_census::{Bookies, Census, Judged, Ledger};
use reh_cluster::Ledger as PicturedLedger;
use reh_tally::{TallyFault, census_of_counts};
use std::alloc::{AllocError, AllocFailed, Global};
use std::thread::Threads;

/// Why inputs can't be judged together.
#[derive(Clone, Copy)]
pub enum GatherFault {
    /// This bookie of this input is shown otherwise by an input before.
    Differs { input: usize, bookie: usize },
    /// With this bookie of this input the cluster has more bookies than it can have.
    TooManyBookies { input: usize, bookie: usize },
    /// This input shows this bookie as empty, and says that it holds entries of this ledger.
    HoldsThoughEmpty { input: usize, held: EmptyHolds },
    /// This ledger of this input stands in an input before, too: a picture that was read has none of them twice.
    Twice { input: usize, ledger: u64 },
    /// This ledger of this input can't be counted.
    Unfit { input: usize, ledger: u64 },
    /// This input is a census that was made with `--strict`, and is to be one without, or the other way round.
    OtherStrict { input: usize },
    /// There are more entries, ledgers or fragments than a census counts.
    TooMany,
    /// Out of memory.
    NoMemory,
}

impl From<AllocError> for GatherFault {
    ghost use Rattle.std.specs.Prelude.{◌≡◌};
    ghost use Rattle.reh_inputs.specs.declared.gathered.GatherFault.TheVariants.{NoMemory};

    ghost from_gives = { λ _ fault. fault ≡ NoMemory };

    fn from(_want: AllocError) -> GatherFault {
        GatherFault::NoMemory
    }
}

impl<T: Drop> From<AllocFailed<T>> for GatherFault {
    ghost use Rattle.std.specs.Prelude.{◌≡◌};
    ghost use Rattle.reh_inputs.specs.declared.gathered.GatherFault.TheVariants.{NoMemory};

    ghost from_gives = { λ _ fault. fault ≡ NoMemory };

    fn from(want: AllocFailed<T>) -> GatherFault {
        GatherFault::from(AllocError::from(want))
    }
}

impl From<TallyFault> for GatherFault {
    ghost use Rattle.std.specs.Prelude.{◌≡◌};
    ghost use Rattle.reh_inputs.specs.Gathered.{fault_of_tally};

    ghost from_gives = { λ tally fault. fault ≡ fault_of_tally tally };

    fn from(fault: TallyFault) -> GatherFault {
        match fault {
            TallyFault::TooMany => GatherFault::TooMany,
            TallyFault::NoMemory => GatherFault::NoMemory,
        }
    }
}

/// The fault of an input whose bookie can't be one of the cluster.
fn bookie_fault(input: usize, fault: UniteFault) -> GatherFault
    ensures { (inputs : List InputValue) (strict : Bool)
        → IsSomeAnd (slice_get inputs input) (λ one. IsUniteFault (united (take input inputs)) one fault.bookie fault.fault)
        → IsGatherFault inputs strict result }
{
    let bookie = fault.bookie;
    match fault.fault {
        ClusterFault::Differs => GatherFault::Differs { input, bookie },
        ClusterFault::TooMany => GatherFault::TooManyBookies { input, bookie },
        ClusterFault::NoMemory => GatherFault::NoMemory,
    }
}

/// Whether the input is a census that was made otherwise.
fn is_other(input: &Input, strict: bool) -> bool
    ensures { result ≡ model.is_other strict input.now }
{
    match input {
        Input::Picture(_) => false,
        Input::Census(census) => census.is_strict() != strict,
    }
}

/// That each census among the inputs was made with `--strict`, or each without, as is asked.
fn check_strict(inputs: &[Input], strict: bool) -> Result<(), GatherFault>
    ensures alike { OnOk result (model.first_other strict inputs.now ≡ None) }
    ensures fault { IfErr result (IsGatherFault inputs.now strict) }
{
    for (input, one) in inputs.iter().enumerate() {
        if is_other(one, strict) {
            return Err(GatherFault::OtherStrict { input });
        }
    }
    Ok(())
}

/// The cluster of the inputs.
fn cluster_of(alloc: Global, inputs: &[Input]) -> Result<Cluster, GatherFault>
    ensures united { IfOk result (λ cluster. cluster ≡ united inputs.now) }
    ensures agree { IfOk result (λ cluster. All (AreAlike cluster) inputs.now) }
    ensures fault { IfErr result (λ fault. (strict : Bool) → IsGatherFault inputs.now strict fault) }
{
    let mut cluster = Cluster::new(alloc);
    for (input, one) in inputs.iter().enumerate() {
        match unite(alloc, &mut cluster, one) {
            Ok(()) => {}
            Err(fault) => return Err(bookie_fault(input, fault)),
        }
    }
    Ok(cluster)
}

/// That no empty bookie of an input is said to hold entries.
fn check_input(input: usize, one: &Input) -> Result<(), GatherFault>
    ensures nothing { OnOk result (EmptiesHoldNothing one.now) }
    ensures fault { IfErr result (λ fault. (inputs : List InputValue) (strict : Bool)
        → slice_get inputs input ≡ Some one.now → IsGatherFault inputs strict fault) }
{
    let Input::Picture(listed) = one else {
        return Ok(());
    };
    match check_empties(listed) {
        Ok(()) => Ok(()),
        Err(held) => Err(GatherFault::HoldsThoughEmpty { input, held }),
    }
}

/// The same of all inputs.
fn check_inputs(inputs: &[Input]) -> Result<(), GatherFault>
    ensures nothing { OnOk result (All EmptiesHoldNothing inputs.now) }
    ensures fault { IfErr result (λ fault. (strict : Bool) → IsGatherFault inputs.now strict fault) }
{
    for (input, one) in inputs.iter().enumerate() {
        match check_input(input, one) {
            Ok(()) => {}
            Err(fault) => return Err(fault),
        }
    }
    Ok(())
}

/// Adds the ids of an input's ledgers. After an `Err` some of them may be there.
fn add_ids_of(
    alloc: Global,
    ids: &mut IndexSet<u64>,
    input: usize,
    one: &Input,
) -> Result<(), GatherFault>
    ensures added { OnOk result (ids.new.keys ≡ ids.old.keys ++ of_picture model.ids_in one.now) }
    ensures fault { IfErr result (IsIdFault input ids.old.keys (of_picture model.ids_in one.now)) }
{
    let more = ids_of(alloc, one)?;
    add_ids(ids, input, &more)
}

/// The ids of the pictures' ledgers, each once.
fn each_id(alloc: Global, inputs: &[Input]) -> Result<Vec<u64>, GatherFault>
    ensures ids { IfOk result (λ ids. ids.items ≡ flat_map (of_picture model.ids_in) inputs.now) }
    ensures each_once { IfOk result (λ ids. IsDistinct nat_eq ids.items) }
    ensures fault { IfErr result (λ fault. (strict : Bool) → IsGatherFault inputs.now strict fault) }
{
    let mut ids = IndexSet::new(alloc);
    for (input, one) in inputs.iter().enumerate() {
        add_ids_of(alloc, &mut ids, input, one)?;
    }
    let each = Vec::from_slice(alloc, ids.as_slice())?;
    Ok(each)
}

/// What was judged of these ledgers.
pub(crate) fn judged_by(ledgers: &[Ledger], assumed: u64) -> Judged
    ensures { result ≡ judged_by (length ledgers.now) assumed }
{
    Judged {
        ledgers: ledgers.len() as u64,
        assumed,
        unread: 0,
        missing: 0,
    }
}

/// What was judged of the pictures and of the census files.
fn judged_with(own: Judged, inputs: &[Input]) -> Result<Judged, GatherFault>
    ensures sum { IfOk result (λ judged. judged
        ≡ judged_sum own (fold with_judged (judged_by 0 0) inputs.now)) }
    ensures few { IfOk result IsFewJudged }
    ensures fault { IfErr result (IsTooMuch (IsFewJudged (judged_sum own (fold with_judged (judged_by 0 0) inputs.now)))) }
{
    let Some(files) = judged_of(inputs) else {
        return Err(GatherFault::TooMany);
    };
    match judged_in(own, files) {
        Some(judged) => Ok(judged),
        None => Err(GatherFault::TooMany),
    }
}

/// The census of what was counted of the pictures' ledgers, and of what the census files among the inputs count.
fn census_with(
    alloc: Global,
    names: &ClusterNames,
    own: Counts,
    judged: Judged,
    inputs: &[Input],
) -> Result<Census, GatherFault>
    requires { All (λ t. IsTail t.tail) own.tails.items }
    ensures entries { IfOk result (λ census. (test : ClassValue → Bool) → count_in census.entries test
        ≡ count_in own.entries.items test + count_in (files_of names.now inputs.now).entries test) }
    ensures tails { IfOk result (λ census. (test : TailValue → Bool) → count_tails_in census.tails test
        ≡ count_tails_in own.tails.items test + count_tails_in (files_of names.now inputs.now).tails test) }
    ensures ensembles { IfOk result (λ census. (test : List ℕ → Bool) → count_ensembles_in census.ensembles test
        ≡ count_ensembles_in own.ensembles.items test + count_ensembles_in (files_of names.now inputs.now).ensembles test) }
    ensures order { IfOk result (λ census. IsInOrder census) }
    ensures judged { IfOk result (λ census. census.judged ≡ judged_sum judged (files_of names.now inputs.now).judged) }
    ensures few { OnOk result (AreFewWith own.entries.items own.tails.items own.ensembles.items judged
        (files_of names.now inputs.now)) }
    ensures fault { IfErr result (IsTooMuch (AreFewWith own.entries.items own.tails.items own.ensembles.items judged
        (files_of names.now inputs.now))) }
{
    let judged = judged_with(judged, inputs)?;
    let mut counts = own;
    add_files(alloc, names, inputs, &mut counts)?;
    let Counts {
        entries,
        tails,
        ensembles,
    } = counts;
    let census = census_of_counts(alloc, entries, tails, ensembles, judged)?;
    Ok(census)
}

/// The cluster of the inputs, each census of which was made as is asked. No empty bookie is said to hold entries.
fn checked_cluster(alloc: Global, inputs: &[Input], strict: bool) -> Result<Cluster, GatherFault>
    ensures alike { OnOk result (model.first_other strict inputs.now ≡ None) }
    ensures united { IfOk result (λ cluster. cluster ≡ united inputs.now) }
    ensures agree { IfOk result (λ cluster. All (AreAlike cluster) inputs.now) }
    ensures nothing { OnOk result (All EmptiesHoldNothing inputs.now) }
    ensures fault { IfErr result (IsGatherFault inputs.now strict) }
{
    check_strict(inputs, strict)?;
    let cluster = cluster_of(alloc, inputs)?;
    check_inputs(inputs)?;
    Ok(cluster)
}

/// The ledgers of the pictures, and the census of all inputs, by so many workers.
fn census_in<R: Threads + Sync>(
    rt: &R,
    alloc: Global,
    bookies: &Bookies,
    names: &ClusterNames,
    inputs: &[Input],
    strict: bool,
    workers: usize,
) -> Result<(Vec<Ledger>, Census), GatherFault>
    requires bookies { bookies.now ≡ bookies_of (united inputs.now) }
    requires names { names.now ≡ (united inputs.now).names }
    ensures ledgers { IfOk result (λ made. made.0.items ≡ model.ledgers_of (model.reading_of strict) inputs.now) }
    ensures counts { IfOk result (λ made. model.AddsUp made.1 (model.holders_of inputs.now)
        (model.ledgers_of (model.reading_of strict) inputs.now) (files_of (united inputs.now).names inputs.now)) }
    ensures order { IfOk result (λ made. IsInOrder made.1) }
    ensures judged { IfOk result (λ made. made.1.judged
        ≡ judged_sum
        (judged_by (length (model.ledgers_of (model.reading_of strict) inputs.now))
        (model.assumed_of strict (model.holders_of inputs.now) (united inputs.now).names inputs.now))
        (files_of (united inputs.now).names inputs.now).judged) }
    ensures few { OnOk result (AreFewTogether inputs.now strict) }
    ensures fault { IfErr result (IsGatherFault inputs.now strict) }
{
    let workers = workers.min(inputs.len());
    let part = parts_of(rt, alloc, bookies, names, strict, 0, inputs, workers)?;
    let Part {
        ledgers,
        counts,
        assumed,
    } = part;
    let judged = judged_by(&ledgers, assumed);
    let census = census_with(alloc, names, counts, judged, inputs)?;
    Ok((ledgers, census))
}

/// What inputs show together, found out by so many workers: for each number of them it is the same. With `strict`, what is
/// assumed counts as untold.
pub fn gather<R: Threads + Sync>(
    rt: &R,
    alloc: Global,
    inputs: &[Input],
    strict: bool,
    workers: usize,
) -> Result<Gathered, GatherFault>
    ensures gathers { IfOk result (λ gathered. model.Gathers inputs.now strict gathered) }
    ensures empties { OnOk result (All EmptiesHoldNothing inputs.now) }
    ensures few { OnOk result (AreFewTogether inputs.now strict) }
    ensures fault { IfErr result (IsGatherFault inputs.now strict) }
{
    let cluster = checked_cluster(alloc, inputs, strict)?;
    let bookies = cluster.bookies(alloc)?;
    let ids = each_id(alloc, inputs)?;
    let (ledgers, census) = census_in(
        rt,
        alloc,
        &bookies,
        cluster.names(),
        inputs,
        strict,
        workers,
    )?;
    Ok(Gathered {
        cluster,
        bookies,
        ids,
        ledgers,
        census,
    })
}
