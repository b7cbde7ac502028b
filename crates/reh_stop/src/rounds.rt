// In which rounds bookies may be stopped, and what the next losses cost.
ghost use Rattle.std.specs.Prelude.{◌≡◌, ◌≤◌, filter, length, map, string_bytes, true, IfErr, IfOk, OnOk};
ghost use Rattle.std.specs.List.Sorted.{IsPermutation};
ghost use Rattle.reh_census.specs.Copies.{is_in};
ghost use Rattle.reh_census.specs.Striping.{range};
ghost use Rattle.reh_waves.specs.Json.{ArePrintable};
ghost use Rattle.reh_stop.specs.Rounds as model;

use reh_census::Question;
use reh_inputs::{Cluster, Gathered};
use reh_waves::{
    Risk, Waves, are_printable, order_by_name, risk_json, risk_of, risk_text, waves_json, waves_of,
    waves_text,
};
use std::alloc::{AllocError, Global};

/// What is asked: rounds of bookies, or of those of one rack each; and whether the answer is to be JSON.
#[derive(Clone, Copy)]
pub struct AskedWaves {
    pub question: Question,
    pub by_rack: bool,
    pub as_json: bool,
}

/// What is asked: what the loss of each bookie and each rack costs, and of each two bookies; and whether the answer is to be
/// JSON.
#[derive(Clone, Copy)]
pub struct AskedRisk {
    pub question: Question,
    pub with_pairs: bool,
    pub as_json: bool,
}

/// Why nothing is said.
#[derive(Clone, Copy)]
pub enum RoundFault {
    /// A name has a byte that can't be printed.
    Unprintable,
    /// Out of memory.
    NoMemory,
}

impl From<AllocError> for RoundFault {
    ghost use Rattle.std.specs.Prelude.{◌≡◌};
    ghost use Rattle.reh_stop.specs.declared.rounds.RoundFault.TheVariants.{NoMemory};

    ghost from_gives = { λ _ fault. fault ≡ NoMemory };

    fn from(_want: AllocError) -> RoundFault {
        RoundFault::NoMemory
    }
}

/// The names of a cluster's bookies, of which there are not too many to be put in order.
fn names_of(cluster: &Cluster) -> &[String]
    ensures names { map string_bytes result.now ≡ cluster.now.names }
    ensures few { length result.now ≤ 4096 }
    ensures each { length result.now ≡ length cluster.now.shown }
{
    let names = cluster.names();
    let _few = names.len();
    let _each = cluster.shown();
    names.as_slice()
}

/// That each name stands in JSON as it is.
fn check_names(names: &[String]) -> Result<(), RoundFault>
    ensures ok { OnOk result (ArePrintable names.now) }
    ensures fault { IfErr result (model.IsUnprintable true (ArePrintable names.now)) }
{
    if are_printable(names) {
        Ok(())
    } else {
        Err(RoundFault::Unprintable)
    }
}

/// The rounds, by what inputs show together.
fn rounds_of(alloc: Global, gathered: &Gathered, asked: &AskedWaves) -> Result<Waves, AllocError>
    requires { length gathered.now.bookies ≡ length gathered.now.cluster.shown }
    ensures { IfOk result (λ waves. model.AreRounds gathered.now asked.now waves) }
{
    let order = order_by_name(alloc, names_of(&gathered.cluster))?;
    let waves = waves_of(
        alloc,
        &gathered.census,
        &gathered.bookies,
        &asked.question,
        &order,
        asked.by_rack,
    )?;
    Ok(waves)
}

/// The rounds as text, or as JSON.
fn say_rounds(
    alloc: Global,
    names: &[String],
    waves: &Waves,
    as_json: bool,
) -> Result<String, RoundFault>
    ensures text { IfOk result (λ text. string_bytes text ≡ model.waves_by as_json names.now waves.now) }
    ensures printable { OnOk result (as_json ≡ true → ArePrintable names.now) }
    ensures fault { IfErr result (model.IsUnprintable as_json (ArePrintable names.now)) }
{
    if as_json {
        check_names(names)?;
        let text = waves_json(alloc, names, waves)?;
        return Ok(text);
    }
    let text = waves_text(alloc, names, waves)?;
    Ok(text)
}

/// In which rounds bookies may be stopped, by what inputs show together.
pub fn answer_waves(
    alloc: Global,
    gathered: &Gathered,
    asked: &AskedWaves,
) -> Result<String, RoundFault>
    requires { length gathered.now.bookies ≡ length gathered.now.cluster.shown }
    ensures said { IfOk result (λ text. model.SaysRounds gathered.now asked.now text) }
    ensures fault { IfErr result (model.AreUnsaid gathered.now asked.now) }
{
    let waves = rounds_of(alloc, gathered, asked)?;
    let names = names_of(&gathered.cluster);
    let text = say_rounds(alloc, names, &waves, asked.as_json)?;
    Ok(text)
}

/// Whether the number is one of these.
fn is_among(numbers: &[u16], number: u16) -> bool
    ensures { result ≡ is_in numbers.now number }
{
    numbers.iter().any(|one| *one == number)
}

/// The numbers that are among these, in this order.
fn in_order(alloc: Global, order: &[u16], numbers: &[u16]) -> Result<Vec<u16>, AllocError>
    ensures { IfOk result (λ sorted. sorted.items ≡ filter (is_in numbers.now) order.now) }
{
    order
        .iter()
        .copied()
        .filter(|number| is_among(numbers, *number))
        .collect(alloc)
}

/// The racks in the order of their names, where the racks of the bookies have these names.
fn racks_in_order(
    alloc: Global,
    cluster: &Cluster,
    names: &[String],
) -> Result<Vec<u16>, AllocError>
    requires { length names.now ≤ 4096 }
    ensures { IfOk result (λ racks. model.AreRacks cluster.now names.now racks.items) }
{
    let order = order_by_name(alloc, names)?;
    let numbers = cluster.rack_numbers(alloc)?;
    let racks = in_order(alloc, &order, &numbers)?;
    Ok(racks)
}

/// What the next losses cost, by what inputs show together: bookies and racks in these orders, where losses are alike.
fn cost_of(
    alloc: Global,
    gathered: &Gathered,
    asked: &AskedRisk,
    order: &[u16],
    racks: &[u16],
) -> Result<Risk, AllocError>
    requires { IsPermutation (range 0 (length gathered.now.bookies)) order.now }
    ensures { IfOk result (λ risk. model.IsCost gathered.now asked.now order.now racks.now risk) }
{
    let risk = risk_of(
        alloc,
        &gathered.census,
        &gathered.bookies,
        &asked.question,
        order,
        racks,
        asked.with_pairs,
    )?;
    Ok(risk)
}

/// The cost as text, or as JSON.
fn say_cost(
    alloc: Global,
    names: &[String],
    racks: &[String],
    risk: &Risk,
    as_json: bool,
) -> Result<String, RoundFault>
    ensures text { IfOk result (λ text. string_bytes text ≡ model.risk_by as_json names.now racks.now risk.now) }
    ensures printable { OnOk result (as_json ≡ true → ArePrintable names.now × ArePrintable racks.now) }
    ensures fault { IfErr result (model.IsUnprintable as_json (ArePrintable names.now × ArePrintable racks.now)) }
{
    if as_json {
        check_names(names)?;
        check_names(racks)?;
        let text = risk_json(alloc, names, racks, risk)?;
        return Ok(text);
    }
    let text = risk_text(alloc, names, racks, risk)?;
    Ok(text)
}

/// What the next losses cost, by what inputs show together.
pub fn answer_risk(
    alloc: Global,
    gathered: &Gathered,
    asked: &AskedRisk,
) -> Result<String, RoundFault>
    requires { length gathered.now.bookies ≡ length gathered.now.cluster.shown }
    ensures said { IfOk result (λ text. model.SaysCost gathered.now asked.now text) }
    ensures fault { IfErr result (model.IsUnsaidCost gathered.now asked.now) }
{
    let names = names_of(&gathered.cluster);
    let order = order_by_name(alloc, names)?;
    let racks = gathered.cluster.racks(alloc)?;
    let numbers = racks_in_order(alloc, &gathered.cluster, &racks)?;
    let risk = cost_of(alloc, gathered, asked, &order, &numbers)?;
    let text = say_cost(alloc, names, &racks, &risk, asked.as_json)?;
    Ok(text)
}
