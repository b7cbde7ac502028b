// The census of gathered inputs, by the names of its bookies and racks.
ghost use Rattle.std.specs.Prelude.{◌≡◌, ◌<◌, ◌≤◌, IfOk, OnOk, length, map, option_map, slice_get, string_bytes};
ghost use Rattle.std.specs.Option.{option_map_or};
ghost use Rattle.reh_census_file.specs.Names.{with_name};
ghost use Rattle.reh_census_file.specs.declared.lists.TheConstants.{MAX_NAMES};
ghost use Rattle.reh_inputs.specs.Named as model;
ghost use Rattle.reh_inputs.specs.declared.names.TheConstants.{MAX_CLUSTER_BOOKIES};

use crate::cluster::Cluster;
use crate::inputs::Input;
use crate::names::{ClusterNames, MAX_CLUSTER_BOOKIES};
use crate::shown::Shown;
use crate::together::Gathered;
use reh_census::{Bookie, Bookies};
use reh_census_file::{MAX_NAMES, NameList, NamedCensus};
use std::alloc::{AllocError, Global};

/// Adds a name as the last, unless it is there.
fn add_name(list: &mut NameList, name: &str) -> Result<(), AllocError>
    requires { length list.old < MAX_NAMES }
    ensures { OnOk result (list.new ≡ with_name list.old name.now) }
{
    list.add(name)?;
    Ok(())
}

/// Adds the name of this number as the last, unless it is there.
fn add_numbered(list: &mut NameList, names: &ClusterNames, number: usize) -> Result<(), AllocError>
    requires few { length list.old < MAX_NAMES }
    requires within { number < MAX_CLUSTER_BOOKIES }
    ensures { OnOk result (list.new
        ≡ option_map_or (with_name list.old) (slice_get names.now number) list.old) }
{
    match names.name(number as u16) {
        Some(name) => add_name(list, name),
        None => Ok(()),
    }
}

/// The names of the bookies, as a census has them.
pub fn names_of(alloc: Global, names: &ClusterNames) -> Result<NameList, AllocError>
    ensures { IfOk result (λ list. list ≡ names.now) }
{
    let mut list = NameList::new(alloc);
    for number in 0..names.len() {
        add_numbered(&mut list, names, number)?;
    }
    Ok(list)
}

/// Adds the rack of a bookie as the last, unless it is there.
fn add_rack(racks: &mut NameList, shown: &Shown) -> Result<(), AllocError>
    requires { length racks.old < MAX_NAMES }
    ensures { OnOk result (racks.new ≡ model.with_rack racks.old shown.now.rack) }
{
    match shown.rack() {
        Some(rack) => add_name(racks, rack),
        None => Ok(()),
    }
}

/// The racks of the bookies, as a census has them.
fn racks_of(alloc: Global, all: &[Shown]) -> Result<NameList, AllocError>
    requires { length all.now ≤ MAX_NAMES }
    ensures { IfOk result (λ racks. racks ≡ model.racks_of all.now) }
{
    let mut racks = NameList::new(alloc);
    for shown in all {
        add_rack(&mut racks, shown)?;
    }
    Ok(racks)
}

/// The number of a bookie's rack among these.
fn rack_number(racks: &NameList, shown: &Shown) -> Option<u16>
    ensures { result ≡ (model.bookie_in racks.now shown.now).rack }
{
    match shown.rack() {
        Some(rack) => racks.find(rack.as_bytes()),
        None => None,
    }
}

/// The bookies, as a census has them.
fn bookies_of(alloc: Global, racks: &NameList, all: &[Shown]) -> Result<Bookies, AllocError>
    requires { length all.now ≤ MAX_NAMES }
    ensures { IfOk result (λ bookies. bookies ≡ map (model.bookie_in racks.now) all.now) }
{
    let mut bookies = Vec::new(alloc);
    for shown in all {
        bookies.push(Bookie {
            is_registered: shown.is_registered(),
            is_read_only: shown.is_read_only(),
            is_empty: shown.is_empty(),
            rack: rack_number(racks, shown),
        })?;
    }
    Ok(Bookies::of(bookies))
}

/// The names of a cluster's bookies, those of their racks, and the bookies, as a census has them.
fn named_bookies(
    alloc: Global,
    cluster: &Cluster,
) -> Result<(NameList, NameList, Bookies), AllocError>
    ensures names { IfOk result (λ made. made.0 ≡ cluster.now.names) }
    ensures racks { IfOk result (λ made. made.1 ≡ model.racks_of cluster.now.shown) }
    ensures bookies { IfOk result (λ made. made.2
        ≡ map (model.bookie_in (model.racks_of cluster.now.shown)) cluster.now.shown) }
{
    let names = names_of(alloc, cluster.names())?;
    let racks = racks_of(alloc, cluster.shown())?;
    let bookies = bookies_of(alloc, &racks, cluster.shown())?;
    Ok((names, racks, bookies))
}

/// The census of gathered inputs, whether what is assumed counts as untold there, and when the oldest input was taken.
pub fn named_of(
    alloc: Global,
    gathered: Gathered,
    is_strict: bool,
    taken: Option<String>,
) -> Result<NamedCensus, AllocError>
    ensures { IfOk result (λ census. census
        ≡ model.named_of gathered is_strict (option_map (λ s. string_bytes s) taken)) }
{
    let (names, racks, bookies) = named_bookies(alloc, &gathered.cluster)?;
    Ok(NamedCensus::of(names, racks, bookies, gathered.census, is_strict, taken))
}

/// When an input was taken, if it tells.
fn taken_in(input: &Input) -> Option<&str>
    ensures { option_map (λ time. time.now) result ≡ model.taken_in input.now }
{
    match input {
        Input::Picture(_) => None,
        Input::Census(census) => census.taken(),
    }
}

/// The earlier of two times, if both are known.
fn earlier<'a>(one: Option<&'a str>, other: Option<&'a str>) -> Option<&'a str>
    ensures { option_map (λ time. time.now) result
        ≡ model.earlier (option_map (λ time. time.now) one.entry) (option_map (λ time. time.now) other.entry) }
{
    match (one, other) {
        (Some(one), Some(other)) => {
            if other.as_bytes().cmp(one.as_bytes()).is_lt() {
                Some(other)
            } else {
                Some(one)
            }
        }
        _ => None,
    }
}

/// When the oldest of the inputs was taken, if each tells its time.
pub fn taken_of(inputs: &[Input]) -> Option<&str>
    ensures { option_map (λ time. time.now) result ≡ model.taken_of inputs.now }
{
    match inputs {
        [] => None,
        [input] => taken_in(input),
        [input, rest @ ..] => earlier(taken_in(input), taken_of(rest)),
    }
}
