// The cluster of several inputs.
ghost use Rattle.std.specs.Prelude.{◌≡◌, ◌<◌, ℕ, true, false, fold, length, map, slice_get, IfErr, IfOk, OnOk, string_bytes};
ghost use Rattle.std.specs.Option.{IsSomeAnd, is_none, option_and_then, option_map, option_map_or};
ghost use Rattle.reh_census.specs.Striping.{range};
ghost use Rattle.reh_census_file.specs.declared.lists.TheConstants.{MAX_NAMES};
ghost use Rattle.reh_types.specs.declared.limits.TheConstants.{MAX_BOOKIES};
ghost use Rattle.reh_inputs.specs.Cluster.{Keeps};
ghost use Rattle.reh_inputs.specs.Faults.{IsClusterFault, IsUniteFault};
ghost use Rattle.reh_inputs.specs.United as model;

use crate::cluster::{Cluster, ClusterFault};
use crate::inputs::Input;
use crate::names::ClusterNames;
use crate::shown::Shown;
use reh_census_file::{MAX_NAMES, NameList, NamedCensus};
use reh_cluster::Names;
use reh_picture::Listed;
use reh_types::BookieIx;
use std::alloc::{AllocError, Global};

/// The bookie of an input that can't be one of the cluster, and why.
#[derive(Clone, Copy)]
pub struct UniteFault {
    /// The number of the bookie in its input.
    pub bookie: usize,
    pub fault: ClusterFault,
}

/// A copy of a rack's name, if it is known.
fn rack_of(alloc: Global, rack: Option<&str>) -> Result<Option<String>, AllocError>
    ensures { IfOk result (λ copy. option_map string_bytes copy ≡ option_map (λ r. r.now) rack.entry) }
{
    match rack {
        Some(rack) => Ok(Some(String::from_str(alloc, rack)?)),
        None => Ok(None),
    }
}

/// Whether a picture shows the bookie of that number as registered.
fn is_registered_in(listed: &Listed, number: usize) -> bool
    ensures { result ≡ option_map_or is_none (slice_get listed.now.listing.lost_at.items number) false }
{
    match listed.listing.lost_at.get(number) {
        Some(lost) => lost.is_none(),
        None => false,
    }
}

/// How a picture shows the bookie of that number.
fn shown_at(alloc: Global, listed: &Listed, number: usize) -> Result<Shown, AllocError>
    ensures { IfOk result (λ shown. shown ≡ model.shown_at listed.now number) }
{
    let is_registered = is_registered_in(listed, number);
    let Some(marks) = listed.marks.get(number) else {
        return Ok(Shown::new(is_registered, false, false, None));
    };
    let rack = rack_of(alloc, marks.rack())?;
    Ok(Shown::new(is_registered, marks.is_read_only(), marks.is_empty(), rack))
}

/// Adds the bookie of that number.
fn add_listed(
    alloc: Global,
    cluster: &mut Cluster,
    listed: &Listed,
    number: usize,
) -> Result<(), ClusterFault>
    requires { number < MAX_BOOKIES }
    ensures added { OnOk result (cluster.new ≡ model.with_listed listed.now cluster.old number) }
    ensures alike { OnOk result (model.shows_listed cluster.new listed.now number ≡ true) }
    ensures kept { OnOk result (Keeps cluster.old cluster.new) }
    ensures fault { IfErr result (λ fault. IsSomeAnd (slice_get listed.now.listing.names number)
        (λ name. IsClusterFault cluster.old name (model.shown_at listed.now number) fault)) }
{
    let Some(name) = listed.listing.names.name(BookieIx(number as u8)) else {
        return Ok(());
    };
    let shown = shown_at(alloc, listed, number)?;
    cluster.add(name, shown)
}

/// Adds the bookies of a picture.
fn unite_picture(alloc: Global, cluster: &mut Cluster, listed: &Listed) -> Result<(), UniteFault>
    ensures added { OnOk result (cluster.new
        ≡ fold (model.with_listed listed.now) cluster.old (range 0 (length listed.now.listing.names))) }
    ensures alike { OnOk result ((n : ℕ) → n < length listed.now.listing.names
        → model.shows_listed cluster.new listed.now n ≡ true) }
    ensures kept { OnOk result (Keeps cluster.old cluster.new) }
    ensures fault { IfErr result (λ f. IsUniteFault cluster.old (Input.Picture listed.now) f.bookie f.fault) }
{
    for number in 0..listed.listing.names.len() {
        match add_listed(alloc, cluster, listed, number) {
            Ok(()) => {}
            Err(fault) => {
                return Err(UniteFault {
                    bookie: number,
                    fault,
                });
            }
        }
    }
    Ok(())
}

/// A copy of a rack's name, if the bookie is in one.
fn rack_in(alloc: Global, racks: &NameList, rack: Option<u16>) -> Result<Option<String>, AllocError>
    ensures { IfOk result (λ copy. option_map string_bytes copy
        ≡ option_and_then (λ rack. slice_get racks.now rack) rack) }
{
    match rack {
        Some(rack) => rack_of(alloc, racks.name(rack)),
        None => Ok(None),
    }
}

/// How a census shows the bookie of that number.
fn counted_at(alloc: Global, census: &NamedCensus, number: usize) -> Result<Shown, AllocError>
    ensures { IfOk result (λ shown. shown ≡ model.counted_at census.now number) }
{
    let Some(bookie) = census.bookies().as_slice().get(number) else {
        return Ok(Shown::new(false, false, false, None));
    };
    let rack = rack_in(alloc, census.racks(), bookie.rack)?;
    Ok(Shown::new(
        bookie.is_registered,
        bookie.is_read_only,
        bookie.is_empty,
        rack,
    ))
}

/// Adds the bookie of that number.
fn add_counted(
    alloc: Global,
    cluster: &mut Cluster,
    census: &NamedCensus,
    number: usize,
) -> Result<(), ClusterFault>
    requires { number < MAX_NAMES }
    ensures added { OnOk result (cluster.new ≡ model.with_counted census.now cluster.old number) }
    ensures alike { OnOk result (model.shows_counted cluster.new census.now number ≡ true) }
    ensures kept { OnOk result (Keeps cluster.old cluster.new) }
    ensures fault { IfErr result (λ fault. IsSomeAnd (slice_get census.now.names number)
        (λ name. IsClusterFault cluster.old name (model.counted_at census.now number) fault)) }
{
    let Some(name) = census.names().name(number as u16) else {
        return Ok(());
    };
    let shown = counted_at(alloc, census, number)?;
    cluster.add(name, shown)
}

/// Adds the bookies of a census.
fn unite_census(
    alloc: Global,
    cluster: &mut Cluster,
    census: &NamedCensus,
) -> Result<(), UniteFault>
    ensures added { OnOk result (cluster.new
        ≡ fold (model.with_counted census.now) cluster.old (range 0 (length census.now.names))) }
    ensures alike { OnOk result ((n : ℕ) → n < length census.now.names
        → model.shows_counted cluster.new census.now n ≡ true) }
    ensures kept { OnOk result (Keeps cluster.old cluster.new) }
    ensures fault { IfErr result (λ f. IsUniteFault cluster.old (Input.Census census.now) f.bookie f.fault) }
{
    for number in 0..census.names().len() {
        match add_counted(alloc, cluster, census, number) {
            Ok(()) => {}
            Err(fault) => {
                return Err(UniteFault {
                    bookie: number,
                    fault,
                });
            }
        }
    }
    Ok(())
}

/// Adds the bookies of an input. After an `Err` some of them may be there.
pub fn unite(alloc: Global, cluster: &mut Cluster, input: &Input) -> Result<(), UniteFault>
    ensures added { OnOk result (cluster.new ≡ model.with_input cluster.old input.now) }
    ensures alike { OnOk result (model.AreAlike cluster.new input.now) }
    ensures kept { OnOk result (Keeps cluster.old cluster.new) }
    ensures fault { IfErr result (λ f. IsUniteFault cluster.old input.now f.bookie f.fault) }
{
    match input {
        Input::Picture(listed) => unite_picture(alloc, cluster, listed),
        Input::Census(census) => unite_census(alloc, cluster, census),
    }
}

/// The number of each bookie of a picture in the cluster.
pub fn numbers_of(
    alloc: Global,
    names: &ClusterNames,
    listed: &Names,
) -> Result<Vec<u16>, AllocError>
    ensures { IfOk result (λ numbers. numbers.items ≡ map (model.number_of names.now) listed.now) }
{
    let mut numbers = Vec::new(alloc);
    for bookie in 0..listed.len() {
        numbers.push(number_at(names, listed, bookie))?;
    }
    Ok(numbers)
}

/// The number of the bookie of that number in a picture.
fn number_at(names: &ClusterNames, listed: &Names, bookie: usize) -> u16
    requires { bookie < MAX_BOOKIES }
    ensures { result ≡ option_map_or (model.number_of names.now) (slice_get listed.now bookie) 65535 }
{
    match listed.name(BookieIx(bookie as u8)) {
        Some(name) => names.find(name).unwrap_or(u16::MAX),
        None => u16::MAX,
    }
}
