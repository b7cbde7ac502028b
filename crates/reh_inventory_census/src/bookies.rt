// The bookies of an inventory's first line, as a census has them.
ghost use Rattle.std.specs.Prelude.{◌≡◌, IfOk, OnOk, map, slice_get};
ghost use Rattle.std.specs.Option.{option_map_or};
ghost use Rattle.reh_inventory_census.specs.Bookies as model;

use crate::numbers::{NumberFault, number_member};
use reh_census::{Bookie as CountedBookie, Bookies};
use reh_census_file::NameList;
use reh_inventory::Bookie;
use std::alloc::{AllocError, Global};

/// A bookie that isn't registered.
const UNREGISTERED: CountedBookie = CountedBookie {
    is_registered: false,
    is_read_only: false,
    is_empty: false,
    rack: None,
};

/// Adds the rack of a bookie as the last, unless it is there.
fn add_rack(racks: &mut NameList, bookie: &Bookie) -> Result<(), NumberFault>
    ensures { OnOk result (racks.new ≡ model.with_rack racks.old bookie.now) }
{
    match &bookie.rack {
        Some(rack) => number_member(racks, rack),
        None => Ok(()),
    }
}

/// The racks of the first line, each once, as its bookies first name them.
pub(crate) fn racks_of(alloc: Global, bookies: &[Bookie]) -> Result<NameList, NumberFault>
    ensures { IfOk result (λ racks. racks ≡ model.racks_of bookies.now) }
{
    let mut racks = NameList::new(alloc);
    for bookie in bookies {
        add_rack(&mut racks, bookie)?;
    }
    Ok(racks)
}

/// The number of a bookie's rack.
fn rack_number(racks: &NameList, bookie: &Bookie) -> Option<u16>
    ensures { result ≡ model.rack_number racks.now bookie.now }
{
    match &bookie.rack {
        Some(rack) => racks.find(rack.as_str().as_bytes()),
        None => None,
    }
}

/// A bookie of the first line, as a census has it.
fn counted(racks: &NameList, bookie: &Bookie) -> CountedBookie
    ensures { result ≡ model.as_counted racks.now bookie.now }
{
    CountedBookie {
        is_registered: bookie.is_up,
        is_read_only: bookie.is_read_only,
        is_empty: bookie.is_empty,
        rack: rack_number(racks, bookie),
    }
}

/// The bookie of this name, as a census has it. One that the first line doesn't have isn't registered.
fn bookie_of(racks: &NameList, bookies: &[Bookie], name: &str) -> CountedBookie
    ensures { result ≡ model.bookie_of racks.now bookies.now name.now }
{
    for bookie in bookies {
        if bookie.name.as_str() == name {
            return counted(racks, bookie);
        }
    }
    UNREGISTERED
}

/// The bookie of the name of that number, as a census has it.
fn bookie_at(racks: &NameList, bookies: &[Bookie], names: &NameList, number: u16) -> CountedBookie
    ensures { result ≡ option_map_or (model.bookie_of racks.now bookies.now)
        (slice_get names.now number) model.unregistered }
{
    match names.name(number) {
        Some(name) => bookie_of(racks, bookies, name),
        None => UNREGISTERED,
    }
}

/// The bookies of these names, as a census has them.
pub(crate) fn bookies_of(
    alloc: Global,
    names: &NameList,
    racks: &NameList,
    bookies: &[Bookie],
) -> Result<Bookies, AllocError>
    ensures { IfOk result (λ counted. counted ≡ map (model.bookie_of racks.now bookies.now) names.now) }
{
    let mut counted = Vec::new(alloc);
    for number in 0..names.len() {
        counted.push(bookie_at(racks, bookies, names, number as u16))?;
    }
    Ok(Bookies::of(counted))
}
