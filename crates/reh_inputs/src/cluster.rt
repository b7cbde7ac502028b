// The bookies of a cluster: those of its inputs, each once.
ghost use Rattle.std.specs.Prelude.{◌≡◌, ◌<◌, ◌≤◌, ◌≢◌, ◌++◌, ◌∷◌, [], cond, length, map, slice_get, string_bytes, true, false, IfErr, IfOk, OnOk, OnErr, Err, position};
ghost use Rattle.std.specs.List.{filter};
ghost use Rattle.reh_census.specs.Striping.{range};
ghost use Rattle.std.specs.Option.{option_map_or};
ghost use Rattle.reh_inputs.specs.Shown.{is_in, is_like};
ghost use Rattle.reh_inputs.specs.Cluster as model;
ghost use Rattle.reh_inputs.specs.Faults.{IsClusterFault};
ghost use Rattle.reh_inputs.specs.declared.cluster.ClusterFault.TheVariants.{Differs, TooMany};
ghost use Rattle.reh_inputs.specs.declared.names.TheConstants.{MAX_CLUSTER_BOOKIES};

use crate::names::{ClusterNames, MAX_CLUSTER_BOOKIES};
use crate::shown::Shown;
use reh_census::{Bookie, Bookies};
use std::alloc::{AllocError, Global};
use std::marker::Model;

/// Why a bookie of an input can't be one of the cluster.
#[derive(Clone, Copy)]
pub enum ClusterFault {
    /// An input before shows it otherwise.
    Differs,
    /// The cluster has as many bookies as it can have.
    TooMany,
    /// There is no memory.
    NoMemory,
}

impl From<AllocError> for ClusterFault {
    ghost use Rattle.std.specs.Prelude.{◌≡◌};
    ghost use Rattle.reh_inputs.specs.declared.cluster.ClusterFault.TheVariants.{NoMemory};

    ghost from_gives = { λ _ fault. fault ≡ NoMemory };

    fn from(_want: AllocError) -> ClusterFault {
        ClusterFault::NoMemory
    }
}

/// The bookies of a cluster, by number: their names, each once, in their order, and how inputs show them.
#[derive(Drop)]
pub struct Cluster {
    names: ClusterNames,
    shown: Vec<Shown>,
}

impl Model for Cluster {
    ghost use Rattle.reh_inputs.specs.Cluster as model;
    ghost use Rattle.reh_inputs.specs.Inside.{cluster_in, IsClusterIn};

    ghost Value = { model.Cluster };

    ghost view = { cluster_in };

    ghost invariant = { IsClusterIn };
}

impl Cluster {
    /// A cluster without bookies.
    pub fn new(alloc: Global) -> Cluster
        ensures { result ≡ model.no_bookies }
    {
        Cluster {
            names: ClusterNames::new(alloc),
            shown: Vec::new(alloc),
        }
    }

    /// The names of the bookies.
    pub fn names(&self) -> &ClusterNames
        ensures { result.now ≡ self.now.names }
    {
        &self.names
    }

    /// How inputs show the bookies.
    pub fn shown(&self) -> &[Shown]
        ensures shown { result.now ≡ self.now.shown }
        ensures each { length self.now.shown ≡ length self.now.names }
    {
        &self.shown
    }

    /// The bookies, as a census sees them.
    pub fn bookies(&self, alloc: Global) -> Result<Bookies, AllocError>
        ensures { IfOk result (λ bookies. bookies ≡ model.bookies_of self.now) }
    {
        let mut bookies = Vec::with_capacity(alloc, self.names.len())?;
        for shown in &self.shown {
            bookies.push(bookie_of(&self.shown, shown))?;
        }
        Ok(Bookies::of(bookies))
    }

    /// For each bookie the name of its rack, empty where that isn't known: so for the number of a rack its name.
    pub fn racks(&self, alloc: Global) -> Result<Vec<String>, AllocError>
        ensures { IfOk result (λ racks. map string_bytes racks.items ≡ map model.rack_name self.now.shown) }
    {
        let mut racks = Vec::new(alloc);
        for shown in &self.shown {
            racks.push(rack_name(alloc, shown)?)?;
        }
        Ok(racks)
    }

    /// The numbers of the racks: each that of the first bookie in it.
    pub fn rack_numbers(&self, alloc: Global) -> Result<Vec<u16>, AllocError>
        ensures { IfOk result (λ numbers. numbers.items
            ≡ filter (model.is_first_in_rack self.now.shown) (range 0 (length self.now.shown))) }
    {
        let mut numbers = Vec::new(alloc);
        for number in 0..self.names.len() {
            let is_first = is_first_in_rack(&self.shown, number);
            add_if(&mut numbers, is_first, number as u16)?;
        }
        Ok(numbers)
    }

    /// Adds a bookie that an input shows, or finds it shown alike by an input before.
    pub fn add(&mut self, name: &str, shown: Shown) -> Result<(), ClusterFault>
        ensures added { OnOk result (self.new ≡ model.with_bookie self.old name.now shown) }
        ensures alike { OnOk result (model.is_shown_otherwise self.old name.now shown ≡ false) }
        ensures shown { OnOk result (model.is_shown_so self.new name.now shown ≡ true) }
        ensures kept { OnOk result (model.Keeps self.old self.new) }
        ensures differs { result ≡ Err Differs → model.is_shown_otherwise self.old name.now shown ≡ true }
        ensures too_many { result ≡ Err TooMany → (length self.old.names ≡ MAX_CLUSTER_BOOKIES)
            × (model.has_bookie self.old name.now ≡ false) }
        ensures fault { IfErr result (IsClusterFault self.old name.now shown) }
        ensures err { OnErr result (self.new ≡ self.old) }
    {
        match self.names.find(name) {
            Some(number) if self.is_like(number, &shown) => Ok(()),
            Some(_) => Err(ClusterFault::Differs),
            None => self.add_new(name, shown),
        }
    }

    /// Whether the bookie of that number is shown alike.
    fn is_like(&self, number: u16, shown: &Shown) -> bool
        ensures { result ≡ option_map_or (λ before. is_like before shown.now) (slice_get self.now.shown number) false }
    {
        match self.shown.get(number as usize) {
            Some(before) => before.is_like(shown),
            None => false,
        }
    }

    /// Adds a bookie that no input before shows.
    fn add_new(&mut self, name: &str, shown: Shown) -> Result<(), ClusterFault>
        requires { model.has_bookie self.old name.now ≡ false }
        ensures added { OnOk result (self.new ≡ model.with_bookie self.old name.now shown) }
        ensures shown { OnOk result (model.is_shown_so self.new name.now shown ≡ true) }
        ensures kept { OnOk result (model.Keeps self.old self.new) }
        ensures differs { result ≢ Err Differs }
        ensures too_many { result ≡ Err TooMany → length self.old.names ≡ MAX_CLUSTER_BOOKIES }
        ensures fault { IfErr result (IsClusterFault self.old name.now shown) }
        ensures err { OnErr result (self.new ≡ self.old) }
    {
        if self.names.len() >= MAX_CLUSTER_BOOKIES {
            return Err(ClusterFault::TooMany);
        }
        self.insert(name, shown)?;
        Ok(())
    }

    /// Puts a bookie more at the place of its name.
    fn insert(&mut self, name: &str, shown: Shown) -> Result<(), AllocError>
        requires new { model.has_bookie self.old name.now ≡ false }
        requires few { length self.old.names < MAX_CLUSTER_BOOKIES }
        ensures added { OnOk result (self.new ≡ model.with_new self.old name.now shown) }
        ensures shown { OnOk result (model.is_shown_so self.new name.now shown ≡ true) }
        ensures kept { OnOk result (model.Keeps self.old self.new) }
        ensures err { OnErr result (self.new ≡ self.old) }
    {
        let place = self.names.place_of(name);
        self.shown.reserve(1)?;
        self.names.insert(place, name)?;
        self.shown.insert(place, shown)?;
        Ok(())
    }
}

/// The name of a bookie's rack, empty where it isn't known.
fn rack_name(alloc: Global, shown: &Shown) -> Result<String, AllocError>
    ensures { IfOk result (λ name. string_bytes name ≡ model.rack_name shown.now) }
{
    String::from_str(alloc, shown.rack().unwrap_or(""))
}

/// A bookie as a census sees it, among all.
fn bookie_of(all: &[Shown], shown: &Shown) -> Bookie
    requires { length all.now ≤ MAX_CLUSTER_BOOKIES }
    ensures { result ≡ model.bookie_of all.now shown.now }
{
    Bookie {
        is_registered: shown.is_registered(),
        is_read_only: shown.is_read_only(),
        is_empty: shown.is_empty(),
        rack: rack_of(all, shown),
    }
}

/// The number of the first bookie in the rack of this one, if that is known.
fn rack_of(all: &[Shown], shown: &Shown) -> Option<u16>
    requires { length all.now ≤ MAX_CLUSTER_BOOKIES }
    ensures { result ≡ (model.bookie_of all.now shown.now).rack }
{
    match shown.rack() {
        Some(rack) => first_in(all, rack),
        None => None,
    }
}

/// The number of the first bookie in a rack.
fn first_in(all: &[Shown], rack: &str) -> Option<u16>
    requires { length all.now ≤ MAX_CLUSTER_BOOKIES }
    ensures { result ≡ position (is_in rack.now) all.now }
{
    match place_of(all, rack) {
        Some(place) => Some(place as u16),
        None => None,
    }
}

/// The place of the first bookie in a rack.
fn place_of(all: &[Shown], rack: &str) -> Option<usize>
    ensures { result ≡ position (is_in rack.now) all.now }
{
    for (place, shown) in all.iter().enumerate() {
        if shown.is_in(rack) {
            return Some(place);
        }
    }
    None
}

/// Whether the bookie of that number is the first in its rack.
fn is_first_in_rack(all: &[Shown], number: usize) -> bool
    ensures { result ≡ model.is_first_in_rack all.now number }
{
    let Some(shown) = all.get(number) else {
        return false;
    };
    match shown.rack() {
        Some(rack) => place_of(all, rack) == Some(number),
        None => false,
    }
}

/// Adds the number, if it is to be there.
fn add_if(numbers: &mut Vec<u16>, is: bool, number: u16) -> Result<(), AllocError>
    ensures { OnOk result (numbers.new.items ≡ numbers.old.items ++ cond is (number ∷ []) []) }
{
    if is {
        numbers.push(number)?;
    }
    Ok(())
}
