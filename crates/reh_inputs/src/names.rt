// The names of a cluster's bookies.
ghost use Rattle.std.specs.Prelude.{◌≡◌, ◌<◌, ◌≤◌, [], false, length, position, slice_get, map, option_map, string_bytes, is_some, OnOk, OnErr};
ghost use Rattle.std.specs.List.{insert};
ghost use Rattle.std.specs.Option.{option_map_or};
ghost use Rattle.std.specs.Ordering.{is_lt};
ghost use Rattle.std.specs.Str.{bytes_eq};
ghost use Rattle.reh_census.specs.Order.{InOrder, names_cmp};
ghost use Rattle.reh_inputs.specs.Names as model;
ghost use Rattle.reh_inputs.specs.declared.names.TheConstants.{MAX_CLUSTER_BOOKIES};

use std::alloc::{AllocError, Global};
use std::marker::Model;

/// How many bookies a cluster has at most.
pub const MAX_CLUSTER_BOOKIES: usize = 4096;

/// The names of at most 4,096 bookies, each once, in their order, byte by byte; contracts see the list of their bytes.
#[derive(Drop)]
pub struct ClusterNames {
    names: Vec<String>,
}

impl Model for ClusterNames {
    ghost use Rattle.std.specs.Prelude.{List, ℕ, map, string_bytes};
    ghost use Rattle.reh_inputs.specs.Names.{IsNames};

    ghost Value = { List (List ℕ) };

    ghost view = { λ n. map string_bytes n.names.items };

    ghost invariant = { λ n. IsNames (map string_bytes n.names.items) };
}

impl ClusterNames {
    /// No names.
    pub(crate) fn new(alloc: Global) -> Self
        ensures { result ≡ [] }
    {
        ClusterNames {
            names: Vec::new(alloc),
        }
    }

    /// How many names there are.
    pub fn len(&self) -> usize
        ensures count { result ≡ length self.now }
        ensures limit { length self.now ≤ MAX_CLUSTER_BOOKIES }
        ensures order { InOrder names_cmp self.now }
    {
        self.names.len()
    }

    /// The names, by the numbers of their bookies.
    pub fn as_slice(&self) -> &[String]
        ensures { map string_bytes result.now ≡ self.now }
    {
        &self.names
    }

    /// The place of the name: so many come before it.
    pub(crate) fn place_of(&self, name: &str) -> usize
        ensures place { result ≡ model.place_of self.now name.now }
        ensures within { result ≤ length self.now }
        ensures limit { length self.now ≤ MAX_CLUSTER_BOOKIES }
        ensures order { InOrder names_cmp self.now }
    {
        self.names.partition_point(|own| comes_before(own, name))
    }

    /// Adds a name that isn't there, at its place.
    pub(crate) fn insert(&mut self, place: usize, name: &str) -> Result<(), AllocError>
        requires new { is_some (position (bytes_eq name.now) self.old) ≡ false }
        requires place { place ≡ model.place_of self.old name.now }
        requires few { length self.old < MAX_CLUSTER_BOOKIES }
        ensures added { OnOk result (self.new ≡ insert self.old place name.now) }
        ensures err { OnErr result (self.new ≡ self.old) }
    {
        let alloc = self.names.allocator().clone()?;
        let owned = String::from_str(alloc, name)?;
        self.names.insert(place, owned)?;
        Ok(())
    }

    /// Whether the name stands at this place.
    fn is_at(&self, place: usize, name: &str) -> bool
        ensures { result ≡ option_map_or (bytes_eq name.now) (slice_get self.now place) false }
    {
        match self.names.get(place) {
            Some(own) => name.as_bytes() == own.as_bytes(),
            None => false,
        }
    }

    /// The number of the bookie of that name, if there is one.
    pub fn find(&self, name: &str) -> Option<u16>
        ensures { result ≡ position (bytes_eq name.now) self.now }
    {
        let place = self.place_of(name);
        if self.is_at(place, name) {
            Some(place as u16)
        } else {
            None
        }
    }

    /// The name of a bookie, if there is such a bookie.
    pub fn name(&self, bookie: u16) -> Option<&str>
        ensures { option_map (λ name. name.now) result ≡ slice_get self.now bookie }
    {
        let name = self.names.get(bookie as usize)?;
        Some(name.as_str())
    }
}

/// Whether a name comes before another.
fn comes_before(own: &String, name: &str) -> bool
    ensures { result ≡ is_lt (names_cmp (string_bytes own.now) name.now) }
{
    own.as_bytes().cmp(name.as_bytes()).is_lt()
}
