// The bookies of a cluster, by number.
ghost use Rattle.std.specs.Prelude.{◌≡◌, ◌≤◌, ◌<◌, ◌^◌, All, IfSome, length};
ghost use Rattle.reh_census.specs.Bookies as model;

use std::marker::Model;

/// A bookie: whether it is registered, and read-only; whether it came back without its disk, so that it holds nothing;
/// and its rack, if that is known.
#[derive(Clone, Copy)]
pub struct Bookie {
    pub is_registered: bool,
    pub is_read_only: bool,
    pub is_empty: bool,
    pub rack: Option<u16>,
}

/// The bookies of a cluster, by number. Contracts see the list.
#[derive(Drop)]
pub struct Bookies {
    items: Vec<Bookie>,
}

impl Model for Bookies {
    ghost use Rattle.std.specs.Prelude.{List, ◌≤◌, length};
    ghost use Rattle.reh_census.specs.declared.bookies.Bookie.{Bookie};

    ghost Value = { List Bookie };

    ghost view = { λ bookies. bookies.items.items };

    ghost invariant = { λ bookies. length bookies.items.items ≤ 4096 };
}

/// One past the bookie's rack.
fn rack_stop(bookie: &Bookie) -> u32
    ensures value { result ≡ model.rack_stop bookie.now }
    ensures within { result ≤ 2 ^ 16 }
{
    match bookie.rack {
        Some(rack) => u32::from(rack) + 1,
        None => 0,
    }
}

impl Bookies {
    /// These bookies.
    pub fn of(items: Vec<Bookie>) -> Bookies
        requires { length items.items ≤ 4096 }
        ensures { result ≡ items.items }
    {
        Bookies { items }
    }

    /// The bookies, as a slice.
    pub fn as_slice(&self) -> &[Bookie]
        ensures bookies { result.now ≡ self.now }
        ensures few { length result.now ≤ 4096 }
    {
        &self.items
    }

    /// How many bookies have a number.
    pub fn len(&self) -> u16
        ensures { result ≡ length self.now }
    {
        self.items.len() as u16
    }

    /// How many bookies have a number, within what a set of bookies has flags for.
    pub fn count(&self) -> u16
        ensures count { result ≡ length self.now }
        ensures within { result ≤ 4096 }
    {
        self.items.len() as u16
    }

    /// Whether the bookie is registered.
    pub fn is_registered(&self, bookie: u16) -> bool
        ensures { result ≡ (model.bookies_of self.now).is_registered bookie }
    {
        match self.items.get(bookie as usize) {
            Some(found) => found.is_registered,
            None => false,
        }
    }

    /// Whether the bookie is read-only.
    pub fn is_read_only(&self, bookie: u16) -> bool
        ensures { result ≡ (model.bookies_of self.now).is_read_only bookie }
    {
        match self.items.get(bookie as usize) {
            Some(found) => found.is_read_only,
            None => false,
        }
    }

    /// Whether the bookie came back without its disk.
    pub fn is_empty(&self, bookie: u16) -> bool
        ensures { result ≡ (model.bookies_of self.now).is_empty bookie }
    {
        match self.items.get(bookie as usize) {
            Some(found) => found.is_empty,
            None => false,
        }
    }

    /// The bookie's rack, if that is known.
    pub fn rack_of(&self, bookie: u16) -> Option<u16>
        ensures { result ≡ (model.bookies_of self.now).rack_of bookie }
    {
        match self.items.get(bookie as usize) {
            Some(found) => found.rack,
            None => None,
        }
    }

    /// One past the greatest rack in which a bookie stands.
    pub fn racks_stop(&self) -> u32
        ensures value { result ≡ model.racks_stop self.now }
        ensures within { result ≤ 2 ^ 16 }
        ensures each { All (λ bookie. IfSome bookie.rack (λ rack. rack < result)) self.now }
    {
        let mut stop: u32 = 0;
        for bookie in &self.items {
            stop = stop.max(rack_stop(bookie));
        }
        stop
    }

    /// Whether the bookie may hold copies: it is registered, and didn't come back without its disk.
    pub fn is_holder(&self, bookie: u16) -> bool
        ensures { result ≡ model.is_holder (model.bookies_of self.now) bookie }
    {
        self.is_registered(bookie) && !self.is_empty(bookie)
    }
}
