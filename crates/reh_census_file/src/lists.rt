// Names by number.
ghost use Rattle.std.specs.Prelude.{◌≡◌, ◌==◌, ◌<◌, ◌≤◌, [], ◌∷◌, ◌++◌, length, slice_get, option_map, IfOk};
ghost use Rattle.std.specs.Prelude.{if◌then◌else◌, not, OnErr, OnOk, position, unwrap_or, ◌-◌};
ghost use Rattle.std.specs.List.{list_any, IsDistinct};
ghost use Rattle.std.specs.Str.{bytes_eq};
ghost use Rattle.reh_census_file.specs.Names.{with_name};

use indexmap::IndexSet;
use std::alloc::{AllocError, Global};
use std::marker::Model;

/// How many bookies, and how many racks, a census may name.
pub const MAX_NAMES: usize = 4096;

/// The names of bookies, or of racks: at most 4,096, each once. The first has the number 0. Contracts see the list of
/// their bytes.
#[derive(Drop)]
pub struct NameList {
    names: IndexSet<String>,
}

impl Model for NameList {
    ghost use Rattle.std.specs.Prelude.{List, ℕ, map, string_bytes};
    ghost use Rattle.reh_census_file.specs.Names.{IsNameList};

    ghost Value = { List (List ℕ) };

    ghost view = { λ n. map string_bytes n.names.keys };

    ghost invariant = { λ n. IsNameList (map string_bytes n.names.keys) };
}

impl NameList {
    /// No names.
    pub fn new(alloc: Global) -> Self
        ensures { result ≡ [] }
    {
        NameList {
            names: IndexSet::new(alloc),
        }
    }

    /// How many names there are.
    pub fn len(&self) -> usize
        ensures count { result ≡ length self.now }
        ensures few { length self.now ≤ MAX_NAMES }
        ensures different { IsDistinct bytes_eq self.now }
    {
        self.names.len()
    }

    /// Whether there is none.
    pub fn is_empty(&self) -> bool
        ensures { result ≡ (length self.now == 0) }
    {
        self.names.is_empty()
    }

    /// Adds a name as the last, and says whether it was new; one that is there already changes nothing.
    pub fn add(&mut self, name: &str) -> Result<bool, AllocError>
        requires { length self.old < MAX_NAMES }
        ensures new { IfOk result (λ new. new ≡ not (list_any (bytes_eq name.now) self.old)) }
        ensures added { IfOk result
            (λ new. self.new ≡ (if new then self.old ++ name.now ∷ [] else self.old)) }
        ensures err { OnErr result (self.new ≡ self.old) }
    {
        let owned = String::from_str(*self.names.allocator(), name)?;
        let added = self.names.insert(owned)?;
        Ok(added)
    }

    /// The number of a name, which is added as the last, if it isn't there.
    pub(crate) fn number_for(&mut self, name: &str) -> Result<u16, AllocError>
        requires { length self.old < MAX_NAMES }
        ensures number { IfOk result
            (λ number. number ≡ unwrap_or (position (bytes_eq name.now) self.old) (length self.old)) }
        ensures added { OnOk result (self.new ≡ with_name self.old name.now) }
        ensures err { OnErr result (self.new ≡ self.old) }
    {
        let number = self.find(name.as_bytes()).unwrap_or(self.len() as u16);
        self.add(name)?;
        Ok(number)
    }

    /// The last name, if there is one.
    pub(crate) fn last(&self) -> Option<&str>
        ensures { option_map (λ name. name.now) result ≡ slice_get self.now (length self.now - 1) }
    {
        let len = self.names.len();
        match self.names.get_index(len.saturating_sub(1)) {
            Some(name) => Some(name.as_str()),
            None => None,
        }
    }

    /// The number of that name, if it is there.
    pub fn find(&self, name: &[u8]) -> Option<u16>
        ensures { result ≡ position (bytes_eq name.now) self.now }
    {
        let names = &self.names;
        match str::from_utf8(name) {
            Ok(text) => {
                let index = names.get_index_of(text)?;
                Some(index as u16)
            }
            Err(_) => None,
        }
    }

    /// The name of this number, if there is one.
    pub fn name(&self, number: u16) -> Option<&str>
        ensures { option_map (λ name. name.now) result ≡ slice_get self.now number }
    {
        match self.names.get_index(number as usize) {
            Some(name) => Some(name.as_str()),
            None => None,
        }
    }
}
