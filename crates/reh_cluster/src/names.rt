// The names of the bookies, in picture order.
ghost use Rattle.std.specs.Prelude.{◌≡◌, ◌==◌, ◌<◌, ◌≤◌, [], ◌∷◌, ◌++◌, ◌↔◌, length, slice_get, option_map, IfOk};
ghost use Rattle.std.specs.Prelude.{if◌then◌else◌, not, IsTrue, OnErr};
ghost use Rattle.std.specs.List.{list_any, IsDistinct};
ghost use Rattle.std.specs.Str.{bytes_eq};
ghost use Rattle.reh_types.specs.declared.limits.TheConstants.{MAX_BOOKIES};
ghost use Rattle.reh_model.specs.Cluster.{bookie_named};

use indexmap::IndexSet;
use reh_types::BookieIx;
use std::alloc::{AllocError, Global};
use std::marker::Model;

/// The names of at most 64 bookies, each once, in picture order; contracts see the list of their bytes.
#[derive(Drop)]
pub struct Names {
    names: IndexSet<String>,
}

impl Model for Names {
    ghost use Rattle.std.specs.Prelude.{List, ℕ, map, string_bytes};
    ghost use Rattle.reh_cluster.specs.Names.{IsNames};

    ghost Value = { List (List ℕ) };

    ghost view = { λ n. map string_bytes n.names.keys };

    ghost invariant = { λ n. IsNames (map string_bytes n.names.keys) };
}

impl Names {
    /// No names.
    pub fn new(alloc: Global) -> Self
        ensures { result ≡ [] }
    {
        Names {
            names: IndexSet::new(alloc),
        }
    }

    /// How many names there are.
    pub fn len(&self) -> usize
        ensures count { result ≡ length self.now }
        ensures limit { length self.now ≤ MAX_BOOKIES }
        ensures different { IsDistinct bytes_eq self.now }
    {
        self.names.len()
    }

    /// Whether there is none.
    pub fn is_empty(&self) -> bool
        ensures { result ≡ (length self.now == 0) }
    {
        self.names.is_empty()
    }

    /// Adds a name as the last, and says whether it was new; one that is there already changes nothing.
    pub fn add(&mut self, name: &str) -> Result<bool, AllocError>
        requires { length self.old < MAX_BOOKIES }
        ensures new { IfOk result (λ new. new ≡ not (list_any (bytes_eq name.now) self.old)) }
        ensures added { IfOk result
            (λ new. self.new ≡ (if new then self.old ++ name.now ∷ [] else self.old)) }
        ensures err { OnErr result (self.new ≡ self.old) }
    {
        let owned = String::from_str(self.names.allocator().clone()?, name)?;
        let added = self.names.insert(owned)?;
        Ok(added)
    }

    /// The bookie of that name, if there is one.
    pub fn find(&self, name: &[u8]) -> Option<BookieIx>
        ensures { result ≡ bookie_named self.now name.now }
    {
        let names = &self.names;
        match str::from_utf8(name) {
            Ok(text) => {
                let index = names.get_index_of(text)?;
                Some(BookieIx(index as u8))
            }
            Err(_) => None,
        }
    }

    /// The name of a bookie, if there is such a bookie.
    pub fn name(&self, bookie: BookieIx) -> Option<&str>
        ensures { option_map (λ name. name.now) result ≡ slice_get self.now bookie }
    {
        let name = self.names.get_index(bookie.0 as usize)?;
        Some(name.as_str())
    }

    /// Whether both are the same names, in the same order. It takes no memory.
    pub fn same(&self, other: &Names) -> bool
        ensures { IsTrue result ↔ (self.now ≡ other.now) }
    {
        self.names.as_slice() == other.names.as_slice()
    }

    /// A copy.
    pub fn clone_in(&self) -> Result<Names, AllocError>
        ensures { IfOk result (λ copy. copy ≡ self.now) }
    {
        let names = self.names.clone()?;
        Ok(Names { names })
    }
}
