// Bookies by number.
ghost use Rattle.std.specs.Prelude.{◌≡◌, ◌≤◌, [], length};
ghost use Rattle.reh_census.specs.Bookies.{is_flagged};

use std::alloc::Global;
use std::marker::Model;

/// Bookies, in an order. Contracts see the list.
#[derive(Drop)]
pub struct Names {
    items: Vec<u16>,
}

impl Model for Names {
    ghost use Rattle.std.specs.Prelude.{List, ℕ};

    ghost Value = { List ℕ };

    ghost view = { λ names. names.items.items };
}

impl Names {
    /// These bookies.
    pub fn of(items: Vec<u16>) -> Names
        ensures { result ≡ items.items }
    {
        Names { items }
    }

    /// The bookies, as a slice.
    pub fn as_slice(&self) -> &[u16]
        ensures { result.now ≡ self.now }
    {
        &self.items
    }
}

/// A set of bookies, as a flag for each. Contracts see the flags.
#[derive(Drop)]
pub struct BookieSet {
    flags: Vec<bool>,
}

impl Model for BookieSet {
    ghost use Rattle.std.specs.Prelude.{Bool, List, ◌≤◌, length};

    ghost Value = { List Bool };

    ghost view = { λ set. set.flags.items };

    ghost invariant = { λ set. length set.flags.items ≤ 4096 };
}

impl BookieSet {
    /// No bookie.
    pub fn none(alloc: Global) -> BookieSet
        ensures { result ≡ [] }
    {
        BookieSet {
            flags: Vec::new(alloc),
        }
    }

    /// Those whose flags are set.
    pub fn of(flags: Vec<bool>) -> BookieSet
        requires { length flags.items ≤ 4096 }
        ensures { result ≡ flags.items }
    {
        BookieSet { flags }
    }

    /// One past the greatest bookie that has a flag.
    pub fn len(&self) -> u16
        ensures { result ≡ length self.now }
    {
        self.flags.len() as u16
    }

    /// Whether the bookie is one of them.
    pub fn contains(&self, bookie: u16) -> bool
        ensures { result ≡ is_flagged self.now bookie }
    {
        match self.flags.get(bookie as usize) {
            Some(flag) => *flag,
            None => false,
        }
    }
}
