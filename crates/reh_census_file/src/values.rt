// A census of named bookies.
ghost use Rattle.std.specs.Prelude.{◌≡◌};
ghost use Rattle.std.specs.Prelude.{string_bytes};
ghost use Rattle.std.specs.Option.{option_map, option_copied};
ghost use Rattle.reh_census_file.specs.Values.{named_by};

use crate::lists::NameList;
use reh_census::{Bookies, Census};
use std::marker::Model;

/// A census with the names of its bookies and racks, by number; whether what is assumed counts as untold, as with
/// `--strict`; and when the oldest of its inputs was taken, if that is known.
#[derive(Drop)]
pub struct NamedCensus {
    names: NameList,
    racks: NameList,
    bookies: Bookies,
    census: Census,
    is_strict: bool,
    taken: Option<String>,
}

impl Model for NamedCensus {
    ghost use Rattle.reh_census_file.specs.Values.{NamedCensus as NamedCensusValue};
    ghost use Rattle.reh_census_file.specs.Inside.{named_in};

    ghost Value = { NamedCensusValue };

    ghost view = { named_in };
}

impl NamedCensus {
    /// The census of these bookies.
    pub fn of(
        names: NameList,
        racks: NameList,
        bookies: Bookies,
        census: Census,
        is_strict: bool,
        taken: Option<String>,
    ) -> NamedCensus
        ensures { result ≡ named_by names racks bookies census is_strict
            (option_map (λ s. string_bytes s) taken) }
    {
        NamedCensus {
            names,
            racks,
            bookies,
            census,
            is_strict,
            taken,
        }
    }

    /// The names of the bookies, by number.
    pub fn names(&self) -> &NameList
        ensures { result.now ≡ self.now.names }
    {
        &self.names
    }

    /// The names of the racks, by number.
    pub fn racks(&self) -> &NameList
        ensures { result.now ≡ self.now.racks }
    {
        &self.racks
    }

    pub fn bookies(&self) -> &Bookies
        ensures { result.now ≡ self.now.bookies }
    {
        &self.bookies
    }

    pub fn census(&self) -> &Census
        ensures { result.now ≡ self.now.census }
    {
        &self.census
    }

    /// Whether what is assumed counts as untold.
    pub fn is_strict(&self) -> bool
        ensures { result ≡ self.now.is_strict }
    {
        self.is_strict
    }

    /// When the oldest input was taken, if that is known.
    pub fn taken(&self) -> Option<&str>
        ensures { option_copied result ≡ self.now.taken }
    {
        match &self.taken {
            Some(time) => Some(time.as_str()),
            None => None,
        }
    }
}
