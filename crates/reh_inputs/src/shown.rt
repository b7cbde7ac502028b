// A bookie, as an input shows it.
ghost use Rattle.std.specs.Prelude.{◌≡◌, string_bytes};
ghost use Rattle.std.specs.Option.{option_map};
ghost use Rattle.reh_inputs.specs.Shown as model;

use std::marker::Model;

/// Whether a bookie is registered, and read-only; whether it came back without its disk; and its rack, if an input names
/// it. Contracts see the rack's bytes.
#[derive(Drop)]
pub struct Shown {
    is_registered: bool,
    is_read_only: bool,
    is_empty: bool,
    rack: Option<String>,
}

impl Model for Shown {
    ghost use Rattle.std.specs.Prelude.{string_bytes};
    ghost use Rattle.std.specs.Option.{option_map};
    ghost use Rattle.reh_inputs.specs.Shown as model;

    ghost Value = { model.Shown };

    ghost view = { λ b. record {
      is_registered = b.is_registered;
      is_read_only = b.is_read_only;
      is_empty = b.is_empty;
      rack = option_map string_bytes b.rack;
    } };
}

impl Shown {
    /// A bookie with these marks.
    pub fn new(
        is_registered: bool,
        is_read_only: bool,
        is_empty: bool,
        rack: Option<String>,
    ) -> Shown
        ensures { result
            ≡ model.shown_by is_registered is_read_only is_empty (option_map string_bytes rack) }
    {
        Shown {
            is_registered,
            is_read_only,
            is_empty,
            rack,
        }
    }

    pub fn is_registered(&self) -> bool
        ensures { result ≡ self.now.is_registered }
    {
        self.is_registered
    }

    pub fn is_read_only(&self) -> bool
        ensures { result ≡ self.now.is_read_only }
    {
        self.is_read_only
    }

    /// Whether it came back without its disk.
    pub fn is_empty(&self) -> bool
        ensures { result ≡ self.now.is_empty }
    {
        self.is_empty
    }

    pub fn rack(&self) -> Option<&str>
        ensures { option_map (λ rack. rack.now) result ≡ self.now.rack }
    {
        match &self.rack {
            Some(rack) => Some(rack.as_str()),
            None => None,
        }
    }

    /// Whether both are shown alike.
    pub(crate) fn is_like(&self, other: &Shown) -> bool
        ensures { result ≡ model.is_like self.now other.now }
    {
        self.is_registered == other.is_registered
            && self.is_read_only == other.is_read_only
            && self.is_empty == other.is_empty
            && is_same_rack(&self.rack, &other.rack)
    }

    /// Whether the bookie is in the rack.
    pub fn is_in(&self, rack: &str) -> bool
        ensures { result ≡ model.is_in rack.now self.now }
    {
        match &self.rack {
            Some(own) => own.as_bytes() == rack.as_bytes(),
            None => false,
        }
    }
}

/// Whether both are the same rack, or none.
fn is_same_rack(left: &Option<String>, right: &Option<String>) -> bool
    ensures { result ≡ model.is_same_rack (option_map string_bytes left.now) (option_map string_bytes right.now) }
{
    match (left, right) {
        (Some(left), Some(right)) => left.as_bytes() == right.as_bytes(),
        (None, None) => true,
        _ => false,
    }
}
