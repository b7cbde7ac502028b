// What is wrong with a field of a line.
use crate::fields::Field;
use std::alloc::{AllocError, AllocFailed};

/// What is wrong with a part of a line.
#[derive(Clone, Copy)]
pub enum Fault {
    /// The bytes aren't one JSON value.
    NotJson,
    /// The field isn't there.
    Missing(Field),
    /// The field is there with a JSON value of another kind.
    WrongKind(Field),
    /// The field's number, text or number of elements is none that it may have there.
    Limit(Field),
    /// The field's name stands there a second time.
    Twice(Field),
    /// A content has none of `entries` and `lacks`, or both.
    EntriesOrLacks,
    /// There is no memory to read the line.
    NoMemory,
}

impl From<AllocError> for Fault {
    ghost use Rattle.std.specs.Prelude.{◌≡◌};
    ghost use Rattle.reh_inventory_fields.specs.declared.faults.Fault.TheVariants.{NoMemory};

    ghost from_gives = { λ _ fault. fault ≡ NoMemory };

    fn from(_want: AllocError) -> Fault {
        Fault::NoMemory
    }
}

impl<T: Drop> From<AllocFailed<T>> for Fault {
    ghost use Rattle.std.specs.Prelude.{◌≡◌};
    ghost use Rattle.reh_inventory_fields.specs.declared.faults.Fault.TheVariants.{NoMemory};

    ghost from_gives = { λ _ fault. fault ≡ NoMemory };

    fn from(want: AllocFailed<T>) -> Fault {
        Fault::from(AllocError::from(want))
    }
}
