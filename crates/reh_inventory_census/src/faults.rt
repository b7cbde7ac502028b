// Why an inventory can't be counted.
ghost use Rattle.std.specs.Prelude.{◌≡◌};
ghost use Rattle.reh_inventory_census.specs.Faults as model;

use crate::counts::CountsFault;
use crate::numbers::NumberFault;
use reh_inventory::InventoryFault;
use reh_tally::TallyFault;
use std::alloc::{AllocError, AllocFailed};

/// Why the next line of an inventory can't be counted with those before it.
#[derive(Clone, Copy)]
pub enum CountFault {
    /// It isn't the next line of an inventory.
    Line(InventoryFault),
    /// It has more bookies than a census can name, with the lines before.
    TooManyBookies,
    /// It names a bookie, as one of the cluster or as a member of an ensemble, that isn't among the names.
    Unnamed,
    /// No census can count the ledger of this id: a bookie stands twice in an ensemble of it, for instance.
    Unfit(u64),
    /// It says that a bookie which came back without its disk holds entries of the ledger of this id.
    HoldsThoughEmpty(u64),
    /// There are more entries, ledgers or fragments than a census counts.
    TooMany,
    /// There is no memory.
    NoMemory,
}

impl From<AllocError> for CountFault {
    ghost use Rattle.std.specs.Prelude.{◌≡◌};
    ghost use Rattle.reh_inventory_census.specs.declared.faults.CountFault.TheVariants.{NoMemory};

    ghost from_gives = { λ _ fault. fault ≡ NoMemory };

    fn from(_want: AllocError) -> CountFault {
        CountFault::NoMemory
    }
}

impl<T: Drop> From<AllocFailed<T>> for CountFault {
    ghost use Rattle.std.specs.Prelude.{◌≡◌};
    ghost use Rattle.reh_inventory_census.specs.declared.faults.CountFault.TheVariants.{NoMemory};

    ghost from_gives = { λ _ fault. fault ≡ NoMemory };

    fn from(want: AllocFailed<T>) -> CountFault {
        CountFault::from(AllocError::from(want))
    }
}

impl From<CountsFault> for CountFault {
    ghost use Rattle.std.specs.Prelude.{◌≡◌};
    ghost use Rattle.reh_inventory_census.specs.Faults as model;

    ghost from_gives = { λ from fault. fault ≡ model.of_counts from };

    fn from(fault: CountsFault) -> CountFault {
        match fault {
            CountsFault::TooMany => CountFault::TooMany,
            CountsFault::NoMemory => CountFault::NoMemory,
        }
    }
}

impl From<NumberFault> for CountFault {
    ghost use Rattle.std.specs.Prelude.{◌≡◌};
    ghost use Rattle.reh_inventory_census.specs.Faults as model;

    ghost from_gives = { λ from fault. fault ≡ model.of_number from };

    fn from(fault: NumberFault) -> CountFault {
        match fault {
            NumberFault::TooMany => CountFault::TooManyBookies,
            NumberFault::NoMemory => CountFault::NoMemory,
        }
    }
}

impl From<InventoryFault> for CountFault {
    ghost use Rattle.std.specs.Prelude.{◌≡◌};
    ghost use Rattle.reh_inventory_census.specs.Faults as model;

    ghost from_gives = { λ from fault. fault ≡ model.of_line from };

    fn from(fault: InventoryFault) -> CountFault {
        match fault {
            InventoryFault::NoMemory => CountFault::NoMemory,
            _ => CountFault::Line(fault),
        }
    }
}

impl From<TallyFault> for CountFault {
    ghost use Rattle.std.specs.Prelude.{◌≡◌};
    ghost use Rattle.reh_inventory_census.specs.Faults as model;

    ghost from_gives = { λ from fault. fault ≡ model.of_tally from };

    fn from(fault: TallyFault) -> CountFault {
        match fault {
            TallyFault::TooMany => CountFault::TooMany,
            TallyFault::NoMemory => CountFault::NoMemory,
        }
    }
}
