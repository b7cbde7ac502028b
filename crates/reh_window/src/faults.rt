// Why a ledger has no such window.
use std::alloc::{AllocError, AllocFailed};

/// Why a ledger has no window of this number.
#[derive(Clone, Copy)]
pub enum WindowFault {
    /// The ensemble size is 0 or past 64, or an entry is past 2^63 - 1. No line of an inventory is so.
    Unfit,
    /// The ledger's last window has this number, which is below the one that was asked for.
    PastLast(u64),
    /// The ledger isn't closed, and the window has entries of its last fragment, but it isn't the last window: the first
    /// entry of that fragment, and the number of the last window.
    Unsettled(u64, u64),
    /// There is no memory.
    NoMemory,
}

impl From<AllocError> for WindowFault {
    ghost use Rattle.std.specs.Prelude.{◌≡◌};
    ghost use Rattle.reh_window.specs.declared.faults.WindowFault.TheVariants.{NoMemory};

    ghost from_gives = { λ _ fault. fault ≡ NoMemory };

    fn from(_want: AllocError) -> WindowFault {
        WindowFault::NoMemory
    }
}

impl<T: Drop> From<AllocFailed<T>> for WindowFault {
    ghost use Rattle.std.specs.Prelude.{◌≡◌};
    ghost use Rattle.reh_window.specs.declared.faults.WindowFault.TheVariants.{NoMemory};

    ghost from_gives = { λ _ fault. fault ≡ NoMemory };

    fn from(want: AllocFailed<T>) -> WindowFault {
        WindowFault::from(AllocError::from(want))
    }
}
