// What is wrong with metadata.
use std::alloc::AllocError;

/// Why there is no metadata: the rule that it would break, or out of memory.
#[derive(Clone, Copy)]
pub enum MetaFault {
    /// Not `1 <= ack quorum <= write quorum <= ensemble size <= 16`.
    BadQuorum,
    /// There is no fragment, the first doesn't begin at entry 0, or first entries don't rise.
    BadFragment,
    /// An ensemble is of another size, or names a bookie twice.
    BadEnsemble,
    /// The ledger is closed, and its last entry id is less than the last fragment's first entry minus 1.
    BadLast,
    /// There is no memory for it.
    NoMemory,
}

impl From<AllocError> for MetaFault {
    ghost use Rattle.std.specs.Prelude.{◌≡◌};
    ghost use Rattle.reh_meta.specs.declared.faults.MetaFault.TheVariants.{NoMemory};

    ghost from_gives = { λ _ fault. fault ≡ NoMemory };

    fn from(_want: AllocError) -> MetaFault {
        MetaFault::NoMemory
    }
}
