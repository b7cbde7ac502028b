// Why an inventory isn't read or counted.
use reh_inventory_census::CountFault;
use std::alloc::AllocError;
use std::io;
use std::io::ErrorKind;

/// Why an inventory isn't read or counted.
#[derive(Drop)]
pub enum ReadFault {
    /// A read failed, for the system's reason.
    Unread(io::Error),
    /// A line has more than `MAX_LINE_BYTES` bytes.
    TooLong,
    /// The line of this number, from 1 on, can't be counted after those before it.
    Line(u64, CountFault),
    /// There is no memory.
    NoMemory,
}

impl From<AllocError> for ReadFault {
    ghost use Rattle.std.specs.Prelude.{◌≡◌};
    ghost use Rattle.reh_inventory_read.specs.declared.faults.ReadFault.TheVariants.{NoMemory};

    ghost from_gives = { λ _ fault. fault ≡ NoMemory };

    fn from(_want: AllocError) -> ReadFault {
        ReadFault::NoMemory
    }
}

/// A read that failed, or out of memory.
impl From<io::Error> for ReadFault {
    ghost use Rattle.std.specs.Prelude.{◌≡◌};
    ghost use Rattle.std.specs.IoError.{error_kind};
    ghost use Rattle.std.specs.declared.io.ErrorKind.TheVariants.{OutOfMemory};
    ghost use Rattle.reh_inventory_read.specs.declared.faults.ReadFault.TheVariants.{NoMemory};

    ghost from_gives = { λ error fault. error_kind error ≡ OutOfMemory → fault ≡ NoMemory };

    fn from(error: io::Error) -> ReadFault {
        match error.kind() {
            ErrorKind::OutOfMemory => ReadFault::NoMemory,
            _ => ReadFault::Unread(error),
        }
    }
}
