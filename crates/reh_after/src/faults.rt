// Why there is no picture of the state to which a script leads.
ghost use Rattle.std.specs.Prelude.{◌≡◌};
ghost use Rattle.reh_after.specs.Faults.{unheld_by};

use reh_picture::{LocatedFault, PictureFault};
use std::alloc::AllocError;

/// Why there is no picture of the state to which a script leads.
#[derive(Drop)]
pub enum AfterFault {
    /// The picture is refused, and where.
    Picture(LocatedFault),
    /// The script is longer than 1,048,576 bytes.
    TooLong,
    /// A command of the script isn't accepted.
    Unaccepted(Unaccepted),
    /// It isn't known what the bookies hold at the end, and why, in words.
    Doubt(String),
    /// No picture holds the state at the end, which would have this fault.
    Unheld(PictureFault),
    /// There is no memory.
    NoMemory,
}

/// The first line of a script whose command isn't accepted, by its number from 1, and what a play answers to it.
#[derive(Drop)]
pub struct Unaccepted {
    pub line: usize,
    pub answer: String,
}

impl From<AllocError> for AfterFault {
    ghost use Rattle.std.specs.Prelude.{◌≡◌};
    ghost use Rattle.reh_after.specs.declared.faults.AfterFault.TheVariants.{NoMemory};

    ghost from_gives = { λ _ fault. fault ≡ NoMemory };

    fn from(_want: AllocError) -> AfterFault {
        AfterFault::NoMemory
    }
}

impl From<LocatedFault> for AfterFault {
    ghost use Rattle.std.specs.Prelude.{◌≡◌};
    ghost use Rattle.reh_after.specs.After.{refused_by};

    ghost from_gives = { λ located fault. fault ≡ refused_by located.fault located };

    fn from(located: LocatedFault) -> AfterFault {
        match &located.fault {
            PictureFault::NoMemory => AfterFault::NoMemory,
            _ => AfterFault::Picture(located),
        }
    }
}

/// That no picture holds the state at the end, or that there is no memory.
pub(crate) fn unheld(fault: PictureFault) -> AfterFault
    ensures { result ≡ unheld_by fault }
{
    match fault {
        PictureFault::NoMemory => AfterFault::NoMemory,
        fault => AfterFault::Unheld(fault),
    }
}
