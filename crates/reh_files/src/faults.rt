// Why a run ends early.
ghost use Rattle.std.specs.Prelude.{◌≡◌};
ghost use Rattle.reh_files.specs.Faults.{status_number, untold};

use reh_desk::CloseCause;
use reh_picture::{LocatedFault, PictureFault};
use std::alloc::AllocError;
use std::error::Error;
use std::io::ErrorKind;
use std::{fmt, io};

/// Why a run ends early. Its text is what standard error shows.
#[derive(Drop)]
pub enum RunFault {
    /// The picture is refused.
    Picture(PictureFault),
    /// The picture is refused, and where: the one that is checked or planned for, or the one of several in this file.
    Refused(Option<String>, LocatedFault),
    /// What was read can't be used, alone or together, for the reason that this says: files of a question, a script that is played
    /// first, what is to be cut or planned for.
    Unfit(String),
    /// Bookies of the command line are misnamed, as this says.
    Misnamed(String),
    /// A file can't be opened or read, for the reason that this says.
    Unread(String),
    /// A read failed, or a file can't be opened, of a rehearsal, whose fault names neither file nor reason.
    ReadFault,
    /// The script is longer than `MAX_SCRIPT_BYTES`.
    TooLong,
    /// A write failed, or took no byte.
    WriteFault,
    /// A file can't be written, for the reason that this says: the picture of the state at the end, or one of a plan's.
    Unwritten(String),
    /// There is no memory.
    NoMemory,
    /// There is no thread for a survey, or for an operator.
    NoThread,
    /// The desk of a drill doesn't close.
    Close(CloseCause),
}

impl RunFault {
    /// The fault as a rehearsal tells it, which names neither file nor reason of a read that failed.
    pub fn without_reason(self) -> RunFault
        ensures { result ≡ untold self }
    {
        match self {
            RunFault::Unread(_) => RunFault::ReadFault,
            fault => fault,
        }
    }
}

/// The exit status of a fault.
pub fn status_of(fault: &RunFault) -> u8
    ensures { result ≡ status_number fault.now }
{
    match fault {
        RunFault::Misnamed(_) => 2,
        RunFault::Picture(_) | RunFault::Refused(..) | RunFault::Unfit(_) => 3,
        RunFault::Unread(_) | RunFault::ReadFault | RunFault::TooLong => 4,
        RunFault::WriteFault | RunFault::Unwritten(_) => 5,
        RunFault::NoMemory => 6,
        RunFault::Close(_) | RunFault::NoThread => 7,
    }
}

impl fmt::Display for RunFault {
    ghost use Rattle.std.specs.Prelude.{Some};
    ghost use Rattle.reh_files.specs.Faults.{run_fault_text};

    ghost output = { λ fault. Some (run_fault_text fault) };

    fn fmt<W: fmt::Write>(&self, f: &mut fmt::Formatter<W>) -> fmt::Result {
        match self {
            RunFault::Picture(fault) => write!(f, "picture: {fault}"),
            RunFault::Refused(None, located) => write!(f, "picture: {located}"),
            RunFault::Refused(Some(path), located) => write!(f, "picture {path}: {located}"),
            RunFault::Unfit(reason)
            | RunFault::Misnamed(reason)
            | RunFault::Unread(reason)
            | RunFault::Unwritten(reason) => f.write_str(reason),
            RunFault::ReadFault => f.write_str("read fault"),
            RunFault::TooLong => f.write_str("script too long"),
            RunFault::WriteFault => f.write_str("write fault"),
            RunFault::NoMemory => f.write_str("no memory"),
            RunFault::NoThread => f.write_str("no thread"),
            RunFault::Close(CloseCause::Seats) => f.write_str("close: 1 Seats"),
            RunFault::Close(CloseCause::StillOut(count)) => write!(f, "close: 2 StillOut {count}"),
            RunFault::Close(CloseCause::Mismatch(number)) => {
                write!(f, "close: 3 Mismatch {number}")
            }
        }
    }
}

/// Its text.
impl fmt::Debug for RunFault {
    fn fmt<W: fmt::Write>(&self, f: &mut fmt::Formatter<W>) -> fmt::Result {
        fmt::Display::fmt(self, f)
    }
}

impl Error for RunFault {}

impl From<AllocError> for RunFault {
    ghost use Rattle.std.specs.Prelude.{◌≡◌};
    ghost use Rattle.reh_files.specs.declared.faults.RunFault.TheVariants.{NoMemory};

    ghost from_gives = { λ _ fault. fault ≡ NoMemory };

    fn from(_want: AllocError) -> RunFault {
        RunFault::NoMemory
    }
}

/// A word or a file that can't be read, or out of memory.
impl From<io::Error> for RunFault {
    ghost use Rattle.std.specs.Prelude.{◌≡◌, ◌≢◌};
    ghost use Rattle.std.specs.IoError.{error_kind};
    ghost use Rattle.std.specs.declared.io.ErrorKind.TheVariants.{OutOfMemory};
    ghost use Rattle.reh_files.specs.declared.faults.RunFault.TheVariants.{NoMemory, ReadFault};

    ghost from_gives = { λ error fault. (error_kind error ≡ OutOfMemory → fault ≡ NoMemory)
        × (error_kind error ≢ OutOfMemory → fault ≡ ReadFault) };

    fn from(error: io::Error) -> RunFault {
        match error.kind() {
            ErrorKind::OutOfMemory => RunFault::NoMemory,
            _ => RunFault::ReadFault,
        }
    }
}

impl From<LocatedFault> for RunFault {
    ghost use Rattle.std.specs.Prelude.{◌≡◌};
    ghost use Rattle.reh_files.specs.Faults.{refused_by};

    ghost from_gives = { λ located run. run ≡ refused_by located.fault located };

    fn from(located: LocatedFault) -> RunFault {
        match &located.fault {
            PictureFault::NoMemory => RunFault::NoMemory,
            _ => RunFault::Refused(None, located),
        }
    }
}
