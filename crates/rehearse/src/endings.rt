// What ends a run: the faults of plays and drills, of a flush and of a command line, as the run's.
ghost use Rattle.std.specs.Prelude.{◌≡◌};
ghost use Rattle.rehearse.specs.Endings.{end_after_flush, run_fault_of, run_fault_of_drill};

use clap::Error;
use clap::error::ErrorKind;
use reh_drill::DrillFault;
use reh_files::RunFault;
use reh_script::{PipeFault, PlayFault, StreamFault};

/// A pipe's fault as the run's.
pub(crate) fn of_pipe(fault: PipeFault) -> RunFault
    ensures { result ≡ run_fault_of fault }
{
    match fault {
        PipeFault::Picture(fault) => RunFault::Picture(fault),
        PipeFault::Play(PlayFault::ReadFault) => RunFault::ReadFault,
        PipeFault::Play(PlayFault::TooLong) => RunFault::TooLong,
        PipeFault::Play(PlayFault::WriteFault) => RunFault::WriteFault,
        PipeFault::Play(PlayFault::NoMemory) => RunFault::NoMemory,
        PipeFault::Play(PlayFault::NoThread) => RunFault::NoThread,
    }
}

/// A drill's fault as the run's.
pub(crate) fn of_drill(fault: DrillFault) -> RunFault
    ensures { result ≡ run_fault_of_drill fault }
{
    match fault {
        DrillFault::Picture(fault) => RunFault::Picture(fault),
        DrillFault::ReadFault => RunFault::ReadFault,
        DrillFault::TooLong => RunFault::TooLong,
        DrillFault::WriteFault => RunFault::WriteFault,
        DrillFault::NoMemory => RunFault::NoMemory,
        DrillFault::NoThread => RunFault::NoThread,
        DrillFault::Close(cause) => RunFault::Close(cause),
    }
}

/// How a run ends once its answers were flushed: where a flush failed, answers were lost.
pub(crate) fn after_flush(
    played: Result<(), RunFault>,
    flushed: Result<(), StreamFault>,
) -> Result<(), RunFault>
    ensures { result ≡ end_after_flush played flushed }
{
    match (played, flushed) {
        (Ok(()) | Err(RunFault::ReadFault | RunFault::TooLong), Err(StreamFault)) => {
            Err(RunFault::WriteFault)
        }
        (played, _) => played,
    }
}

/// Whether a command line wasn't read because memory ran out.
pub(crate) fn want_of_memory(error: &Error) -> Result<(), RunFault> {
    match error.kind() {
        ErrorKind::OutOfMemory => Err(RunFault::NoMemory),
        _ => Ok(()),
    }
}
