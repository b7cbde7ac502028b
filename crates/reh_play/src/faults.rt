// Why a play ends early.
use reh_crew::SurveyFault;
use std::alloc::AllocError;
use std::thread::SpawnError;

/// Why the lines of a script are not all answered.
#[derive(Clone, Copy, Debug)]
pub enum PlayFault {
    /// A read failed.
    ReadFault,
    /// The script is longer than 1,048,576 bytes. The lines that end among these were answered.
    TooLong,
    /// A write failed or took no byte, or what was written could not be handed on.
    WriteFault,
    /// There is no memory for an answer, for the hand, or to read on.
    NoMemory,
    /// There is no thread for a survey, or for an operator.
    NoThread,
}

impl From<AllocError> for PlayFault {
    ghost use Rattle.std.specs.Prelude.{◌≡◌};
    ghost use Rattle.reh_play.specs.declared.faults.PlayFault.TheVariants.{NoMemory};

    ghost from_gives = { λ _ fault. fault ≡ NoMemory };

    fn from(_want: AllocError) -> PlayFault {
        PlayFault::NoMemory
    }
}

impl<F: Drop> From<SpawnError<F>> for PlayFault {
    ghost use Rattle.std.specs.Prelude.{◌≡◌};
    ghost use Rattle.reh_play.specs.declared.faults.PlayFault.TheVariants.{NoThread};

    ghost from_gives = { λ _ fault. fault ≡ NoThread };

    fn from(_refused: SpawnError<F>) -> PlayFault {
        PlayFault::NoThread
    }
}

impl From<SurveyFault> for PlayFault {
    ghost use Rattle.std.specs.Prelude.{◌≡◌};
    ghost use Rattle.reh_play.specs.Faults.{play_fault_of};

    ghost from_gives = { λ survey fault. fault ≡ play_fault_of survey };

    fn from(fault: SurveyFault) -> PlayFault {
        match fault {
            SurveyFault::NoMemory => PlayFault::NoMemory,
            SurveyFault::NoThread => PlayFault::NoThread,
        }
    }
}
