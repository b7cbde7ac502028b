// Why an input is not played to its end.
use reh_picture::PictureFault;
use reh_play::PlayFault;
use std::alloc::AllocError;

/// Why an input is not played to its end.
#[derive(Drop)]
pub enum PipeFault {
    /// The picture is refused.
    Picture(PictureFault),
    /// The script is not played to its end.
    Play(PlayFault),
}

impl From<AllocError> for PipeFault {
    ghost use Rattle.std.specs.Prelude.{◌≡◌};
    ghost use Rattle.reh_play.specs.declared.faults.PlayFault.TheVariants.{NoMemory};
    ghost use Rattle.reh_script.specs.declared.faults.PipeFault.TheVariants.{Play};

    ghost from_gives = { λ _ fault. fault ≡ Play NoMemory };

    fn from(_want: AllocError) -> PipeFault {
        PipeFault::Play(PlayFault::NoMemory)
    }
}

impl From<PlayFault> for PipeFault {
    ghost use Rattle.std.specs.Prelude.{◌≡◌};
    ghost use Rattle.reh_script.specs.declared.faults.PipeFault.TheVariants.{Play};

    ghost from_gives = { λ play fault. fault ≡ Play play };

    fn from(fault: PlayFault) -> PipeFault {
        PipeFault::Play(fault)
    }
}

impl From<PictureFault> for PipeFault {
    ghost use Rattle.std.specs.Prelude.{◌≡◌};
    ghost use Rattle.reh_script.specs.Faults.{pipe_fault_of};

    ghost from_gives = { λ picture fault. fault ≡ pipe_fault_of picture };

    fn from(fault: PictureFault) -> PipeFault {
        match fault {
            PictureFault::NoMemory => PipeFault::Play(PlayFault::NoMemory),
            fault => PipeFault::Picture(fault),
        }
    }
}
