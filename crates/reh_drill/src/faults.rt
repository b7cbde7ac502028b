// Why a drill ends early.
use reh_desk::CloseCause;
use reh_lines::StreamFault;
use reh_picture::PictureFault;
use reh_play::PlayFault;
use std::alloc::AllocError;

/// Why a drill ends early.
#[derive(Drop)]
pub enum DrillFault {
    /// The picture is refused.
    Picture(PictureFault),
    /// A read failed. No drill says so: its scripts are in memory.
    ReadFault,
    /// A script is longer than 1,048,576 bytes.
    TooLong,
    /// A write failed, or took no byte.
    WriteFault,
    /// There is no memory.
    NoMemory,
    /// There is no thread for an operator.
    NoThread,
    /// The desk doesn't close.
    Close(CloseCause),
}

impl From<AllocError> for DrillFault {
    ghost use Rattle.std.specs.Prelude.{◌≡◌};
    ghost use Rattle.reh_drill.specs.declared.faults.DrillFault.TheVariants.{NoMemory};

    ghost from_gives = { λ _ fault. fault ≡ NoMemory };

    fn from(_error: AllocError) -> DrillFault {
        DrillFault::NoMemory
    }
}

impl From<PlayFault> for DrillFault {
    ghost use Rattle.std.specs.Prelude.{◌≡◌};
    ghost use Rattle.reh_drill.specs.Faults.{drill_fault_of};

    ghost from_gives = { λ play drill. drill ≡ drill_fault_of play };

    fn from(fault: PlayFault) -> DrillFault {
        match fault {
            PlayFault::ReadFault => DrillFault::ReadFault,
            PlayFault::TooLong => DrillFault::TooLong,
            PlayFault::WriteFault => DrillFault::WriteFault,
            PlayFault::NoMemory => DrillFault::NoMemory,
            PlayFault::NoThread => DrillFault::NoThread,
        }
    }
}

impl From<PictureFault> for DrillFault {
    ghost use Rattle.std.specs.Prelude.{◌≡◌};
    ghost use Rattle.reh_drill.specs.Faults.{refusal_of};

    ghost from_gives = { λ picture drill. drill ≡ refusal_of picture };

    fn from(fault: PictureFault) -> DrillFault {
        match fault {
            PictureFault::NoMemory => DrillFault::NoMemory,
            fault => DrillFault::Picture(fault),
        }
    }
}

impl From<StreamFault> for DrillFault {
    ghost use Rattle.std.specs.Prelude.{◌≡◌};
    ghost use Rattle.reh_drill.specs.declared.faults.DrillFault.TheVariants.{WriteFault};

    ghost from_gives = { λ _ fault. fault ≡ WriteFault };

    fn from(_fault: StreamFault) -> DrillFault {
        DrillFault::WriteFault
    }
}

impl From<CloseCause> for DrillFault {
    ghost use Rattle.std.specs.Prelude.{◌≡◌};
    ghost use Rattle.reh_drill.specs.declared.faults.DrillFault.TheVariants.{Close};

    ghost from_gives = { λ cause fault. fault ≡ Close cause };

    fn from(cause: CloseCause) -> DrillFault {
        DrillFault::Close(cause)
    }
}
