// Why there is no plan, and what keeps a step of it from being made.
ghost use Rattle.std.specs.Prelude.{◌≡◌, Err};
ghost use Rattle.reh_plan.specs.declared.faults.PlanFault.{PlanFault};
ghost use Rattle.reh_plan.specs.declared.faults.StepFault.TheVariants as StepFault;

use reh_types::Refusal;
use std::alloc::AllocError;
use std::error::Error;
use std::fmt;

/// Why there is no plan.
#[derive(Clone, Copy)]
pub enum PlanFault {
    /// There is no memory for it.
    NoMemory,
    /// It has no room in a script, which may be for the bookies that are lost, for its comments, or as a runbook.
    NoRoom,
    /// Its script has room, and it would leave a place that could be filled, a ledger that could be recovered or given a bookie
    /// by its writer, a lock, a task where nothing is missing, or a ledger without a reason; or it would have a command that
    /// nothing needs. Or it would leave a ledger that it fenced and didn't recover, or give a place to a bookie with which more
    /// write sets lack racks than with another one.
    Unfinished,
}

impl fmt::Display for PlanFault {
    ghost use Rattle.std.specs.Prelude.{Some};
    ghost use Rattle.reh_plan.specs.Faults.{plan_fault_text};

    ghost output = { λ fault. Some (plan_fault_text fault) };

    fn fmt<W: fmt::Write>(&self, f: &mut fmt::Formatter<W>) -> fmt::Result {
        f.write_str(match self {
            PlanFault::NoMemory => "no memory",
            PlanFault::NoRoom => "the plan is too long for a script",
            PlanFault::Unfinished => {
                "the plan would leave something undone, do something in vain, or give a place to the wrong bookie"
            }
        })
    }
}

/// Its text.
impl fmt::Debug for PlanFault {
    fn fmt<W: fmt::Write>(&self, f: &mut fmt::Formatter<W>) -> fmt::Result {
        fmt::Display::fmt(self, f)
    }
}

impl Error for PlanFault {}

impl From<AllocError> for PlanFault {
    ghost use Rattle.std.specs.Prelude.{◌≡◌};
    ghost use Rattle.reh_plan.specs.declared.faults.PlanFault.TheVariants.{NoMemory};

    ghost from_gives = { λ _ fault. fault ≡ NoMemory };

    fn from(_want: AllocError) -> PlanFault {
        PlanFault::NoMemory
    }
}

/// Why a step of a plan is not made: something is left then, or there is no plan.
#[derive(Clone, Copy)]
pub(crate) enum StepFault {
    /// No worker can make it, its event is refused, or the script has no room for its line.
    Left,
    /// There is no plan.
    Fault(PlanFault),
}

impl From<PlanFault> for StepFault {
    ghost use Rattle.std.specs.Prelude.{◌≡◌};
    ghost use Rattle.reh_plan.specs.declared.faults.StepFault.TheVariants.{Fault};

    ghost from_gives = { λ fault step. step ≡ Fault fault };

    fn from(fault: PlanFault) -> StepFault {
        StepFault::Fault(fault)
    }
}

impl From<AllocError> for StepFault {
    ghost use Rattle.std.specs.Prelude.{◌≡◌};
    ghost use Rattle.reh_plan.specs.declared.faults.PlanFault.TheVariants.{NoMemory};
    ghost use Rattle.reh_plan.specs.declared.faults.StepFault.TheVariants.{Fault};

    ghost from_gives = { λ _ step. step ≡ Fault NoMemory };

    fn from(want: AllocError) -> StepFault {
        StepFault::Fault(PlanFault::from(want))
    }
}

impl From<Refusal> for StepFault {
    ghost use Rattle.std.specs.Prelude.{◌≡◌};
    ghost use Rattle.reh_plan.specs.Faults.{step_fault_of};

    ghost from_gives = { λ refusal step. step ≡ step_fault_of refusal };

    fn from(refusal: Refusal) -> StepFault {
        match refusal {
            Refusal::NoMemory => StepFault::Fault(PlanFault::NoMemory),
            _ => StepFault::Left,
        }
    }
}

/// Goes on after a step, whether it was made or is left.
pub(crate) fn go_on(step: Result<(), StepFault>) -> Result<(), PlanFault>
    ensures { (fault : PlanFault) → step ≡ Err (StepFault.Fault fault) → result ≡ Err fault }
{
    match step {
        Err(StepFault::Fault(fault)) => Err(fault),
        Ok(()) | Err(StepFault::Left) => Ok(()),
    }
}
