// Why there is no plan for a ledger.
use reh_cut::CutFault;
use reh_picture::{LocatedFault, PictureFault};
use reh_plan::PlanFault;
use std::alloc::AllocError;
use std::fmt;

/// Why there is no plan for a ledger.
#[derive(Drop)]
pub enum Unplanned {
    /// No picture shows it.
    NoPicture(CutFault),
    /// There is a picture of it, but no plan for that.
    NoPlan(PlanFault),
    /// There is no memory.
    NoMemory,
}

impl fmt::Display for Unplanned {
    ghost use Rattle.std.specs.Prelude.{Some};
    ghost use Rattle.reh_inventory_plan.specs.Faults.{unplanned_text};

    ghost output = { λ fault. Some (unplanned_text fault) };

    fn fmt<W: fmt::Write>(&self, f: &mut fmt::Formatter<W>) -> fmt::Result {
        match self {
            Unplanned::NoPicture(fault) => write!(f, "no picture: {fault}"),
            Unplanned::NoPlan(fault) => write!(f, "no plan: {fault}"),
            Unplanned::NoMemory => f.write_str("no memory"),
        }
    }
}

impl From<AllocError> for Unplanned {
    ghost use Rattle.std.specs.Prelude.{◌≡◌};
    ghost use Rattle.reh_inventory_plan.specs.declared.faults.Unplanned.TheVariants.{NoMemory};

    ghost from_gives = { λ _ reason. reason ≡ NoMemory };

    fn from(_want: AllocError) -> Unplanned {
        Unplanned::NoMemory
    }
}

impl From<CutFault> for Unplanned {
    ghost use Rattle.std.specs.Prelude.{◌≡◌};
    ghost use Rattle.reh_inventory_plan.specs.Faults.{uncut};

    ghost from_gives = { λ fault reason. reason ≡ uncut fault };

    fn from(fault: CutFault) -> Unplanned {
        match fault {
            CutFault::NoMemory => Unplanned::NoMemory,
            fault => Unplanned::NoPicture(fault),
        }
    }
}

/// A picture that was cut is refused as a picture.
impl From<LocatedFault> for Unplanned {
    ghost use Rattle.std.specs.Prelude.{◌≡◌};
    ghost use Rattle.reh_inventory_plan.specs.Faults.{refused_by};

    ghost from_gives = { λ located reason. reason ≡ refused_by located.fault located };

    fn from(fault: LocatedFault) -> Unplanned {
        match fault.fault {
            PictureFault::NoMemory => Unplanned::NoMemory,
            _ => Unplanned::NoPicture(CutFault::NoPicture(fault)),
        }
    }
}

impl From<PlanFault> for Unplanned {
    ghost use Rattle.std.specs.Prelude.{◌≡◌};
    ghost use Rattle.reh_inventory_plan.specs.Faults.{unplanned};

    ghost from_gives = { λ fault reason. reason ≡ unplanned fault };

    fn from(fault: PlanFault) -> Unplanned {
        match fault {
            PlanFault::NoMemory => Unplanned::NoMemory,
            fault => Unplanned::NoPlan(fault),
        }
    }
}
