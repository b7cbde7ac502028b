// Why ledgers of an inventory have no picture.
ghost use Rattle.std.specs.Prelude.{◌≡◌};
ghost use Rattle.reh_cut.specs.Faults.{no_window as window_fault};
ghost use Rattle.reh_cut.specs.Passed.{no_picture as picture_fault};

use crate::limits::{Limit, TotalLimit};
use crate::passed::past_total;
use reh_inventory::Name;
use reh_picture::{Field, LocatedFault, PictureFault};
use reh_window::WindowFault;
use std::alloc::{AllocError, AllocFailed};
use std::fmt;

/// Why there is no picture of these ledgers.
#[derive(Drop)]
pub enum CutFault {
    /// The last line of the inventory isn't there.
    NotWhole,
    /// No line has the ledger of this id, or it could not be read.
    NoLedger(u64),
    /// They pass this limit of a picture.
    Limit(Limit),
    /// The last window of the ledger of this id has this number, which is below the one that is asked for.
    NoWindow(u64, u64),
    /// The ledger of this id isn't closed, and the window has entries of its last fragment, but it isn't the last window,
    /// which has this number.
    OpenWindow(u64, u64),
    /// A bookie that came back without its disk holds entries of the ledger of this id.
    HoldsThoughEmpty(u64),
    /// Nobody says what this bookie holds of the ledger of this id.
    Untold(u64, Name),
    /// What would be written is no picture.
    NoPicture(LocatedFault),
    /// What would be written isn't what the inventory says. It is a fault of this crate.
    Differs,
    /// There is no memory.
    NoMemory,
}

impl fmt::Display for CutFault {
    ghost use Rattle.std.specs.Prelude.{Some};
    ghost use Rattle.reh_cut.specs.Faults.{fault_text};

    ghost output = { λ fault. Some (fault_text fault) };

    fn fmt<W: fmt::Write>(&self, f: &mut fmt::Formatter<W>) -> fmt::Result {
        match self {
            CutFault::NotWhole => f.write_str("expected a last line: the file was cut"),
            CutFault::NoLedger(id) => {
                write!(f, "no line has ledger {id}, or it could not be read")
            }
            CutFault::Limit(limit) => write!(f, "{limit}"),
            CutFault::NoWindow(id, last) => write!(f, "the last window of ledger {id} is {last}"),
            CutFault::OpenWindow(id, last) => write!(
                f,
                "ledger {id} isn't closed: of its windows with entries of the last fragment only {last} has a picture"
            ),
            CutFault::HoldsThoughEmpty(id) => write!(
                f,
                "a bookie that is shown as empty holds entries of ledger {id}: leave out one of the two"
            ),
            CutFault::Untold(id, bookie) => write!(
                f,
                "nobody says what {bookie} holds of ledger {id}: --assume-held or --assume-empty says what stands for that"
            ),
            CutFault::NoPicture(fault) => {
                write!(f, "the picture of these ledgers is refused: {fault}")
            }
            CutFault::Differs => f.write_str(
                "the picture of these ledgers isn't what their lines say: a fault of this program",
            ),
            CutFault::NoMemory => f.write_str("expected more memory"),
        }
    }
}

impl From<AllocError> for CutFault {
    ghost use Rattle.std.specs.Prelude.{◌≡◌};
    ghost use Rattle.reh_cut.specs.declared.faults.CutFault.TheVariants.{NoMemory};

    ghost from_gives = { λ _ fault. fault ≡ NoMemory };

    fn from(_want: AllocError) -> CutFault {
        CutFault::NoMemory
    }
}

impl<T: Drop> From<AllocFailed<T>> for CutFault {
    ghost use Rattle.std.specs.Prelude.{◌≡◌};
    ghost use Rattle.reh_cut.specs.declared.faults.CutFault.TheVariants.{NoMemory};

    ghost from_gives = { λ _ fault. fault ≡ NoMemory };

    fn from(want: AllocFailed<T>) -> CutFault {
        CutFault::from(AllocError::from(want))
    }
}

/// A fault of what would be written for so many ledgers, or that there is no memory to read it. The entries that are held of
/// them take so many words.
pub(crate) fn no_picture(fault: LocatedFault, words: u64, ledgers: usize) -> CutFault
    ensures { result ≡ picture_fault fault words ledgers }
{
    match fault.fault {
        PictureFault::NoMemory => CutFault::NoMemory,
        PictureFault::Limit(Field::Contents) => past_total(TotalLimit::Words, words, ledgers),
        _ => CutFault::NoPicture(fault),
    }
}

/// That the ledger of this id has no such window. No line of an inventory is unfit.
pub(crate) fn no_window(id: u64, fault: WindowFault) -> CutFault
    ensures { result ≡ window_fault id fault }
{
    match fault {
        WindowFault::PastLast(last) => CutFault::NoWindow(id, last),
        WindowFault::Unsettled(_, last) => CutFault::OpenWindow(id, last),
        WindowFault::Unfit => CutFault::Differs,
        WindowFault::NoMemory => CutFault::NoMemory,
    }
}
