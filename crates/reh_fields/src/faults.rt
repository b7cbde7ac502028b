// Why a picture is refused.
ghost use Rattle.std.specs.Prelude.{◌≡◌, IfOk};
ghost use Rattle.reh_fields.specs.Faults.{printed_byte};

use crate::fields::Field;
use reh_types::LedgerId;
use std::alloc::{AllocError, AllocFailed, Global};
use std::fmt;
use std::marker::Model;
use thiserror::Error;

/// A bookie's name in a fault, as the picture has it; contracts see its bytes.
///
/// It is printed with a `?` in the place of each byte outside 0x21 to 0x7E.
#[derive(Drop)]
pub struct FaultName {
    text: String,
}

impl Model for FaultName {
    ghost use Rattle.std.specs.Prelude.{List, ℕ, string_bytes};

    ghost Value = { List ℕ };

    ghost view = { λ n. string_bytes n.text };
}

impl FaultName {
    /// A copy of a name.
    pub fn new(alloc: Global, name: &str) -> Result<FaultName, AllocError>
        ensures { IfOk result (λ copy. copy ≡ name.now) }
    {
        let text = String::from_str(alloc, name)?;
        Ok(FaultName { text })
    }

    /// The name itself.
    pub fn as_str(&self) -> &str
        ensures { result.now ≡ self.now }
    {
        self.text.as_str()
    }
}

impl fmt::Display for FaultName {
    ghost use Rattle.std.specs.Prelude.{Some, map};
    ghost use Rattle.reh_fields.specs.Faults.{printed_byte};

    ghost output = { λ name. Some (map printed_byte name) };

    fn fmt<W: fmt::Write>(&self, f: &mut fmt::Formatter<W>) -> fmt::Result {
        for byte in self.text.as_bytes() {
            f.write_char(printed(*byte))?;
        }
        Ok(())
    }
}

/// What is printed for one byte of a name.
fn printed(byte: u8) -> char
    ensures { result ≡ printed_byte byte }
{
    if byte.is_ascii_graphic() {
        byte as char
    } else {
        '?'
    }
}

/// What a picture has twice.
#[derive(Drop)]
pub enum Repeated {
    /// The name of a bookie.
    Bookie(FaultName),
    /// The id of a ledger.
    Ledger(LedgerId),
    /// What a bookie holds of a ledger.
    Content(FaultName, LedgerId),
}

impl fmt::Display for Repeated {
    ghost use Rattle.std.specs.Prelude.{Some};
    ghost use Rattle.reh_fields.specs.Faults.{repeated_text};

    ghost output = { λ repeated. Some (repeated_text repeated) };

    fn fmt<W: fmt::Write>(&self, f: &mut fmt::Formatter<W>) -> fmt::Result {
        match self {
            Repeated::Bookie(name) => write!(f, "{name}"),
            Repeated::Ledger(ledger) => write!(f, "{}", ledger.0),
            Repeated::Content(name, ledger) => write!(f, "{name} {}", ledger.0),
        }
    }
}

/// What is wrong with a ledger.
#[derive(Clone, Copy)]
pub enum LedgerFlaw {
    /// Not `1 <= ack quorum <= write quorum <= ensemble size <= 16`.
    Quorum,
    /// There is no fragment, the first doesn't begin at entry 0, or first entries don't rise.
    Fragment,
    /// An ensemble is of another size, or names a bookie twice.
    Ensemble,
    /// The ledger is closed, and its last entry id is less than the last fragment's first entry minus 1.
    Last,
    /// Entries are held of it, and it is no ledger of the picture.
    Unknown,
}

impl LedgerFlaw {
    ghost use Rattle.reh_fields.specs.Faults.{flaw_name};

    /// Its name, as it is printed.
    pub fn name(self) -> &'static str
        ensures { result.now ≡ flaw_name self }
    {
        match self {
            LedgerFlaw::Quorum => "Quorum",
            LedgerFlaw::Fragment => "Fragment",
            LedgerFlaw::Ensemble => "Ensemble",
            LedgerFlaw::Last => "Last",
            LedgerFlaw::Unknown => "Unknown",
        }
    }
}

/// Why a picture is refused. Its text is its number, its name and what it speaks of.
#[derive(Drop, Error)]
pub enum PictureFault {
    /// The picture has more than 8,388,608 bytes.
    TooLong,
    /// The bytes aren't one JSON value.
    NotJson,
    /// The field isn't there.
    Missing(Field),
    /// The field is there with a JSON value of another kind.
    WrongKind(Field),
    /// The bookie's name hasn't 1 to 300 bytes, each 0x21 to 0x7E.
    BadName,
    /// The name, the id or the pair stands in the picture twice.
    Twice(Repeated),
    /// No bookie of the picture has the name.
    UnknownBookie(FaultName),
    /// The field's number, or its number of elements, is none that it may have.
    Limit(Field),
    /// The ledger breaks a rule, or isn't in the picture.
    BadLedger(LedgerId, LedgerFlaw),
    /// There is no memory to read the picture.
    NoMemory,
}

impl fmt::Display for PictureFault {
    ghost use Rattle.std.specs.Prelude.{Some};
    ghost use Rattle.reh_fields.specs.Faults.{fault_text};

    ghost output = { λ fault. Some (fault_text fault) };

    fn fmt<W: fmt::Write>(&self, f: &mut fmt::Formatter<W>) -> fmt::Result {
        match self {
            PictureFault::TooLong => f.write_str("1 TooLong"),
            PictureFault::NotJson => f.write_str("2 NotJson"),
            PictureFault::Missing(field) => write!(f, "3 Missing {field}"),
            PictureFault::WrongKind(field) => write!(f, "4 WrongKind {field}"),
            PictureFault::BadName => f.write_str("5 BadName"),
            PictureFault::Twice(repeated) => write!(f, "6 Twice {repeated}"),
            PictureFault::UnknownBookie(name) => write!(f, "7 UnknownBookie {name}"),
            PictureFault::Limit(field) => write!(f, "8 Limit {field}"),
            PictureFault::BadLedger(ledger, flaw) => {
                write!(f, "9 BadLedger {} {}", ledger.0, flaw.name())
            }
            PictureFault::NoMemory => f.write_str("10 NoMemory"),
        }
    }
}

/// Its text.
impl fmt::Debug for PictureFault {
    fn fmt<W: fmt::Write>(&self, f: &mut fmt::Formatter<W>) -> fmt::Result {
        fmt::Display::fmt(self, f)
    }
}

impl From<AllocError> for PictureFault {
    ghost use Rattle.std.specs.Prelude.{◌≡◌};
    ghost use Rattle.reh_fields.specs.declared.faults.PictureFault.TheVariants.{NoMemory};

    ghost from_gives = { λ _ fault. fault ≡ NoMemory };

    fn from(_want: AllocError) -> PictureFault {
        PictureFault::NoMemory
    }
}

impl<T: Drop> From<AllocFailed<T>> for PictureFault {
    ghost use Rattle.std.specs.Prelude.{◌≡◌};
    ghost use Rattle.reh_fields.specs.declared.faults.PictureFault.TheVariants.{NoMemory};

    ghost from_gives = { λ _ fault. fault ≡ NoMemory };

    fn from(want: AllocFailed<T>) -> PictureFault {
        PictureFault::from(AllocError::from(want))
    }
}

/// A text that isn't JSON, or out of memory to read it.
impl From<serde_json::Error> for PictureFault {
    ghost use Rattle.std.specs.Prelude.{◌≡◌};
    ghost use Rattle.serde_json.specs.Errors.{IsMemory};
    ghost use Rattle.reh_fields.specs.declared.faults.PictureFault.TheVariants.{NoMemory, NotJson};

    ghost from_gives = { λ error fault. (IsMemory error → fault ≡ NoMemory)
        × (¬ IsMemory error → fault ≡ NotJson) };

    fn from(error: serde_json::Error) -> PictureFault {
        if error.is_memory() {
            PictureFault::NoMemory
        } else {
            PictureFault::NotJson
        }
    }
}
