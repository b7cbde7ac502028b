// Where a line's first fault is, and what was expected there.
ghost use Rattle.std.specs.Prelude.{◌≡◌, Ok, Err, None, MatchResult};
ghost use Rattle.reh_inventory_fields.specs.Expected.{element_field, faulty_field, wanted_text, expected_text};

use crate::faults::Fault;
use crate::fields::Field;
use crate::members::{MAX_ENSEMBLE, MAX_NUMBER};
use reh_census_file::MAX_NAMES;
use reh_types::{MAX_DELAY, MAX_GRACE, MAX_NAME_BYTES};
use std::alloc::{AllocError, AllocFailed};
use std::fmt;
use thiserror::Error;

/// A part of a line, by the numbers of elements of its lists, each from 0 on.
#[derive(Clone, Copy)]
pub enum Place {
    /// The line itself.
    Line,
    /// A bookie of the first line.
    Bookie(usize),
    /// A fragment of a ledger.
    Fragment(usize),
    /// A member of a fragment's ensemble.
    Member {
        fragment: usize,
        member: usize,
    },
    /// What one bookie holds of a ledger.
    Content(usize),
    /// A range of one of a content's lists: `entries`, `lacks` or `told`.
    Range {
        content: usize,
        list: Field,
        range: usize,
    },
}

impl Place {
    /// The field that a fault of the part as a whole names.
    fn element(self) -> Field
        ensures { result ≡ element_field self }
    {
        match self {
            Place::Line => Field::Line,
            Place::Bookie(_) => Field::Bookie,
            Place::Fragment(_) => Field::Fragment,
            Place::Member { .. } => Field::Ensemble,
            Place::Content(_) => Field::Content,
            Place::Range { list, .. } => list,
        }
    }
}

impl fmt::Display for Place {
    ghost use Rattle.std.specs.Prelude.{Some};
    ghost use Rattle.reh_inventory_fields.specs.Expected.{place_text};

    ghost output = { λ here. Some (place_text here) };

    fn fmt<W: fmt::Write>(&self, f: &mut fmt::Formatter<W>) -> fmt::Result {
        match self {
            Place::Line => f.write_str("line"),
            Place::Bookie(bookie) => write!(f, "bookies[{bookie}]"),
            Place::Fragment(fragment) => write!(f, "fragments[{fragment}]"),
            Place::Member { fragment, member } => {
                write!(f, "fragments[{fragment}].ensemble[{member}]")
            }
            Place::Content(content) => write!(f, "contents[{content}]"),
            Place::Range {
                content,
                list,
                range,
            } => write!(f, "contents[{content}].{list}[{range}]"),
        }
    }
}

/// A field of a part of a line, or the part itself where the field is what the part is.
#[derive(Clone, Copy)]
struct Path {
    place: Place,
    field: Field,
}

impl fmt::Display for Path {
    ghost use Rattle.std.specs.Prelude.{Some};
    ghost use Rattle.reh_inventory_fields.specs.Expected.{path_text};

    ghost output = { λ path. Some (path_text path.place path.field) };

    fn fmt<W: fmt::Write>(&self, f: &mut fmt::Formatter<W>) -> fmt::Result {
        let Path { place, field } = *self;
        if field.name() == place.element().name() {
            fmt::Display::fmt(&place, f)
        } else if matches!(place, Place::Line) {
            f.write_str(field.name())
        } else {
            write!(f, "{place}.{field}")
        }
    }
}

/// Why a line is refused, and where in it that is. Its text is the place and what was expected there.
#[derive(Clone, Copy, Error)]
pub struct LineFault {
    /// The first fault.
    pub fault: Fault,
    /// The part of the line that has it.
    pub place: Place,
    /// The column, from 1 on, at which a text is no more JSON, as `serde_json` tells it; no contract speaks of it.
    pub column: Option<usize>,
}

impl LineFault {
    ghost use Rattle.std.specs.Prelude.{None};

    /// A fault with its place.
    pub fn new(fault: Fault, place: Place) -> LineFault
        ensures { result ≡ record { fault = fault; place = place; column = None } }
    {
        LineFault {
            fault,
            place,
            column: None,
        }
    }
}

/// What was read at this place, or its fault with the place.
pub fn located<T: Drop>(read: Result<T, Fault>, place: Place) -> Result<T, LineFault>
    ensures { MatchResult read (λ value. result ≡ Ok value)
        (λ fault. result ≡ Err (record { fault = fault; place = place; column = None })) }
{
    match read {
        Ok(value) => Ok(value),
        Err(fault) => Err(LineFault::new(fault, place)),
    }
}

/// The field that was judged, where a fault is at this place.
fn judged_field(fault: Fault, place: Place) -> Field
    ensures { result ≡ faulty_field fault place }
{
    match fault {
        Fault::Missing(field)
        | Fault::WrongKind(field)
        | Fault::Limit(field)
        | Fault::Twice(field) => field,
        Fault::NotJson | Fault::EntriesOrLacks | Fault::NoMemory => place.element(),
    }
}

/// What was expected in the stead of what a fault at this place judged.
fn expected(fault: Fault, place: Place) -> &'static str
    ensures { result.now ≡ expected_text fault place }
{
    match fault {
        Fault::NotJson => "one JSON value",
        Fault::Missing(field) | Fault::WrongKind(field) | Fault::Limit(field) => {
            wanted(field, place)
        }
        Fault::Twice(_) => "a bookie that none before it names",
        Fault::EntriesOrLacks => "exactly one of entries and lacks",
        Fault::NoMemory => "more memory",
    }
}

/// What a field must be, at this place.
fn wanted(field: Field, place: Place) -> &'static str
    ensures { result.now ≡ wanted_text field place }
{
    match field {
        Field::Line | Field::Fragment | Field::Content => "an object",
        Field::Inventory => "1",
        Field::Taken => "a text of 1 to 300 bytes, each 0x21 to 0x7E, other than -",
        Field::Grace | Field::LostDelayTicks => "a whole number from 0 to 1000000",
        Field::Held => "striped",
        Field::Bookies => "a list of 1 to 4096 bookies",
        Field::Bookie => match place {
            Place::Content(_) => "a text of 1 to 300 bytes, each 0x21 to 0x7E",
            _ => "an object",
        },
        Field::Name | Field::Rack => "a text of 1 to 300 bytes, each 0x21 to 0x7E",
        Field::Up | Field::ReadOnly | Field::Empty | Field::Unread | Field::Assumed => {
            "true or false"
        }
        Field::Id | Field::Version | Field::Length | Field::Ledgers => {
            "a whole number from 0 to 9223372036854775807"
        }
        Field::State => "OPEN, IN_RECOVERY or CLOSED",
        Field::LastEntryId => {
            "a whole number from -1 to 9223372036854775807, and at least the last firstEntry minus 1"
        }
        Field::EnsembleSize => "a whole number from 1 to 64",
        Field::WriteQuorumSize => "a whole number from 1 to ensembleSize",
        Field::AckQuorumSize => "a whole number from 1 to writeQuorumSize",
        Field::Fragments => "a list of fragments, at least one",
        Field::FirstEntry => {
            "0 in the first fragment, and a greater number in each after it, up to 9223372036854775807"
        }
        Field::Ensemble => match place {
            Place::Member { .. } => "a text of 1 to 300 bytes, each 0x21 to 0x7E",
            _ => "a list of as many names of bookies as ensembleSize says",
        },
        Field::Contents => "a list of what at most 4096 bookies hold",
        Field::Entries | Field::Lacks | Field::Told => match place {
            Place::Range { .. } => {
                "[first, last] with first <= last <= 9223372036854775807, and first past the range before it"
            }
            _ => "a list of ranges of entries",
        },
        Field::End => "true",
    }
}

// The numbers in these texts are the limits.
const _: () = prove!(MAX_GRACE == 1_000_000);

const _: () = prove!(MAX_DELAY == 1_000_000);

const _: () = prove!(MAX_NAMES == 4096);

const _: () = prove!(MAX_NAME_BYTES == 300);

const _: () = prove!(MAX_ENSEMBLE == 64);

const _: () = prove!(MAX_NUMBER == 9_223_372_036_854_775_807);

impl fmt::Display for LineFault {
    ghost use Rattle.std.specs.Prelude.{Some};
    ghost use Rattle.reh_inventory_fields.specs.Expected.{fault_text};

    ghost output = { λ located. Some (fault_text located) };

    fn fmt<W: fmt::Write>(&self, f: &mut fmt::Formatter<W>) -> fmt::Result {
        let LineFault {
            fault,
            place,
            column,
        } = *self;
        let expected = expected(fault, place);
        match column {
            Some(column) => write!(f, "column {column}: expected {expected}"),
            None => {
                let path = Path {
                    place,
                    field: judged_field(fault, place),
                };
                write!(f, "{path}: expected {expected}")
            }
        }
    }
}

/// Its text.
impl fmt::Debug for LineFault {
    fn fmt<W: fmt::Write>(&self, f: &mut fmt::Formatter<W>) -> fmt::Result {
        fmt::Display::fmt(self, f)
    }
}

/// A fault of the line itself.
impl From<Fault> for LineFault {
    ghost use Rattle.std.specs.Prelude.{◌≡◌, None};
    ghost use Rattle.reh_inventory_fields.specs.declared.places.Place.TheVariants as place;

    ghost from_gives = { λ found located.
        located ≡ record { fault = found; place = place.Line; column = None } };

    fn from(fault: Fault) -> LineFault {
        LineFault::new(fault, Place::Line)
    }
}

impl From<AllocError> for LineFault {
    ghost use Rattle.std.specs.Prelude.{◌≡◌};
    ghost use Rattle.reh_inventory_fields.specs.declared.faults.Fault.TheVariants.{NoMemory};

    ghost from_gives = { λ _ located. located.fault ≡ NoMemory };

    fn from(want: AllocError) -> LineFault {
        LineFault::new(Fault::from(want), Place::Line)
    }
}

impl<T: Drop> From<AllocFailed<T>> for LineFault {
    ghost use Rattle.std.specs.Prelude.{◌≡◌};
    ghost use Rattle.reh_inventory_fields.specs.declared.faults.Fault.TheVariants.{NoMemory};

    ghost from_gives = { λ _ located. located.fault ≡ NoMemory };

    fn from(want: AllocFailed<T>) -> LineFault {
        LineFault::from(AllocError::from(want))
    }
}

/// A text that isn't JSON, or out of memory to read it.
impl From<serde_json::Error> for LineFault {
    ghost use Rattle.std.specs.Prelude.{◌≡◌};
    ghost use Rattle.serde_json.specs.Errors.{IsMemory};
    ghost use Rattle.reh_inventory_fields.specs.declared.faults.Fault.TheVariants.{NoMemory, NotJson};
    ghost use Rattle.reh_inventory_fields.specs.declared.places.Place.TheVariants as place;

    ghost from_gives = { λ error located. (IsMemory error → located.fault ≡ NoMemory)
        × (¬ IsMemory error → (located.fault ≡ NotJson) × (located.place ≡ place.Line)) };

    fn from(error: serde_json::Error) -> LineFault {
        if error.is_memory() {
            LineFault::new(Fault::NoMemory, Place::Line)
        } else {
            LineFault {
                fault: Fault::NotJson,
                place: Place::Line,
                column: Some(error.column()),
            }
        }
    }
}
