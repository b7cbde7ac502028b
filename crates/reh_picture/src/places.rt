// Where a refused picture's first fault is, and what was expected there.
ghost use Rattle.std.specs.Prelude.{◌≡◌};
ghost use Rattle.reh_picture.specs.Expected.{element_field, faulty_field, wanted_text, expected_text, rule_text};

use reh_fields::{Field, LedgerFlaw, PictureFault, Repeated};
use reh_types::{
    MAX_BOOKIES, MAX_DELAY, MAX_ENSEMBLE_SIZE, MAX_ENTRY_ID, MAX_FRAGMENTS, MAX_GRACE,
    MAX_LEDGER_ID, MAX_LEDGERS, MAX_NAME_BYTES, MAX_PICTURE_BYTES, MAX_VERSION, MAX_WORDS,
};
use std::alloc::{AllocError, AllocFailed};
use std::error::Error;
use std::fmt;

/// A part of a picture, by the numbers of elements of its lists, each from 0 on.
#[derive(Clone, Copy)]
pub enum Place {
    /// The picture itself.
    Picture,
    /// A bookie.
    Bookie(usize),
    /// A ledger.
    Ledger(usize),
    /// A fragment of a ledger.
    Fragment {
        ledger: usize,
        fragment: usize,
    },
    /// A member of a fragment's ensemble.
    Member {
        ledger: usize,
        fragment: usize,
        member: usize,
    },
    /// What one bookie holds of one ledger.
    Content(usize),
    /// A range of the entries that it holds.
    Range {
        content: usize,
        range: usize,
    },
}

impl Place {
    /// The field that a fault of the part as a whole names.
    fn element(self) -> Field
        ensures { result ≡ element_field self }
    {
        match self {
            Place::Picture => Field::Picture,
            Place::Bookie(_) => Field::Bookie,
            Place::Ledger(_) => Field::Ledger,
            Place::Fragment { .. } => Field::Fragment,
            Place::Member { .. } => Field::Ensemble,
            Place::Content(_) => Field::Content,
            Place::Range { .. } => Field::Entries,
        }
    }
}

impl fmt::Display for Place {
    ghost use Rattle.std.specs.Prelude.{Some};
    ghost use Rattle.reh_picture.specs.Expected.{place_text};

    ghost output = { λ here. Some (place_text here) };

    fn fmt<W: fmt::Write>(&self, f: &mut fmt::Formatter<W>) -> fmt::Result {
        match self {
            Place::Picture => f.write_str("picture"),
            Place::Bookie(bookie) => write!(f, "bookies[{bookie}]"),
            Place::Ledger(ledger) => write!(f, "ledgers[{ledger}]"),
            Place::Fragment { ledger, fragment } => {
                write!(f, "ledgers[{ledger}].fragments[{fragment}]")
            }
            Place::Member {
                ledger,
                fragment,
                member,
            } => write!(
                f,
                "ledgers[{ledger}].fragments[{fragment}].ensemble[{member}]"
            ),
            Place::Content(content) => write!(f, "contents[{content}]"),
            Place::Range { content, range } => write!(f, "contents[{content}].entries[{range}]"),
        }
    }
}

/// A field of a part of a picture, or the part itself where the field is what the part is.
#[derive(Clone, Copy)]
struct Path {
    place: Place,
    field: Field,
}

impl fmt::Display for Path {
    ghost use Rattle.std.specs.Prelude.{Some};
    ghost use Rattle.reh_picture.specs.Expected.{path_text};

    ghost output = { λ path. Some (path_text path.place path.field) };

    fn fmt<W: fmt::Write>(&self, f: &mut fmt::Formatter<W>) -> fmt::Result {
        let Path { place, field } = *self;
        if field.name() == place.element().name() {
            fmt::Display::fmt(&place, f)
        } else if matches!(place, Place::Picture) {
            f.write_str(field.name())
        } else {
            write!(f, "{place}.{field}")
        }
    }
}

/// A place in a text, by its line and its column, both from 1 on.
#[derive(Clone, Copy)]
pub struct TextPlace {
    pub line: usize,
    pub column: usize,
}

impl fmt::Display for TextPlace {
    ghost use Rattle.std.specs.Prelude.{Some};
    ghost use Rattle.reh_picture.specs.Expected.{text_place_text};

    ghost output = { λ text. Some (text_place_text text) };

    fn fmt<W: fmt::Write>(&self, f: &mut fmt::Formatter<W>) -> fmt::Result {
        write!(f, "line {}, column {}", self.line, self.column)
    }
}

/// Why a picture is refused, and where in it that is. Its text has a second line, with the place and what was expected.
#[derive(Drop)]
pub struct LocatedFault {
    /// The first fault.
    pub fault: PictureFault,
    /// The part of the picture that has it.
    pub place: Place,
    /// Where a text is no more JSON, as `serde_json` tells it; no contract speaks of it.
    pub text: Option<TextPlace>,
}

impl LocatedFault {
    ghost use Rattle.std.specs.Prelude.{None};

    /// A fault with its place.
    pub(crate) fn new(fault: PictureFault, place: Place) -> LocatedFault
        ensures { result ≡ record { fault = fault; place = place; text = None } }
    {
        LocatedFault {
            fault,
            place,
            text: None,
        }
    }
}

/// The field that was judged, where a fault is at this place.
fn judged_field(fault: &PictureFault, place: Place) -> Field
    ensures { result ≡ faulty_field fault.now place }
{
    match fault {
        PictureFault::Missing(field)
        | PictureFault::WrongKind(field)
        | PictureFault::Limit(field) => *field,
        PictureFault::BadName | PictureFault::Twice(Repeated::Bookie(_)) => Field::Name,
        PictureFault::Twice(Repeated::Ledger(_)) => Field::Id,
        PictureFault::UnknownBookie(_) => match place {
            Place::Member { .. } => Field::Ensemble,
            _ => Field::Bookie,
        },
        PictureFault::BadLedger(_, LedgerFlaw::Quorum | LedgerFlaw::Unknown) => Field::Ledger,
        PictureFault::BadLedger(_, LedgerFlaw::Fragment | LedgerFlaw::Ensemble) => Field::Fragments,
        PictureFault::BadLedger(_, LedgerFlaw::Last) => Field::LastEntryId,
        PictureFault::Twice(Repeated::Content(_, _))
        | PictureFault::TooLong
        | PictureFault::NotJson
        | PictureFault::NoMemory => place.element(),
    }
}

/// What was expected in the stead of what a fault at this place judged.
fn expected(fault: &PictureFault, place: Place) -> &'static str
    ensures { result.now ≡ expected_text fault.now place }
{
    match fault {
        PictureFault::TooLong => "at most 8388608 bytes",
        PictureFault::NotJson => "JSON",
        PictureFault::Limit(Field::Contents) => {
            "entries that take at most 4194304 words of 64, counted for every bookie up to a ledger's \
             greatest entry"
        }
        PictureFault::Missing(field)
        | PictureFault::WrongKind(field)
        | PictureFault::Limit(field) => wanted(*field, place),
        PictureFault::BadName => wanted(Field::Name, place),
        PictureFault::Twice(Repeated::Bookie(_)) => "a name that no bookie before it has",
        PictureFault::Twice(Repeated::Ledger(_)) => "an id that no ledger before it has",
        PictureFault::Twice(Repeated::Content(_, _)) => {
            "another bookie or another ledger than in each content before it"
        }
        PictureFault::UnknownBookie(_) => "the name of a bookie of the picture",
        PictureFault::BadLedger(_, flaw) => rule(*flaw),
        PictureFault::NoMemory => "more memory",
    }
}

/// The rule that a ledger with this flaw breaks.
fn rule(flaw: LedgerFlaw) -> &'static str
    ensures { result.now ≡ rule_text flaw }
{
    match flaw {
        LedgerFlaw::Quorum => "1 <= ackQuorumSize <= writeQuorumSize <= ensembleSize <= 16",
        LedgerFlaw::Fragment => "firstEntry 0 in the first, and a greater one in each after it",
        LedgerFlaw::Ensemble => "as many different bookies in each ensemble as ensembleSize says",
        LedgerFlaw::Last => "at least the firstEntry of the last fragment minus 1",
        LedgerFlaw::Unknown => "the id of a ledger of the picture",
    }
}

/// What a field must be, at this place.
fn wanted(field: Field, place: Place) -> &'static str
    ensures { result.now ≡ wanted_text field place }
{
    match field {
        Field::Format => "1 or 2",
        Field::Grace | Field::LostDelayTicks => "a whole number from 0 to 1000000",
        Field::Bookies => "a list of 1 to 64 bookies",
        Field::Name | Field::Rack => "a text of 1 to 300 bytes, each 0x21 to 0x7E",
        Field::Up | Field::ReadOnly | Field::Empty | Field::Assumed => "true or false",
        Field::Ledgers => "a list of at most 512 ledgers",
        Field::Id => "a whole number from 0 to 1000000000000",
        Field::State => "OPEN, IN_RECOVERY or CLOSED",
        Field::LastEntryId => "a whole number from -1 to 65535",
        Field::EnsembleSize | Field::WriteQuorumSize | Field::AckQuorumSize => {
            "a whole number from 1 to 16"
        }
        Field::Version => "a whole number from 0 to 1000000000000",
        Field::Fragments => "a list of at most 256 fragments",
        Field::FirstEntry => "a whole number from 0 to 65535",
        Field::Contents => "a list of what bookies hold",
        Field::Picture | Field::Fragment | Field::Content => "an object",
        Field::Bookie => match place {
            Place::Content(_) => "the name of a bookie of the picture",
            _ => "an object",
        },
        Field::Ledger => match place {
            Place::Content(_) => "the id of a ledger of the picture",
            _ => "an object",
        },
        Field::Ensemble => match place {
            Place::Member { .. } => "the name of a bookie of the picture",
            _ => "a list of names of bookies",
        },
        Field::Entries => match place {
            Place::Range { .. } => {
                "[first, last] with first <= last <= 65535, and first past the range before it"
            }
            _ => "a list of ranges of entries",
        },
    }
}

// The numbers in these texts are the limits.
const _: () = prove!(MAX_PICTURE_BYTES == 8_388_608);

const _: () = prove!(MAX_WORDS == 4_194_304);

const _: () = prove!(MAX_GRACE == 1_000_000);

const _: () = prove!(MAX_DELAY == 1_000_000);

const _: () = prove!(MAX_BOOKIES == 64);

const _: () = prove!(MAX_NAME_BYTES == 300);

const _: () = prove!(MAX_LEDGERS == 512);

const _: () = prove!(MAX_LEDGER_ID == 1_000_000_000_000);

const _: () = prove!(MAX_VERSION == 1_000_000_000_000);

const _: () = prove!(MAX_ENSEMBLE_SIZE == 16);

const _: () = prove!(MAX_FRAGMENTS == 256);

const _: () = prove!(MAX_ENTRY_ID == 65_535);

impl fmt::Display for LocatedFault {
    ghost use Rattle.std.specs.Prelude.{Some};
    ghost use Rattle.reh_picture.specs.Expected.{located_text};

    ghost output = { λ located. Some (located_text located) };

    fn fmt<W: fmt::Write>(&self, f: &mut fmt::Formatter<W>) -> fmt::Result {
        let LocatedFault { fault, place, text } = self;
        let expected = expected(fault, *place);
        match text {
            Some(text) => write!(f, "{fault}\nat {text}: expected {expected}"),
            None => {
                let path = Path {
                    place: *place,
                    field: judged_field(fault, *place),
                };
                write!(f, "{fault}\nat {path}: expected {expected}")
            }
        }
    }
}

/// Its text.
impl fmt::Debug for LocatedFault {
    fn fmt<W: fmt::Write>(&self, f: &mut fmt::Formatter<W>) -> fmt::Result {
        fmt::Display::fmt(self, f)
    }
}

impl Error for LocatedFault {}

impl From<AllocError> for LocatedFault {
    ghost use Rattle.std.specs.Prelude.{◌≡◌};
    ghost use Rattle.reh_fields.specs.declared.faults.PictureFault.TheVariants.{NoMemory};

    ghost from_gives = { λ _ located. located.fault ≡ NoMemory };

    fn from(want: AllocError) -> LocatedFault {
        LocatedFault::new(PictureFault::from(want), Place::Picture)
    }
}

impl<T: Drop> From<AllocFailed<T>> for LocatedFault {
    ghost use Rattle.std.specs.Prelude.{◌≡◌};
    ghost use Rattle.reh_fields.specs.declared.faults.PictureFault.TheVariants.{NoMemory};

    ghost from_gives = { λ _ located. located.fault ≡ NoMemory };

    fn from(want: AllocFailed<T>) -> LocatedFault {
        LocatedFault::from(AllocError::from(want))
    }
}

/// A text that isn't JSON, or out of memory to read it.
impl From<serde_json::Error> for LocatedFault {
    ghost use Rattle.std.specs.Prelude.{◌≡◌};
    ghost use Rattle.serde_json.specs.Errors.{IsMemory};
    ghost use Rattle.reh_fields.specs.declared.faults.PictureFault.TheVariants.{NoMemory, NotJson};
    ghost use Rattle.reh_picture.specs.declared.places.Place.TheVariants as place;

    ghost from_gives = { λ error located. (IsMemory error → located.fault ≡ NoMemory)
        × (¬ IsMemory error → (located.fault ≡ NotJson) × (located.place ≡ place.Picture)) };

    fn from(error: serde_json::Error) -> LocatedFault {
        let text = TextPlace {
            line: error.line(),
            column: error.column(),
        };
        LocatedFault {
            fault: PictureFault::from(error),
            place: Place::Picture,
            text: Some(text),
        }
    }
}
