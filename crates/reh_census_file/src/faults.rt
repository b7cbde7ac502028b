// Why a text is no census.
use std::alloc::{AllocError, AllocFailed};
use std::fmt;
use thiserror::Error;

/// A word that stands before a value.
#[derive(Clone, Copy)]
pub enum Keyword {
    Census,
    Strict,
    Taken,
    ReadOnly,
    Empty,
    Assumed,
    Unread,
    Missing,
    Write,
    Ack,
    Known,
    Untold,
    Size,
}

impl Keyword {
    ghost use Rattle.std.specs.Prelude.{◌≡◌};
    ghost use Rattle.reh_census_file.specs.Faults.{word_text};

    /// The word itself.
    pub fn text(self) -> &'static str
        ensures { result.now ≡ word_text self }
    {
        match self {
            Keyword::Census => "census",
            Keyword::Strict => "strict",
            Keyword::Taken => "taken",
            Keyword::ReadOnly => "read-only",
            Keyword::Empty => "empty",
            Keyword::Assumed => "assumed",
            Keyword::Unread => "unread",
            Keyword::Missing => "missing",
            Keyword::Write => "write",
            Keyword::Ack => "ack",
            Keyword::Known => "known",
            Keyword::Untold => "untold",
            Keyword::Size => "size",
        }
    }
}

/// Which lines have come, and so which may follow.
#[derive(Clone, Copy)]
pub enum Part {
    /// Those of bookies, at most.
    Bookies,
    /// The one of ledgers, and those of entries, at most.
    Entries,
    /// Those of tails, too.
    Tails,
    /// Those of ensembles, too.
    Ensembles,
}

impl Part {
    ghost use Rattle.std.specs.Prelude.{◌≡◌};
    ghost use Rattle.reh_census_file.specs.Faults.{part_text};

    /// The lines that may follow.
    fn text(self) -> &'static str
        ensures { result.now ≡ part_text self }
    {
        match self {
            Part::Bookies => "a line `bookie` or `ledgers`",
            Part::Entries => "a line `entries`, `tail`, `ensemble` or `end`",
            Part::Tails => "a line `tail`, `ensemble` or `end`",
            Part::Ensembles => "a line `ensemble` or `end`",
        }
    }
}

/// What a line should have had.
#[derive(Clone, Copy)]
pub enum Expected {
    /// The version of the text, which is 1.
    Version,
    /// This word.
    Keyword(Keyword),
    YesOrNo,
    UpOrDown,
    OpenOrInRecovery,
    /// A time, or that there is none.
    Time,
    /// The name of a bookie or a rack.
    Name,
    /// A number.
    Number,
    /// A number of 1 or more.
    Count,
    /// The name of a bookie that has a line.
    KnownBookie,
    /// What may follow a bookie's name and whether it is up.
    BookieEnd,
    /// No further word.
    LineEnd,
    /// A line of another kind.
    Line(Part),
    /// No further bookie.
    FewBookies,
    /// A bookie whose name comes later.
    LaterBookie,
    /// Fewer ledgers that were not judged.
    FewNotJudged,
    /// Quorums of a ledger.
    Quorums,
    /// Quorums and an ensemble size of a ledger.
    Sizes,
    /// Bookies that may hold copies.
    Copies,
    /// Members of an ensemble.
    Members,
    /// Entries of a class that comes later.
    LaterEntries,
    /// A tail that comes later.
    LaterTail,
    /// An ensemble that comes later.
    LaterEnsemble,
    /// Smaller counts.
    SmallerCounts,
    /// The line that ends the census, with so many lines before it.
    End(u64),
    /// A further line.
    MoreLines,
    /// No further line.
    NoMoreLines,
}

impl Expected {
    ghost use Rattle.std.specs.Prelude.{◌≡◌};
    ghost use Rattle.reh_census_file.specs.Faults.{fixed_text};

    /// What is printed, but for a word, lines and numbers.
    fn fixed_text(self) -> &'static str
        ensures { result.now ≡ fixed_text self }
    {
        match self {
            Expected::Version => "version 1, since no other can be read",
            Expected::YesOrNo => "`yes` or `no`",
            Expected::UpOrDown => "`up` or `down`",
            Expected::OpenOrInRecovery => "`open` or `in-recovery`",
            Expected::Time => "`-`, or a time of 1 to 300 bytes from 0x21 to 0x7E",
            Expected::Name => "a name of 1 to 300 bytes from 0x21 to 0x7E",
            Expected::Number => "a number from 0 to 9223372036854775808 in decimal digits",
            Expected::Count => "a number from 1 to 9223372036854775808 in decimal digits",
            Expected::KnownBookie => "the name of a bookie that has a line",
            Expected::BookieEnd =>
                "`read-only`, `empty`, `rack` or the end of the line, in this order",
            Expected::LineEnd => "the end of the line",
            Expected::FewBookies => "no more than 4096 bookies",
            Expected::LaterBookie => "a bookie whose name comes after the one before it",
            Expected::FewNotJudged => "no more than 9223372036854775808 ledgers not judged",
            Expected::Quorums => "1 <= ack quorum <= write quorum <= 64",
            Expected::Sizes => "1 <= ack quorum <= write quorum <= ensemble size <= 64",
            Expected::Copies => {
                "bookies that are up and not empty, each once, in order, up to the write quorum"
            }
            Expected::Members => "1 to 64 bookies, each once, in order",
            Expected::LaterEntries => "entries whose bookies and quorums come after those before",
            Expected::LaterTail => "a tail whose sizes, state and bookies come after those before",
            Expected::LaterEnsemble => "an ensemble whose bookies come after those before",
            Expected::SmallerCounts => "counts of no more than 9223372036854775808 in all",
            Expected::MoreLines => "a further line, since the text is cut",
            Expected::NoMoreLines => "the end of the text",
            Expected::Keyword(_) | Expected::Line(_) | Expected::End(_) => "",
        }
    }
}

impl fmt::Display for Expected {
    ghost use Rattle.std.specs.Prelude.{Some};
    ghost use Rattle.reh_census_file.specs.Faults.{expected_text};

    ghost output = { λ expected. Some (expected_text expected) };

    fn fmt<W: fmt::Write>(&self, f: &mut fmt::Formatter<W>) -> fmt::Result {
        match *self {
            Expected::Keyword(word) => write!(f, "`{}`", word.text()),
            Expected::Line(part) => f.write_str(part.text()),
            Expected::End(lines) => write!(f, "`end {lines}`"),
            fixed => f.write_str(fixed.fixed_text()),
        }
    }
}

/// Why a text is no census.
#[derive(Clone, Copy, Error)]
pub enum CensusFault {
    /// This line, counted from 1, should have had something else.
    Line(u64, Expected),
    /// There is no memory to read the census.
    NoMemory,
}

impl fmt::Display for CensusFault {
    ghost use Rattle.std.specs.Prelude.{Some};
    ghost use Rattle.reh_census_file.specs.Faults.{fault_text};

    ghost output = { λ fault. Some (fault_text fault) };

    fn fmt<W: fmt::Write>(&self, f: &mut fmt::Formatter<W>) -> fmt::Result {
        match self {
            CensusFault::Line(line, expected) => write!(f, "line {line}: expected {expected}"),
            CensusFault::NoMemory => f.write_str("no memory"),
        }
    }
}

/// Its text.
impl fmt::Debug for CensusFault {
    fn fmt<W: fmt::Write>(&self, f: &mut fmt::Formatter<W>) -> fmt::Result {
        fmt::Display::fmt(self, f)
    }
}

impl From<AllocError> for CensusFault {
    ghost use Rattle.std.specs.Prelude.{◌≡◌};
    ghost use Rattle.reh_census_file.specs.declared.faults.CensusFault.TheVariants.{NoMemory};

    ghost from_gives = { λ _ fault. fault ≡ NoMemory };

    fn from(_want: AllocError) -> CensusFault {
        CensusFault::NoMemory
    }
}

/// Why a line isn't read.
#[derive(Drop)]
pub(crate) enum LineFault {
    /// There is no memory.
    NoMemory,
    /// This should have stood there.
    At(Expected),
}

impl From<AllocError> for LineFault {
    ghost use Rattle.std.specs.Prelude.{◌≡◌};
    ghost use Rattle.reh_census_file.specs.declared.faults.LineFault.TheVariants.{NoMemory};

    ghost from_gives = { λ _ stop. stop ≡ NoMemory };

    fn from(_want: AllocError) -> LineFault {
        LineFault::NoMemory
    }
}

impl<T: Drop> From<AllocFailed<T>> for LineFault {
    ghost use Rattle.std.specs.Prelude.{◌≡◌};
    ghost use Rattle.reh_census_file.specs.declared.faults.LineFault.TheVariants.{NoMemory};

    ghost from_gives = { λ _ stop. stop ≡ NoMemory };

    fn from(want: AllocFailed<T>) -> LineFault {
        LineFault::from(AllocError::from(want))
    }
}
