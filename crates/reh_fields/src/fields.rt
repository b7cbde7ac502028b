// The fields of a picture.
ghost use Rattle.std.specs.Prelude.{◌≡◌};

use std::fmt;

/// A part of a picture that a fault names.
#[derive(Clone, Copy)]
pub enum Field {
    /// The whole picture.
    Picture,
    /// The number of the format.
    Format,
    /// The grace of an open ledger, in ticks.
    Grace,
    /// For how many ticks after a bookie's loss an audit waits.
    LostDelayTicks,
    /// The list of bookies.
    Bookies,
    /// One bookie, or the name of the bookie that holds entries.
    Bookie,
    /// A bookie's name.
    Name,
    /// Whether a bookie is registered.
    Up,
    /// Whether a bookie is read-only.
    ReadOnly,
    /// Whether a bookie came back without its disk.
    Empty,
    /// A bookie's rack.
    Rack,
    /// The list of ledgers.
    Ledgers,
    /// One ledger, or the id of the ledger whose entries are held.
    Ledger,
    /// A ledger's id.
    Id,
    /// Where a ledger stands.
    State,
    /// The last entry id of a closed ledger.
    LastEntryId,
    /// How many bookies an ensemble has.
    EnsembleSize,
    /// How many of them an entry is written to.
    WriteQuorumSize,
    /// How many of these must have acknowledged it.
    AckQuorumSize,
    /// The version of a ledger's metadata.
    Version,
    /// The list of a ledger's fragments.
    Fragments,
    /// One fragment.
    Fragment,
    /// A fragment's first entry.
    FirstEntry,
    /// The list of the bookies of a fragment, by their names.
    Ensemble,
    /// The list of what the bookies hold.
    Contents,
    /// What one bookie holds of one ledger.
    Content,
    /// The list of ranges of entries.
    Entries,
    /// Whether nobody told it, so that it is assumed.
    Assumed,
}

impl Field {
    ghost use Rattle.reh_fields.specs.Fields.{field_name};

    /// Its name in a picture and in a fault.
    pub fn name(self) -> &'static str
        ensures { result.now ≡ field_name self }
    {
        match self {
            Field::Picture => "picture",
            Field::Format => "format",
            Field::Grace => "grace",
            Field::LostDelayTicks => "lostDelayTicks",
            Field::Bookies => "bookies",
            Field::Bookie => "bookie",
            Field::Name => "name",
            Field::Up => "up",
            Field::ReadOnly => "readOnly",
            Field::Empty => "empty",
            Field::Rack => "rack",
            Field::Ledgers => "ledgers",
            Field::Ledger => "ledger",
            Field::Id => "id",
            Field::State => "state",
            Field::LastEntryId => "lastEntryId",
            Field::EnsembleSize => "ensembleSize",
            Field::WriteQuorumSize => "writeQuorumSize",
            Field::AckQuorumSize => "ackQuorumSize",
            Field::Version => "version",
            Field::Fragments => "fragments",
            Field::Fragment => "fragment",
            Field::FirstEntry => "firstEntry",
            Field::Ensemble => "ensemble",
            Field::Contents => "contents",
            Field::Content => "content",
            Field::Entries => "entries",
            Field::Assumed => "assumed",
        }
    }
}

impl fmt::Display for Field {
    ghost use Rattle.std.specs.Prelude.{Some};
    ghost use Rattle.reh_fields.specs.Fields.{field_name};

    ghost output = { λ field. Some (field_name field) };

    fn fmt<W: fmt::Write>(&self, f: &mut fmt::Formatter<W>) -> fmt::Result {
        f.write_str(self.name())
    }
}
