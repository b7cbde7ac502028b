// The fields of an inventory's lines.
ghost use Rattle.std.specs.Prelude.{◌≡◌};

use std::fmt;

/// A part of a line that a fault names.
#[derive(Clone, Copy)]
pub enum Field {
    /// The whole line.
    Line,
    /// The number of the format, in the first line.
    Inventory,
    /// When the inventory was taken.
    Taken,
    /// The grace of an open ledger, in ticks.
    Grace,
    /// For how many ticks after a bookie's loss an audit waits.
    LostDelayTicks,
    /// What members of which nothing is told are assumed to hold.
    Held,
    /// The list of bookies.
    Bookies,
    /// One bookie, or the name of the bookie of a content.
    Bookie,
    /// A bookie's name.
    Name,
    /// Whether a bookie is registered.
    Up,
    /// Whether a bookie is read-only.
    ReadOnly,
    /// Whether a bookie came back without its disk.
    Empty,
    /// A bookie's rack.
    Rack,
    /// A ledger's id.
    Id,
    /// Whether a ledger could not be read.
    Unread,
    /// Where a ledger stands.
    State,
    /// The last entry id of a closed ledger.
    LastEntryId,
    /// How many bookies an ensemble has.
    EnsembleSize,
    /// How many of them an entry is written to.
    WriteQuorumSize,
    /// How many of these must have acknowledged it.
    AckQuorumSize,
    /// The version of a ledger's metadata.
    Version,
    /// A ledger's length, in bytes.
    Length,
    /// The list of a ledger's fragments.
    Fragments,
    /// One fragment.
    Fragment,
    /// A fragment's first entry.
    FirstEntry,
    /// The list of the bookies of a fragment, by their names.
    Ensemble,
    /// The list of what bookies hold of a ledger.
    Contents,
    /// What one bookie holds of a ledger.
    Content,
    /// The list of the ranges of entries that a bookie holds.
    Entries,
    /// The list of the ranges of entries that a bookie lacks.
    Lacks,
    /// The list of the ranges of entries of which a content speaks.
    Told,
    /// Whether nobody told it, so that it is assumed.
    Assumed,
    /// Whether the line is the last one.
    End,
    /// How many lines of ledgers there are.
    Ledgers,
}

impl Field {
    ghost use Rattle.reh_inventory_fields.specs.Fields.{field_name};

    /// Its name in a line.
    pub fn name(self) -> &'static str
        ensures { result.now ≡ field_name self }
    {
        match self {
            Field::Line => "line",
            Field::Inventory => "inventory",
            Field::Taken => "taken",
            Field::Grace => "grace",
            Field::LostDelayTicks => "lostDelayTicks",
            Field::Held => "held",
            Field::Bookies => "bookies",
            Field::Bookie => "bookie",
            Field::Name => "name",
            Field::Up => "up",
            Field::ReadOnly => "readOnly",
            Field::Empty => "empty",
            Field::Rack => "rack",
            Field::Id => "id",
            Field::Unread => "unread",
            Field::State => "state",
            Field::LastEntryId => "lastEntryId",
            Field::EnsembleSize => "ensembleSize",
            Field::WriteQuorumSize => "writeQuorumSize",
            Field::AckQuorumSize => "ackQuorumSize",
            Field::Version => "version",
            Field::Length => "length",
            Field::Fragments => "fragments",
            Field::Fragment => "fragment",
            Field::FirstEntry => "firstEntry",
            Field::Ensemble => "ensemble",
            Field::Contents => "contents",
            Field::Content => "content",
            Field::Entries => "entries",
            Field::Lacks => "lacks",
            Field::Told => "told",
            Field::Assumed => "assumed",
            Field::End => "end",
            Field::Ledgers => "ledgers",
        }
    }
}

impl fmt::Display for Field {
    ghost use Rattle.std.specs.Prelude.{Some};
    ghost use Rattle.reh_inventory_fields.specs.Fields.{field_name};

    ghost output = { λ field. Some (field_name field) };

    fn fmt<W: fmt::Write>(&self, f: &mut fmt::Formatter<W>) -> fmt::Result {
        f.write_str(self.name())
    }
}
