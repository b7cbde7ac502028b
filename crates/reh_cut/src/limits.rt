// The limits of a picture that ledgers of an inventory may pass, and what to do then.
use reh_inventory::Name;
use reh_types::{
    ENTRIES_IN_WORD, MAX_BOOKIES, MAX_ENSEMBLE_SIZE, MAX_ENTRY_ID, MAX_FRAGMENTS, MAX_LEDGER_ID,
    MAX_LEDGERS, MAX_PICTURE_BYTES, MAX_VERSION, MAX_WORDS,
};
use std::fmt;

/// How ledgers of more entries are cut: so many entries at a time.
#[derive(Clone, Copy)]
pub struct WayOut(pub u64);

impl fmt::Display for WayOut {
    ghost use Rattle.std.specs.Prelude.{Some};
    ghost use Rattle.reh_cut.specs.Limits.{way_text};

    ghost output = { λ way. Some (way_text way) };

    fn fmt<W: fmt::Write>(&self, f: &mut fmt::Formatter<W>) -> fmt::Result {
        let width = self.0;
        write!(
            f,
            ", and a picture up to {MAX_ENTRY_ID}: --window K cuts {width} of them"
        )
    }
}

/// A limit for a number of one ledger.
#[derive(Clone, Copy)]
pub enum LedgerLimit {
    /// The greatest id.
    Id,
    /// The greatest ensemble size.
    EnsembleSize,
    /// The greatest version.
    Version,
    /// How many fragments it may have.
    Fragments,
}

/// A number of a ledger that is past this limit.
#[derive(Clone, Copy)]
pub struct Past {
    pub limit: LedgerLimit,
    pub number: u64,
}

impl fmt::Display for Past {
    ghost use Rattle.std.specs.Prelude.{Some};
    ghost use Rattle.reh_cut.specs.Limits.{past_text};

    ghost output = { λ past. Some (past_text past) };

    fn fmt<W: fmt::Write>(&self, f: &mut fmt::Formatter<W>) -> fmt::Result {
        let number = self.number;
        match self.limit {
            LedgerLimit::Id => write!(
                f,
                "the id {number}, and a picture has ids up to {MAX_LEDGER_ID}: it can't be rehearsed, so ask ok-to-stop of the inventory"
            ),
            LedgerLimit::EnsembleSize => write!(
                f,
                "the ensemble size {number}, and a picture has sizes up to {MAX_ENSEMBLE_SIZE}: it can't be rehearsed, so ask ok-to-stop of the inventory"
            ),
            LedgerLimit::Version => write!(
                f,
                "the version {number}, and a picture has versions up to {MAX_VERSION}: leave the version out of its line"
            ),
            LedgerLimit::Fragments => write!(
                f,
                "{number} fragments, and in a picture it may have {MAX_FRAGMENTS}: it can't be rehearsed, so ask ok-to-stop of the inventory"
            ),
        }
    }
}

/// A limit for all ledgers of a picture together.
#[derive(Clone, Copy)]
pub enum TotalLimit {
    /// How many they may be.
    Ledgers,
    /// How many bookies they may name.
    Bookies,
    /// How many words the entries may take that the bookies hold of them.
    Words,
    /// How many bytes the picture may have.
    Bytes,
}

/// How much ledgers have together of what this limit is for.
#[derive(Clone, Copy)]
pub struct Sum {
    pub limit: TotalLimit,
    pub number: u64,
}

impl fmt::Display for Sum {
    ghost use Rattle.std.specs.Prelude.{Some};
    ghost use Rattle.reh_cut.specs.Limits.{sum_text};

    ghost output = { λ sum. Some (sum_text sum) };

    fn fmt<W: fmt::Write>(&self, f: &mut fmt::Formatter<W>) -> fmt::Result {
        let number = self.number;
        match self.limit {
            TotalLimit::Ledgers => write!(
                f,
                "these are {number} ledgers, and a picture has at most {MAX_LEDGERS}"
            ),
            TotalLimit::Bookies => write!(
                f,
                "these ledgers name {number} bookies, and a picture has at most {MAX_BOOKIES}"
            ),
            TotalLimit::Words => write!(
                f,
                "these ledgers take {number} words of 64 entries, and a picture has at most {MAX_WORDS}"
            ),
            TotalLimit::Bytes => write!(
                f,
                "these ledgers take {number} bytes, and a picture has at most {MAX_PICTURE_BYTES}"
            ),
        }
    }
}

// The number in a text above.
const _: () = prove!(ENTRIES_IN_WORD == 64);

/// What so many ledgers have too much of together.
#[derive(Clone, Copy)]
pub struct Total {
    pub sum: Sum,
    pub ledgers: usize,
}

impl Total {
    ghost use Rattle.std.specs.Prelude.{◌≡◌};
    ghost use Rattle.reh_cut.specs.Limits.{smaller_text};

    /// How a smaller picture is cut, if it can be.
    fn smaller(self) -> &'static str
        ensures { result.now ≡ smaller_text self.ledgers }
    {
        if self.ledgers > 1 {
            "cut fewer ledgers"
        } else {
            "no smaller part of it can be cut, so ask ok-to-stop of the inventory"
        }
    }
}

impl fmt::Display for Total {
    ghost use Rattle.std.specs.Prelude.{Some};
    ghost use Rattle.reh_cut.specs.Limits.{total_text};

    ghost output = { λ total. Some (total_text total) };

    fn fmt<W: fmt::Write>(&self, f: &mut fmt::Formatter<W>) -> fmt::Result {
        let sum = self.sum;
        let smaller = self.smaller();
        write!(f, "{sum}: {smaller}")
    }
}

/// A bookie that stands twice in the ensemble of the fragment that begins with this entry.
#[derive(Drop)]
pub struct Twice(pub Name, pub u64);

impl fmt::Display for Twice {
    ghost use Rattle.std.specs.Prelude.{Some};
    ghost use Rattle.reh_cut.specs.Limits.{twice_text};

    ghost output = { λ twice. Some (twice_text twice) };

    fn fmt<W: fmt::Write>(&self, f: &mut fmt::Formatter<W>) -> fmt::Result {
        let Twice(bookie, first) = self;
        write!(
            f,
            "{bookie} twice in its ensemble from entry {first} on, and a picture has no bookie twice: leave this ledger out"
        )
    }
}

/// The limit of a picture that ledgers pass.
#[derive(Drop)]
pub enum Limit {
    /// The ledger of this id has a number past a limit.
    Ledger(u64, Past),
    /// The ledger of this id has entries up to this one, past those that a picture may have.
    Entries(u64, u64, WayOut),
    /// The ledger of this id has a fragment from this entry on, past those that a picture may have.
    Fragment(u64, u64, WayOut),
    /// The ledger of this id has a bookie twice in an ensemble.
    Twice(u64, Twice),
    /// Together they have more of something than a picture may have.
    Total(Total),
}

impl fmt::Display for Limit {
    ghost use Rattle.std.specs.Prelude.{Some};
    ghost use Rattle.reh_cut.specs.Limits.{limit_text};

    ghost output = { λ limit. Some (limit_text limit) };

    fn fmt<W: fmt::Write>(&self, f: &mut fmt::Formatter<W>) -> fmt::Result {
        match self {
            Limit::Ledger(id, past) => write!(f, "ledger {id} has {past}"),
            Limit::Entries(id, last, way) => write!(f, "ledger {id} has entries up to {last}{way}"),
            Limit::Fragment(id, first, way) => {
                write!(f, "ledger {id} has a fragment from entry {first} on{way}")
            }
            Limit::Twice(id, twice) => write!(f, "ledger {id} has {twice}"),
            Limit::Total(total) => write!(f, "{total}"),
        }
    }
}
