// Censuses.
ghost use Rattle.std.specs.Prelude.{◌≡◌, ◌-◌, ◌+◌, ◌≤◌, ◌^◌, All, unwrap_or};
ghost use Rattle.reh_census.specs.Counting.{ensembles_in, entries_in, not_judged, tails_in};
ghost use Rattle.reh_census.specs.Tails.{IsTail};

use crate::classes::Counted;
use crate::names::Names;
use std::marker::Model;

/// The last ensemble of a ledger that isn't closed, with its sizes, and whether the ledger is OPEN.
#[derive(Drop)]
pub struct Tail {
    pub size: u64,
    pub write_quorum: u64,
    pub ack_quorum: u64,
    pub is_open: bool,
    pub ensemble: Names,
}

/// So many ledgers that aren't closed have this tail.
#[derive(Drop)]
pub struct CountedTail {
    pub tail: Tail,
    pub count: u64,
}

/// So many fragments have these members.
#[derive(Drop)]
pub struct CountedEnsemble {
    pub members: Names,
    pub count: u64,
}

/// How many ledgers were counted, how many entries rest on an assumption, how many ledgers could not be read, and how
/// many more were announced.
#[derive(Clone, Copy)]
pub struct Judged {
    pub ledgers: u64,
    pub assumed: u64,
    pub unread: u64,
    pub missing: u64,
}

/// Entries, tails and fragments, counted.
#[derive(Drop)]
pub struct Census {
    entries: Vec<Counted>,
    tails: Vec<CountedTail>,
    ensembles: Vec<CountedEnsemble>,
    judged: Judged,
}

impl Model for Census {
    ghost use Rattle.reh_census.specs.Counting.{Census as CensusValue};
    ghost use Rattle.reh_census.specs.CensusInside.{census_in, IsCensusIn};

    ghost Value = { CensusValue };

    ghost view = { census_in };

    ghost invariant = { IsCensusIn };
}

impl Census {
    ghost use Rattle.reh_census.specs.Counting.{IsWithin, census_by};

    /// The census of these counts.
    pub fn of(
        entries: Vec<Counted>,
        tails: Vec<CountedTail>,
        ensembles: Vec<CountedEnsemble>,
        judged: Judged,
    ) -> Census
        requires { IsWithin (census_by entries.items tails.items ensembles.items judged) }
        ensures { result ≡ census_by entries.items tails.items ensembles.items judged }
    {
        Census {
            entries,
            tails,
            ensembles,
            judged,
        }
    }

    pub fn entries(&self) -> &[Counted]
        ensures entries { result.now ≡ self.now.entries }
        ensures within { entries_in result.now ≤ 2 ^ 63 }
    {
        &self.entries
    }

    pub fn tails(&self) -> &[CountedTail]
        ensures tails { result.now ≡ self.now.tails }
        ensures within { tails_in result.now ≤ 2 ^ 63 }
        ensures well_formed { All (λ t. IsTail t.tail) result.now }
    {
        &self.tails
    }

    pub fn ensembles(&self) -> &[CountedEnsemble]
        ensures ensembles { result.now ≡ self.now.ensembles }
        ensures within { ensembles_in result.now ≤ 2 ^ 63 }
    {
        &self.ensembles
    }

    pub fn judged(&self) -> Judged
        ensures { result ≡ self.now.judged }
    {
        self.judged
    }

    /// How many ledgers were not judged.
    pub fn not_judged(&self) -> u64
        ensures { result ≡ not_judged self.now.judged }
    {
        self.judged.unread + self.judged.missing
    }
}

/// How many ledgers of an input were announced, and neither counted nor found unreadable: a number of its own, so that an
/// input which counts more ledgers than it announced makes up for none that another input misses.
pub fn missing_of(announced: Option<u64>, counted: u64, unread: u64) -> u64
    ensures { result ≡ unwrap_or announced 0 - (counted + unread) }
{
    announced
        .unwrap_or(0)
        .saturating_sub(counted)
        .saturating_sub(unread)
}
