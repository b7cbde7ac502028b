// What is counted of ledgers, one after another.
ghost use Rattle.std.specs.Prelude.{◌≡◌, ◌≤◌, ◌^◌, ◌++◌, ◌∷◌, [], ℕ, List, IfOk, IfSome, IsTrue, OnOk};
ghost use Rattle.reh_census.specs.Counting.{not_judged};
ghost use Rattle.reh_census.specs.Order.{IsInOrder};
ghost use Rattle.reh_census.specs.Bookies.{bookies_of, holders};
ghost use Rattle.reh_census.specs.Counting as census;
ghost use Rattle.reh_census.specs.Ledgers.{Ledger as LedgerValue};
ghost use Rattle.reh_tally.specs.Few.{AreFewCounts};
ghost use Rattle.reh_inventory_census.specs.Counting as model;

use reh_census::{Bookies, Census, Counted, CountedEnsemble, CountedTail, Judged, Ledger};
use reh_tally::{
    TallyFault, census_of_counts, ensembles_in, ensembles_of, entries_in, entries_of, merged,
    merged_ensembles, merged_tails, tails_in, tails_of,
};
use std::alloc::{AllocError, Global};
use std::marker::Model;
use std::mem;

/// How far is counted.
pub(crate) const MOST: u64 = 1 << 63;

/// Of how many lines at most nothing is joined, beside twice as many as the last time were left.
const LEAST_TO_JOIN: usize = 1 << 16;

/// Why no more can be counted.
#[derive(Clone, Copy)]
pub(crate) enum CountsFault {
    /// A census counts no more entries, ledgers or fragments.
    TooMany,
    /// There is no memory.
    NoMemory,
}

impl From<AllocError> for CountsFault {
    ghost use Rattle.std.specs.Prelude.{◌≡◌};
    ghost use Rattle.reh_inventory_census.specs.declared.counts.CountsFault.TheVariants.{NoMemory};

    ghost from_gives = { λ _ fault. fault ≡ NoMemory };

    fn from(_want: AllocError) -> CountsFault {
        CountsFault::NoMemory
    }
}

/// Entries, tails and ensembles of ledgers, counted. Equal ones are joined from time to time.
#[derive(Drop)]
pub(crate) struct Counts {
    entries: Vec<Counted>,
    tails: Vec<CountedTail>,
    ensembles: Vec<CountedEnsemble>,
    to_join: usize,
}

impl Model for Counts {
    ghost use Rattle.std.specs.Prelude.{All};
    ghost use Rattle.reh_census.specs.Tails.{IsTail};
    ghost use Rattle.reh_inventory_census.specs.Counting as model;

    ghost Value = { model.Counts };

    ghost view = { λ c. model.counts_by c.entries.items c.tails.items c.ensembles.items };

    ghost invariant = { λ c. All (λ t. IsTail t.tail) c.tails.items };
}

/// How many of the entries have a known copy, if a number of 64 bits can say that.
pub(crate) fn held_among(entries: &[Counted]) -> Option<u64>
    ensures { IfSome result (λ held. held ≡ census.count_in entries.now model.is_held) }
{
    let mut held: u64 = 0;
    for counted in entries {
        if !counted.class.known.as_slice().is_empty() {
            held = held.checked_add(counted.count)?;
        }
    }
    Some(held)
}

impl Counts {
    /// Nothing counted.
    pub(crate) fn new(alloc: Global) -> Counts
        ensures { (holders : List ℕ) → model.CountsLedgers holders [] result }
    {
        Counts {
            entries: Vec::new(alloc),
            tails: Vec::new(alloc),
            ensembles: Vec::new(alloc),
            to_join: LEAST_TO_JOIN,
        }
    }

    /// How many lines a census of this would have, if none were joined.
    fn len(&self) -> usize {
        let others = self.tails.len().saturating_add(self.ensembles.len());
        self.entries.len().saturating_add(others)
    }

    /// What is counted of one ledger.
    pub(crate) fn of(alloc: Global, bookies: &Bookies, ledger: Ledger) -> Result<Counts, AllocError>
        ensures { IfOk result (λ counts.
            model.CountsLedgers (holders (bookies_of bookies.now)) (ledger ∷ []) counts) }
    {
        let ledgers = [ledger];
        let entries = entries_of(alloc, bookies, &ledgers)?;
        let tails = tails_of(alloc, &ledgers)?;
        let ensembles = ensembles_of(alloc, &ledgers)?;
        Ok(Counts {
            entries,
            tails,
            ensembles,
            to_join: LEAST_TO_JOIN,
        })
    }

    /// Adds what is counted of further ledgers, and joins equal lines, if there are many. After an `Err` a part of it may be
    /// there.
    pub(crate) fn add(&mut self, alloc: Global, other: Counts) -> Result<(), CountsFault>
        ensures { OnOk result ((holders : List ℕ) (ledgers more : List LedgerValue)
            → model.CountsLedgers holders ledgers self.old → model.CountsLedgers holders more other
            → model.CountsLedgers holders (ledgers ++ more) self.new) }
    {
        self.append(other)?;
        self.join_if_long(alloc)
    }

    /// Adds what is counted of further ledgers, as the last lines. After an `Err` a part of it may be there.
    pub(crate) fn append(&mut self, other: Counts) -> Result<(), AllocError>
        ensures { OnOk result ((holders : List ℕ) (ledgers more : List LedgerValue)
            → model.CountsLedgers holders ledgers self.old → model.CountsLedgers holders more other
            → model.CountsLedgers holders (ledgers ++ more) self.new) }
    {
        let mut other = other;
        self.entries.append(&mut other.entries)?;
        self.tails.append(&mut other.tails)?;
        self.ensembles.append(&mut other.ensembles)
    }

    /// Joins equal lines, if there are many. After an `Err` some may be gone.
    fn join_if_long(&mut self, alloc: Global) -> Result<(), CountsFault>
        ensures { OnOk result ((holders : List ℕ) (ledgers : List LedgerValue)
            → model.CountsLedgers holders ledgers self.old → model.CountsLedgers holders ledgers self.new) }
    {
        if self.len() < self.to_join {
            return Ok(());
        }
        self.join(alloc)
    }

    /// Whether a census counts so much.
    fn are_few(&self) -> bool
        ensures { IsTrue result → AreFewCounts self.now.entries self.now.tails self.now.ensembles }
    {
        let most = entries_in(&self.entries)
            .max(tails_in(&self.tails))
            .max(ensembles_in(&self.ensembles));
        most <= MOST
    }

    /// Joins equal lines. After an `Err` some may be gone.
    fn join(&mut self, alloc: Global) -> Result<(), CountsFault>
        ensures { OnOk result ((holders : List ℕ) (ledgers : List LedgerValue)
            → model.CountsLedgers holders ledgers self.old → model.CountsLedgers holders ledgers self.new) }
    {
        if !self.are_few() {
            return Err(CountsFault::TooMany);
        }
        let ensembles = mem::replace(&mut self.ensembles, Vec::new(alloc));
        self.ensembles = merged_ensembles(alloc, ensembles)?;
        let tails = mem::replace(&mut self.tails, Vec::new(alloc));
        self.tails = merged_tails(alloc, tails)?;
        let entries = mem::replace(&mut self.entries, Vec::new(alloc));
        self.entries = merged(alloc, entries)?;
        self.to_join = self.len().saturating_mul(2).max(LEAST_TO_JOIN);
        Ok(())
    }

    /// The census of this.
    pub(crate) fn into_census(self, alloc: Global, judged: Judged) -> Result<Census, TallyFault>
        requires { not_judged judged ≤ 2 ^ 63 }
        ensures counts { IfOk result (λ census. (holders : List ℕ) (ledgers : List LedgerValue)
            → model.CountsLedgers holders ledgers self
            → model.CountsLedgers holders ledgers (model.counts_in census)) }
        ensures order { IfOk result (λ census. IsInOrder census) }
        ensures judged { IfOk result (λ census. census.judged ≡ judged) }
    {
        census_of_counts(alloc, self.entries, self.tails, self.ensembles, judged)
    }
}
