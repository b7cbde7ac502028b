// The state of a cluster.
ghost use Rattle.std.specs.Prelude.{◌≡◌, ℕ, ◌*◌, ◌<◌, ◌≤◌, ◌==◌, ◌↔◌, length, map, position, All, IfOk};
ghost use Rattle.std.specs.Prelude.{IfSome, IsTrue};
ghost use Rattle.std.specs.Option.{option_copied};
ghost use Rattle.reh_types.specs.declared.limits.TheConstants.{CLOCK_END, MAX_DELAY};
ghost use Rattle.reh_types.specs.Sets as set;
ghost use Rattle.reh_held.specs.Rows.{is_set};
ghost use Rattle.reh_held.specs.Turns.{IsTurning};
ghost use Rattle.reh_model.specs.Contents.{copies_of, count_held, greatest_held};
ghost use Rattle.reh_model.specs.Cluster as model;
ghost use Rattle.reh_model.specs.Cluster.{cluster_of, words_among};
ghost use Rattle.reh_model.specs.Places.{Fits, exchanged, left};
ghost use Rattle.reh_model.specs.WellFormed.{IsWellFormed};
ghost use Rattle.reh_cluster.specs.Parts.{HasRows};

use crate::changes::Changes;
use crate::ledgers::Ledger;
use crate::names::Names;
use crate::parts::Parts;
use indexmap::IndexSet;
use reh_held::{Held, Turn};
use reh_stripe::Striped;
use reh_types::{BookieIx, LedgerId, Scalars};
use std::alloc::{AllocError, Global};
use std::marker::Model;

/// The cluster as it stands: names, registrations, ledgers in picture order with their tasks and locks, contents,
/// clock, grace, the delay for lost bookies, and whether AutoRecovery is enabled.
///
/// Each value is well-formed by its type; contracts see it as `Cluster` of the definitions.
#[derive(Drop)]
pub struct State {
    names: Names,
    grace: u64,
    delay: u64,
    /// The ids of the ledgers, by which one is found.
    ids: IndexSet<u64>,
    parts: Parts,
}

impl Model for State {
    ghost use Rattle.reh_model.specs.Cluster.{Cluster};

    ghost Value = { Cluster };

    ghost use Rattle.reh_cluster.specs.State.{cluster_in, IsState};

    ghost view = { cluster_in };

    ghost invariant = { IsState };
}

impl State {
    /// The state at clock 0 with these names, the tick at which each bookie was lost (none while it is registered),
    /// grace and delay in ticks, AutoRecovery enabled or not, ledgers in picture order with their ids, and contents.
    pub fn build(
        names: Names,
        lost_at: Vec<Option<u64>>,
        grace: u64,
        delay: u64,
        enabled: bool,
        ids: IndexSet<u64>,
        ledgers: Vec<Ledger>,
        held: Held,
    ) -> State
        requires cluster { IsWellFormed
            (cluster_of names lost_at.items grace delay enabled ledgers.items held.contents) }
        requires ids { ids.keys ≡ map (λ g. g.id) ledgers.items }
        requires rows { HasRows (length names) ledgers.items held }
        ensures { result ≡ cluster_of names lost_at.items grace delay enabled ledgers.items held.contents }
    {
        let scalars = Scalars::new(enabled);
        State {
            names,
            grace,
            delay,
            ids,
            parts: Parts {
                lost_at,
                ledgers,
                held,
                scalars,
            },
        }
    }

    /// A copy.
    pub fn clone_in(&self) -> Result<State, AllocError>
        ensures { IfOk result (λ copy. copy ≡ self.now) }
    {
        Ok(State {
            names: self.names.clone_in()?,
            grace: self.grace,
            delay: self.delay,
            ids: self.ids.clone()?,
            parts: self.parts.clone_in()?,
        })
    }

    /// Whether both are the same state. It takes no memory.
    pub fn same(&self, other: &State) -> bool
        ensures { IsTrue result ↔ (self.now ≡ other.now) }
    {
        self.names.same(&other.names)
            && self.grace == other.grace
            && self.delay == other.delay
            && self.parts.are_same_but_contents(&other.parts)
            && self.parts.have_same_rows(&other.parts)
    }

    /// Each state is well-formed, so this does nothing. It is called where a proof needs to know that, and no other call
    /// tells it.
    pub fn assert_well_formed(&self)
        ensures { IsWellFormed self.now }
    {
        let _names = &self.names;
    }

    /// The names of the bookies.
    pub fn names(&self) -> &Names
        ensures names { result.now ≡ self.now.names }
        ensures well_formed { IsWellFormed self.now }
    {
        &self.names
    }

    /// Whether the bookie is registered.
    pub fn is_up(&self, bookie: BookieIx) -> bool
        ensures { result ≡ model.is_up self.now bookie }
    {
        let parts = &self.parts;
        match parts.lost_at.get(bookie.0 as usize) {
            Some(lost) => lost.is_none(),
            None => false,
        }
    }

    /// The tick at which the bookie was lost, if it isn't registered.
    pub fn lost_tick(&self, bookie: BookieIx) -> Option<u64>
        ensures tick { result ≡ model.lost_tick self.now bookie }
        ensures past { IfSome result (λ tick. tick ≤ self.now.parts.scalars.clock) }
    {
        let parts = &self.parts;
        match parts.lost_at.get(bookie.0 as usize) {
            Some(lost) => *lost,
            None => None,
        }
    }

    /// The ledgers, in picture order.
    pub fn ledgers(&self) -> &[Ledger]
        ensures ledgers { result.now ≡ self.now.parts.ledgers }
        ensures well_formed { IsWellFormed self.now }
    {
        let parts = &self.parts;
        &parts.ledgers
    }

    /// The place of the ledger of that id, if there is one.
    pub fn place(&self, ledger: LedgerId) -> Option<usize>
        ensures { result ≡ position (λ g. g.id == ledger) self.now.parts.ledgers }
    {
        self.ids.get_index_of(&ledger.0)
    }

    /// The ledger of that id, if there is one.
    pub fn ledger(&self, ledger: LedgerId) -> Option<&Ledger>
        ensures { option_copied result ≡ model.ledger_at self.now ledger }
    {
        let place = self.place(ledger)?;
        let parts = &self.parts;
        Some(&parts.ledgers[place])
    }

    /// Whether the bookie, registered or not, holds the entry of the ledger.
    pub fn holds(&self, bookie: BookieIx, ledger: LedgerId, entry: u32) -> bool
        ensures { result ≡ model.holds self.now bookie ledger entry }
    {
        let parts = &self.parts;
        parts.held.holds(bookie, ledger, entry)
    }

    /// The words of the bookie's row of the ledger: bit e % 64 of word e / 64 says whether it holds entry e.
    pub fn row(&self, bookie: BookieIx, ledger: LedgerId) -> &[u64]
        ensures { (e : ℕ) → is_set result.now e ≡ model.holds self.now bookie ledger e }
    {
        let parts = &self.parts;
        parts.held.row(bookie, ledger)
    }

    /// How many entries the bookie holds, of all ledgers.
    pub fn count(&self, bookie: BookieIx) -> usize
        ensures { result ≡ count_held self.now.parts.held bookie }
    {
        let parts = &self.parts;
        parts.held.count(bookie)
    }

    /// The greatest entry of the ledger that any bookie holds, if there is one.
    pub fn greatest(&self, ledger: LedgerId) -> Option<u32>
        ensures { result ≡ greatest_held self.now.parts.held ledger }
    {
        let parts = &self.parts;
        parts.held.greatest(ledger)
    }

    /// The clock, in ticks.
    pub fn clock(&self) -> u64
        ensures clock { result ≡ self.now.parts.scalars.clock }
        ensures limit { self.now.parts.scalars.clock ≤ CLOCK_END }
    {
        let parts = &self.parts;
        parts.scalars.clock
    }

    /// Whether AutoRecovery is enabled.
    pub fn is_enabled(&self) -> bool
        ensures { result ≡ self.now.parts.scalars.enabled }
    {
        let parts = &self.parts;
        parts.scalars.enabled
    }

    /// The grace of an open ledger, in ticks.
    pub fn grace(&self) -> u64
        ensures { result ≡ self.now.grace }
    {
        self.grace
    }

    /// For how many ticks after a bookie's loss an audit waits (BookKeeper's `lostBookieRecoveryDelay`).
    pub fn delay(&self) -> u64
        ensures delay { result ≡ self.now.delay }
        ensures limit { self.now.delay ≤ MAX_DELAY }
    {
        self.delay
    }

    /// The turns after which the bookie holds these entries of the ledger too: for each word of 64 entries in which
    /// that changes something, its number and the bits that change. The bookie has to be in the picture, and the
    /// entries have to lie within the ledger's words.
    pub fn delta_of(
        &self,
        alloc: Global,
        bookie: BookieIx,
        ledger: LedgerId,
        entries: &Striped,
    ) -> Result<Vec<Turn>, AllocError>
        requires bookie { bookie < length self.now.names }
        requires entries { All (λ e. e < 64 * words_among self.now.parts.ledgers ledger) entries.now }
        ensures { IfOk result (λ turns.
            IsTurning (words_among self.now.parts.ledgers ledger) bookie ledger self.now.parts.held
            (set.union self.now.parts.held (copies_of bookie ledger entries.now)) turns.items) }
    {
        let parts = &self.parts;
        let turns = parts.held.delta_of(alloc, bookie, ledger, entries)?;
        Ok(turns)
    }

    /// Swaps what the changes hold with what stands at their places: the state has what they held, and they hold what
    /// brings it back. A word's bits turn, and are the same ones afterwards. The places have to be the state's, and
    /// what comes of it has to be well-formed. It takes no memory.
    pub fn exchange(&mut self, changes: &mut Changes)
        requires { Fits self.old changes.old }
        ensures state { self.new ≡ exchanged self.old changes.old }
        ensures inverse { changes.new ≡ left self.old changes.old }
        ensures fits { Fits self.new changes.new }
        ensures back { exchanged self.new changes.new ≡ self.old }
        ensures again { left self.new changes.new ≡ changes.old }
    {
        changes.exchange(&mut self.parts);
    }
}
