// Ledgers, and what is told of the entries that their members hold.
ghost use Rattle.std.specs.Prelude.{◌≡◌, ◌≤◌, ◌^◌, ◌↔◌, length, All, IsTrue, IsSome, IfSome};
ghost use Rattle.reh_census.specs.Copies.{EachOnce};
ghost use Rattle.reh_census.specs.Ledgers.{InTurn, IsFragment};

use crate::names::Names;
use std::marker::Model;

/// The entries from the first to the last.
#[derive(Clone, Copy)]
pub struct Range {
    pub first: u64,
    pub last: u64,
}

/// Entries, by ranges. Contracts see the list.
#[derive(Drop)]
pub struct Ranges {
    items: Vec<Range>,
}

impl Model for Ranges {
    ghost use Rattle.std.specs.Prelude.{List};
    ghost use Rattle.reh_census.specs.declared.ledgers.Range.{Range};

    ghost Value = { List Range };

    ghost view = { λ ranges. ranges.items.items };
}

impl Ranges {
    /// These ranges.
    pub fn of(items: Vec<Range>) -> Ranges
        ensures { result ≡ items.items }
    {
        Ranges { items }
    }

    /// The ranges, as a slice.
    pub fn as_slice(&self) -> &[Range]
        ensures { result.now ≡ self.now }
    {
        &self.items
    }
}

/// What is told of a bookie.
#[derive(Drop)]
pub enum Told {
    /// It holds exactly these entries.
    Holds(Ranges),
    /// It holds what is striped onto it, without these.
    Lacks(Ranges),
    /// Nobody told.
    Untold,
}

/// A content tells what a bookie holds.
#[derive(Drop)]
pub struct Content {
    pub bookie: u16,
    pub told: Told,
}

/// The entries from the first up to, not including, the stop, and the ensemble that they were written to.
#[derive(Drop)]
pub struct Fragment {
    pub first: u64,
    pub stop: u64,
    pub ensemble: Names,
}

/// A ledger's state, by its metadata.
#[derive(Clone, Copy)]
pub enum LedgerState {
    Open,
    InRecovery,
    Closed,
}

/// A ledger's state, sizes and fragments, what is told of its members, and what holds of those of which no content
/// tells.
#[derive(Drop)]
pub struct Ledger {
    state: LedgerState,
    size: u64,
    write_quorum: u64,
    ack_quorum: u64,
    fragments: Vec<Fragment>,
    contents: Vec<Content>,
    rest: Told,
}

impl Model for Ledger {
    ghost use Rattle.reh_census.specs.Ledgers.{Ledger as LedgerValue, IsLedger};
    ghost use Rattle.reh_census.specs.Inside.{ledger_in, IsLedgerIn};

    ghost Value = { LedgerValue };

    ghost view = { ledger_in };

    ghost invariant = { IsLedgerIn };
}

/// Whether no bookie is one of these twice.
fn are_different(names: &[u16]) -> bool
    ensures { IsTrue result ↔ EachOnce names.now }
{
    for index in 0..names.len() {
        let (before, _) = names.split_at(index);
        if before.contains(&names[index]) {
            return false;
        }
    }
    true
}

/// Whether a fragment's ensemble has this size and no bookie twice, and it stops no later than 2^63.
fn is_fragment(size: u64, fragment: &Fragment) -> bool
    ensures { IsTrue result ↔ IsFragment size fragment.now }
{
    let names = fragment.ensemble.as_slice();
    if size < 1 || names.len() as u64 != size {
        return false;
    }
    if fragment.stop < fragment.first || fragment.stop > 1 << 63 {
        return false;
    }
    are_different(names)
}

/// Whether each fragment is such a one.
fn are_fragments(size: u64, fragments: &[Fragment]) -> bool
    ensures { IsTrue result ↔ All (IsFragment size) fragments.now }
{
    for fragment in fragments {
        if !is_fragment(size, fragment) {
            return false;
        }
    }
    true
}

/// Whether each fragment stops where the next one begins, or before.
fn are_in_turn(fragments: &[Fragment]) -> bool
    ensures { IsTrue result ↔ InTurn fragments.now }
{
    let mut stop = 0;
    for fragment in fragments {
        if fragment.first < stop {
            return false;
        }
        stop = fragment.stop;
    }
    true
}

impl Ledger {
    ghost use Rattle.reh_census.specs.Ledgers.{IsLedger, ledger_by};

    /// A ledger of this state, of these sizes and fragments, of whose members this is told, if they fit together: quorums
    /// that rise from 1 to the ensemble size, at most 64, and fragments in turn, each on so many different bookies.
    pub fn try_new(
        state: LedgerState,
        size: u64,
        write_quorum: u64,
        ack_quorum: u64,
        fragments: Vec<Fragment>,
        contents: Vec<Content>,
        rest: Told,
    ) -> Option<Ledger>
        ensures made { IfSome result (λ g. g
            ≡ ledger_by state size write_quorum ack_quorum fragments.items contents.items rest) }
        ensures fits { IsSome result
            ↔ IsLedger (ledger_by state size write_quorum ack_quorum fragments.items contents.items rest) }
    {
        let has_quorums = 1 <= ack_quorum && ack_quorum <= write_quorum && write_quorum <= size;
        if !has_quorums || size > 64 {
            return None;
        }
        if !are_fragments(size, &fragments) || !are_in_turn(&fragments) {
            return None;
        }
        Some(Ledger {
            state,
            size,
            write_quorum,
            ack_quorum,
            fragments,
            contents,
            rest,
        })
    }

    pub fn state(&self) -> LedgerState
        ensures { result ≡ self.now.state }
    {
        self.state
    }

    /// The ensemble size.
    pub fn size(&self) -> u64
        ensures size { result ≡ self.now.size }
        ensures well_formed { IsLedger self.now }
    {
        self.size
    }

    pub fn write_quorum(&self) -> u64
        ensures { result ≡ self.now.write_quorum }
    {
        self.write_quorum
    }

    pub fn ack_quorum(&self) -> u64
        ensures { result ≡ self.now.ack_quorum }
    {
        self.ack_quorum
    }

    pub fn fragments(&self) -> &[Fragment]
        ensures fragments { result.now ≡ self.now.fragments }
        ensures well_formed { IsLedger self.now }
    {
        &self.fragments
    }

    pub fn contents(&self) -> &[Content]
        ensures { result.now ≡ self.now.contents }
    {
        &self.contents
    }

    /// What holds of the members of which no content tells.
    pub fn rest(&self) -> &Told
        ensures { result.now ≡ self.now.rest }
    {
        &self.rest
    }
}
