// The metadata of a ledger.
ghost use Rattle.std.specs.Prelude.{◌≡◌, ◌==◌, ◌<◌, ◌≤◌, false, length, None, IfOk, IfErr, All, slice_get};
ghost use Rattle.std.specs.List.{list_any};
ghost use Rattle.std.specs.Option.{ForSome};
ghost use Rattle.reh_types.specs.declared.limits.TheConstants.{ENTRY_END, MAX_FRAGMENTS, MAX_VERSION};
ghost use Rattle.reh_types.specs.declared.names.LedgerState.TheVariants.{InRecovery, Closed};
ghost use Rattle.reh_model.specs.Metadata as meta;
ghost use Rattle.reh_model.specs.Metadata.{IsMetadata, end_of_state, last_fragment, stop_of};

use crate::faults::MetaFault;
use crate::fragments::{Fragment, have_ensembles, rise_from_zero};
use reh_types::{BookieIx, LedgerState, MAX_ENSEMBLE_SIZE};
use std::alloc::{AllocError, Global};
use std::marker::Model;

/// How many bookies an ensemble has, how many of them each entry is written to, and how many of
/// these must have acknowledged it: BookKeeper's ensemble size, write quorum and ack quorum.
#[derive(Clone, Copy)]
pub struct Sizes {
    /// The ensemble size.
    pub ensemble: u64,
    /// The write quorum.
    pub write_quorum: u64,
    /// The ack quorum.
    pub ack_quorum: u64,
}

/// Whether `1 <= ack quorum <= write quorum <= ensemble size <= MAX_ENSEMBLE_SIZE`.
fn are_quorums(sizes: Sizes) -> bool
    ensures { result ≡ meta.are_quorums sizes.ensemble sizes.write_quorum sizes.ack_quorum }
{
    1 <= sizes.ack_quorum
        && sizes.ack_quorum <= sizes.write_quorum
        && sizes.write_quorum <= sizes.ensemble
        && sizes.ensemble <= MAX_ENSEMBLE_SIZE
}

/// Where a ledger's entries end, if it is closed.
fn end_of_closed(state: LedgerState) -> Option<u32>
    ensures { result ≡ end_of_state state }
{
    match state {
        LedgerState::Closed { end } => Some(end),
        LedgerState::Open | LedgerState::InRecovery => None,
    }
}

/// Whether the ledger, if it is closed, ends at or after the last fragment's first entry.
fn ends_within(state: LedgerState, fragments: &[Fragment]) -> bool
    ensures { result ≡ meta.ends_within state fragments.now }
{
    match (end_of_closed(state), fragments.last()) {
        (Some(end), Some(last)) => last.first <= end,
        _ => true,
    }
}

/// The metadata of a ledger, well-formed by its type: each value keeps the limits and rules of
/// `IsMetadata`. Contracts see it as `Metadata`.
///
/// The rules are those of BookKeeper's `LedgerMetadata`: its quorums, and its ensembles by the first
/// entries of their fragments.
#[derive(Drop)]
pub struct LedgerMeta {
    size: u32,
    write_quorum: u32,
    ack_quorum: u32,
    state: LedgerState,
    version: u64,
    fragments: Vec<Fragment>,
}

impl Model for LedgerMeta {
    ghost use Rattle.reh_model.specs.Metadata.{Metadata};

    ghost Value = { Metadata };

    ghost use Rattle.reh_meta.specs.LedgerMeta.{metadata_in, IsMetadataIn};

    ghost view = { metadata_in };

    ghost invariant = { IsMetadataIn };
}

impl PartialEq for LedgerMeta {
    ghost use Rattle.reh_types.specs.Same.{tells_laws};
    ghost use Rattle.reh_meta.specs.Same.{same_metadata, tells_metadata};

    ghost eq = { same_metadata };

    ghost laws = { tells_laws tells_metadata };

    fn eq(&self, other: &LedgerMeta) -> bool {
        self.size == other.size
            && self.write_quorum == other.write_quorum
            && self.ack_quorum == other.ack_quorum
            && self.state == other.state
            && self.version == other.version
            && self.fragments == other.fragments
    }
}

impl LedgerMeta {
    ghost use Rattle.reh_meta.specs.Faults.{metadata_of, fault_of, fault_found};
    ghost use Rattle.reh_meta.specs.LedgerMeta.{changed_metadata};

    /// The metadata of these parts, if they keep the rules. The fragments are copied.
    ///
    /// The fault is the first that applies, in the order of `MetaFault`. The caller keeps the limits: a
    /// version of at most 10^12, first entries below 65,536, an end of at most 65,536, 256 fragments.
    pub fn try_new(
        alloc: Global,
        sizes: Sizes,
        state: LedgerState,
        version: u64,
        fragments: &[Fragment],
    ) -> Result<LedgerMeta, MetaFault>
        requires version { version ≤ MAX_VERSION }
        requires end { ForSome (end_of_state state) (λ end. end ≤ ENTRY_END) }
        requires count { length fragments.now ≤ MAX_FRAGMENTS }
        requires firsts { All (λ fragment. fragment.first < ENTRY_END) fragments.now }
        ensures made { IfOk result (λ made. made ≡ metadata_of sizes state version fragments.now) }
        ensures sound { IfOk result (λ made. fault_of made ≡ None) }

        // Out of memory, which tells of no broken rule, comes only where none is.
        ensures fault { let parts = metadata_of sizes state version fragments.now in
            IfErr result (λ fault. fault_of parts ≡ fault_found fault) }
    {
        if !are_quorums(sizes) {
            return Err(MetaFault::BadQuorum);
        }
        if !rise_from_zero(fragments) {
            return Err(MetaFault::BadFragment);
        }
        if !have_ensembles(fragments, sizes.ensemble) {
            return Err(MetaFault::BadEnsemble);
        }
        if !ends_within(state, fragments) {
            return Err(MetaFault::BadLast);
        }

        Ok(LedgerMeta {
            size: sizes.ensemble as u32,
            write_quorum: sizes.write_quorum as u32,
            ack_quorum: sizes.ack_quorum as u32,
            state,
            version,
            fragments: Vec::from_clones(alloc, fragments)?,
        })
    }

    /// A copy, on the same allocator.
    pub fn clone_in(&self) -> Result<LedgerMeta, AllocError>
        ensures { IfOk result (λ copy. copy ≡ self.now) }
    {
        Ok(LedgerMeta {
            size: self.size,
            write_quorum: self.write_quorum,
            ack_quorum: self.ack_quorum,
            state: self.state,
            version: self.version,
            fragments: self.fragments.clone()?,
        })
    }

    /// The ensemble size.
    pub fn size(&self) -> u32
        ensures size { result ≡ self.now.size }
        ensures well_formed { IsMetadata self.now }
    {
        self.size
    }

    /// The write quorum: how many bookies an entry is written to.
    pub fn write_quorum(&self) -> u32
        ensures { result ≡ self.now.write_quorum }
    {
        self.write_quorum
    }

    /// The ack quorum: how many bookies must have acknowledged an entry.
    pub fn ack_quorum(&self) -> u32
        ensures { result ≡ self.now.ack_quorum }
    {
        self.ack_quorum
    }

    /// Where the ledger stands.
    pub fn state(&self) -> LedgerState
        ensures { result ≡ self.now.state }
    {
        self.state
    }

    /// The version. Each change of the metadata raises it by 1.
    pub fn version(&self) -> u64
        ensures { result ≡ self.now.version }
    {
        self.version
    }

    /// The fragments, in the order of their first entries.
    pub fn fragments(&self) -> &[Fragment]
        ensures fragments { result.now ≡ self.now.fragments }
        ensures well_formed { IsMetadata self.now }
    {
        &self.fragments
    }

    /// The stop of a fragment, if it has one: where the next fragment begins, or for the last one the
    /// end of a closed ledger. A fragment that isn't there has none.
    pub fn end_of(&self, fragment: usize) -> Option<u32>
        ensures { result ≡ stop_of self.now fragment }
    {
        if fragment >= self.fragments.len() {
            return None;
        }
        match self.fragments.get(fragment + 1) {
            Some(next) => Some(next.first),
            None => end_of_closed(self.state),
        }
    }

    /// The metadata at the next version, with another bookie at an index of a fragment's ensemble; all else stays.
    ///
    /// This is the change that a replication worker makes once it has copied the fragment's entries: BookKeeper
    /// writes it as a new version of the ledger's metadata, conditional on the present one. The new member is in no
    /// place of the ensemble yet, and the version is below 10^12.
    pub fn with_member(
        &self,
        fragment: usize,
        index: usize,
        bookie: BookieIx,
    ) -> Result<LedgerMeta, AllocError>
        requires fragment { fragment < length self.now.fragments }
        requires index { index < self.now.size }
        requires new { ForSome (slice_get self.now.fragments fragment)
            (λ old. list_any (λ member. member == bookie) old.ensemble ≡ false) }
        requires version { self.now.version < MAX_VERSION }
        ensures { IfOk result (λ changed. changed
            ≡ meta.next_version (meta.with_member_at self.now fragment index bookie)) }
    {
        let mut fragments = self.fragments.clone()?;
        fragments[fragment].replace(index, bookie);
        Ok(self.changed(self.state, fragments))
    }

    /// The metadata at the next version, with a new fragment from the entry `first` on: the last ensemble with
    /// another bookie at an index of it. All else stays.
    ///
    /// This is the ensemble change of a writer that lost a member: BookKeeper's `LedgerMetadata` gets another
    /// ensemble by its first entry, and what was written before stays with the old one. The ledger isn't closed,
    /// `first` is above the last fragment's first entry and below 65,536, there are fewer than 256 fragments, the new
    /// member is in no place of the last ensemble yet, and the version is below 10^12. Running out of memory
    /// changes nothing.
    pub fn with_fragment(
        &self,
        first: u32,
        index: usize,
        bookie: BookieIx,
    ) -> Result<LedgerMeta, AllocError>
        requires unended { end_of_state self.now.state ≡ None }
        requires above { (last_fragment self.now).first < first }
        requires first { first < ENTRY_END }
        requires room { length self.now.fragments < MAX_FRAGMENTS }
        requires index { index < self.now.size }
        requires new { list_any (λ member. member == bookie) (last_fragment self.now).ensemble ≡ false }
        requires version { self.now.version < MAX_VERSION }
        ensures { IfOk result (λ changed. changed
            ≡ meta.next_version (meta.with_fragment_at self.now first index bookie)) }
    {
        let last = &self.fragments[self.fragments.len() - 1];
        let room = self.fragments.len() + 1;
        let mut fragments = Vec::with_capacity(*self.fragments.allocator(), room)?;
        fragments.extend_with_clones(&self.fragments)?;
        fragments.push(last.successor(first, index, bookie)?)?;
        Ok(self.changed(self.state, fragments))
    }

    /// The metadata at the next version, in recovery; all else stays.
    ///
    /// This is how a recovery begins: BookKeeper marks the ledger as IN_RECOVERY, so that the writer, which it fences
    /// off, can't change the metadata any more. The version is below 10^12. Running out of memory changes nothing.
    pub fn fenced(&self) -> Result<LedgerMeta, AllocError>
        requires version { self.now.version < MAX_VERSION }
        ensures { IfOk result (λ changed. changed ≡ meta.next_version (meta.with_state self.now InRecovery)) }
    {
        self.with_state(LedgerState::InRecovery)
    }

    /// The metadata at the next version, closed at this end, one past its last entry id; all else stays.
    ///
    /// This is how a recovery ends: BookKeeper marks the ledger as CLOSED at the last entry that it recovered. The end
    /// is at least the last fragment's first entry, and at most 65,536, and the version is below 10^12. Running out of
    /// memory changes nothing.
    pub fn sealed(&self, end: u32) -> Result<LedgerMeta, AllocError>
        requires last { (last_fragment self.now).first ≤ end }
        requires end { end ≤ ENTRY_END }
        requires version { self.now.version < MAX_VERSION }
        ensures { IfOk result (λ changed. changed ≡ meta.next_version (meta.with_state self.now (Closed end))) }
    {
        self.with_state(LedgerState::Closed { end })
    }

    /// The metadata at the next version, in another state, whose end it can have.
    fn with_state(&self, state: LedgerState) -> Result<LedgerMeta, AllocError>
        requires end { ForSome (end_of_state state)
            (λ end. ((last_fragment self.now).first ≤ end) × (end ≤ ENTRY_END)) }
        requires version { self.now.version < MAX_VERSION }
        ensures { IfOk result (λ changed. changed ≡ meta.next_version (meta.with_state self.now state)) }
    {
        Ok(self.changed(state, self.fragments.clone()?))
    }

    /// The metadata at the next version, with this state and these fragments, which keep its rules.
    fn changed(&self, state: LedgerState, fragments: Vec<Fragment>) -> LedgerMeta
        requires { IsMetadata (changed_metadata self.now state fragments.items) }
        ensures { result ≡ changed_metadata self.now state fragments.items }
    {
        LedgerMeta {
            size: self.size,
            write_quorum: self.write_quorum,
            ack_quorum: self.ack_quorum,
            state,
            version: self.version + 1,
            fragments,
        }
    }
}
