// Records of changes.
ghost use Rattle.std.specs.Prelude.{◌≡◌, ◌↔◌, [], ◌∷◌, map, All, IfOk, IsTrue};
ghost use Rattle.reh_model.specs.Places.{place_of, put_all, back_all, AreRising, IsPlaced};

use crate::exchanges::{exchange_all, exchange_one};
use crate::parts::Parts;
use reh_meta::LedgerMeta;
use reh_types::{BookieSet, Change};
use std::alloc::AllocError;
use std::marker::Model;
use std::slice;

/// Changes of a state's places, in the places' order and at most one of each; contracts see the list of them.
///
/// Most events change one place. A single change is kept in place, and takes no memory of its own.
#[derive(Drop)]
pub struct Changes {
    kept: Kept,
}

/// One change, or a list of any number.
#[derive(Drop)]
enum Kept {
    One(Change<LedgerMeta>),
    Many(Vec<Change<LedgerMeta>>),
}

impl Model for Changes {
    ghost use Rattle.std.specs.Prelude.{List, map};
    ghost use Rattle.reh_model.specs.Places as places;
    ghost use Rattle.reh_cluster.specs.Changes.{changes_in};

    ghost Value = { List places.Change };

    ghost view = { λ changes. changes_in changes.kept };

    ghost invariant = { λ changes. places.AreRising (map places.place_of (changes_in changes.kept)) };
}

impl Changes {
    /// The record of these changes, whose places have to be in order, each once: registrations, metadata, tasks, locks,
    /// words and scalars, and each kind by its numbers.
    pub fn of(list: Vec<Change<LedgerMeta>>) -> Changes
        requires { AreRising (map place_of list.items) }
        ensures { result ≡ list.items }
    {
        Changes {
            kept: Kept::Many(list),
        }
    }

    /// The record of one change.
    pub fn one(change: Change<LedgerMeta>) -> Changes
        ensures { result ≡ change ∷ [] }
    {
        Changes {
            kept: Kept::One(change),
        }
    }

    /// The changes, in order.
    pub fn as_slice(&self) -> &[Change<LedgerMeta>]
        ensures list { result.now ≡ self.now }
        ensures rising { AreRising (map place_of self.now) }
    {
        match &self.kept {
            Kept::One(change) => slice::from_ref(change),
            Kept::Many(list) => list,
        }
    }

    /// Whether both are the same changes. It takes no memory.
    pub fn same(&self, other: &Changes) -> bool
        ensures { IsTrue result ↔ (self.now ≡ other.now) }
    {
        self.as_slice() == other.as_slice()
    }

    /// A copy, on the same allocator.
    pub fn clone_in(&self) -> Result<Changes, AllocError>
        ensures { IfOk result (λ copy. copy ≡ self.now) }
    {
        let kept = match &self.kept {
            Kept::One(change) => Kept::One(clone_change(change)?),
            Kept::Many(list) => Kept::Many(clone_list(list)?),
        };
        Ok(Changes { kept })
    }

    /// Swaps what each change holds with what stands at its place among the parts. It takes no memory.
    pub(crate) fn exchange(&mut self, parts: &mut Parts)
        requires { All (IsPlaced parts.old.bookies parts.old.parts) self.old }
        ensures parts { parts.new ≡ record parts.old { parts = put_all parts.old.parts self.old } }
        ensures left { self.new ≡ back_all parts.old.parts self.old }
        ensures rising { AreRising (map place_of self.old) }
    {
        match &mut self.kept {
            Kept::One(change) => exchange_one(parts, change),
            Kept::Many(list) => exchange_all(parts, list),
        }
    }
}

/// A copy of a list of changes.
fn clone_list(list: &Vec<Change<LedgerMeta>>) -> Result<Vec<Change<LedgerMeta>>, AllocError>
    ensures { IfOk result (λ copy. copy.items ≡ list.now.items) }
{
    let mut copy = Vec::with_capacity(*list.allocator(), list.len())?;
    for change in list {
        copy.push(clone_change(change)?)?;
    }
    Ok(copy)
}

/// A copy of a change.
fn clone_change(change: &Change<LedgerMeta>) -> Result<Change<LedgerMeta>, AllocError>
    ensures { IfOk result (λ copy. copy ≡ change.now) }
{
    Ok(match change {
        Change::Registration { bookie, lost_at } => Change::Registration {
            bookie: *bookie,
            lost_at: *lost_at,
        },
        Change::Metadata { place, metadata } => Change::Metadata {
            place: *place,
            metadata: metadata.clone_in()?,
        },
        Change::Task { place, task } => Change::Task {
            place: *place,
            task: task.as_ref().map(BookieSet::copied),
        },
        Change::Lock { place, lock } => Change::Lock {
            place: *place,
            lock: *lock,
        },
        Change::Word {
            bookie,
            ledger,
            number,
            bits,
        } => Change::Word {
            bookie: *bookie,
            ledger: *ledger,
            number: *number,
            bits: *bits,
        },
        Change::Scalar(scalar) => Change::Scalar(*scalar),
    })
}
