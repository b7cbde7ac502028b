// The parts of a state that events change.
ghost use Rattle.std.specs.Prelude.{◌≡◌, ◌↔◌, IfOk, IsTrue};
ghost use Rattle.reh_cluster.specs.Same.{same_but_contents, HaveSameRows};

use crate::ledgers::Ledger;
use reh_held::Held;
use reh_types::Scalars;
use std::alloc::AllocError;
use std::marker::Model;

/// The bookies' registrations, the ledgers in picture order, the contents, and the parts that are single values.
///
/// Contracts see them as `Parts` of the definitions, beside the number of bookies that have rows.
#[derive(Drop)]
pub(crate) struct Parts {
    /// For each bookie the tick at which it was lost, none while it is registered.
    pub(crate) lost_at: Vec<Option<u64>>,
    pub(crate) ledgers: Vec<Ledger>,
    pub(crate) held: Held,
    pub(crate) scalars: Scalars,
}

impl Model for Parts {
    ghost use Rattle.reh_cluster.specs.Parts.{PartsValue};

    ghost Value = { PartsValue };

    ghost use Rattle.reh_cluster.specs.Kept.{parts_in, IsParts};

    ghost view = { parts_in };

    ghost invariant = { IsParts };
}

impl Parts {
    /// A copy.
    pub(crate) fn clone_in(&self) -> Result<Parts, AllocError>
        ensures { IfOk result (λ copy. copy ≡ self.now) }
    {
        Ok(Parts {
            lost_at: self.lost_at.clone()?,
            ledgers: self.ledgers.clone()?,
            held: self.held.clone_in()?,
            scalars: self.scalars,
        })
    }

    /// Whether both are the same, but for the contents.
    pub(crate) fn are_same_but_contents(&self, other: &Parts) -> bool
        ensures { result ≡ same_but_contents self.now.parts other.now.parts }
    {
        self.lost_at == other.lost_at
            && self.ledgers == other.ledgers
            && self.scalars == other.scalars
    }

    /// Whether each bookie holds the same entries of each ledger, where bookies and ledgers are the same.
    pub(crate) fn have_same_rows(&self, other: &Parts) -> bool
        requires bookies { self.now.bookies ≡ other.now.bookies }
        requires ledgers { self.now.parts.ledgers ≡ other.now.parts.ledgers }
        ensures { IsTrue result
            ↔ HaveSameRows self.now.bookies self.now.parts.ledgers self.now.parts.held other.now.parts.held }
    {
        for ledger in &self.ledgers {
            if !self.held.has_same_rows(&other.held, ledger.id()) {
                return false;
            }
        }
        true
    }
}
