// What changes in a cluster.
use crate::bookies::BookieSet;
use crate::locks::Lock;
use crate::names::{BookieIx, LedgerId};
use crate::scalars::Scalar;

/// A place of a cluster with the contents that it is to have, where `M` is a ledger's metadata. Of a word of 64 entries
/// it has the bits that are to turn.
///
/// A ledger's parts go by its place in the picture, from 0; what a bookie holds of it goes by its id.
#[derive(PartialEq, Drop)]
pub enum Change<M> {
    /// The bookie's registration: the tick at which it was lost, none while the bookie is registered.
    Registration {
        bookie: BookieIx,
        lost_at: Option<u64>,
    },
    /// The ledger's metadata.
    Metadata {
        place: usize,
        metadata: M,
    },
    /// The ledger's rereplication task: the bookies that it is to replace, if there is one.
    Task {
        place: usize,
        task: Option<BookieSet>,
    },
    /// The lock of the ledger's task, if it is locked.
    Lock {
        place: usize,
        lock: Option<Lock>,
    },
    /// The 64 entries of the ledger from 64 times the number on, as the bookie holds them: a bit for each that turns,
    /// the lowest for the first.
    Word {
        bookie: BookieIx,
        ledger: LedgerId,
        number: usize,
        bits: u64,
    },
    /// A part that is a single value.
    Scalar(Scalar),
}
