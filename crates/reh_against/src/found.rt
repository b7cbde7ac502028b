// A ledger that speaks against a stop.
use std::cmp::Reverse;

/// How much of a ledger speaks against a stop, the ledger's id, and its place among all. The worse one comes first; of
/// two that are as bad, the one with the lesser id, and then the one that stands first.
#[derive(Clone, Copy, PartialEq, Eq, PartialOrd, Ord)]
pub struct Found {
    pub weight: Reverse<u64>,
    pub ledger: u64,
    pub place: usize,
}
