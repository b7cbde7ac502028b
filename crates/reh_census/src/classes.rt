// Entries by what is known of their copies.
use crate::names::Names;

/// An entry, as a census sees it: the bookies that are told to hold it, those of which nobody told, and the quorums of
/// its ledger. The bookies are different ones, are registered, and didn't come back without their disks.
#[derive(Drop)]
pub struct Class {
    pub known: Names,
    pub untold: Names,
    pub ack_quorum: u64,
    pub write_quorum: u64,
}

/// So many entries of this class.
#[derive(Drop)]
pub struct Counted {
    pub class: Class,
    pub count: u64,
}
