// What is asked of a stop.

/// How many copies each entry is to keep, if it has so many now: at least one.
#[derive(Clone, Copy)]
pub enum Keep {
    /// As many as its ledger's ack quorum.
    AckQuorum,
    /// This many.
    Copies(u64),
    /// One less than its ledger's ack quorum.
    AckLessOne,
}

/// What is asked of a stop, and what it may break.
#[derive(Clone, Copy)]
pub struct Question {
    /// How many copies each entry is to keep.
    pub keep: Keep,
    /// An ensemble size that new ledgers are to find, too.
    pub ensemble: Option<u64>,
    /// In how many racks the bookies are to stand that can be written to.
    pub min_racks: Option<u64>,
    /// Ledgers that aren't closed need only keep as many members as copies.
    pub allow_blocked_recovery: bool,
    /// Writers may find no ensemble.
    pub allow_blocked_writers: bool,
    /// The bookies don't come back.
    pub for_good: bool,
}
