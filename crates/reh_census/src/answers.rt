// Whether bookies may be stopped, by how often that breaks each rule.
ghost use Rattle.std.specs.Prelude.{◌≡◌};
ghost use Rattle.reh_census.specs.Answers as model;

/// What a stop must not break.
#[derive(Clone, Copy)]
pub enum Rule {
    /// An entry that can be read can be read without the bookies.
    Readable,
    /// An entry keeps its copies: as many as are to be kept, or as it has.
    Kept,
    /// A ledger that isn't closed can be recovered.
    Recoverable,
    /// Writers find ensembles to go on with.
    Writable,
    /// No more of a fragment's places find no other bookie.
    Replaceable,
}

/// How many entries break a rule whatever the untold bookies hold, and how many more may break it.
#[derive(Clone, Copy)]
pub struct Broken {
    pub no: u64,
    pub unknown: u64,
}

/// How often a stop breaks each rule, and what nobody knows.
#[derive(Clone, Copy)]
pub struct Numbers {
    pub readable: Broken,
    pub kept: Broken,
    /// Ledgers that aren't closed.
    pub recoverable: u64,
    /// Open ledgers, and one for new ledgers.
    pub writable: u64,
    /// Fragments.
    pub replaceable: u64,
    /// Entries with fewer known copies than are to be kept, where bookies that are down would go for good: their disks may
    /// have more.
    pub disks: u64,
    /// Ledgers that were not judged.
    pub not_judged: u64,
}

/// Whether bookies may be stopped, and if not, what speaks against it, and how often.
#[derive(Clone, Copy)]
pub enum Answer {
    Yes,
    No(Rule, u64),
    Unknown(Rule, u64),
    UnknownDisks(u64),
    NotJudged(u64),
}

/// The answer by these numbers: the first rule that is broken is named.
pub fn answer_by(numbers: &Numbers) -> Answer
    ensures { result ≡ model.answer_by numbers.now }
{
    if numbers.readable.no > 0 {
        return Answer::No(Rule::Readable, numbers.readable.no);
    }
    if numbers.kept.no > 0 {
        return Answer::No(Rule::Kept, numbers.kept.no);
    }
    if numbers.recoverable > 0 {
        return Answer::No(Rule::Recoverable, numbers.recoverable);
    }
    if numbers.writable > 0 {
        return Answer::No(Rule::Writable, numbers.writable);
    }
    if numbers.replaceable > 0 {
        return Answer::No(Rule::Replaceable, numbers.replaceable);
    }
    unknown_by(numbers)
}

/// The answer where no rule is broken whatever the untold bookies hold.
fn unknown_by(numbers: &Numbers) -> Answer
    ensures { result ≡ model.unknown_by numbers.now }
{
    if numbers.readable.unknown > 0 {
        return Answer::Unknown(Rule::Readable, numbers.readable.unknown);
    }
    if numbers.kept.unknown > 0 {
        return Answer::Unknown(Rule::Kept, numbers.kept.unknown);
    }
    if numbers.disks > 0 {
        return Answer::UnknownDisks(numbers.disks);
    }
    if numbers.not_judged > 0 {
        return Answer::NotJudged(numbers.not_judged);
    }
    Answer::Yes
}
