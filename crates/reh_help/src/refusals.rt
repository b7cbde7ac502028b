// Refusals by their numbers and names, and what is said of each.
ghost use Rattle.std.specs.Prelude.{◌≡◌, ◌==◌, true, find, is_some, length, map, IfSome};
ghost use Rattle.std.specs.List.{range_with_len};
ghost use Rattle.std.specs.Str.{bytes_eq};
ghost use Rattle.reh_types.specs.Texts.{refusal_name, refusal_number};
ghost use Rattle.reh_help.specs.Pages.{IsNamedBy, SaysNumber, topic_name, topic_number, topic_value};

use reh_types::{BookieIx, Refusal};

/// A refusal that something is said of.
#[derive(Clone, Copy)]
pub enum Topic {
    /// This one, with a value of 0 where it has one.
    Refusal(Refusal),
    /// That there is no memory. No value of that refusal is made where there is some.
    WantOfMemory,
}

impl Topic {
    /// Its number.
    pub fn number(&self) -> u8
        ensures { result ≡ topic_number self.now }
    {
        match self {
            Topic::Refusal(refusal) => refusal.number(),
            Topic::WantOfMemory => 41,
        }
    }

    /// Its name.
    pub fn name(&self) -> &'static str
        ensures { result.now ≡ topic_name self.now }
    {
        match self {
            Topic::Refusal(refusal) => refusal.name(),
            Topic::WantOfMemory => "NoMemory",
        }
    }
}

/// All refusals that something is said of, in the order of their numbers: for each refusal, one that has its number.
pub(crate) fn topics() -> [Topic; 44]
    ensures numbers { map topic_number result ≡ range_with_len 1 (length result) }
    ensures each { (refusal : Refusal)
        → is_some (find (λ topic. topic_number topic == refusal_number refusal) result) ≡ true }
    ensures named { (refusal : Refusal)
        → is_some (find (λ topic. bytes_eq (topic_name topic) (refusal_name refusal)) result) ≡ true }
{
    [
        Topic::Refusal(Refusal::NoBookie),
        Topic::Refusal(Refusal::NoLedger),
        Topic::Refusal(Refusal::AlreadyDown),
        Topic::Refusal(Refusal::AlreadyUp),
        Topic::Refusal(Refusal::NothingToPublish),
        Topic::Refusal(Refusal::NoTask),
        Topic::Refusal(Refusal::Locked(BookieIx(0))),
        Topic::Refusal(Refusal::NotOwner),
        Topic::Refusal(Refusal::StillUnder(0)),
        Topic::Refusal(Refusal::NoLocks),
        Topic::Refusal(Refusal::NotOpen),
        Topic::Refusal(Refusal::NotNeeded),
        Topic::Refusal(Refusal::GraceSet(0)),
        Topic::Refusal(Refusal::GraceRuns(0)),
        Topic::Refusal(Refusal::NoGrace),
        Topic::Refusal(Refusal::BadTick),
        Topic::Refusal(Refusal::ClockEnd),
        Topic::Refusal(Refusal::NoFragment),
        Topic::Refusal(Refusal::NoIndex),
        Topic::Refusal(Refusal::MemberUp),
        Topic::Refusal(Refusal::TargetDown),
        Topic::Refusal(Refusal::TargetIsMember),
        Topic::Refusal(Refusal::NoEndpoint),
        Topic::Refusal(Refusal::Stale(0)),
        Topic::Refusal(Refusal::NoSource(0)),
        Topic::Refusal(Refusal::MissingEntry(0)),
        Topic::Refusal(Refusal::Undecided(0)),
        Topic::Refusal(Refusal::TooFew(0)),
        Topic::Refusal(Refusal::NotRecovering),
        Topic::Refusal(Refusal::FragmentsFull),
        Topic::Refusal(Refusal::EntryEnd),
        Topic::Refusal(Refusal::VersionEnd),
        Topic::Refusal(Refusal::NothingToUndo),
        Topic::Refusal(Refusal::NothingToRedo),
        Topic::Refusal(Refusal::Full),
        Topic::Refusal(Refusal::SourceGone(0)),
        Topic::Refusal(Refusal::NotOut),
        Topic::Refusal(Refusal::TapeFull),
        Topic::Refusal(Refusal::HandFull),
        Topic::Refusal(Refusal::HandEmpty),
        Topic::WantOfMemory,
        Topic::Refusal(Refusal::Disabled),
        Topic::Refusal(Refusal::AlreadyDisabled),
        Topic::Refusal(Refusal::AlreadyEnabled),
    ]
}

/// The refusal of this number. Each number that is printed of a refusal is found.
pub fn topic_of(number: u8) -> Option<Topic>
    ensures numbered { IfSome result (λ topic. topic_number topic ≡ number) }
    ensures each { (refusal : Refusal) → refusal_number refusal ≡ number → is_some result ≡ true }
{
    first_numbered(&topics(), number)
}

/// The first of these that has that number.
fn first_numbered(topics: &[Topic], number: u8) -> Option<Topic>
    ensures { result ≡ find (λ topic. topic_number topic == number) topics.now }
{
    topics
        .iter()
        .copied()
        .find(|topic| topic.number() == number)
}

/// The refusal that a word names, by its name or its number. Each name and each number of a refusal is found.
pub fn topic_named(word: &str) -> Option<Topic>
    ensures named { IfSome result (IsNamedBy word.now) }
    ensures each { (refusal : Refusal) → refusal_name refusal ≡ word.now → is_some result ≡ true }
    ensures numbered { (refusal : Refusal)
        → SaysNumber word.now (refusal_number refusal) → is_some result ≡ true }
{
    match topic_by_name(&topics(), word) {
        Some(topic) => Some(topic),
        None => topic_by_number(word),
    }
}

/// The first of these that has this name.
fn topic_by_name(topics: &[Topic], word: &str) -> Option<Topic>
    ensures first { result ≡ find (λ topic. bytes_eq (topic_name topic) word.now) topics.now }
    ensures named { IfSome result (λ topic. topic_name topic ≡ word.now) }
{
    topics.iter().copied().find(|topic| topic.name() == word)
}

/// The refusal whose number a word says.
fn topic_by_number(word: &str) -> Option<Topic>
    ensures named { IfSome result (λ topic. SaysNumber word.now (topic_number topic)) }
    ensures each { (refusal : Refusal)
        → SaysNumber word.now (refusal_number refusal) → is_some result ≡ true }
{
    match word.parse::<u8>() {
        Ok(number) => topic_of(number),
        Err(_) => None,
    }
}

/// When it is the answer.
pub(crate) fn meaning(topic: &Topic) -> &'static str {
    match topic {
        Topic::Refusal(Refusal::NoBookie) => "there is no such bookie",
        Topic::Refusal(Refusal::NoLedger) => "there is no such ledger",
        Topic::Refusal(Refusal::AlreadyDown) => "the bookie to lose isn't registered",
        Topic::Refusal(Refusal::AlreadyUp) => "the bookie to join is registered",
        Topic::Refusal(Refusal::NothingToPublish) => "no task would gain a bookie",
        Topic::Refusal(Refusal::NoTask) => "the ledger has no task",
        Topic::Refusal(Refusal::Locked(_)) => "a worker holds the ledger's lock",
        Topic::Refusal(Refusal::NotOwner) => "the worker doesn't hold the ledger's lock",
        Topic::Refusal(Refusal::StillUnder(_)) =>
            "a member isn't registered, first in this fragment",
        Topic::Refusal(Refusal::NoLocks) => "the worker holds no lock",
        Topic::Refusal(Refusal::NotOpen) => "the ledger isn't OPEN",
        Topic::Refusal(Refusal::NotNeeded) => "every member of the last ensemble is registered",
        Topic::Refusal(Refusal::GraceSet(_)) => "the lock has this due tick",
        Topic::Refusal(Refusal::GraceRuns(_)) => "the clock is below this due tick",
        Topic::Refusal(Refusal::NoGrace) => "the lock has no due tick",
        Topic::Refusal(Refusal::BadTick) => "the ticks are 0 or more than 1,000,000",
        Topic::Refusal(Refusal::ClockEnd) => "the clock would pass 1,000,000,000",
        Topic::Refusal(Refusal::NoFragment) => "the ledger has no such fragment",
        Topic::Refusal(Refusal::NoIndex) => "the index isn't below the ensemble size",
        Topic::Refusal(Refusal::MemberUp) => "the member to replace is registered",
        Topic::Refusal(Refusal::TargetDown) => "the bookie to put in isn't registered",
        Topic::Refusal(Refusal::TargetIsMember) => "it is in that ensemble",
        Topic::Refusal(Refusal::NoEndpoint) =>
            "the fragment is the last of a ledger that isn't closed",
        Topic::Refusal(Refusal::Stale(_)) =>
            "the metadata is at this version, or the fragment isn't as it was scanned",
        Topic::Refusal(Refusal::NoSource(_)) =>
            "no registered member of this entry's write set holds it",
        Topic::Refusal(Refusal::MissingEntry(_)) => "the worker's bookie lacks this entry",
        Topic::Refusal(Refusal::Undecided(_)) =>
            "this entry can't be read, but those who are down may have acknowledged it",
        Topic::Refusal(Refusal::TooFew(_)) =>
            "fewer members of its write set are registered than the ack quorum",
        Topic::Refusal(Refusal::NotRecovering) => "the ledger isn't IN_RECOVERY",
        Topic::Refusal(Refusal::FragmentsFull) => "the ledger has 256 fragments",
        Topic::Refusal(Refusal::EntryEnd) => "the next entry would be 65,536",
        Topic::Refusal(Refusal::VersionEnd) => "the version is 10^12",
        Topic::Refusal(Refusal::NothingToUndo) => "no event survives",
        Topic::Refusal(Refusal::NothingToRedo) => "no event is undone",
        Topic::Refusal(Refusal::Full) => "100,000 events survive",
        Topic::Refusal(Refusal::SourceGone(_)) =>
            "the source that was found is down, lacks it, or is no member any more",
        Topic::Refusal(Refusal::NotOut) => "the ticket isn't out at this seat",
        Topic::Refusal(Refusal::TapeFull) => "200,000 lines are taken",
        Topic::Refusal(Refusal::HandFull) => "the hand holds 8 findings",
        Topic::Refusal(Refusal::HandEmpty) => "the hand holds none",
        Topic::WantOfMemory | Topic::Refusal(Refusal::NoMemory) =>
            "there is no memory; the run ends",
        Topic::Refusal(Refusal::Disabled) => "AutoRecovery is disabled",
        Topic::Refusal(Refusal::AlreadyDisabled) => "it is disabled already",
        Topic::Refusal(Refusal::AlreadyEnabled) => "it is enabled",
    }
}

/// What its value is, if it has one.
pub(crate) fn value_word(topic: &Topic) -> Option<&'static str>
    ensures { is_some result ≡ is_some (topic_value topic.now) }
{
    match topic {
        Topic::Refusal(Refusal::Locked(_)) => Some("owner"),
        Topic::Refusal(Refusal::StillUnder(_)) => Some("fragment"),
        Topic::Refusal(Refusal::GraceSet(_)) | Topic::Refusal(Refusal::GraceRuns(_)) => Some(
            "tick",
        ),
        Topic::Refusal(Refusal::Stale(_)) => Some("version"),
        Topic::Refusal(Refusal::NoSource(_))
        | Topic::Refusal(Refusal::MissingEntry(_))
        | Topic::Refusal(Refusal::Undecided(_))
        | Topic::Refusal(Refusal::TooFew(_))
        | Topic::Refusal(Refusal::SourceGone(_)) => Some("entry"),
        _ => None,
    }
}
