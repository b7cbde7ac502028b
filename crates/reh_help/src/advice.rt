// What to look at after a refusal.
use crate::refusals::Topic;
use reh_types::Refusal;

/// What to look at next, and what can be done, in lines of a terminal's width.
pub(crate) fn advice(topic: &Topic) -> &'static str {
    match topic {
        Topic::Refusal(Refusal::NoBookie) =>
            "Only programs meet it: a line of a script that names no bookie of the picture is
answered: unknown name. A report lists the bookies.",
        Topic::Refusal(Refusal::NoLedger) =>
            "A report lists the ledgers. A picture need not have all of its cluster.",
        Topic::Refusal(Refusal::AlreadyDown) => "A report shows which bookies are up and down.",
        Topic::Refusal(Refusal::AlreadyUp) => "A report shows which bookies are up and down.",
        Topic::Refusal(Refusal::NothingToPublish) =>
            "A report shows the tasks that there are. A survey shows which fragments have members
down. If some aren't in a task yet, the picture's delay isn't over: it runs from the
loss of each bookie, and tick lets it pass.",
        Topic::Refusal(Refusal::NoTask) =>
            "A report shows the tasks. An audit makes one of each ledger that lacks members, and
finish ends it.",
        Topic::Refusal(Refusal::Locked(_)) =>
            "The value is the worker that holds the lock. It can release or finish the ledger; if
its bookie is gone, expire ends its session.",
        Topic::Refusal(Refusal::NotOwner) =>
            "A report shows who holds the lock. The worker has to acquire the ledger first. It loses
its lock by release, finish and expire.",
        Topic::Refusal(Refusal::StillUnder(_)) =>
            "A survey shows how many members of that fragment are down. Copy and swap each of their
places, or join the bookies again.",
        Topic::Refusal(Refusal::NoLocks) => "A report shows who holds locks.",
        Topic::Refusal(Refusal::NotOpen) =>
            "A report shows the ledger's state. Only an OPEN ledger has a writer, whom a worker can
grant a grace or fence off, and who can roll.",
        Topic::Refusal(Refusal::NotNeeded) =>
            "A report shows the last fragment's ensemble. Nothing hinders the writer, so there is no
need to fence it off. Members of earlier fragments are replaced by copy and swap.",
        Topic::Refusal(Refusal::GraceSet(_)) =>
            "The grace was granted already. Once the clock is at this tick, the worker can fence.",
        Topic::Refusal(Refusal::GraceRuns(_)) =>
            "Let the clock go on by tick, and fence again; or let the writer roll first.",
        Topic::Refusal(Refusal::NoGrace) =>
            "The worker has to grant the writer a grace before it fences. A roll takes a due tick
away, and a lock that is given back takes it along.",
        Topic::Refusal(Refusal::BadTick) => "Let the clock go on in several lines.",
        Topic::Refusal(Refusal::ClockEnd) =>
            "No rehearsal goes past this. An undo takes ticks back.",
        Topic::Refusal(Refusal::NoFragment) =>
            "A report lists the ledger's fragments. They are counted from 0.",
        Topic::Refusal(Refusal::NoIndex) =>
            "Indexes are counted from 0. The first number after quorum in a report is the ensemble
size.",
        Topic::Refusal(Refusal::MemberUp) =>
            "Only a member that is down is replaced. A report shows the fragment's ensemble, and
which bookies are down.",
        Topic::Refusal(Refusal::TargetDown) =>
            "Name a bookie that is up, or join this one first. A report shows which are up.",
        Topic::Refusal(Refusal::TargetIsMember) =>
            "Name a bookie that isn't in the fragment's ensemble. A report shows it.",
        Topic::Refusal(Refusal::NoEndpoint) =>
            "Nobody knows yet where the fragment ends. Fence and seal the ledger first; or a roll by
its writer begins a new fragment, and gives this one its end.",
        Topic::Refusal(Refusal::Stale(_)) =>
            "The value is the version to name. Another event has changed the ledger: look at it once
more in a report. A finding that is stale is gone: make a new checkout.",
        Topic::Refusal(Refusal::NoSource(_)) =>
            "A survey counts the entries that can't be read. Join a member of the entry's write set
that holds it. If none comes back, the entry is lost: undo what was lost together.",
        Topic::Refusal(Refusal::MissingEntry(_)) =>
            "The swap would lose a copy of this entry. Let the worker copy this place first: copy
has the same words as swap. Then swap again.",
        Topic::Refusal(Refusal::Undecided(_)) =>
            "If this entry was acknowledged, the ledger must not be closed before it. Join a member
of its write set that is down: it holds the entry, or tells that it doesn't.",
        Topic::Refusal(Refusal::TooFew(_)) =>
            "Join members of this entry's write set, and seal again. A report shows the ensemble,
and which bookies are down.",
        Topic::Refusal(Refusal::NotRecovering) =>
            "A report shows the ledger's state. The worker has to fence an OPEN ledger before it
seals it. A CLOSED one needs no recovery.",
        Topic::Refusal(Refusal::FragmentsFull) =>
            "The writer can begin no further fragment. A worker can fence and seal the ledger.",
        Topic::Refusal(Refusal::EntryEnd) =>
            "A rehearsal has no entry past 65,535. A worker can fence and seal the ledger.",
        Topic::Refusal(Refusal::VersionEnd) => "A rehearsal has no version past this one.",
        Topic::Refusal(Refusal::NothingToUndo) => "All is as the picture shows it.",
        Topic::Refusal(Refusal::NothingToRedo) =>
            "A new event empties what was undone. Events are made again only right after undos.",
        Topic::Refusal(Refusal::Full) =>
            "An undo makes room. So does a picture of the state that is reached, and a new run.",
        Topic::Refusal(Refusal::SourceGone(_)) =>
            "Others have changed the cluster since the scan. Make a new checkout: it names another
source, or tells that there is none.",
        Topic::Refusal(Refusal::NotOut) =>
            "Only programs meet it: a script's tickets are always out at its own seat.",
        Topic::Refusal(Refusal::TapeFull) =>
            "Each call takes a line of the tape, and each undo too. Begin a new run. Reports and
surveys take none.",
        Topic::Refusal(Refusal::HandFull) => "Spend or discard a finding first.",
        Topic::Refusal(Refusal::HandEmpty) =>
            "Make a checkout first: what it finds goes into the hand.",
        Topic::WantOfMemory | Topic::Refusal(Refusal::NoMemory) =>
            "Nothing was changed by this line. Run it where there is more memory.",
        Topic::Refusal(Refusal::Disabled) =>
            "Audits and new locks wait until AutoRecovery is enabled again. A worker goes on with
what it has locked.",
        Topic::Refusal(Refusal::AlreadyDisabled) => "A report shows it: autorecovery disabled.",
        Topic::Refusal(Refusal::AlreadyEnabled) => "A report shows it, while it is disabled.",
    }
}
