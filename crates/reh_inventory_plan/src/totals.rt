// What plans for the ledgers of an inventory come to together.
ghost use Rattle.std.specs.Prelude.{◌≡◌, count_by, if◌then◌else◌};
ghost use Rattle.reh_inventory_plan.specs.Totals as model;

use crate::faults::Unplanned;
use crate::inventories::InventoryPlan;
use crate::ledgers::{NamedShare, Outcome, PlannedLedger, Size};
use reh_plan::Left;

/// What a bookie is given by several plans. Each number is at most 2^64 - 1.
#[derive(Clone, Copy)]
pub struct Given {
    /// How many places it takes.
    pub places: u64,
    /// How many entries it holds more in the end.
    pub entries: u64,
    /// About how many bytes these have, where the lengths of their ledgers are told.
    pub bytes: u64,
}

impl Given {
    const NOTHING: Given = Given {
        places: 0,
        entries: 0,
        bytes: 0,
    };

    /// Whether it is nothing.
    pub(crate) fn is_nothing(&self) -> bool
        ensures { result ≡ model.is_nothing self.now }
    {
        self.places == 0 && self.entries == 0
    }
}

/// Both together.
fn together(one: Given, other: Given) -> Given
    ensures { result ≡ model.together one other }
{
    Given {
        places: one.places.saturating_add(other.places),
        entries: one.entries.saturating_add(other.entries),
        bytes: one.bytes.saturating_add(other.bytes),
    }
}

/// What the bookie of that name is given by all plans.
pub fn given_in(name: &str, outcomes: &[Outcome]) -> Given
    ensures { result ≡ model.given_in name.now outcomes.now }
{
    let mut given = Given::NOTHING;
    for outcome in outcomes {
        given = together(given, given_of(name, outcome));
    }
    given
}

/// What it is given by the plan for one ledger.
fn given_of(name: &str, outcome: &Outcome) -> Given
    ensures { result ≡ model.given_of name.now outcome.now }
{
    match outcome {
        Outcome::Planned(planned) => given_among(name, planned.size, &planned.shares),
        Outcome::Unplanned(..) => Given::NOTHING,
    }
}

/// What it is given by these shares of a ledger of that size.
fn given_among(name: &str, size: Option<Size>, shares: &[NamedShare]) -> Given
    ensures { result ≡ model.given_among name.now size shares.now }
{
    let mut given = Given::NOTHING;
    for share in shares {
        given = together(given, given_by(name, size, share));
    }
    given
}

/// What it is given by one share.
fn given_by(name: &str, size: Option<Size>, share: &NamedShare) -> Given
    ensures { result ≡ model.given_by name.now size share.now }
{
    if share.bookie.as_str() == name {
        Given {
            places: share.places as u64,
            entries: share.entries as u64,
            bytes: bytes_of(size, share.entries as u64),
        }
    } else {
        Given::NOTHING
    }
}

/// About how many bytes so many of a ledger's entries have: as large a part of its length.
fn bytes_of(size: Option<Size>, entries: u64) -> u64
    ensures { result ≡ model.bytes_of size entries }
{
    match size {
        None => 0,
        Some(size) => part_of(size, entries),
    }
}

/// The same of a ledger of that size.
fn part_of(size: Size, entries: u64) -> u64
    ensures { result ≡ model.part_of size entries }
{
    if size.entries <= entries {
        return size.bytes;
    }
    let part = size.bytes as u128 * entries as u128 / size.entries as u128;
    u64::try_from(part).unwrap_or(u64::MAX)
}

/// What ledgers are counted by.
#[derive(Clone, Copy)]
pub enum Counted {
    /// They have a plan.
    Planned,
    /// Something is left to do for them, or they have no plan.
    Left,
    /// Their script says that it is full.
    Full,
    /// Their plan closes them without an entry of their last fragment.
    ClosedEmpty,
    /// Their plan closes them before an entry that some bookie holds.
    ClosedShort,
    /// They have a plan, and their bytes aren't known.
    Unsized,
}

/// How many ledgers this holds of.
pub fn count_of(counted: Counted, outcomes: &[Outcome]) -> usize
    ensures { result ≡ count_by (model.counts counted) outcomes.now }
{
    let mut count = 0;
    for outcome in outcomes {
        if counts(counted, outcome) {
            count += 1;
        }
    }
    count
}

/// Whether it holds of the ledger.
fn counts(counted: Counted, outcome: &Outcome) -> bool
    ensures { result ≡ model.counts counted outcome.now }
{
    match outcome {
        Outcome::Planned(planned) => counts_planned(counted, planned),
        Outcome::Unplanned(..) => matches!(counted, Counted::Left),
    }
}

/// Whether it holds of a ledger that has a plan.
fn counts_planned(counted: Counted, planned: &PlannedLedger) -> bool
    ensures { result ≡ model.counts_planned counted planned.now }
{
    match counted {
        Counted::Planned => true,
        Counted::Left => !planned.left.is_empty(),
        Counted::Full => planned.is_full,
        Counted::ClosedEmpty => planned.is_closed_empty,
        Counted::ClosedShort => planned.is_closed_short,
        Counted::Unsized => planned.size.is_none(),
    }
}

/// How many ledgers are left for a reason of that kind.
pub(crate) fn count_kind(outcomes: &[Outcome], kind: &str) -> usize
    ensures { result ≡ count_by (model.is_left_for kind.now) outcomes.now }
{
    let mut count = 0;
    for outcome in outcomes {
        if is_left_for(outcome, kind) {
            count += 1;
        }
    }
    count
}

/// Whether the ledger is left for a reason of that kind.
fn is_left_for(outcome: &Outcome, kind: &str) -> bool
    ensures { result ≡ model.is_left_for kind.now outcome.now }
{
    match outcome {
        Outcome::Planned(planned) => has_kind(&planned.left, kind),
        Outcome::Unplanned(_, reason) => unplanned_kind(reason) == kind,
    }
}

/// Whether one of these is left for a reason of that kind.
fn has_kind(left: &[Left], kind: &str) -> bool
    ensures { result ≡ model.has_kind kind.now left.now }
{
    for one in left {
        if one.reason.kind() == kind {
            return true;
        }
    }
    false
}

/// The kind of a reason why there is no plan.
pub(crate) fn unplanned_kind(reason: &Unplanned) -> &'static str
    ensures { result.now ≡ model.unplanned_kind reason.now }
{
    match reason {
        Unplanned::NoPicture(_) => "no picture",
        Unplanned::NoPlan(_) => "no plan",
        Unplanned::NoMemory => "no memory",
    }
}

/// How many entries of the ledgers that are planned for can't be read in the end, at most 2^64 - 1.
pub fn unreadable_in(outcomes: &[Outcome]) -> u64
    ensures { result ≡ model.unreadable_in outcomes.now }
{
    let mut count: u64 = 0;
    for outcome in outcomes {
        count = count.saturating_add(unreadable_of(outcome));
    }
    count
}

/// How many entries of the ledger can't.
fn unreadable_of(outcome: &Outcome) -> u64
    ensures { result ≡ model.unreadable_of outcome.now }
{
    match outcome {
        Outcome::Planned(planned) => planned.unreadable,
        Outcome::Unplanned(..) => 0,
    }
}

/// How many fragments have a write set that may stand in fewer racks, at most 2^64 - 1.
pub fn fewer_in(outcomes: &[Outcome]) -> u64
    ensures { result ≡ model.fewer_in outcomes.now }
{
    let mut count: u64 = 0;
    for outcome in outcomes {
        count = count.saturating_add(fewer_of(outcome));
    }
    count
}

/// How many fragments of the ledger have one.
fn fewer_of(outcome: &Outcome) -> u64
    ensures { result ≡ model.fewer_of outcome.now }
{
    match outcome {
        Outcome::Planned(planned) => planned.fewer as u64,
        Outcome::Unplanned(..) => 0,
    }
}

impl InventoryPlan {
    /// Whether nothing is left, each entry of a ledger that is planned for can be read, no script is full, and each ledger was
    /// read.
    fn is_done(&self) -> bool
        ensures { result ≡ model.is_done self.now }
    {
        count_of(Counted::Left, &self.outcomes) == 0
            && unreadable_in(&self.outcomes) == 0
            && count_of(Counted::Full, &self.outcomes) == 0
            && self.unread == 0
    }

    /// The exit status of plans that come to this: 0 where all that holds, else 8.
    pub fn status(&self) -> u8
        ensures { result ≡ (if model.is_done self.now then 0 else 8) }
    {
        if self.is_done() { 0 } else { 8 }
    }
}
