// How many entries of a census break the rules.
ghost use Rattle.std.specs.Prelude.{◌≡◌, ◌^◌, ◌≤◌, ◌&&◌, not, nat_lt, min, cond, length, count_by};
ghost use Rattle.reh_census.specs.Bookies.{is_flagged};
ghost use Rattle.reh_census.specs.Counting.{count_in, entries_in};
ghost use Rattle.reh_census.specs.Rules as rules;
ghost use Rattle.reh_rules.specs.Entries as model;

use reh_census::{BookieSet, Class, Counted, Keep};

/// Which rules an entry breaks.
#[derive(Clone, Copy)]
pub struct Breaks {
    pub lost: bool,
    pub may_be_lost: bool,
    pub fallen: bool,
    pub may_be_fallen: bool,
    pub on_disk: bool,
}

/// How many entries break each rule.
#[derive(Clone, Copy)]
pub struct Entries {
    pub lost: u64,
    pub may_be_lost: u64,
    pub fallen: u64,
    pub may_be_fallen: u64,
    pub on_disk: u64,
}

/// How many copies an entry of this ack quorum is to keep.
pub(crate) fn copies_to_keep(keep: Keep, ack_quorum: u64) -> u64
    ensures { result ≡ rules.copies_to_keep keep ack_quorum }
{
    match keep {
        Keep::AckQuorum => 1.max(ack_quorum),
        Keep::Copies(number) => 1.max(number),
        Keep::AckLessOne => 1.max(ack_quorum.saturating_sub(1)),
    }
}

/// How many of the bookies are to be stopped.
pub(crate) fn count_stopped(stopped: &BookieSet, names: &[u16]) -> usize
    ensures stopped { result ≡ count_by (is_flagged stopped.now) names.now }
    ensures within { result ≤ length names.now }
{
    let mut count = 0;
    for name in names {
        if stopped.contains(*name) {
            count += 1;
        }
    }
    count
}

/// Whether so few copies are left of so many that a rule is broken which keeps this number.
fn is_broken(left: usize, copies: usize, keep: u64) -> bool
    ensures { result ≡ nat_lt left (min copies keep) }
{
    left < copies && (left as u64) < keep
}

/// Whether a rule is broken by some completion, and not by every one.
fn not_sure(every: bool, some: bool) -> bool
    ensures { result ≡ (some && not every) }
{
    some && !every
}

/// Whether fewer copies are known than are to be kept, where disks go for good.
fn is_on_disk(known: usize, keep: u64, takes_disk: bool) -> bool
    ensures { result ≡ (nat_lt known keep && takes_disk) }
{
    (known as u64) < keep && takes_disk
}

/// Which rules an entry of this class breaks, where disks go for good or not.
pub fn breaks_of(keep: Keep, takes_disk: bool, stopped: &BookieSet, class: &Class) -> Breaks
    ensures { result ≡ model.breaks_of keep takes_disk (is_flagged stopped.now) class.now }
{
    let known = class.known.as_slice().len();
    let untold = class.untold.as_slice().len();
    let left = known - count_stopped(stopped, class.known.as_slice());
    let stopped_untold = count_stopped(stopped, class.untold.as_slice());
    let left_untold = untold - stopped_untold;
    let least = copies_to_keep(keep, class.ack_quorum);
    let lost = is_broken(left + left_untold, known + left_untold, 1);
    let may_lose = is_broken(left, known + stopped_untold, 1);
    let fallen = is_broken(left + left_untold, known + left_untold, least);
    let may_fall = is_broken(left, known + stopped_untold, least);
    let may_be_lost = not_sure(lost, may_lose);
    let may_be_fallen = not_sure(fallen, may_fall);
    let on_disk = is_on_disk(known, least, takes_disk);
    Breaks {
        lost,
        may_be_lost,
        fallen,
        may_be_fallen,
        on_disk,
    }
}

/// The count, or none.
pub(crate) fn count_if(is: bool, count: u64) -> u64
    ensures { result ≡ cond is count 0 }
{
    if is { count } else { 0 }
}

/// How many entries of the census break each rule where these bookies are stopped.
pub(crate) fn count_entries(
    census: &[Counted],
    keep: Keep,
    takes_disk: bool,
    stopped: &BookieSet,
) -> Entries
    requires { entries_in census.now ≤ 2 ^ 63 }
    ensures { result ≡ model.entries_of (count_in census.now) keep takes_disk (is_flagged stopped.now) }
{
    let mut lost = 0;
    let mut may_be_lost = 0;
    let mut fallen = 0;
    let mut may_be_fallen = 0;
    let mut on_disk = 0;
    for counted in census {
        let breaks = breaks_of(keep, takes_disk, stopped, &counted.class);
        lost += count_if(breaks.lost, counted.count);
        may_be_lost += count_if(breaks.may_be_lost, counted.count);
        fallen += count_if(breaks.fallen, counted.count);
        may_be_fallen += count_if(breaks.may_be_fallen, counted.count);
        on_disk += count_if(breaks.on_disk, counted.count);
    }
    Entries {
        lost,
        may_be_lost,
        fallen,
        may_be_fallen,
        on_disk,
    }
}
