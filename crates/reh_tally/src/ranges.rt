// Entries from one on, as a list of ranges tells of them.
ghost use Rattle.std.specs.Prelude.{◌≡◌, ◌<◌, ◌≤◌, ◌+◌, ◌⊎◌, ℕ, true, length, slice_index_or};
ghost use Rattle.std.specs.List.{list_any};
ghost use Rattle.reh_census.specs.Ledgers.{is_within};
ghost use Rattle.reh_census.specs.declared.ledgers.Range.{Range as RangeValue};
ghost use Rattle.reh_tally.specs.Stretches.{ArePassed, AreRising, IsEnd, IsEndOf, IsStretch};

use reh_census::Range;

/// Entries from one on up to the end: whether they are held, all of them or none, and how many ranges end before.
#[derive(Clone, Copy)]
pub(crate) struct Stretch {
    pub(crate) passed: usize,
    pub(crate) is_held: bool,
    pub(crate) end: u64,
}

/// Whether each range has an entry, and ends before the next one begins.
pub(crate) fn are_rising(ranges: &[Range]) -> bool
    ensures { result ≡ true → AreRising ranges.now }
{
    for index in 0..ranges.len() {
        if ranges[index].last < ranges[index].first {
            return false;
        }
        if index > 0 && ranges[index].first <= ranges[index - 1].last {
            return false;
        }
    }
    true
}

/// How many ranges end before the entry, at least.
pub(crate) fn passed_before(ranges: &[Range], at: u64) -> usize
    requires { AreRising ranges.now }
    ensures { ArePassed ranges.now result at }
{
    let mut low = 0;
    let mut high = ranges.len();
    while low < high {
        let middle = low + (high - low) / 2;
        if ranges[middle].last < at {
            low = middle + 1;
        } else {
            high = middle;
        }
    }
    low
}

/// The index of the first range that doesn't end before the entry, from this index on.
fn first_at(ranges: &[Range], passed: usize, at: u64) -> usize
    requires { ArePassed ranges.now passed at }
    ensures passed { ArePassed ranges.now result at }
    ensures here { (d : RangeValue) → result < length ranges.now → at ≤ (slice_index_or ranges.now result d).last }
{
    let mut index = passed;
    while index < ranges.len() && ranges[index].last < at {
        index += 1;
    }
    index
}

/// The stretch from the entry on, at most up to the stop, by the first range that doesn't end before.
fn stretch_at(ranges: &[Range], index: usize, at: u64, stop: u64) -> Stretch
    requires order { at < stop }
    requires rising { AreRising ranges.now }
    requires passed { ArePassed ranges.now index at }
    requires here { (d : RangeValue) → index < length ranges.now → at ≤ (slice_index_or ranges.now index d).last }
    ensures later { at < result.end }
    ensures end { IsEnd ranges.now stop result.end }
    ensures same { IsStretch ranges.now at result }
{
    if index < ranges.len() {
        let range = ranges[index];
        return Stretch {
            passed: index,
            is_held: range.first <= at,
            end: next_after(&range, at, stop),
        };
    }
    Stretch {
        passed: index,
        is_held: false,
        end: stop,
    }
}

/// The stretch from the entry on, at most up to the stop, where so many ranges are known to end before: by the next
/// range where they are rising, and else by all of them.
pub(crate) fn stretch_in(
    ranges: &[Range],
    is_rising: bool,
    passed: usize,
    at: u64,
    stop: u64,
) -> Stretch
    requires order { at < stop }
    requires rising { is_rising ≡ true → AreRising ranges.now }
    requires passed { ArePassed ranges.now passed at }
    ensures later { at < result.end }
    ensures end { IsEnd ranges.now stop result.end }
    ensures same { IsStretch ranges.now at result }
{
    if is_rising {
        let index = first_at(ranges, passed, at);
        return stretch_at(ranges, index, at, stop);
    }
    Stretch {
        passed,
        is_held: is_in(ranges, at),
        end: next_of(ranges, at, stop),
    }
}

/// Whether the entry is in one of the ranges.
fn is_in(ranges: &[Range], entry: u64) -> bool
    ensures { result ≡ list_any (is_within entry) ranges.now }
{
    for range in ranges {
        if range.first <= entry && entry <= range.last {
            return true;
        }
    }
    false
}

/// The first entry after this one that is otherwise in the ranges or not, or an earlier one, at most the stop.
fn next_of(ranges: &[Range], at: u64, stop: u64) -> u64
    requires { at < stop }
    ensures later { at < result }
    ensures within { result ≤ stop }
    ensures same { (entry : ℕ) → at ≤ entry → entry < result
        → list_any (is_within entry) ranges.now ≡ list_any (is_within at) ranges.now }
    ensures end { IsEnd ranges.now stop result }
{
    let mut next = stop;
    for range in ranges {
        next = next_after(range, at, next);
    }
    next
}

/// The same of one range. Where the range ends no earlier than the entry, it is at most the one after the range.
fn next_after(range: &Range, at: u64, stop: u64) -> u64
    requires { at < stop }
    ensures later { at < result }
    ensures within { result ≤ stop }
    ensures same { (entry : ℕ) → at ≤ entry → entry < result → is_within entry range.now ≡ is_within at range.now }
    ensures end { (result ≡ stop) ⊎ IsEndOf result range.now }
    ensures near { range.now.first ≤ range.now.last → at ≤ range.now.last → result ≤ range.now.last + 1 }
{
    if at < range.first {
        range.first.min(stop)
    } else if at <= range.last && range.last < stop {
        range.last + 1
    } else {
        stop
    }
}
