// The entries of a segment, by their remainders.
ghost use Rattle.std.specs.Prelude.{◌≡◌, ◌^◌, ◌<◌, ◌≤◌, ◌+◌, ◌/◌, ◌%◌, ℕ, Bool, cond, nat_lt, OnOk, length};
ghost use Rattle.reh_tally.specs.Lines.{count_lines};
ghost use Rattle.reh_tally.specs.Segments as model;

use crate::lines::{Line, Lines};
use std::alloc::{AllocError, Global};

/// The remainder by the ensemble's size of the entry that is so many after one with this remainder.
pub(crate) fn remainder_behind(remainder: u64, entries: u64, size: u64) -> u64
    requires remainder { remainder < size }
    requires entries { entries < size }
    requires small { size ≤ 64 }
    ensures { result ≡ (remainder + entries) % size }
{
    let sum = remainder + entries;
    if sum < size { sum } else { sum - size }
}

/// How many whole rounds of the ensemble these entries are: most segments are shorter than one, and need no division.
fn rounds_in(entries: u64, size: u64) -> u64
    requires { 0 < size }
    ensures { result ≡ entries / size }
{
    if entries < size { 0 } else { entries / size }
}

/// How many entries come after the whole rounds.
fn rest_of(entries: u64, size: u64) -> u64
    requires { 0 < size }
    ensures { result ≡ entries % size }
{
    if entries < size {
        entries
    } else {
        entries % size
    }
}

/// How many entries of a segment have the remainder of its entry of this index: one in each whole round, and one more
/// where the last round comes so far.
fn count_alike(rounds: u64, more: u64, index: u64) -> u64
    requires { rounds ≤ 2 ^ 63 }
    ensures { result ≡ rounds + cond (nat_lt index more) 1 0 }
{
    if index < more { rounds + 1 } else { rounds }
}

/// Counts the entries of a segment, which these members hold, and that nobody told of these, where they are striped onto
/// them: by remainders, and no more of them than there are entries.
pub(crate) fn count_segment(
    alloc: Global,
    masks: &[u64],
    held: u64,
    untold: u64,
    first: u64,
    stop: u64,
    lines: &mut Lines,
) -> Result<(), AllocError>
    requires some { 0 < length masks.now }
    requires small { length masks.now ≤ 64 }
    requires order { first ≤ stop }
    requires stop { stop ≤ 2 ^ 63 }
    ensures { OnOk result ((test : ℕ → ℕ → Bool) → count_lines lines.new test
        ≡ count_lines lines.old test + model.count_masks masks.now held untold first stop test) }
{
    let size = masks.len() as u64;
    let entries = stop - first;
    let rounds = rounds_in(entries, size);
    let more = rest_of(entries, size);
    let remainder = first % size;
    for index in 0..size.min(entries) {
        let mask = masks[remainder_behind(remainder, index, size) as usize];
        let count = count_alike(rounds, more, index);
        let line = Line {
            known: mask & held,
            untold: mask & untold,
            count,
        };
        lines.add(alloc, line)?;
    }
    Ok(())
}
