// The entries that an index of an ensemble carries.
ghost use Rattle.std.specs.Prelude.{◌≡◌, ◌+◌, ◌-◌, ◌%◌, ◌<◌, ◌≤◌, length};
ghost use Rattle.std.specs.Iterator.{YieldsFirst, item_count};
ghost use Rattle.reh_types.specs.declared.limits.TheConstants.{MAX_ENSEMBLE_SIZE};
ghost use Rattle.reh_model.specs.Striping as stripe;
ghost use Rattle.reh_stripe.specs.Words.{AreRising, entries_of};

use crate::masks::Masks;
use crate::striped_words::{StripedWords, end_word};
use crate::writes::wrapped;
use std::marker::Model;

/// Whether the index of an ensemble carries the entry: whether it is in the entry's write set.
///
/// An index that isn't below the size carries none. The size is the ensemble's, the quorum the
/// write quorum. BookKeeper's `RoundRobinDistributionSchedule::hasEntry`.
pub fn is_striped(entry: u32, index: u32, size: u32, quorum: u32) -> bool
    requires some { 1 ≤ quorum }
    requires within { quorum ≤ size }
    requires small { size ≤ MAX_ENSEMBLE_SIZE }
    ensures { result ≡ stripe.is_striped entry index size quorum }
{
    index < size && rank_of(entry, index, size) < quorum
}

/// The rank at which the index carries the entry, if it is below the write quorum.
fn rank_of(entry: u32, index: u32, size: u32) -> u32
    requires inside { index < size }
    requires small { size ≤ MAX_ENSEMBLE_SIZE }
    ensures { result ≡ stripe.rank_of entry index size }
{
    rank_from(entry % size, index, size)
}

/// The rank at which the index carries the entries whose rank 0 is at another index.
pub fn rank_from(start: u32, index: u32, size: u32) -> u32
    requires start { start < size }
    requires inside { index < size }
    requires small { size ≤ MAX_ENSEMBLE_SIZE }
    ensures { result ≡ (index + size - start) % size }
{
    wrapped(index + size - start, size)
}

/// The entries of a range that an index carries, rising; contracts see those that are left.
///
/// Each call of `next` takes the same time, however far the next entry is, and divides nothing.
#[derive(Drop)]
pub struct Striped {
    at: u32,
    /// The index of rank 0 there.
    start: u32,
    stop: u32,
    index: u32,
    size: u32,
    quorum: u32,
}

impl Model for Striped {
    ghost use Rattle.std.specs.Prelude.{◌≡◌, List, ℕ, ◌%◌, ◌≤◌};
    ghost use Rattle.reh_types.specs.declared.limits.TheConstants.{MAX_ENSEMBLE_SIZE};
    ghost use Rattle.reh_model.specs.Striping as stripe;

    ghost Value = { List ℕ };

    ghost view = { λ s. stripe.striped_entries s.at s.stop s.index s.size s.quorum };

    ghost invariant = { λ s. (1 ≤ s.quorum) × (s.quorum ≤ s.size) × (s.size ≤ MAX_ENSEMBLE_SIZE)
        × (s.start ≡ s.at % s.size) };
}

impl Striped {
    /// The entries from the first up to, not including, the stop that the index carries.
    pub fn new(first: u32, stop: u32, index: u32, size: u32, quorum: u32) -> Striped
        requires some { 1 ≤ quorum }
        requires within { quorum ≤ size }
        requires small { size ≤ MAX_ENSEMBLE_SIZE }
        ensures { result ≡ stripe.striped_entries first stop index size quorum }
    {
        Striped {
            at: first,
            start: first % size,
            stop,
            index,
            size,
            quorum,
        }
    }

    /// The entries that are left, to go over them twice.
    pub fn duplicate(&self) -> Striped
        ensures { result ≡ self.now }
    {
        Striped {
            at: self.at,
            start: self.start,
            stop: self.stop,
            index: self.index,
            size: self.size,
            quorum: self.quorum,
        }
    }

    /// How many entries are left, counted by words.
    pub fn len(&self) -> usize
        ensures { result ≡ length self.now }
    {
        let mut count = 0;
        for word in self.words() {
            count += word.bits.count_ones() as usize;
        }
        count
    }

    /// The entries that are left, word by word.
    pub fn words(&self) -> StripedWords
        ensures entries { entries_of result ≡ self.now }
        ensures rising { AreRising 0 result }
    {
        let number = self.at / 64;
        let end = if self.index < self.size {
            end_word(self.at, self.stop)
        } else {
            number
        };
        StripedWords {
            number,
            end,
            first: self.at,
            last: self.stop.saturating_sub(1),
            index: self.index,
            start: 64 * number % self.size,
            step: 64 % self.size,
            size: self.size,
            masks: Masks::new(self.size, self.quorum),
        }
    }
}

impl Iterator for Striped {
    type Item = u32;

    ghost next_gives = { YieldsFirst (λ s. s) };

    ghost remaining = { item_count (λ s. s) };

    fn next(&mut self) -> Option<u32> {
        if self.index >= self.size {
            return None;
        }

        // the ranks fall by 1 from entry to entry
        let skipped = rank_from(self.start, self.index, self.size).saturating_sub(self.quorum - 1);
        if skipped >= self.stop.saturating_sub(self.at) {
            return None;
        }
        let entry = self.at + skipped;
        self.at = entry + 1;
        self.start = wrapped(self.start + skipped + 1, self.size);
        Some(entry)
    }
}
