// The write set of an entry.
ghost use Rattle.std.specs.Prelude.{◌≡◌, ◌*◌, ◌%◌, ◌<◌, ◌≤◌};
ghost use Rattle.std.specs.Iterator.{YieldsFirst, item_count};
ghost use Rattle.reh_types.specs.declared.limits.TheConstants.{MAX_ENSEMBLE_SIZE};
ghost use Rattle.reh_model.specs.Striping as stripe;

use std::marker::Model;

/// The indexes of a write set, in the order of their ranks; contracts see those that are left.
#[derive(Drop)]
pub struct WriteSet {
    /// The index of rank 0.
    start: u32,
    rank: u32,
    size: u32,
    quorum: u32,
}

impl Model for WriteSet {
    ghost use Rattle.std.specs.Prelude.{List, ℕ, ◌+◌, ◌≤◌, ◌<◌, map};
    ghost use Rattle.reh_types.specs.declared.limits.TheConstants.{MAX_ENSEMBLE_SIZE};
    ghost use Rattle.reh_model.specs.Striping.{index_at, range};

    ghost Value = { List ℕ };

    ghost view = { λ w. map (index_at w.start w.size) (range w.rank w.quorum) };

    ghost invariant = { λ w. (w.start < w.size)
        × (w.quorum ≤ w.size) × (w.size ≤ MAX_ENSEMBLE_SIZE) };
}

/// The indexes of an ensemble that carry the entry, as many as the write quorum, in the order of
/// their ranks: `(entry + rank) % size` for each rank below the quorum.
///
/// BookKeeper's `RoundRobinDistributionSchedule::getWriteSet`. The size is the ensemble's, the
/// quorum the write quorum.
pub fn write_set(entry: u32, size: u32, quorum: u32) -> WriteSet
    requires some { 1 ≤ quorum }
    requires within { quorum ≤ size }
    requires small { size ≤ MAX_ENSEMBLE_SIZE }
    ensures { result ≡ stripe.write_set entry size quorum }
{
    WriteSet {
        start: entry % size,
        rank: 0,
        size,
        quorum,
    }
}

impl Iterator for WriteSet {
    type Item = u32;

    ghost next_gives = { YieldsFirst (λ s. s) };

    ghost remaining = { item_count (λ s. s) };

    fn next(&mut self) -> Option<u32> {
        if self.rank >= self.quorum {
            return None;
        }
        let index = wrapped(self.start + self.rank, self.size);
        self.rank += 1;
        Some(index)
    }
}

/// A number below twice the size, round an ensemble of this size.
pub fn wrapped(number: u32, size: u32) -> u32
    requires { number < 2 * size }
    ensures { result ≡ number % size }
{
    if number < size { number } else { number - size }
}
