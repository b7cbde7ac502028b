// Which entries of four words the indexes of an ensemble carry.
ghost use Rattle.std.specs.Prelude.{◌≡◌, ℕ, ◌+◌, ◌*◌, ◌%◌, ◌<◌, ◌≤◌, slice_index, length};
ghost use Rattle.reh_types.specs.declared.limits.TheConstants.{MAX_ENSEMBLE_SIZE};
ghost use Rattle.reh_model.specs.Striping as stripe;
ghost use Rattle.reh_stripe.specs.Words.{has_bit};
ghost use Rattle.reh_stripe.specs.Masks.{Sizes};

use crate::four_words::FourWords;
use crate::masks::Masks;
use crate::striped::rank_from;
use crate::writes::wrapped;
use reh_types::MAX_ENSEMBLE_SIZE;
use std::marker::Model;

/// Four words for each index that there can be.
const LENGTH: usize = 4 * MAX_ENSEMBLE_SIZE as usize;

/// For each index of an ensemble which entries of four words that follow one another it carries. Contracts see the
/// ensemble's size and its write quorum.
#[derive(Drop)]
pub struct FourMasks {
    size: u32,
    quorum: u32,
    /// Which of the entries from 0 to 255 each index carries: four words for each.
    by_index: [u64; LENGTH],
}

impl Model for FourMasks {
    ghost use Rattle.reh_stripe.specs.Masks.{Sizes};

    ghost Value = { Sizes };

    ghost use Rattle.reh_stripe.specs.FourKept.{AreKept};

    ghost view = { λ a. record { size = a.size; quorum = a.quorum } };

    ghost invariant = { AreKept };
}

impl FourMasks {
    /// The masks of ensembles of this size with this write quorum.
    pub fn new(size: u32, quorum: u32) -> FourMasks
        requires some { 1 ≤ quorum }
        requires within { quorum ≤ size }
        requires small { size ≤ MAX_ENSEMBLE_SIZE }
        ensures { result ≡ record { size = size; quorum = quorum } }
    {
        let masks = Masks::new(size, quorum);
        let mut by_index = [0; LENGTH];
        for index in 0..size {
            first_four(&masks, size, index).put(&mut by_index, 4 * index as usize);
        }
        FourMasks {
            size,
            quorum,
            by_index,
        }
    }

    /// The entries that the index carries, of four words of which the first one's first entry has its rank 0 at the
    /// index `start`.
    pub fn carried(&self, start: u32, index: u32) -> FourWords
        requires start { start < self.now.size }
        requires index { index < self.now.size }
        ensures { (number k i : ℕ) → start ≡ (64 * number) % self.now.size → k < 4 → i < 64
            → has_bit (slice_index result.words k) i
            ≡ stripe.is_striped (64 * (number + k) + i) index self.now.size self.now.quorum }
    {
        let rank = rank_from(start, index, self.size);
        FourWords::at(&self.by_index, 4 * rank as usize)
    }
}

/// Which of the entries from 0 to 255 the index carries.
fn first_four(masks: &Masks, size: u32, index: u32) -> FourWords
    requires size { size ≡ masks.now.size }
    requires small { size ≤ MAX_ENSEMBLE_SIZE }
    requires index { index < size }
    ensures { (k i : ℕ) → k < 4 → i < 64
        → has_bit (slice_index result.words k) i
        ≡ stripe.is_striped (64 * k + i) index masks.now.size masks.now.quorum }
{
    let step = 64 % size;
    let second = step;
    let third = wrapped(second + step, size);
    let fourth = wrapped(third + step, size);
    FourWords {
        words: [
            masks.carried(0, index),
            masks.carried(second, index),
            masks.carried(third, index),
            masks.carried(fourth, index),
        ],
    }
}
