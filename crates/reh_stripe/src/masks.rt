// Which entries of a word the indexes of an ensemble carry.
ghost use Rattle.std.specs.Prelude.{◌≡◌, ℕ, ◌+◌, ◌-◌, ◌*◌, ◌%◌, ◌<◌, ◌≤◌};
ghost use Rattle.reh_types.specs.declared.limits.TheConstants.{MAX_ENSEMBLE_SIZE};
ghost use Rattle.reh_model.specs.Striping as stripe;
ghost use Rattle.reh_stripe.specs.Masks.{IsMask};
ghost use Rattle.reh_stripe.specs.Words.{has_bit};

use crate::striped::{Striped, rank_from};
use reh_types::MAX_ENSEMBLE_SIZE;
use std::marker::Model;

/// For each index of an ensemble which of the 64 entries of a word it carries. Contracts see the ensemble's size and its
/// write quorum.
#[derive(Drop)]
pub struct Masks {
    size: u32,
    quorum: u32,
    /// Which of the entries from 0 to 63 each index carries.
    by_index: [u64; MAX_ENSEMBLE_SIZE as usize],
}

impl Model for Masks {
    ghost use Rattle.reh_stripe.specs.Masks.{Sizes};

    ghost Value = { Sizes };

    ghost use Rattle.reh_stripe.specs.Kept.{AreKept};

    ghost view = { λ a. record { size = a.size; quorum = a.quorum } };

    ghost invariant = { AreKept };
}

impl Masks {
    /// The masks of ensembles of this size with this write quorum.
    pub fn new(size: u32, quorum: u32) -> Masks
        requires some { 1 ≤ quorum }
        requires within { quorum ≤ size }
        requires small { size ≤ MAX_ENSEMBLE_SIZE }
        ensures { result ≡ record { size = size; quorum = quorum } }
    {
        let mut by_index = [0; MAX_ENSEMBLE_SIZE as usize];
        by_index[0] = first_mask(size, quorum);
        for index in 1..size {
            let place = index as usize;
            by_index[place] = next_mask(size, quorum, index, by_index[place - 1]);
        }
        Masks {
            size,
            quorum,
            by_index,
        }
    }

    /// The entries that the index carries, of a word whose first entry has its rank 0 at the index `start`.
    pub fn carried(&self, start: u32, index: u32) -> u64
        requires start { start < self.now.size }
        requires index { index < self.now.size }
        ensures { (number i : ℕ) → start ≡ (64 * number) % self.now.size → i < 64
            → has_bit result i ≡ stripe.is_striped (64 * number + i) index self.now.size self.now.quorum }
    {
        self.by_index[rank_from(start, index, self.size) as usize]
    }
}

/// The mask of index 0.
fn first_mask(size: u32, quorum: u32) -> u64
    requires some { 1 ≤ quorum }
    requires within { quorum ≤ size }
    requires small { size ≤ MAX_ENSEMBLE_SIZE }
    ensures { IsMask size quorum 0 result }
{
    let mut mask = 0;
    for entry in Striped::new(0, 64, 0, size, quorum) {
        mask |= 1 << entry;
    }
    mask
}

/// The mask of a further index: what the index before it carries, one entry later.
fn next_mask(size: u32, quorum: u32, index: u32, before: u64) -> u64
    requires quorum { 1 ≤ quorum }
    requires within { quorum ≤ size }
    requires some { 1 ≤ index }
    requires inside { index < size }
    requires mask { IsMask size quorum (index - 1) before }
    ensures { IsMask size quorum index result }
{
    let later = before << 1;
    if index < quorum { later | 1 } else { later }
}
