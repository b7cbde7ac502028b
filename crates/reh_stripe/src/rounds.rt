// Write sets as slices.
ghost use Rattle.std.specs.Prelude.{◌≡◌, ℕ, ◌+◌, ◌*◌, ◌%◌, ◌<◌, ◌≤◌};
ghost use Rattle.reh_types.specs.declared.limits.TheConstants.{MAX_ENSEMBLE_SIZE};
ghost use Rattle.reh_model.specs.Striping as stripe;

use reh_types::MAX_ENSEMBLE_SIZE;
use std::marker::Model;

/// As many as the bits of a word, an ensemble before them and an ensemble after them.
const LENGTH: usize = 64 + 2 * MAX_ENSEMBLE_SIZE as usize;

/// The indexes of an ensemble round and round: the write set of each entry of a word is a slice of them. Contracts see
/// the ensemble's size.
#[derive(Drop)]
pub struct Round {
    size: u32,
    indexes: [u32; LENGTH],
}

impl Model for Round {
    ghost use Rattle.std.specs.Prelude.{◌≡◌, ℕ, ◌%◌, ◌<◌, ◌≤◌, length, slice_index};
    ghost use Rattle.reh_types.specs.declared.limits.TheConstants.{MAX_ENSEMBLE_SIZE};

    ghost Value = { ℕ };

    ghost view = { λ r. r.size };

    ghost invariant = { λ r. (1 ≤ r.size) × (r.size ≤ MAX_ENSEMBLE_SIZE)
        × ((place : ℕ) → place < length r.indexes → slice_index r.indexes place ≡ place % r.size) };
}

impl Round {
    /// The indexes of ensembles of this size.
    pub fn new(size: u32) -> Round
        requires some { 1 ≤ size }
        requires small { size ≤ MAX_ENSEMBLE_SIZE }
        ensures { result ≡ size }
    {
        let mut indexes = [0; LENGTH];
        for place in 0..LENGTH {
            indexes[place] = place as u32 % size;
        }
        Round { size, indexes }
    }

    /// The write set, of so many indexes, of the entry of that bit of a word whose first entry has its rank 0 at the
    /// index `start`.
    pub fn write_set(&self, start: u32, bit: u32, quorum: u32) -> &[u32]
        requires start { start < self.now }
        requires bit { bit < 64 }
        requires quorum { quorum ≤ self.now }
        ensures { (number : ℕ) → start ≡ (64 * number) % self.now
            → result.now ≡ stripe.write_set (64 * number + bit) self.now quorum }
    {
        let first = start as usize + bit as usize;
        &self.indexes[first..first + quorum as usize]
    }
}
