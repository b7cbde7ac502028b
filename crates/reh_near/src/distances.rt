// How far two texts are apart.
ghost use Rattle.std.specs.Prelude.{◌≡◌, IfOk};
ghost use Rattle.reh_near.specs.Distance.{distance};

use std::alloc::{AllocError, Global};
use strsim::generic_levenshtein;

/// How far two texts are apart.
#[tactic(auto, using(crate::proofs::RowLaws::table_is_distance))]
pub(crate) fn distance_of(alloc: Global, one: &[u8], other: &[u8]) -> Result<usize, AllocError>
    ensures { IfOk result (λ d. d ≡ distance one.now other.now) }
{
    generic_levenshtein(alloc, one, other)
}
