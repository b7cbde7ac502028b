// Bookies that are stopped, as sets.
ghost use Rattle.std.specs.Prelude.{◌≡◌, ◌≤◌, ◌<◌, ◌∷◌, All, IfOk, ℕ, length};
ghost use Rattle.reh_census.specs.Bookies.{is_flagged};
ghost use Rattle.reh_census.specs.Copies.{is_in};

use reh_census::BookieSet;
use std::alloc::{AllocError, Global};

/// The set of these bookies, all below the count.
pub(crate) fn set_of(
    alloc: Global,
    count: u16,
    members: &[u16],
    bookie: u16,
) -> Result<BookieSet, AllocError>
    requires count { count ≤ 4096 }
    requires members { All (λ m. m < count) members.now }
    requires bookie { bookie < count }
    ensures { IfOk result (λ set. (b : ℕ) → is_flagged set b ≡ is_in (bookie ∷ members.now) b) }
{
    let mut flags = vec![in alloc; false; count as usize]?;
    flags[bookie as usize] = true;
    for member in members {
        flags[*member as usize] = true;
    }
    Ok(BookieSet::of(flags))
}
