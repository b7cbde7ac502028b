// The census of ledgers.
ghost use Rattle.std.specs.Prelude.{◌≡◌, ◌^◌, ◌≤◌, IfOk, Err, ◌↔◌, length};
ghost use Rattle.reh_census.specs.Bookies.{bookies_of, holders};
ghost use Rattle.reh_census.specs.Counting.{IsCensus, not_judged};
ghost use Rattle.reh_census.specs.Order.{IsInOrder};
ghost use Rattle.reh_tally.specs.Few.{AreFew};
ghost use Rattle.reh_tally.specs.declared.census.TallyFault.TheVariants.{TooMany};

use crate::few::are_few;
use crate::merge::{merged, merged_ensembles, merged_tails};
use crate::segments::entries_of;
use crate::tails::{ensembles_of, tails_of};
use reh_census::{Bookies, Census, Judged, Ledger};
use std::alloc::{AllocError, Global};

/// Why ledgers can't be counted.
#[derive(Clone, Copy, Debug)]
pub enum TallyFault {
    /// There are more entries, ledgers or fragments than a census counts.
    TooMany,
    /// Out of memory.
    NoMemory,
}

impl From<AllocError> for TallyFault {
    ghost use Rattle.std.specs.Prelude.{◌≡◌};
    ghost use Rattle.reh_tally.specs.declared.census.TallyFault.TheVariants.{NoMemory};

    ghost from_gives = { λ _ fault. fault ≡ NoMemory };

    fn from(_want: AllocError) -> TallyFault {
        TallyFault::NoMemory
    }
}

/// The census of these ledgers, of which some could not be read. Whether they are too many is told before memory is asked
/// for.
pub fn census_of(
    alloc: Global,
    bookies: &Bookies,
    ledgers: &[Ledger],
    judged: Judged,
) -> Result<Census, TallyFault>
    requires ledgers { judged.ledgers ≡ length ledgers.now }
    requires not_judged { not_judged judged ≤ 2 ^ 63 }
    ensures census { IfOk result (λ census. IsCensus census (holders (bookies_of bookies.now)) ledgers.now) }
    ensures order { IfOk result (λ census. IsInOrder census) }
    ensures judged { IfOk result (λ census. census.judged ≡ judged) }
    ensures too_many { result ≡ Err TooMany ↔ (AreFew (holders (bookies_of bookies.now)) ledgers.now → ⊥) }
{
    if !are_few(ledgers) {
        return Err(TallyFault::TooMany);
    }
    let census = census_of_few(alloc, bookies, ledgers, judged)?;
    Ok(census)
}

/// The same of ledgers that are few enough: for lack of memory alone there is none.
pub fn census_of_few(
    alloc: Global,
    bookies: &Bookies,
    ledgers: &[Ledger],
    judged: Judged,
) -> Result<Census, AllocError>
    requires ledgers { judged.ledgers ≡ length ledgers.now }
    requires not_judged { not_judged judged ≤ 2 ^ 63 }
    requires few { AreFew (holders (bookies_of bookies.now)) ledgers.now }
    ensures census { IfOk result (λ census. IsCensus census (holders (bookies_of bookies.now)) ledgers.now) }
    ensures order { IfOk result (λ census. IsInOrder census) }
    ensures judged { IfOk result (λ census. census.judged ≡ judged) }
{
    // What takes less memory comes first: its drafts then make room for the rest.
    let ensembles = merged_ensembles(alloc, ensembles_of(alloc, ledgers)?)?;
    let tails = merged_tails(alloc, tails_of(alloc, ledgers)?)?;
    let entries = merged(alloc, entries_of(alloc, bookies, ledgers)?)?;
    Ok(Census::of(entries, tails, ensembles, judged))
}
