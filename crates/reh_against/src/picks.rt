// The ledgers that speak against a stop, the worst first.
ghost use Rattle.std.specs.Prelude.{◌≡◌, ◌<◌, [], ◌∷◌, ◌++◌, All, IfOk, Err, List, OnOk, Some, length, map, slice_get, string_bytes};
ghost use Rattle.reh_census.specs.Bookies.{bookies_of, holders, is_flagged};
ghost use Rattle.reh_census.specs.Ledgers.{Ledger as LedgerValue};
ghost use Rattle.reh_tally.specs.Few.{AreFew};
ghost use Rattle.reh_tally.specs.declared.census.TallyFault.TheVariants.{TooMany};
ghost use Rattle.reh_against.specs.Weights.{weight};
ghost use Rattle.reh_against.specs.Worst as model;

use crate::causes::cause_of;
use crate::found::Found;
use crate::kept::MOST;
use crate::stops::Stop;
use crate::weights::{entries_by, weight_of};
use reh_answer::Against;
use reh_census::Ledger;
use reh_tally::TallyFault;
use std::alloc::{AllocError, Global};
use std::cmp::Reverse;
use std::slice;

/// Adds a ledger that weighs something.
fn add(found: &mut Vec<Found>, weight: u64, ledger: u64, place: usize) -> Result<(), AllocError>
    ensures { OnOk result (found.new.items ≡ found.old.items ++ model.found_if weight ledger place) }
{
    if weight == 0 {
        return Ok(());
    }
    found.push(Found {
        weight: Reverse(weight),
        ledger,
        place,
    })?;
    Ok(())
}

/// The ledgers of which something speaks against the stop, as they stand.
fn found_in(
    alloc: Global,
    ids: &[u64],
    ledgers: &[Ledger],
    stop: &Stop<'_>,
) -> Result<Vec<Found>, TallyFault>
    requires { length ids.now ≡ length ledgers.now }
    ensures found { IfOk result (λ found. found.items ≡ model.found_from (weight
        (bookies_of stop.now.bookies.now) stop.now.question.now
        (is_flagged stop.now.stopped.now) stop.now.answer.now) 0 ids.now ledgers.now) }
    ensures places { IfOk result (λ found. All (λ f. f.place < length ledgers.now) found.items) }
    ensures too_many { result ≡ Err TooMany → All (λ g. AreFew (holders (bookies_of stop.now.bookies.now))
        (g ∷ [])) ledgers.now → ⊥ }
{
    let mut found = Vec::new(alloc);
    for place in 0..ledgers.len() {
        let weight = weight_of(alloc, slice::from_ref(&ledgers[place]), stop)?;
        add(&mut found, weight, ids[place], place)?;
    }
    Ok(found)
}

/// The ten of them that weigh the most, the worst first.
fn worst_of(
    alloc: Global,
    ids: &[u64],
    ledgers: &[Ledger],
    stop: &Stop<'_>,
) -> Result<Vec<Found>, TallyFault>
    requires { length ids.now ≡ length ledgers.now }
    ensures worst { IfOk result (λ worst. model.AreWorst (model.found_from (weight
        (bookies_of stop.now.bookies.now) stop.now.question.now
        (is_flagged stop.now.stopped.now) stop.now.answer.now) 0 ids.now ledgers.now) worst.items) }
    ensures places { IfOk result (λ worst. All (λ f. f.place < length ledgers.now) worst.items) }
    ensures too_many { result ≡ Err TooMany → All (λ g. AreFew (holders (bookies_of stop.now.bookies.now))
        (g ∷ [])) ledgers.now → ⊥ }
{
    let mut found = found_in(alloc, ids, ledgers, stop)?;
    found.sort()?;
    found.truncate(MOST);
    Ok(found)
}

/// What is said of a ledger that was found.
pub(crate) fn say_of(
    alloc: Global,
    parts: &[Ledger],
    stop: &Stop<'_>,
    found: &Found,
) -> Result<Against, AllocError>
    ensures { IfOk result (λ against. (ledgers : List (List LedgerValue)) → slice_get ledgers found.now.place ≡ Some parts.now
        → model.IsAgainst (map string_bytes stop.now.names.now) ledgers (bookies_of stop.now.bookies.now)
        stop.now.question.now.keep (is_flagged stop.now.stopped.now) stop.now.answer.now found.now against) }
{
    let weight = found.weight.0;
    let cause = cause_of(alloc, stop, weight, parts)?;
    Ok(Against {
        ledger: found.ledger,
        entries: entries_by(stop.answer, weight),
        cause,
    })
}

/// What is said of the one of these ledgers that was found.
fn say(
    alloc: Global,
    ledgers: &[Ledger],
    stop: &Stop<'_>,
    found: &Found,
) -> Result<Against, AllocError>
    requires { found.now.place < length ledgers.now }
    ensures { IfOk result (λ against. model.IsAgainst (map string_bytes stop.now.names.now)
        (map model.alone ledgers.now) (bookies_of stop.now.bookies.now) stop.now.question.now.keep
        (is_flagged stop.now.stopped.now) stop.now.answer.now found.now against) }
{
    let against = say_of(alloc, slice::from_ref(&ledgers[found.place]), stop, found)?;
    Ok(against)
}

/// What is said of each of these.
fn say_all(
    alloc: Global,
    ledgers: &[Ledger],
    stop: &Stop<'_>,
    worst: &[Found],
) -> Result<Vec<Against>, AllocError>
    requires { All (λ f. f.place < length ledgers.now) worst.now }
    ensures { IfOk result (λ against. model.Each (model.IsAgainst (map string_bytes stop.now.names.now)
        (map model.alone ledgers.now) (bookies_of stop.now.bookies.now) stop.now.question.now.keep
        (is_flagged stop.now.stopped.now) stop.now.answer.now) worst.now against.items) }
{
    let mut against = Vec::new(alloc);
    for found in worst {
        let one = say(alloc, ledgers, stop, found)?;
        against.push(one)?;
    }
    Ok(against)
}

/// The ledgers that speak against the stop for this answer, at most ten, the worst first, each with the number of its
/// entries that do, if it is entries, and why. The ledgers have these ids. Where one alone has more entries than a census
/// counts, it fails.
pub fn against_of(
    alloc: Global,
    ids: &[u64],
    ledgers: &[Ledger],
    stop: &Stop<'_>,
) -> Result<Vec<Against>, TallyFault>
    requires { length ids.now ≡ length ledgers.now }
    ensures said { IfOk result (λ against. model.SaysAgainst (map string_bytes stop.now.names.now) ids.now
        (map model.alone ledgers.now) (bookies_of stop.now.bookies.now) stop.now.question.now
        (is_flagged stop.now.stopped.now) stop.now.answer.now against.items) }
    ensures too_many { result ≡ Err TooMany → All (λ g. AreFew (holders (bookies_of stop.now.bookies.now))
        (g ∷ [])) ledgers.now → ⊥ }
{
    let worst = worst_of(alloc, ids, ledgers, stop)?;
    let against = say_all(alloc, ledgers, stop, &worst)?;
    Ok(against)
}
