// The census of what was counted, whoever counted it.
ghost use Rattle.std.specs.Prelude.{◌≡◌, ◌≤◌, ◌^◌, ◌↔◌, ℕ, Bool, List, All, Err, IfOk, IsTrue};
ghost use Rattle.reh_census.specs.declared.censuses.Tail.{Tail as TailValue};
ghost use Rattle.reh_census.specs.declared.classes.Class.{Class as ClassValue};
ghost use Rattle.reh_census.specs.Counting.{count_ensembles_in, count_in, count_tails_in, not_judged};
ghost use Rattle.reh_census.specs.Counting as model;
ghost use Rattle.reh_census.specs.Order.{IsInOrder};
ghost use Rattle.reh_census.specs.Tails.{IsTail};
ghost use Rattle.reh_tally.specs.Few.{AreFewCounts, capped};
ghost use Rattle.reh_tally.specs.declared.census.TallyFault.TheVariants.{TooMany};

use crate::census::TallyFault;
use crate::few::MOST;
use crate::merge::{merged, merged_ensembles, merged_tails};
use reh_census::{Census, Counted, CountedEnsemble, CountedTail, Judged};
use std::alloc::{AllocError, Global};

/// How many entries were counted, or 2^64 - 1 if there are more.
pub fn entries_in(entries: &[Counted]) -> u64
    ensures { result ≡ capped (model.entries_in entries.now) }
{
    let mut total: u64 = 0;
    for counted in entries {
        total = total.saturating_add(counted.count);
    }
    total
}

/// How many ledgers that aren't closed, or 2^64 - 1 if there are more.
pub fn tails_in(tails: &[CountedTail]) -> u64
    ensures { result ≡ capped (model.tails_in tails.now) }
{
    let mut total: u64 = 0;
    for counted in tails {
        total = total.saturating_add(counted.count);
    }
    total
}

/// How many fragments, or 2^64 - 1 if there are more.
pub fn ensembles_in(ensembles: &[CountedEnsemble]) -> u64
    ensures { result ≡ capped (model.ensembles_in ensembles.now) }
{
    let mut total: u64 = 0;
    for counted in ensembles {
        total = total.saturating_add(counted.count);
    }
    total
}

/// Whether a census counts so much.
fn are_few_counts(entries: &[Counted], tails: &[CountedTail], ensembles: &[CountedEnsemble]) -> bool
    ensures { IsTrue result ↔ AreFewCounts entries.now tails.now ensembles.now }
{
    let most = entries_in(entries)
        .max(tails_in(tails))
        .max(ensembles_in(ensembles));
    most <= MOST
}

/// The same counts as one census, in order. Whether they are too many is told before memory is asked for.
pub fn census_of_counts(
    alloc: Global,
    entries: Vec<Counted>,
    tails: Vec<CountedTail>,
    ensembles: Vec<CountedEnsemble>,
    judged: Judged,
) -> Result<Census, TallyFault>
    requires not_judged { not_judged judged ≤ 2 ^ 63 }
    requires well_formed { All (λ t. IsTail t.tail) tails.items }
    ensures entries { IfOk result (λ census. (test : ClassValue → Bool)
        → count_in census.entries test ≡ count_in entries.items test) }
    ensures tails { IfOk result (λ census. (test : TailValue → Bool)
        → count_tails_in census.tails test ≡ count_tails_in tails.items test) }
    ensures ensembles { IfOk result (λ census. (test : List ℕ → Bool)
        → count_ensembles_in census.ensembles test ≡ count_ensembles_in ensembles.items test) }
    ensures order { IfOk result (λ census. IsInOrder census) }
    ensures judged { IfOk result (λ census. census.judged ≡ judged) }
    ensures too_many { result ≡ Err TooMany ↔ (AreFewCounts entries.items tails.items ensembles.items → ⊥) }
{
    if !are_few_counts(&entries, &tails, &ensembles) {
        return Err(TallyFault::TooMany);
    }
    let census = census_of_few_counts(alloc, entries, tails, ensembles, judged)?;
    Ok(census)
}

/// The same of counts that are few enough: for lack of memory alone there is none.
fn census_of_few_counts(
    alloc: Global,
    entries: Vec<Counted>,
    tails: Vec<CountedTail>,
    ensembles: Vec<CountedEnsemble>,
    judged: Judged,
) -> Result<Census, AllocError>
    requires not_judged { not_judged judged ≤ 2 ^ 63 }
    requires well_formed { All (λ t. IsTail t.tail) tails.items }
    requires few { AreFewCounts entries.items tails.items ensembles.items }
    ensures entries { IfOk result (λ census. (test : ClassValue → Bool)
        → count_in census.entries test ≡ count_in entries.items test) }
    ensures tails { IfOk result (λ census. (test : TailValue → Bool)
        → count_tails_in census.tails test ≡ count_tails_in tails.items test) }
    ensures ensembles { IfOk result (λ census. (test : List ℕ → Bool)
        → count_ensembles_in census.ensembles test ≡ count_ensembles_in ensembles.items test) }
    ensures order { IfOk result (λ census. IsInOrder census) }
    ensures judged { IfOk result (λ census. census.judged ≡ judged) }
{
    let ensembles = merged_ensembles(alloc, ensembles)?;
    let tails = merged_tails(alloc, tails)?;
    let entries = merged(alloc, entries)?;
    Ok(Census::of(entries, tails, ensembles, judged))
}
