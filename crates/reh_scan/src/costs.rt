// What there is to read for a survey, so that it can be shared out.
ghost use Rattle.std.specs.Prelude.{◌≡◌, ◌≤◌, ◌^◌, ◌++◌, length, IfOk, OnOk};
ghost use Rattle.reh_model.specs.Survey.{survey};
ghost use Rattle.reh_scan.specs.Costs as model;

use reh_cluster::State;
use reh_meta::{Fragment, LedgerMeta};
use std::alloc::{AllocError, Global};

/// How many words there are to read for each line of the survey, in picture order: of each member of the fragment the
/// words in which its entries lie, of 64 entries each, and one more, as its row is looked up.
pub fn survey_costs(alloc: Global, state: &State) -> Result<Vec<u32>, AllocError>
    ensures costs { IfOk result (λ costs. costs.items ≡ model.survey_costs state.now) }
    ensures count { IfOk result (λ costs. length costs.items ≡ length (survey state.now)) }
{
    let mut costs = Vec::new(alloc);
    for ledger in state.ledgers() {
        push_costs(&mut costs, ledger.metadata())?;
    }
    Ok(costs)
}

/// Puts what there is to read for each fragment of a ledger after the others.
fn push_costs(costs: &mut Vec<u32>, metadata: &LedgerMeta) -> Result<(), AllocError>
    ensures { OnOk result (costs.new.items ≡ costs.old.items ++ model.costs_of metadata.now) }
{
    for (number, fragment) in metadata.fragments().iter().enumerate() {
        costs.push(cost_of(metadata, number, fragment))?;
    }
    Ok(())
}

/// What there is to read for the fragment of that number.
fn cost_of(metadata: &LedgerMeta, number: usize, fragment: &Fragment) -> u32
    ensures { result ≡ model.cost_of metadata.now number fragment.now }
{
    let words = match metadata.end_of(number) {
        Some(stop) => words_between(fragment.first, stop),
        None => 0,
    };
    metadata.size() * (words + 1)
}

/// How many words the entries from the first one up to, not including, the stop lie in.
fn words_between(first: u32, stop: u32) -> u32
    ensures words { result ≡ model.words_between first stop }
    ensures few { result ≤ 2 ^ 26 }
{
    if first < stop {
        (stop - 1) / 64 + 1 - first / 64
    } else {
        0
    }
}
