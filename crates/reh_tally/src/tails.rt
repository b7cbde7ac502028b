// The tails of ledgers that aren't closed, and the ensembles of fragments.
ghost use Rattle.std.specs.Prelude.{◌≡◌, ◌+◌, Bool, List, ℕ, All, IfOk, OnOk, count_by};
ghost use Rattle.reh_census.specs.declared.censuses.Tail.{Tail as TailValue};
ghost use Rattle.reh_census.specs.Copies.{in_order};
ghost use Rattle.reh_census.specs.Counting as model;
ghost use Rattle.reh_census.specs.Tails.{IsTail};

use crate::members::in_order;
use reh_census::{CountedEnsemble, CountedTail, Fragment, Ledger, LedgerState, Names, Tail};
use std::alloc::{AllocError, Global};

/// A copy of the names.
fn copy_of(alloc: Global, names: &Names) -> Result<Names, AllocError>
    ensures { IfOk result (λ copy. copy ≡ names.now) }
{
    let items = Vec::from_slice(alloc, names.as_slice())?;
    Ok(Names::of(items))
}

/// Adds the ledger's last ensemble.
fn add_last(
    alloc: Global,
    ledger: &Ledger,
    is_open: bool,
    tails: &mut Vec<CountedTail>,
) -> Result<(), AllocError>
    requires { All (λ t. IsTail t.tail) tails.old.items }
    ensures counts { OnOk result ((test : TailValue → Bool) → model.count_tails_in tails.new.items test
        ≡ model.count_tails_in tails.old.items test
        + count_by test (model.tail_with ledger.now is_open ledger.now.fragments)) }
    ensures well_formed { OnOk result (All (λ t. IsTail t.tail) tails.new.items) }
{
    let fragments = ledger.fragments();
    let len = fragments.len();
    if len == 0 {
        return Ok(());
    }
    let ensemble = copy_of(alloc, &fragments[len - 1].ensemble)?;
    let tail = Tail {
        size: ledger.size(),
        write_quorum: ledger.write_quorum(),
        ack_quorum: ledger.ack_quorum(),
        is_open,
        ensemble,
    };
    tails.push(CountedTail { tail, count: 1 })?;
    Ok(())
}

/// Adds the ledger's tail, if it isn't closed.
fn add_tail(alloc: Global, ledger: &Ledger, tails: &mut Vec<CountedTail>) -> Result<(), AllocError>
    requires { All (λ t. IsTail t.tail) tails.old.items }
    ensures counts { OnOk result ((test : TailValue → Bool) → model.count_tails_in tails.new.items test
        ≡ model.count_tails_in tails.old.items test + count_by test (model.tail_of ledger.now)) }
    ensures well_formed { OnOk result (All (λ t. IsTail t.tail) tails.new.items) }
{
    match ledger.state() {
        LedgerState::Open => add_last(alloc, ledger, true, tails),
        LedgerState::InRecovery => add_last(alloc, ledger, false, tails),
        LedgerState::Closed => Ok(()),
    }
}

/// The tails of these ledgers.
pub fn tails_of(alloc: Global, ledgers: &[Ledger]) -> Result<Vec<CountedTail>, AllocError>
    ensures counts { IfOk result (λ tails. model.CountsTails tails.items ledgers.now) }
    ensures well_formed { IfOk result (λ tails. All (λ t. IsTail t.tail) tails.items) }
{
    let mut tails = Vec::new(alloc);
    for ledger in ledgers {
        add_tail(alloc, ledger, &mut tails)?;
    }
    Ok(tails)
}

/// Adds the ensembles of fragments, with their members in order.
fn add_ensembles(
    alloc: Global,
    fragments: &[Fragment],
    ensembles: &mut Vec<CountedEnsemble>,
) -> Result<(), AllocError>
    ensures { OnOk result ((test : List ℕ → Bool) → model.count_ensembles_in ensembles.new.items test
        ≡ model.count_ensembles_in ensembles.old.items test
        + count_by (λ fragment. test (in_order fragment.ensemble)) fragments.now) }
{
    for fragment in fragments {
        let members = in_order(alloc, &fragment.ensemble)?;
        ensembles.push(CountedEnsemble { members, count: 1 })?;
    }
    Ok(())
}

/// The ensembles of the fragments of these ledgers.
pub fn ensembles_of(alloc: Global, ledgers: &[Ledger]) -> Result<Vec<CountedEnsemble>, AllocError>
    ensures { IfOk result (λ ensembles. model.CountsEnsembles ensembles.items ledgers.now) }
{
    let mut ensembles = Vec::new(alloc);
    for ledger in ledgers {
        add_ensembles(alloc, ledger.fragments(), &mut ensembles)?;
    }
    Ok(ensembles)
}
