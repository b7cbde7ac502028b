// What an audit publishes.
ghost use Rattle.std.specs.Prelude.{◌≡◌, map, None, All, IfOk, IfErr};
ghost use Rattle.std.specs.List.{filter, list_any};
ghost use Rattle.reh_types.specs.declared.moves.Event.TheVariants.{Audit};
ghost use Rattle.reh_model.specs.Audit as model;
ghost use Rattle.reh_model.specs.Refusals.{or_no_memory};
ghost use Rattle.reh_model.specs.Step.{refusal_of};
ghost use Rattle.reh_audit.specs.Members.{HasBookies};

use crate::members::{long_lost_of, published_of};
use reh_cluster::{Ledger, State};
use reh_types::{BookieSet, LedgerId, Refusal};
use std::alloc::{AllocError, Global};

/// The ledgers whose tasks an audit changes, in picture order, each with the bookies that its task names then.
///
/// Refused with `Disabled` where AutoRecovery is disabled, else with `NothingToPublish` where no task would change, and
/// for lack of memory only where neither applies. BookKeeper's auditor publishes a ledger's under-replication in the
/// same way: to a task that is there already it adds the lost bookies.
pub fn audit(alloc: Global, state: &State) -> Result<Vec<(LedgerId, BookieSet)>, Refusal>
    ensures news { IfOk result (λ _. refusal_of state.now Audit ≡ None) }
    ensures tasks { IfOk result (λ tasks. tasks.items ≡ model.published_tasks state.now) }
    ensures err { IfErr result (λ refusal. refusal ≡ or_no_memory (refusal_of state.now Audit)) }
{
    if !state.is_enabled() {
        return Err(Refusal::Disabled);
    }
    if !has_news(state) {
        return Err(Refusal::NothingToPublish);
    }
    let tasks = published_tasks(alloc, state, state.ledgers())?;
    Ok(tasks)
}

/// The tasks that an audit of these ledgers changes.
fn published_tasks(
    alloc: Global,
    state: &State,
    ledgers: &[Ledger],
) -> Result<Vec<(LedgerId, BookieSet)>, AllocError>
    requires { All HasBookies ledgers.now }
    ensures { IfOk result (λ tasks. tasks.items
        ≡ map (λ g. (g.id, model.published_members state.now g))
        (filter (model.is_news state.now) ledgers.now)) }
{
    let mut tasks = Vec::new(alloc);
    for ledger in ledgers {
        if is_news(state, ledger) {
            tasks.push((ledger.id(), published_of(state, ledger)))?;
        }
    }
    Ok(tasks)
}

/// Whether an audit changes some task.
pub fn has_news(state: &State) -> bool
    ensures { result ≡ list_any (model.is_news state.now) state.now.parts.ledgers }
{
    any_news(state, state.ledgers())
}

/// Whether an audit changes the task of one of these ledgers.
fn any_news(state: &State, ledgers: &[Ledger]) -> bool
    requires { All HasBookies ledgers.now }
    ensures { result ≡ list_any (model.is_news state.now) ledgers.now }
{
    ledgers.iter().any(|ledger| is_news(state, ledger))
}

/// Whether an audit changes the ledger's task: not all long-lost members are in it, of which each has to be one of the
/// 64 bookies that there can be.
pub fn is_news(state: &State, ledger: &Ledger) -> bool
    requires { HasBookies ledger.now }
    ensures { result ≡ model.is_news state.now ledger.now }
{
    !long_lost_of(state, ledger).is_subset(&ledger.task_set())
}
