// What a picture's bookies hold, by ledger.
ghost use Rattle.std.specs.Prelude.{◌≡◌, ◌<◌, ◌≤◌, ◌++◌, [], ◌==◌, ℕ, IfOk, None, OnOk, cond, length, map, slice_index_or};
ghost use Rattle.std.specs.BTreeMap.{get};
ghost use Rattle.std.specs.Ordering.{nat_cmp};
ghost use Rattle.reh_picture.specs.Contents.{Holding as HoldingValue};
ghost use Rattle.reh_inputs.specs.ByLedger as model;

use reh_picture::Holding;
use reh_types::LedgerId;
use std::alloc::{AllocError, Global};
use std::collections::BTreeMap;

/// The holdings of each ledger, in order.
pub type ByLedger<'a> = BTreeMap<LedgerId, Vec<&'a Holding>>;

/// Up to where the holdings from that index on are of one ledger.
fn run_end(holdings: &[Holding], at: usize) -> usize
    requires { at < length holdings.now }
    ensures later { at < result }
    ensures within { result ≤ length holdings.now }
    ensures alike { (k : ℕ) (d : HoldingValue) → at ≤ k → k < result
        → (slice_index_or holdings.now k d).ledger ≡ (slice_index_or holdings.now at d).ledger }
{
    let ledger = holdings[at].ledger();
    let mut end = at + 1;
    while end < holdings.len() && holdings[end].ledger() == ledger {
        end += 1;
    }
    end
}

/// Adds holdings after others. After an `Err` some of them may be there.
fn extend<'a>(held: &mut Vec<&'a Holding>, holdings: &'a [Holding]) -> Result<(), AllocError>
    ensures { OnOk result (map (λ h. h.now) held.new.items ≡ map (λ h. h.now) held.old.items ++ holdings.now) }
{
    held.reserve_exact(holdings.len())?;
    for holding in holdings {
        held.push(holding)?;
    }
    Ok(())
}

/// Adds holdings of a ledger that has none.
fn add_first<'a>(
    alloc: Global,
    by_ledger: &mut ByLedger<'a>,
    ledger: LedgerId,
    holdings: &'a [Holding],
) -> Result<(), AllocError>
    requires { get nat_cmp by_ledger.old ledger ≡ None }
    ensures { OnOk result ((own : ℕ) → model.held_in (get nat_cmp by_ledger.new own)
        ≡ model.held_in (get nat_cmp by_ledger.old own) ++ cond (ledger == own) holdings.now []) }
{
    let mut held = Vec::new(alloc);
    extend(&mut held, holdings)?;
    by_ledger.insert(ledger, held)?;
    Ok(())
}

/// Adds holdings of a ledger after those that it has. After an `Err` some of them may be there.
fn add_run<'a>(
    alloc: Global,
    by_ledger: &mut ByLedger<'a>,
    ledger: LedgerId,
    holdings: &'a [Holding],
) -> Result<(), AllocError>
    ensures { OnOk result ((own : ℕ) → model.held_in (get nat_cmp by_ledger.new own)
        ≡ model.held_in (get nat_cmp by_ledger.old own) ++ cond (ledger == own) holdings.now []) }
{
    match by_ledger.get_mut(&ledger) {
        Some(held) => extend(held, holdings),
        None => add_first(alloc, by_ledger, ledger, holdings),
    }
}

/// The holdings by ledger. They are looked through once, and the ledger of neighbours is looked up once.
pub(crate) fn group_by_ledger(
    alloc: Global,
    holdings: &[Holding],
) -> Result<ByLedger<'_>, AllocError>
    ensures { IfOk result (λ by_ledger. model.AreOf holdings.now (get nat_cmp by_ledger)) }
{
    let mut by_ledger = BTreeMap::new(alloc);
    let mut at = 0;
    while at < holdings.len() {
        let end = run_end(holdings, at);
        let (passed, _) = holdings.split_at(end);
        let (_, run) = passed.split_at(at);
        add_run(alloc, &mut by_ledger, holdings[at].ledger(), run)?;
        at = end;
    }
    Ok(by_ledger)
}
