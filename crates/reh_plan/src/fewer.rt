// Where a plan leaves the copies of an entry in fewer racks than before.
ghost use Rattle.std.specs.Prelude.{◌≡◌, ◌==◌, ◌++◌, if◌then◌else◌, codes, map, IfOk, OnOk, string_bytes};
ghost use Rattle.reh_plan.specs.Racks as model;

use crate::faults::PlanFault;
use crate::plans::Plan;
use crate::racks::Racks;
use reh_cluster::{Ledger, State};
use reh_meta::LedgerMeta;
use reh_types::LedgerId;
use std::alloc::{AllocError, Global};

/// A fragment of which a write set stands in so few racks: in fewer than are asked for, and maybe in fewer than before the
/// plan.
#[derive(Clone, Copy)]
pub struct FewerRacks {
    pub ledger: LedgerId,
    pub fragment: usize,
    pub racks: usize,
}

/// The metadata of each ledger, in picture order.
pub(crate) fn metadata_of(alloc: Global, state: &State) -> Result<Vec<LedgerMeta>, AllocError>
    ensures { IfOk result (λ all. all.items ≡ model.metadata_of state.now) }
{
    let mut all = Vec::new(alloc);
    for ledger in state.ledgers() {
        all.push(ledger.metadata().clone_in()?)?;
    }
    Ok(all)
}

/// The fragments of which a write set may stand in fewer racks than before, and stands in fewer than are asked for: by ledger,
/// in picture order.
pub(crate) fn fewer_racks(
    alloc: Global,
    racks: &Racks,
    before: &[LedgerMeta],
    state: &State,
) -> Result<Vec<FewerRacks>, AllocError>
    ensures { IfOk result (λ fewer. fewer.items ≡ model.fewer_among racks.now before.now state.now.parts.ledgers) }
{
    let mut fewer = Vec::new(alloc);
    for (metadata, ledger) in before.iter().zip(state.ledgers()) {
        add_fewer(&mut fewer, racks, metadata, ledger)?;
    }
    Ok(fewer)
}

/// Adds those of a ledger, which had this metadata before.
fn add_fewer(
    fewer: &mut Vec<FewerRacks>,
    racks: &Racks,
    before: &LedgerMeta,
    ledger: &Ledger,
) -> Result<(), AllocError>
    ensures { OnOk result (fewer.new.items ≡ fewer.old.items ++ model.fewer_in racks.now before.now ledger.now) }
{
    for fragment in 0..ledger.metadata().fragments().len() {
        push_fewer(fewer, racks, before, ledger, fragment)?;
    }
    Ok(())
}

/// Adds a fragment of a ledger, if it is one of those.
fn push_fewer(
    fewer: &mut Vec<FewerRacks>,
    racks: &Racks,
    before: &LedgerMeta,
    ledger: &Ledger,
    fragment: usize,
) -> Result<(), AllocError>
    ensures { OnOk result (fewer.new.items
        ≡ fewer.old.items ++ model.fewer_at racks.now before.now ledger.now fragment) }
{
    if let Some(count) = racks.fewest(before, ledger.metadata(), fragment) {
        fewer.push(FewerRacks {
            ledger: ledger.id(),
            fragment,
            racks: count,
        })?;
    }
    Ok(())
}

/// Names these fragments in comments.
pub(crate) fn tell(alloc: Global, plan: &mut Plan, fewer: &[FewerRacks]) -> Result<(), PlanFault>
    ensures { OnOk result (plan.new ≡ record plan.old { lines = plan.old.lines ++ map model.racks_line fewer.now }) }
{
    for found in fewer {
        let line = line_of(alloc, found)?;
        plan.remark(line.as_bytes())?;
    }
    Ok(())
}

/// The comment that a write set of a fragment stands in so few racks.
fn line_of(alloc: Global, found: &FewerRacks) -> Result<String, AllocError>
    ensures { IfOk result (λ line. string_bytes line ≡ model.racks_line found.now) }
{
    let ledger = found.ledger.0;
    let fragment = found.fragment;
    let racks = found.racks;
    let word = word_for(racks);
    format!(in alloc; "# ledger {ledger} fragment {fragment}: a write set in {racks}{word}")
}

/// The word after a number of racks, with the space before it.
fn word_for(racks: usize) -> &'static str
    ensures { result.now ≡ (if racks == 1 then codes " rack" else codes " racks") }
{
    if racks == 1 { " rack" } else { " racks" }
}
