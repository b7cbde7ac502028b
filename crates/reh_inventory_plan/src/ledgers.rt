// What the plan for one ledger comes to.
ghost use Rattle.std.specs.Prelude.{◌≡◌, ◌∷◌, [], map, string_bytes, IfOk};
ghost use Rattle.std.specs.List.{filter};
ghost use Rattle.reh_inventory_plan.specs.Ledgers as model;

use crate::asked::Asked;
use crate::faults::Unplanned;
use crate::parts::part_of;
use crate::pictures::plan_picture;
use crate::tails::{is_empty_in, is_short_in};
use reh_cluster::Names;
use reh_cut::{Others, cut_with};
use reh_inventory::{Head, LedgerLine, LedgerState, Name};
use reh_plan::{Left, Plan, Planned, Share};
use reh_types::LedgerId;
use std::alloc::{AllocError, Global};

/// What a bookie is given by a plan.
#[derive(Drop)]
pub struct NamedShare {
    pub bookie: Name,
    /// How many places it takes.
    pub places: usize,
    /// How many entries it holds more in the end.
    pub entries: usize,
}

/// What the plan for a ledger comes to.
#[derive(Drop)]
pub struct PlannedLedger {
    pub ledger: u64,
    /// The ledger's length in bytes, and where it ends, if it is closed and that is told.
    pub size: Option<Size>,
    /// What each bookie is given that is given something.
    pub shares: Vec<NamedShare>,
    /// The ledger, if something is left to do for it in the end, and why.
    pub left: Vec<Left>,
    /// How many of its entries can't be read in the end, of all fragments whose entries are known.
    pub unreadable: u64,
    /// Whether the script says that it is full.
    pub is_full: bool,
    /// How many of its fragments have a write set that may stand in fewer racks.
    pub fewer: usize,
    /// Whether the plan closes it without an entry of its last fragment, by what is told of the members that are left.
    pub is_closed_empty: bool,
    /// Whether the plan closes it before an entry that some bookie holds.
    pub is_closed_short: bool,
    /// The picture and the script, if they are kept.
    pub files: Option<LedgerFiles>,
}

/// The picture of a ledger, and the script of the plan for it.
#[derive(Drop)]
pub struct LedgerFiles {
    pub picture: String,
    pub script: Vec<u8>,
}

/// How many bytes a closed ledger has, and how many entries.
#[derive(Clone, Copy)]
pub struct Size {
    pub bytes: u64,
    pub entries: u64,
}

/// What comes of a ledger that misses a member.
#[derive(Drop)]
pub enum Outcome {
    /// A plan for it.
    Planned(PlannedLedger),
    /// The ledger of this id has no plan.
    Unplanned(u64, Unplanned),
}

/// The plan for a ledger, in which other bookies of these numbers may take part. Of those that do as well the first takes a place.
pub(crate) fn plan_ledger(
    alloc: Global,
    head: &Head,
    asked: &Asked,
    line: LedgerLine,
    others: &[usize],
) -> Result<PlannedLedger, Unplanned>
    ensures { IfOk result (model.IsLedgerPlan head.now asked.now line) }
{
    let lines = [line];
    let part = part_of(alloc, head, &lines[0], others)?;
    let text = cut_with(alloc, &part, &lines, asked.assume, Others::AsListed)?;
    let planned = plan_picture(alloc, asked, text.as_bytes())?;
    let files = files_of(alloc, asked.keeps_files, text, &planned.plan)?;
    let sums = sums_of(alloc, &lines[0], planned, files)?;
    Ok(sums)
}

/// The picture of this text and the script of the plan, if they are kept.
fn files_of(
    alloc: Global,
    keeps: bool,
    text: String,
    plan: &Plan,
) -> Result<Option<LedgerFiles>, AllocError>
    ensures { IfOk result (model.AreFiles keeps (string_bytes text) plan.now.lines) }
{
    if !keeps {
        return Ok(None);
    }
    let script = Vec::from_slice(alloc, plan.text())?;
    Ok(Some(LedgerFiles {
        picture: text,
        script,
    }))
}

/// What the plan for the ledger of this line comes to.
fn sums_of(
    alloc: Global,
    line: &LedgerLine,
    planned: Planned,
    files: Option<LedgerFiles>,
) -> Result<PlannedLedger, AllocError>
    ensures sums { IfOk result (model.AreSums line.now planned) }
    ensures files { IfOk result (λ sums. sums.files ≡ files) }
{
    let Planned {
        plan,
        summary,
        left,
        fewer,
    } = planned;
    let state = plan.state();
    let shares = shares_of(alloc, state.names(), &summary.shares)?;
    let ledger = LedgerId(line.id);
    let was_closed = is_closed(line.state);
    Ok(PlannedLedger {
        ledger: line.id,
        size: size_of(line),
        shares,
        left,
        unreadable: summary.unreadable,
        is_full: summary.is_full,
        fewer: fewer.len(),
        is_closed_empty: !was_closed && is_empty_in(state, ledger),
        is_closed_short: !was_closed && is_short_in(state, ledger),
        files,
    })
}

/// Whether a ledger that stands so is closed.
fn is_closed(state: LedgerState) -> bool
    ensures { result ≡ model.is_closed state }
{
    match state {
        LedgerState::Closed { end: _ } => true,
        LedgerState::Open | LedgerState::InRecovery => false,
    }
}

/// How many bytes and entries the ledger has, if it is closed and that is told.
fn size_of(line: &LedgerLine) -> Option<Size>
    ensures { result ≡ model.size_of line.now }
{
    match (line.state, line.length) {
        (LedgerState::Closed { end }, Some(bytes)) => Some(Size {
            bytes,
            entries: end,
        }),
        _ => None,
    }
}

/// What those of these bookies are given that are given something, by their names.
fn shares_of(alloc: Global, names: &Names, shares: &[Share]) -> Result<Vec<NamedShare>, AllocError>
    ensures { IfOk result (λ named.
        named.items ≡ map (model.named_share names.now) (filter model.is_given shares.now)) }
{
    let mut named = Vec::new(alloc);
    for share in shares {
        if is_given(share) {
            named.push(named_share(alloc, names, share)?)?;
        }
    }
    Ok(named)
}

/// Whether the bookie is given something.
fn is_given(share: &Share) -> bool
    ensures { result ≡ model.is_given share.now }
{
    !(share.places == 0 && share.entries == 0)
}

/// What a bookie is given, by its name.
fn named_share(alloc: Global, names: &Names, share: &Share) -> Result<NamedShare, AllocError>
    ensures { IfOk result (λ named. named ≡ model.named_share names.now share.now) }
{
    let name = match names.name(share.bookie) {
        Some(name) => Name::new(alloc, name)?,
        None => Name::new(alloc, "")?,
    };
    Ok(NamedShare {
        bookie: name,
        places: share.places,
        entries: share.entries,
    })
}
