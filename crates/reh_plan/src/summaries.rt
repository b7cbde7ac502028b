// What a plan comes to: what each bookie is given, what is left, and what can't be read.
ghost use Rattle.std.specs.Prelude.{◌≡◌, ◌==◌, ◌^◌, ◌<◌, ◌≤◌, ◌++◌, length, unwrap_or, if◌then◌else◌, IfOk, OnOk, string_bytes, codes, count_by, flat_map};
ghost use Rattle.reh_types.specs.declared.limits.TheConstants.{MAX_BOOKIES};
ghost use Rattle.reh_commands.specs.Texts.{name_of};
ghost use Rattle.reh_plan.specs.Plans as plans;
ghost use Rattle.reh_plan.specs.Summaries as model;
ghost use Rattle.reh_plan.specs.Summaries.{IsSum};

use crate::fewer::FewerRacks;
use crate::planning::Planned;
use crate::plans::Plan;
use crate::reasons::Left;
use reh_audit::under_of;
use reh_cluster::{Ledger, Names, State};
use reh_scan::survey_plain;
use reh_types::{BookieIx, Event, SurveyLine};
use std::alloc::{AllocError, Global};

/// What a bookie is given by a plan.
#[derive(Clone, Copy)]
pub struct Share {
    pub bookie: BookieIx,
    /// How many places it takes.
    pub places: usize,
    /// How many entries it holds more in the end.
    pub entries: usize,
}

/// What a plan comes to.
#[derive(Drop)]
pub struct Summary {
    /// What each bookie is given, in picture order.
    pub shares: Vec<Share>,
    /// How many ledgers are left.
    pub left: usize,
    /// How many entries can't be read in the end, of all fragments whose entries are known.
    pub unreadable: u64,
    /// Whether the script says that it is full.
    pub is_full: bool,
}

impl Summary {
    /// Whether nothing is left, each entry can be read, and the script isn't full.
    pub fn is_whole(&self) -> bool
        ensures { result ≡ model.is_whole self.now }
    {
        self.left == 0 && self.unreadable == 0 && !self.is_full
    }

    /// The exit status of a plan that comes to this: 8 where something is left or can't be read, or the script is full.
    pub fn status(&self) -> u8
        ensures { result ≡ (if model.is_whole self.now then 0 else 8) }
    {
        if self.is_whole() { 0 } else { 8 }
    }
}

/// What a plan comes to: a line of each bookie that is given something, how many ledgers are left, a line for each kind of
/// reason that some have, how many entries can't be read, that the script is full, if it is, and how many fragments are in
/// fewer racks, if some are.
pub fn plan_summary(alloc: Global, planned: &Planned) -> Result<String, AllocError>
    ensures { IfOk result (λ text. string_bytes text ≡ model.plan_text planned.now) }
{
    let Planned {
        plan,
        summary,
        left,
        fewer,
    } = planned;
    let mut text = shares_text(alloc, plan.state().names(), &summary.shares)?;
    push_left(&mut text, alloc, summary.left, left)?;
    push_rest(&mut text, summary, fewer)?;
    Ok(text)
}

/// Adds how many ledgers are left, and a line for each kind of reason that some have.
fn push_left(
    text: &mut String,
    alloc: Global,
    count: usize,
    left: &[Left],
) -> Result<(), AllocError>
    ensures { OnOk result (string_bytes text.new ≡ string_bytes text.old ++ model.left_text count left.now) }
{
    write!(text, "ledgers left {count}\n")?;
    let kinds = kinds_text(alloc, left)?;
    text.push_str(&kinds)?;
    Ok(())
}

/// A line for each kind of reason that some of these ledgers are left for, with how many they are.
fn kinds_text(alloc: Global, left: &[Left]) -> Result<String, AllocError>
    ensures { IfOk result (λ text. string_bytes text ≡ model.kinds_text left.now) }
{
    let mut text = String::new(alloc);
    push_kind(&mut text, left, "copy refused")?;
    push_kind(&mut text, left, "swap refused")?;
    push_kind(&mut text, left, "seal refused")?;
    push_kind(&mut text, left, "roll refused")?;
    push_kind(&mut text, left, "no worker")?;
    push_kind(&mut text, left, "no room in the script")?;
    Ok(text)
}

/// Adds how many of these ledgers are left for a reason of this kind, if some are.
fn push_kind(text: &mut String, left: &[Left], kind: &str) -> Result<(), AllocError>
    ensures { OnOk result (string_bytes text.new ≡ string_bytes text.old ++ model.kind_text left.now kind.now) }
{
    let count = count_kind(left, kind);
    if count == 0 {
        return Ok(());
    }
    write!(text, "left: {kind} {count}\n")
}

/// How many of these ledgers are left for a reason of this kind.
fn count_kind(left: &[Left], kind: &str) -> usize
    ensures { result ≡ count_by (model.is_kind kind.now) left.now }
{
    let mut count = 0;
    for one in left {
        if is_kind(one, kind) {
            count += 1;
        }
    }
    count
}

/// Whether the ledger is left for a reason of this kind.
fn is_kind(left: &Left, kind: &str) -> bool
    ensures { result ≡ model.is_kind kind.now left.now }
{
    left.reason.kind() == kind
}

/// Adds how many entries can't be read, that the script is full, if it is, and how many fragments are in fewer racks, if some
/// are.
fn push_rest(text: &mut String, summary: &Summary, fewer: &[FewerRacks]) -> Result<(), AllocError>
    ensures { OnOk result (string_bytes text.new
        ≡ string_bytes text.old ++ model.rest_text summary.now (length fewer.now)) }
{
    write!(text, "entries lost {}\n", summary.unreadable)?;
    text.push_str(full_text(summary.is_full))?;
    push_fewer(text, fewer.len())
}

/// Adds how many fragments are in fewer racks, if some are.
fn push_fewer(text: &mut String, fewer: usize) -> Result<(), AllocError>
    ensures { OnOk result (string_bytes text.new ≡ string_bytes text.old ++ model.fewer_text fewer) }
{
    if fewer == 0 {
        return Ok(());
    }
    write!(text, "fragments in fewer racks {fewer}\n")
}

/// The line that a script is full, if it is.
fn full_text(is_full: bool) -> &'static str
    ensures { result.now ≡ model.full_text is_full }
{
    if is_full {
        "the script is full: plan again after it\n"
    } else {
        ""
    }
}

/// The lines of bookies that are given something.
fn shares_text(alloc: Global, names: &Names, shares: &[Share]) -> Result<String, AllocError>
    ensures { IfOk result (λ text. string_bytes text ≡ flat_map (model.share_text names.now) shares.now) }
{
    let mut text = String::new(alloc);
    push_shares(&mut text, names, shares)?;
    Ok(text)
}

/// Adds the lines of bookies that are given something.
fn push_shares(text: &mut String, names: &Names, shares: &[Share]) -> Result<(), AllocError>
    ensures { OnOk result (string_bytes text.new
        ≡ string_bytes text.old ++ flat_map (model.share_text names.now) shares.now) }
{
    for share in shares {
        push_share(text, names, share)?;
    }
    Ok(())
}

/// Adds the line of a bookie, if it is given something.
fn push_share(text: &mut String, names: &Names, share: &Share) -> Result<(), AllocError>
    ensures { OnOk result (string_bytes text.new
        ≡ string_bytes text.old ++ model.share_text names.now share.now) }
{
    if share.places == 0 && share.entries == 0 {
        return Ok(());
    }
    text.push_str("bookie")?;
    push_name(text, names, share.bookie)?;
    write!(text, " places {} entries {}\n", share.places, share.entries)
}

/// Adds a space and the bookie's name, or its number where the names have none for it.
fn push_name(text: &mut String, names: &Names, bookie: BookieIx) -> Result<(), AllocError>
    ensures { OnOk result (string_bytes text.new
        ≡ string_bytes text.old ++ (codes " " ++ name_of names.now bookie)) }
{
    match names.name(bookie) {
        Some(name) => write!(text, " {name}"),
        None => write!(text, " {}", bookie.0),
    }
}

/// How many entries each bookie holds, in picture order.
pub(crate) fn holdings_of(alloc: Global, state: &State) -> Result<Vec<usize>, AllocError>
    ensures held { IfOk result (λ held. held.items ≡ model.holdings_of state.now) }
    ensures few { IfOk result (λ held. length held.items ≤ MAX_BOOKIES) }
{
    let mut held = Vec::new(alloc);
    for number in 0..state.names().len() as u8 {
        held.push(state.count(BookieIx(number)))?;
    }
    Ok(held)
}

/// What the plan comes to, where each bookie held so many entries before it.
pub(crate) fn summary_of(alloc: Global, held: &[usize], plan: &Plan) -> Result<Summary, AllocError>
    requires held { held.now ≡ model.holdings_of plan.now.opening }
    requires few { length held.now ≤ MAX_BOOKIES }
    ensures { IfOk result (λ summary. IsSum plan.now summary) }
{
    let state = plan.state();
    let mut shares = Vec::new(alloc);
    for (number, before) in held.iter().enumerate() {
        let bookie = BookieIx(number as u8);
        shares.push(Share {
            bookie,
            places: places_of(plan.events(), bookie),
            entries: state.count(bookie).saturating_sub(*before),
        })?;
    }
    Ok(Summary {
        shares,
        left: count_left(state),
        unreadable: count_unreadable(alloc, state)?,
        is_full: plan.says_full(),
    })
}

/// How many places the bookie takes by these events.
fn places_of(events: &[Event], bookie: BookieIx) -> usize
    ensures { result ≡ model.places_of events.now bookie }
{
    let mut count = 0;
    for event in events {
        if is_place_of(event, bookie) {
            count += 1;
        }
    }
    count
}

/// Whether the bookie takes a place by the event.
fn is_place_of(event: &Event, bookie: BookieIx) -> bool
    ensures { result ≡ model.is_place_of bookie event.now }
{
    match event {
        Event::Swap { worker, .. } => *worker == bookie,
        Event::Roll { bookie: taker, .. } => *taker == bookie,
        _ => false,
    }
}

/// Whether something is left to do for a ledger: it has a task, or some member of an ensemble isn't registered.
pub(crate) fn is_left(state: &State, ledger: &Ledger) -> bool
    ensures { result ≡ plans.is_left state.now ledger.now }
{
    ledger.task().is_some() || under_of(state, ledger).is_some()
}

/// How many ledgers are left.
fn count_left(state: &State) -> usize
    ensures { result ≡ model.left_of state.now }
{
    let mut count = 0;
    for ledger in state.ledgers() {
        if is_left(state, ledger) {
            count += 1;
        }
    }
    count
}

/// How many entries can't be read, of all fragments that have a stop.
fn count_unreadable(alloc: Global, state: &State) -> Result<u64, AllocError>
    ensures { IfOk result (λ count. count ≡ model.unreadable_of state.now) }
{
    let _limits = state.ledgers();
    let lines = survey_plain(alloc, state)?;
    let mut count = 0;
    for line in &lines {
        count += lost_by(line);
    }
    Ok(count)
}

/// How many entries of a line's fragment can't be read, as far as they are known.
fn lost_by(line: &SurveyLine) -> u64
    ensures value { result ≡ unwrap_or line.now.lost 0 }
    ensures few { result < 2 ^ 32 }
{
    match line.lost {
        Some(lost) => lost as u64,
        None => 0,
    }
}
