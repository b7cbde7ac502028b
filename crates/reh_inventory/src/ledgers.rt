// The lines of ledgers.
ghost use Rattle.std.specs.Prelude.{◌≡◌, ◌<◌, ◌≤◌, ◌-◌, true, Some, slice_get, take, length, map, IfOk};
ghost use Rattle.std.specs.Result.{result_err};
ghost use Rattle.serde_json.specs.View.{view};
ghost use Rattle.reh_inventory_fields.specs.Faults.{FailsAt, fault_at};
ghost use Rattle.reh_inventory.specs.Ledgers as model;

use crate::contents::{ContentList, read_contents};
use reh_inventory_fields::members::{
    MAX_ENSEMBLE, MAX_NUMBER, integer, list, list_within, name_of, number_if_there, number_within,
    text,
};
use reh_inventory_fields::{Ensemble, Fault, Field, LineFault, Name, Place, located};
use serde_json::Value;
use std::alloc::Global;
use std::marker::Model;

/// Where a ledger stands, by its metadata.
#[derive(Clone, Copy)]
pub enum LedgerState {
    Open,
    InRecovery,
    /// Closed, with one past its last entry id, at most 2^63.
    Closed { end: u64 },
}

/// How many bookies an ensemble has, how many of them an entry is written to, and how many of these must have
/// acknowledged it.
#[derive(Clone, Copy)]
pub struct Sizes {
    pub ensemble: u64,
    pub write_quorum: u64,
    pub ack_quorum: u64,
}

/// A fragment, by its first entry and the names of the members of its ensemble.
#[derive(Drop)]
pub struct Fragment {
    pub first: u64,
    pub ensemble: Ensemble,
}

/// Fragments, in the order of the line. Contracts see the list.
#[derive(Drop)]
pub struct FragmentList {
    items: Vec<Fragment>,
}

impl Model for FragmentList {
    ghost use Rattle.std.specs.Prelude.{List};
    ghost use Rattle.reh_inventory.specs.declared.ledgers.Fragment.{Fragment};

    ghost Value = { List Fragment };

    ghost view = { λ fragments. fragments.items.items };
}

impl FragmentList {
    /// These fragments.
    pub fn of(items: Vec<Fragment>) -> FragmentList
        ensures { result ≡ items.items }
    {
        FragmentList { items }
    }

    /// The fragments, as a slice.
    pub fn as_slice(&self) -> &[Fragment]
        ensures { result.now ≡ self.now }
    {
        &self.items
    }

    /// Takes the last fragment off, if there is one.
    pub fn pop(&mut self) -> Option<Fragment>
        ensures last { result ≡ slice_get self.old (length self.old - 1) }
        ensures rest { self.new ≡ take (length self.old - 1) self.old }
    {
        self.items.pop()
    }
}

/// A ledger, and what is told or assumed of its entries.
#[derive(Drop)]
pub struct LedgerLine {
    pub id: u64,
    pub state: LedgerState,
    pub sizes: Sizes,
    /// The version of its metadata, if that is told.
    pub version: Option<u64>,
    /// Its length in bytes, if that is told.
    pub length: Option<u64>,
    pub fragments: FragmentList,
    pub contents: ContentList,
}

/// The member of an ensemble at this place.
fn read_member(alloc: Global, here: Place, member: &Value) -> Result<Name, LineFault>
    ensures fault { FailsAt result (fault_at here (model.member_fault (view member.now))) }
    ensures name { IfOk result (λ name. model.member_name (view member.now) ≡ name) }
{
    let Some(name) = member.as_str() else {
        return Err(LineFault::new(Fault::WrongKind(Field::Ensemble), here));
    };
    located(name_of(alloc, Field::Ensemble, name), here)
}

/// The members of the ensemble of the fragment of this number.
#[tactic(auto, unfolding(crate::specs::Ledgers::members_fault))]
fn read_ensemble(alloc: Global, fragment: usize, members: &[Value]) -> Result<Ensemble, LineFault>
    ensures fault { FailsAt result (model.members_fault fragment (map view members.now)) }
    ensures ensemble { IfOk result
        (λ ensemble. ensemble ≡ map model.member_name (map view members.now)) }
{
    let mut ensemble = Vec::new(alloc);
    for (i, member) in members.iter().enumerate() {
        let here = Place::Member {
            fragment,
            member: i,
        };
        ensemble.push(read_member(alloc, here, member)?)?;
    }
    Ok(Ensemble::of(ensemble))
}

/// The first entry that a fragment may have, and the last.
#[derive(Clone, Copy)]
struct Bounds {
    least: u64,
    most: u64,
}

/// The fragment of this number, with an ensemble of this size, whose first entry is within these bounds.
fn read_fragment(
    alloc: Global,
    size: u64,
    number: usize,
    bounds: Bounds,
    fragment: &Value,
) -> Result<Fragment, LineFault>
    requires { size ≤ MAX_ENSEMBLE }
    ensures fault { FailsAt result
        (model.fragment_fault size number (bounds.least, bounds.most) (view fragment.now)) }
    ensures fragment { IfOk result (λ f. f ≡ model.fragment_in (view fragment.now)) }
    ensures within { IfOk result (λ f. f.first ≤ bounds.most) }
{
    let here = Place::Fragment(number);
    if !fragment.is_object() {
        return Err(LineFault::new(Fault::WrongKind(Field::Fragment), here));
    }
    let first = number_within(fragment, Field::FirstEntry, bounds.least, bounds.most);
    let first = located(first, here)?;
    let members = list_within(fragment, Field::Ensemble, size as usize, size as usize);
    let members = located(members, here)?;
    let ensemble = read_ensemble(alloc, number, members)?;
    Ok(Fragment { first, ensemble })
}

/// The fragments of a ledger, with ensembles of this size, and the first entry that one more could have.
#[tactic(auto, unfolding(crate::specs::Ledgers::each_fragment_fault))]
fn read_each_fragment(
    alloc: Global,
    size: u64,
    values: &[Value],
) -> Result<(FragmentList, u64), LineFault>
    requires { size ≤ MAX_ENSEMBLE }
    ensures fault { FailsAt result (model.each_fragment_fault size (map view values.now)) }
    ensures fragments { IfOk result
        (λ r. r.0 ≡ map model.fragment_in (map view values.now)) }
    ensures next { IfOk result (λ r. r.1 ≡ model.next_first (map view values.now)) }
{
    let mut fragments = Vec::new(alloc);
    let mut bounds = Bounds { least: 0, most: 0 };
    for (i, value) in values.iter().enumerate() {
        let fragment = read_fragment(alloc, size, i, bounds, value)?;
        bounds = Bounds {
            least: fragment.first + 1,
            most: MAX_NUMBER,
        };
        fragments.push(fragment)?;
    }
    Ok((FragmentList::of(fragments), bounds.least))
}

/// One past a last entry id from -1 on.
fn end_after(last: i64) -> Option<u64>
    ensures { result ≡ model.end_after last }
{
    if last < -1 {
        None
    } else if last == -1 {
        Some(0)
    } else {
        Some(last as u64 + 1)
    }
}

/// Where a closed ledger ends, of which one more fragment could begin at the next entry.
fn read_end(ledger: &Value, next: u64) -> Result<u64, Fault>
    requires { model.is_closed (view ledger.now) ≡ true }
    ensures fault { result_err result ≡ model.last_fault next (view ledger.now) }
    ensures end { IfOk result (λ end. model.end_in (view ledger.now) ≡ Some end) }
{
    let last = integer(ledger, Field::LastEntryId)?;
    let end = end_after(last).ok_or(Fault::Limit(Field::LastEntryId))?;
    if end < next.saturating_sub(1) {
        return Err(Fault::Limit(Field::LastEntryId));
    }
    Ok(end)
}

/// Where a ledger stands, of which one more fragment could begin at the next entry.
fn read_state(ledger: &Value, next: u64) -> Result<LedgerState, Fault>
    ensures fault { result_err result ≡ model.state_fault next (view ledger.now) }
    ensures state { IfOk result (λ state. state ≡ model.state_in (view ledger.now)) }
{
    match text(ledger, Field::State)? {
        "OPEN" => Ok(LedgerState::Open),
        "IN_RECOVERY" => Ok(LedgerState::InRecovery),
        "CLOSED" => Ok(LedgerState::Closed {
            end: read_end(ledger, next)?,
        }),
        _ => Err(Fault::WrongKind(Field::State)),
    }
}

/// The sizes of a ledger.
fn read_sizes(ledger: &Value) -> Result<Sizes, Fault>
    ensures fault { result_err result ≡ model.sizes_fault (view ledger.now) }
    ensures sizes { IfOk result (λ sizes. sizes ≡ model.sizes_in (view ledger.now)) }
    ensures within { IfOk result (λ sizes. sizes.ensemble ≤ MAX_ENSEMBLE) }
{
    let ensemble = number_within(ledger, Field::EnsembleSize, 1, MAX_ENSEMBLE)?;
    let write_quorum = number_within(ledger, Field::WriteQuorumSize, 1, ensemble)?;
    let ack_quorum = number_within(ledger, Field::AckQuorumSize, 1, write_quorum)?;
    Ok(Sizes {
        ensemble,
        write_quorum,
        ack_quorum,
    })
}

/// The line of a ledger that was read.
pub(crate) fn read_ledger(alloc: Global, ledger: &Value) -> Result<LedgerLine, LineFault>
    ensures fault { FailsAt result (model.ledger_fault (view ledger.now)) }
    ensures ledger { IfOk result (λ g. g ≡ model.ledger_in (view ledger.now)) }
{
    let id = number_within(ledger, Field::Id, 0, MAX_NUMBER)?;
    let sizes = read_sizes(ledger)?;
    let version = number_if_there(ledger, Field::Version)?;
    let length = number_if_there(ledger, Field::Length)?;
    let fragments = list(ledger, Field::Fragments)?;
    if fragments.is_empty() {
        return Err(LineFault::from(Fault::Limit(Field::Fragments)));
    }
    let (fragments, next) = read_each_fragment(alloc, sizes.ensemble, fragments)?;
    let state = read_state(ledger, next)?;
    let contents = read_contents(alloc, ledger)?;
    Ok(LedgerLine {
        id,
        state,
        sizes,
        version,
        length,
        fragments,
        contents,
    })
}
