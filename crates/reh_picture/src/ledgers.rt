// The ledgers of a picture.
ghost use Rattle.std.specs.Prelude.{◌≡◌, true, Some, ◌≤◌, ◌<◌, [], ◌∷◌, ◌++◌, length, map, IfOk, OnOk, All};
ghost use Rattle.std.specs.BTreeMap.{get};
ghost use Rattle.std.specs.Ordering.{nat_cmp};
ghost use Rattle.std.specs.Option.{ForSome};
ghost use Rattle.std.specs.Result.{result_err};
ghost use Rattle.serde_json.specs.View.{view};
ghost use Rattle.reh_types.specs.declared.limits.TheConstants.{ENTRY_END, MAX_FRAGMENTS, MAX_VERSION};
ghost use Rattle.reh_model.specs.Metadata.{end_of_state};
ghost use Rattle.reh_fields.specs.Faults.{FailsWith};
ghost use Rattle.reh_fields.specs.Members.{number_of, list_of};
ghost use Rattle.reh_fields.specs.Names.{bookie_in};
ghost use Rattle.reh_picture.specs.Places.{FailsAt, fault_at};
ghost use Rattle.reh_picture.specs.Ledgers.{member_fault, members_fault, member_name, before_members, fragment_fault};
ghost use Rattle.reh_picture.specs.Ledgers.{fragment_in, state_fault, state_in, last_fault, end_in, is_closed};
ghost use Rattle.reh_picture.specs.Ledgers.{sizes_fault, before_fragments, fragments_fault, metadata_fault};
ghost use Rattle.reh_picture.specs.Ledgers.{pictured_metadata, id_fault, ledger_fault, each_ledger_fault, ledgers_fault};
ghost use Rattle.reh_picture.specs.Ledgers.{listed_in, ledger_of, ids_in, broken_rule};
ghost use Rattle.reh_picture.specs.Contents.{words_to as words_to_greatest};

use crate::members::list_of_picture;
use crate::places::{LocatedFault, Place};
use indexmap::IndexSet;
use reh_cluster::{Ledger, Names};
use reh_fields::members::{integer, list, list_within, number, number_within, text};
use reh_fields::names::known_bookie;
use reh_fields::{Field, LedgerFlaw, PictureFault, Repeated};
use reh_meta::{Fragment, LedgerMeta, MetaFault, Sizes};
use reh_types::{
    BookieIx, ENTRIES_IN_WORD, LedgerId, LedgerState, MAX_ENTRY_ID, MAX_FRAGMENTS, MAX_LEDGER_ID,
    MAX_LEDGERS, MAX_VERSION,
};
use serde_json::Value;
use std::alloc::{AllocError, Global};
use std::collections::BTreeMap;
use std::marker::Model;

/// The member of an ensemble at this place.
fn read_member(
    alloc: Global,
    names: &Names,
    here: Place,
    member: &Value,
) -> Result<BookieIx, LocatedFault>
    ensures fault { FailsAt result (fault_at here (member_fault names.now (view member.now))) }
    ensures bookie { IfOk result
        (λ bookie. bookie ≡ bookie_in names.now (member_name (view member.now))) }
{
    let Some(name) = member.as_str() else {
        let fault = PictureFault::WrongKind(Field::Ensemble);
        return Err(LocatedFault::new(fault, here));
    };
    match known_bookie(alloc, names, name) {
        Ok(bookie) => Ok(bookie),
        Err(fault) => Err(LocatedFault::new(fault, here)),
    }
}

/// The members of the ensemble of this fragment of this ledger.
#[tactic(auto, unfolding(crate::specs::Ledgers::members_fault))]
fn read_ensemble(
    alloc: Global,
    names: &Names,
    ledger: usize,
    fragment: usize,
    members: &[Value],
) -> Result<Vec<BookieIx>, LocatedFault>
    ensures fault { FailsAt result (members_fault names.now ledger fragment (map view members.now)) }
    ensures ensemble { IfOk result
        (λ ensemble. ensemble.items
        ≡ map (λ member. bookie_in names.now (member_name member)) (map view members.now)) }
{
    let mut ensemble = Vec::new(alloc);
    for (i, member) in members.iter().enumerate() {
        let here = Place::Member {
            ledger,
            fragment,
            member: i,
        };
        ensemble.push(read_member(alloc, names, here, member)?)?;
    }
    Ok(ensemble)
}

/// A fragment's first entry, and the members of its ensemble.
fn fragment_fields(fragment: &Value) -> Result<(u32, &[Value]), PictureFault>
    ensures fault { result_err result ≡ before_members (view fragment.now) }
    ensures first { IfOk result (λ r. number_of (view fragment.now) Field.FirstEntry ≡ r.0) }
    ensures limit { IfOk result (λ r. r.0 < ENTRY_END) }
    ensures members { IfOk result
        (λ r. list_of (view fragment.now) Field.Ensemble ≡ map view r.1.now) }
{
    if !fragment.is_object() {
        return Err(PictureFault::WrongKind(Field::Fragment));
    }
    let first = number_within(fragment, Field::FirstEntry, 0, MAX_ENTRY_ID)?;
    let members = list(fragment, Field::Ensemble)?;
    Ok((first as u32, members))
}

/// The fragment of this number, of the ledger of that number.
fn read_fragment(
    alloc: Global,
    names: &Names,
    ledger: usize,
    number: usize,
    fragment: &Value,
) -> Result<Fragment, LocatedFault>
    ensures fault { FailsAt result (fragment_fault names.now ledger number (view fragment.now)) }
    ensures fragment { IfOk result (λ f. f ≡ fragment_in names.now (view fragment.now)) }
    ensures first { IfOk result (λ f. f.first < ENTRY_END) }
{
    let here = Place::Fragment {
        ledger,
        fragment: number,
    };
    let (first, members) = match fragment_fields(fragment) {
        Ok(fields) => fields,
        Err(fault) => return Err(LocatedFault::new(fault, here)),
    };
    let ensemble = read_ensemble(alloc, names, ledger, number, members)?;
    Ok(Fragment { first, ensemble })
}

/// The fragments of the ledger of this number.
#[tactic(auto, unfolding(crate::specs::Ledgers::fragments_fault))]
fn read_fragments(
    alloc: Global,
    names: &Names,
    ledger: usize,
    values: &[Value],
) -> Result<Vec<Fragment>, LocatedFault>
    ensures fault { FailsAt result (fragments_fault names.now ledger (map view values.now)) }
    ensures fragments { IfOk result
        (λ fragments. fragments.items ≡ map (fragment_in names.now) (map view values.now)) }
    ensures firsts { IfOk result
        (λ fragments. All (λ fragment. fragment.first < ENTRY_END) fragments.items) }
{
    let mut fragments = Vec::new(alloc);
    for (i, value) in values.iter().enumerate() {
        fragments.push(read_fragment(alloc, names, ledger, i, value)?)?;
    }
    Ok(fragments)
}

/// Where a ledger stands.
fn read_state(ledger: &Value) -> Result<LedgerState, PictureFault>
    ensures fault { result_err result ≡ state_fault (view ledger.now) }
    ensures state { IfOk result (λ state. state ≡ state_in (view ledger.now)) }
    ensures end { IfOk result (λ state. ForSome (end_of_state state) (λ end. end ≤ ENTRY_END)) }
{
    match text(ledger, Field::State)? {
        "OPEN" => Ok(LedgerState::Open),
        "IN_RECOVERY" => Ok(LedgerState::InRecovery),
        "CLOSED" => Ok(LedgerState::Closed {
            end: read_end(ledger)?,
        }),
        _ => Err(PictureFault::WrongKind(Field::State)),
    }
}

/// One past the last entry id of a closed ledger.
fn read_end(ledger: &Value) -> Result<u32, PictureFault>
    requires { is_closed (view ledger.now) ≡ true }
    ensures fault { result_err result ≡ last_fault (view ledger.now) }
    ensures end { IfOk result (λ end. end_in (view ledger.now) ≡ Some end) }
    ensures limit { IfOk result (λ end. end ≤ ENTRY_END) }
{
    let last = integer(ledger, Field::LastEntryId)?;
    if last < -1 || last > MAX_ENTRY_ID as i64 {
        return Err(PictureFault::Limit(Field::LastEntryId));
    }
    Ok((last + 1) as u32)
}

/// The sizes of a ledger.
fn read_sizes(ledger: &Value) -> Result<Sizes, PictureFault>
    ensures fault { result_err result ≡ sizes_fault (view ledger.now) }
    ensures ensemble { IfOk result
        (λ sizes. sizes.ensemble ≡ number_of (view ledger.now) Field.EnsembleSize) }
    ensures write_quorum { IfOk result
        (λ sizes. sizes.write_quorum ≡ number_of (view ledger.now) Field.WriteQuorumSize) }
    ensures ack_quorum { IfOk result
        (λ sizes. sizes.ack_quorum ≡ number_of (view ledger.now) Field.AckQuorumSize) }
{
    Ok(Sizes {
        ensemble: number(ledger, Field::EnsembleSize)?,
        write_quorum: number(ledger, Field::WriteQuorumSize)?,
        ack_quorum: number(ledger, Field::AckQuorumSize)?,
    })
}

/// The fault of a ledger that breaks a rule of metadata.
fn ledger_fault_of(ledger: LedgerId, fault: MetaFault) -> PictureFault
    ensures { result ≡ broken_rule ledger fault }
{
    let flaw = match fault {
        MetaFault::BadQuorum => LedgerFlaw::Quorum,
        MetaFault::BadFragment => LedgerFlaw::Fragment,
        MetaFault::BadEnsemble => LedgerFlaw::Ensemble,
        MetaFault::BadLast => LedgerFlaw::Last,
        MetaFault::NoMemory => return PictureFault::NoMemory,
    };
    PictureFault::BadLedger(ledger, flaw)
}

/// What stands in a ledger's metadata before its fragments, and the values of these.
struct MetadataFields<'a> {
    state: LedgerState,
    sizes: Sizes,
    version: u64,
    fragments: &'a [Value],
}

/// The fields of a ledger's metadata.
fn metadata_fields(ledger: &Value) -> Result<MetadataFields<'_>, PictureFault>
    ensures fault { result_err result ≡ before_fragments (view ledger.now) }
    ensures state { IfOk result (λ m. m.state ≡ state_in (view ledger.now)) }
    ensures end { IfOk result
        (λ m. ForSome (end_of_state m.state) (λ end. end ≤ ENTRY_END)) }
    ensures ensemble { IfOk result
        (λ m. m.sizes.ensemble ≡ number_of (view ledger.now) Field.EnsembleSize) }
    ensures write_quorum { IfOk result
        (λ m. m.sizes.write_quorum ≡ number_of (view ledger.now) Field.WriteQuorumSize) }
    ensures ack_quorum { IfOk result
        (λ m. m.sizes.ack_quorum ≡ number_of (view ledger.now) Field.AckQuorumSize) }
    ensures version { IfOk result
        (λ m. number_of (view ledger.now) Field.Version ≡ m.version) }
    ensures few { IfOk result (λ m. m.version ≤ MAX_VERSION) }
    ensures fragments { IfOk result
        (λ m. list_of (view ledger.now) Field.Fragments ≡ map view m.fragments.now) }
    ensures within { IfOk result (λ m. length m.fragments.now ≤ MAX_FRAGMENTS) }
{
    let state = read_state(ledger)?;
    let sizes = read_sizes(ledger)?;
    let version = number_within(ledger, Field::Version, 0, MAX_VERSION)?;
    let fragments = list_within(ledger, Field::Fragments, 0, MAX_FRAGMENTS)?;
    Ok(MetadataFields {
        state,
        sizes,
        version,
        fragments,
    })
}

/// The metadata of the ledger of this number.
#[tactic(auto, unfolding(crate::specs::Ledgers::metadata_fault))]
fn read_metadata(
    alloc: Global,
    names: &Names,
    number: usize,
    id: LedgerId,
    ledger: &Value,
) -> Result<LedgerMeta, LocatedFault>
    requires { number_of (view ledger.now) Field.Id ≡ id }
    ensures fault { FailsAt result (metadata_fault names.now number (view ledger.now)) }
    ensures metadata { IfOk result (λ m. m ≡ pictured_metadata names.now (view ledger.now)) }
{
    let here = Place::Ledger(number);
    let MetadataFields {
        state,
        sizes,
        version,
        fragments,
    } = match metadata_fields(ledger) {
        Ok(fields) => fields,
        Err(fault) => return Err(LocatedFault::new(fault, here)),
    };
    let fragments = read_fragments(alloc, names, number, fragments)?;
    match LedgerMeta::try_new(alloc, sizes, state, version, &fragments) {
        Ok(metadata) => Ok(metadata),
        Err(fault) => Err(LocatedFault::new(ledger_fault_of(id, fault), here)),
    }
}

/// A ledger by the fields of its own, which don't say how many words it has.
#[derive(Drop)]
pub struct ListedLedger {
    id: LedgerId,
    metadata: LedgerMeta,
}

impl Model for ListedLedger {
    ghost use Rattle.reh_picture.specs.Ledgers.{ListedLedger as ListedValue};

    ghost Value = { ListedValue };

    ghost view = { λ g. record { id = g.id; metadata = g.metadata } };
}

impl ListedLedger {
    /// The ledger, with no task, where this is the greatest entry of it that any bookie holds.
    fn reaching(self, greatest: Option<u32>) -> Ledger
        ensures { result ≡ ledger_of (λ _. greatest) self }
    {
        Ledger::new(self.id, self.metadata, words_to(greatest))
    }
}

/// How many words of entries reach the greatest one, if there is one.
fn words_to(greatest: Option<u32>) -> usize
    ensures { result ≡ words_to_greatest greatest }
{
    match greatest {
        Some(greatest) => greatest as usize / ENTRIES_IN_WORD as usize + 1,
        None => 0,
    }
}

/// The listed ledgers, each with as many words as reach its greatest entry.
pub(crate) fn with_words(
    alloc: Global,
    listed: Vec<ListedLedger>,
    greatest: &BTreeMap<LedgerId, u32>,
) -> Result<Vec<Ledger>, AllocError>
    ensures { IfOk result
        (λ ledgers. ledgers.items ≡ map (ledger_of (get nat_cmp greatest.now)) listed.items) }
{
    let mut ledgers = Vec::new(alloc);
    for ledger in listed {
        let end = greatest.get(&ledger.id).copied();
        ledgers.push(ledger.reaching(end))?;
    }
    Ok(ledgers)
}

/// The ledgers of a picture, in its order.
#[derive(Drop)]
pub struct Ledgers {
    /// Their ids.
    pub(crate) ids: IndexSet<u64>,
    /// The ledgers, before their words are known.
    pub(crate) listed: Vec<ListedLedger>,
}

/// The ledgers of a picture.
#[tactic(auto, unfolding(crate::specs::Ledgers::ledgers_fault))]
pub(crate) fn read_ledgers(
    alloc: Global,
    names: &Names,
    picture: &Value,
) -> Result<Ledgers, LocatedFault>
    ensures fault { FailsAt result (ledgers_fault names.now (view picture.now)) }
    ensures ids { IfOk result
        (λ ledgers. ledgers.ids.keys ≡ ids_in (list_of (view picture.now) Field.Ledgers)) }
    ensures listed { IfOk result (λ ledgers.
        ledgers.listed.items
        ≡ map (listed_in names.now) (list_of (view picture.now) Field.Ledgers)) }
{
    let ledgers = list_of_picture(picture, Field::Ledgers, 0, MAX_LEDGERS)?;
    read_each_ledger(alloc, names, ledgers)
}

/// Ledgers, one after another.
#[tactic(auto, unfolding(crate::specs::Ledgers::each_ledger_fault))]
fn read_each_ledger(alloc: Global, names: &Names, values: &[Value]) -> Result<Ledgers, LocatedFault>
    ensures fault { FailsAt result (each_ledger_fault names.now (map view values.now)) }
    ensures ids { IfOk result (λ ledgers. ledgers.ids.keys ≡ ids_in (map view values.now)) }
    ensures listed { IfOk result
        (λ ledgers. ledgers.listed.items ≡ map (listed_in names.now) (map view values.now)) }
{
    let mut ledgers = Ledgers {
        ids: IndexSet::new(alloc),
        listed: Vec::new(alloc),
    };
    for (i, value) in values.iter().enumerate() {
        add_ledger(alloc, names, &mut ledgers, i, value)?;
    }
    Ok(ledgers)
}

/// Adds the ledger of this number. After an `Err` the ids may have its id.
fn add_ledger(
    alloc: Global,
    names: &Names,
    ledgers: &mut Ledgers,
    number: usize,
    ledger: &Value,
) -> Result<(), LocatedFault>
    ensures fault { FailsAt result
        (ledger_fault names.now number ledgers.old.ids.keys (view ledger.now)) }
    ensures ids { OnOk result
        (ledgers.new.ids.keys ≡ ledgers.old.ids.keys ++ number_of (view ledger.now) Field.Id ∷ []) }
    ensures listed { OnOk result
        (ledgers.new.listed.items
        ≡ ledgers.old.listed.items ++ listed_in names.now (view ledger.now) ∷ []) }
{
    let id = match read_id(&mut ledgers.ids, ledger) {
        Ok(id) => id,
        Err(fault) => return Err(LocatedFault::new(fault, Place::Ledger(number))),
    };
    let metadata = read_metadata(alloc, names, number, id, ledger)?;
    ledgers.listed.push(ListedLedger { id, metadata })?;
    Ok(())
}

/// A ledger's id, which joins the ids. After an `Err` they may have it.
fn read_id(ids: &mut IndexSet<u64>, ledger: &Value) -> Result<LedgerId, PictureFault>
    ensures fault { FailsWith result (id_fault ids.old.keys (view ledger.now)) }
    ensures ids { OnOk result
        (ids.new.keys ≡ ids.old.keys ++ number_of (view ledger.now) Field.Id ∷ []) }
    ensures id { IfOk result (λ id. number_of (view ledger.now) Field.Id ≡ id) }
{
    if !ledger.is_object() {
        return Err(PictureFault::WrongKind(Field::Ledger));
    }
    let id = number_within(ledger, Field::Id, 0, MAX_LEDGER_ID)?;
    if !ids.insert(id)? {
        return Err(PictureFault::Twice(Repeated::Ledger(LedgerId(id))));
    }
    Ok(LedgerId(id))
}
