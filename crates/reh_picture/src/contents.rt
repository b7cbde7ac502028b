// What the bookies of a picture hold.
ghost use Rattle.std.specs.Prelude.{◌≡◌, ◌≤◌, ◌<◌, ◌+◌, ◌*◌, length, [], ◌∷◌, ◌++◌, ℕ, Some, map, fold, max, cond};
ghost use Rattle.std.specs.Prelude.{nat_eq, IfOk, OnOk, All};
ghost use Rattle.std.specs.List.{IsDistinct};
ghost use Rattle.std.specs.Option.{ok_or, option_map_or};
ghost use Rattle.std.specs.BTreeMap.{get};
ghost use Rattle.std.specs.Ordering.{nat_cmp};
ghost use Rattle.std.specs.Result.{result_err};
ghost use Rattle.serde_json.specs.View.{view};
ghost use Rattle.reh_types.specs.declared.limits.TheConstants.{ENTRIES_IN_WORD, ENTRY_END, MAX_LEDGERS};
ghost use Rattle.reh_types.specs.Sets as set;
ghost use Rattle.reh_fields.specs.Faults.{FailsWith};
ghost use Rattle.reh_fields.specs.declared.faults.PictureFault.TheVariants.{WrongKind};
ghost use Rattle.reh_fields.specs.Members.{list_of};
ghost use Rattle.reh_picture.specs.Places.{FailsAt, fault_at};
ghost use Rattle.reh_picture.specs.Contents.{two_numbers as two_numbers_in, ends_in, ends_of, range_fault};
ghost use Rattle.reh_picture.specs.Contents.{ranges_fault, next_after, content_fault, each_content_fault};
ghost use Rattle.reh_picture.specs.Contents.{contents_fault, pair_fault, pair_of, holding_in, copies_in, held_in};
ghost use Rattle.reh_picture.specs.Contents.{IsGreatest, HasEnds, FitsIn};
ghost use Rattle.reh_model.specs.Contents.{Contents};
ghost use Rattle.reh_cluster.specs.Parts.{HasRows};

use crate::members::list_at;
use crate::places::{LocatedFault, Place};
use indexmap::IndexSet;
use reh_cluster::{Ledger, Names};
use reh_fields::members::{mark, number, text};
use reh_fields::names::known_bookie;
use reh_fields::{FaultName, Field, LedgerFlaw, PictureFault, Repeated};
use reh_held::Held;
use reh_types::{BookieIx, ENTRIES_IN_WORD, LedgerId, MAX_ENTRY_ID};
use serde_json::Value;
use std::alloc::{AllocError, Global};
use std::collections::BTreeMap;
use std::marker::Model;

/// The numbers of a list that has two and nothing else.
fn two_numbers(list: &[Value]) -> Option<(u64, u64)>
    ensures { result ≡ two_numbers_in (map view list.now) }
{
    match list {
        [first, last] => Some((first.as_u64()?, last.as_u64()?)),
        _ => None,
    }
}

/// The first and the last entry of a range, as the picture has them.
fn ends_of_range(range: &Value) -> Option<(u64, u64)>
    ensures { ok_or result (WrongKind Field.Entries) ≡ ends_in (view range.now) }
{
    match range.as_array() {
        Some(list) => two_numbers(list),
        None => None,
    }
}

/// The range of entries at this place, which begins at the least entry or after it.
fn read_range(least: u64, here: Place, range: &Value) -> Result<(u32, u32), LocatedFault>
    ensures fault { FailsAt result (fault_at here (range_fault least (view range.now))) }
    ensures ends { IfOk result (λ ends. ends ≡ ends_of (view range.now)) }
{
    let Some((first, last)) = ends_of_range(range) else {
        let fault = PictureFault::WrongKind(Field::Entries);
        return Err(LocatedFault::new(fault, here));
    };
    if first < least || last < first || last > MAX_ENTRY_ID {
        return Err(LocatedFault::new(PictureFault::Limit(Field::Entries), here));
    }
    Ok((first as u32, last as u32))
}

/// The ranges of entries of the content of this number, each past those before it.
#[tactic(auto, unfolding(crate::specs::Contents::ranges_fault))]
fn read_ranges(
    alloc: Global,
    content: usize,
    values: &[Value],
) -> Result<Vec<(u32, u32)>, LocatedFault>
    ensures fault { FailsAt result (ranges_fault content (map view values.now)) }
    ensures ranges { IfOk result (λ ranges. ranges.items ≡ map ends_of (map view values.now)) }
{
    let mut ranges = Vec::new(alloc);
    let mut least = 0;
    for (i, value) in values.iter().enumerate() {
        let (first, last) = read_range(least, Place::Range { content, range: i }, value)?;
        ranges.push((first, last))?;
        least = last as u64 + 1;
    }
    Ok(ranges)
}

/// What one bookie holds of one ledger.
#[derive(Drop)]
pub struct Holding {
    bookie: BookieIx,
    ledger: LedgerId,
    is_assumed: bool,
    /// The first and the last entry of each range.
    ranges: Vec<(u32, u32)>,
}

impl Model for Holding {
    ghost use Rattle.reh_picture.specs.Contents.{Holding as HoldingValue};

    ghost Value = { HoldingValue };

    ghost view = { λ h. record {
      bookie = h.bookie;
      ledger = h.ledger;
      is_assumed = h.is_assumed;
      ranges = h.ranges.items;
    } };
}

impl Holding {
    pub fn bookie(&self) -> BookieIx
        ensures { result ≡ self.now.bookie }
    {
        self.bookie
    }

    pub fn ledger(&self) -> LedgerId
        ensures { result ≡ self.now.ledger }
    {
        self.ledger
    }

    /// Whether nobody told it.
    pub fn is_assumed(&self) -> bool
        ensures { result ≡ self.now.is_assumed }
    {
        self.is_assumed
    }

    /// The first and the last entry of each range.
    pub fn ranges(&self) -> &[(u32, u32)]
        ensures { result.now ≡ self.now.ranges }
    {
        &self.ranges
    }
}

/// The bookie and the ledger of one more holding, which join the pairs. After an `Err` they may be there.
fn read_pair(
    alloc: Global,
    names: &Names,
    ids: &IndexSet<u64>,
    pairs: &mut IndexSet<(u8, u64)>,
    content: &Value,
) -> Result<(BookieIx, LedgerId), PictureFault>
    ensures fault { FailsWith result
        (pair_fault names.now ids.now.keys pairs.old.keys (view content.now)) }
    ensures pair { IfOk result (λ pair. pair ≡ pair_of names.now (view content.now)) }
    ensures pairs { OnOk result
        (pairs.new.keys ≡ pairs.old.keys ++ pair_of names.now (view content.now) ∷ []) }
{
    if !content.is_object() {
        return Err(PictureFault::WrongKind(Field::Content));
    }
    let name = text(content, Field::Bookie)?;
    let bookie = known_bookie(alloc, names, name)?;
    let id = number(content, Field::Ledger)?;
    if !ids.contains(&id) {
        return Err(PictureFault::BadLedger(LedgerId(id), LedgerFlaw::Unknown));
    }
    if !pairs.insert((bookie.0, id))? {
        let name = FaultName::new(alloc, name)?;
        return Err(PictureFault::Twice(Repeated::Content(name, LedgerId(id))));
    }
    Ok((bookie, LedgerId(id)))
}

/// Adds the holding of this number; its bookie and ledger join the pairs. After an `Err` they may be there.
fn add_content(
    alloc: Global,
    names: &Names,
    ids: &IndexSet<u64>,
    pairs: &mut IndexSet<(u8, u64)>,
    holdings: &mut Vec<Holding>,
    number: usize,
    content: &Value,
) -> Result<(), LocatedFault>
    ensures fault { FailsAt result
        (content_fault names.now ids.now.keys number pairs.old.keys (view content.now)) }
    ensures pairs { OnOk result
        (pairs.new.keys ≡ pairs.old.keys ++ pair_of names.now (view content.now) ∷ []) }
    ensures holdings { OnOk result
        (holdings.new.items ≡ holdings.old.items ++ holding_in names.now (view content.now) ∷ []) }
{
    let here = Place::Content(number);
    let (bookie, ledger) = match read_pair(alloc, names, ids, pairs, content) {
        Ok(pair) => pair,
        Err(fault) => return Err(LocatedFault::new(fault, here)),
    };
    let entries = list_at(content, Field::Entries, here)?;
    let ranges = read_ranges(alloc, number, entries)?;
    holdings.push(Holding {
        bookie,
        ledger,
        is_assumed: mark(content, Field::Assumed),
        ranges,
    })?;
    Ok(())
}

/// What the bookies of a picture hold, as ranges.
#[tactic(auto, unfolding(crate::specs::Contents::contents_fault))]
pub(crate) fn read_contents(
    alloc: Global,
    names: &Names,
    ids: &IndexSet<u64>,
    picture: &Value,
) -> Result<Vec<Holding>, LocatedFault>
    ensures fault { FailsAt result (contents_fault names.now ids.now.keys (view picture.now)) }
    ensures holdings { IfOk result
        (λ holdings. holdings.items
        ≡ map (holding_in names.now) (list_of (view picture.now) Field.Contents)) }
{
    let contents = list_at(picture, Field::Contents, Place::Picture)?;
    read_each_content(alloc, names, ids, contents)
}

/// Holdings, one after another.
#[tactic(auto, unfolding(crate::specs::Contents::each_content_fault))]
fn read_each_content(
    alloc: Global,
    names: &Names,
    ids: &IndexSet<u64>,
    values: &[Value],
) -> Result<Vec<Holding>, LocatedFault>
    ensures fault { FailsAt result
        (each_content_fault names.now ids.now.keys (map view values.now)) }
    ensures holdings { IfOk result
        (λ holdings. holdings.items ≡ map (holding_in names.now) (map view values.now)) }
{
    let mut pairs = IndexSet::new(alloc);
    let mut holdings = Vec::new(alloc);
    for (i, value) in values.iter().enumerate() {
        add_content(alloc, names, ids, &mut pairs, &mut holdings, i, value)?;
    }
    Ok(holdings)
}

/// The greatest entry of each ledger that is held, by the ends of the ranges alone.
pub(crate) fn greatest_ends(
    alloc: Global,
    holdings: &[Holding],
) -> Result<BTreeMap<LedgerId, u32>, AllocError>
    requires { All (λ holding. All (λ range. range.0 ≤ range.1) holding.ranges) holdings.now }
    ensures { IfOk result (λ ends. IsGreatest (get nat_cmp ends) (held_in holdings.now)) }
{
    let mut ends = BTreeMap::new(alloc);
    for holding in holdings {
        note_ends(&mut ends, holding)?;
    }
    Ok(ends)
}

/// Notes the ends of what one bookie holds of one ledger. After an `Err` some of them may be there.
fn note_ends(ends: &mut BTreeMap<LedgerId, u32>, holding: &Holding) -> Result<(), AllocError>
    requires { All (λ range. range.0 ≤ range.1) holding.now.ranges }
    ensures { OnOk result ((contents : Contents) → IsGreatest (get nat_cmp ends.old) contents
        → IsGreatest (get nat_cmp ends.new) (fold set.insert contents (copies_in holding.now))) }
{
    for range in &holding.ranges {
        note_end(ends, holding.ledger, range.1)?;
    }
    Ok(())
}

/// Notes that this entry of the ledger is held.
fn note_end(
    ends: &mut BTreeMap<LedgerId, u32>,
    ledger: LedgerId,
    last: u32,
) -> Result<(), AllocError>
    ensures { OnOk result ((q : ℕ) → get nat_cmp ends.new q
        ≡ cond (nat_eq ledger q)
        (Some (option_map_or (λ end. max end last) (get nat_cmp ends.old q) last))
        (get nat_cmp ends.old q)) }
{
    let greatest = match ends.get(&ledger) {
        Some(end) => last.max(*end),
        None => last,
    };
    ends.insert(ledger, greatest)?;
    Ok(())
}

/// The contents that are these holdings, of so many bookies, with rows of each ledger for as many words as it has.
pub(crate) fn hold(
    alloc: Global,
    bookies: usize,
    ledgers: &[Ledger],
    holdings: &[Holding],
) -> Result<Held, AllocError>
    requires few { length ledgers.now ≤ MAX_LEDGERS }
    requires different { IsDistinct nat_eq (map (λ g. g.id) ledgers.now) }
    requires words { All (λ g. ENTRIES_IN_WORD * g.words ≤ ENTRY_END) ledgers.now }
    requires ends { All (HasEnds bookies ledgers.now) holdings.now }
    ensures contents { IfOk result (λ held. held.contents ≡ held_in holdings.now) }
    ensures rows { IfOk result (HasRows bookies ledgers.now) }
{
    let mut held = empty_rows(alloc, bookies, ledgers)?;
    for holding in holdings {
        add_holding(&mut held, holding);
    }
    Ok(held)
}

/// Contents in which none of so many bookies holds an entry, with rows of each ledger for as many words as it has.
fn empty_rows(alloc: Global, bookies: usize, ledgers: &[Ledger]) -> Result<Held, AllocError>
    requires few { length ledgers.now ≤ MAX_LEDGERS }
    requires different { IsDistinct nat_eq (map (λ g. g.id) ledgers.now) }
    requires words { All (λ g. ENTRIES_IN_WORD * g.words ≤ ENTRY_END) ledgers.now }
    ensures contents { IfOk result (λ held. held.contents ≡ set.empty) }
    ensures rows { IfOk result (HasRows bookies ledgers.now) }
{
    let mut held = Held::new(alloc, bookies);
    for ledger in ledgers {
        let entries = ledger.words() * ENTRIES_IN_WORD as usize;
        if entries > 0 {
            held.reserve(ledger.id(), (entries - 1) as u32)?;
        }
    }
    Ok(held)
}

/// Adds what one bookie holds of one ledger, whose rows reach the end of each range.
fn add_holding(held: &mut Held, holding: &Holding)
    requires { FitsIn held.old holding.now }
    ensures { held.new ≡ record held.old {
      contents = fold set.insert held.old.contents (copies_in holding.now);
    } }
{
    for ends in &holding.ranges {
        held.add_range(holding.bookie, holding.ledger, ends.0, ends.1);
    }
}
