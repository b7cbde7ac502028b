// What the line of a ledger tells of the entries that bookies hold.
ghost use Rattle.std.specs.Prelude.{◌≡◌, ◌<◌, ◌≤◌, [], ◌∷◌, ◌++◌, length, map, IfOk, OnOk};
ghost use Rattle.serde_json.specs.View.{view};
ghost use Rattle.reh_census_file.specs.declared.lists.TheConstants.{MAX_NAMES};
ghost use Rattle.reh_inventory_fields.specs.Faults.{FailsWith, FailsAt, fault_at};
ghost use Rattle.reh_inventory_fields.specs.Members.{mark_of, text_of};
ghost use Rattle.reh_inventory.specs.Contents as model;

use reh_census::{Range, Ranges};
use reh_census_file::{MAX_NAMES, NameList as Names};
use reh_inventory_fields::members::{MAX_NUMBER, flag_if_there, has, list, list_within, name};
use reh_inventory_fields::{Fault, Field, LineFault, Name, Place, located};
use serde_json::Value;
use std::alloc::Global;
use std::marker::Model;

/// The first and the last entry of a range.
fn read_ends(field: Field, range: &Value) -> Result<(u64, u64), Fault>
    ensures { result ≡ model.ends_in field (view range.now) }
{
    let ends = match range.as_array() {
        Some(list) => two_numbers(list),
        None => None,
    };
    ends.ok_or(Fault::WrongKind(field))
}

/// The numbers of a list that has two and nothing else.
fn two_numbers(list: &[Value]) -> Option<(u64, u64)>
    ensures { result ≡ model.two_numbers (map view list.now) }
{
    match list {
        [first, last] => Some((first.as_u64()?, last.as_u64()?)),
        _ => None,
    }
}

/// The range of entries at this place, which begins at the least entry or after it.
fn read_range(field: Field, least: u64, here: Place, range: &Value) -> Result<Range, LineFault>
    ensures fault { FailsAt result
        (fault_at here (model.range_fault field least (view range.now))) }
    ensures range { IfOk result (λ r. r ≡ model.range_in field (view range.now)) }
    ensures within { IfOk result (λ r. r.last ≤ MAX_NUMBER) }
{
    let (first, last) = located(read_ends(field, range), here)?;
    if first < least || last < first || last > MAX_NUMBER {
        return Err(LineFault::new(Fault::Limit(field), here));
    }
    Ok(Range { first, last })
}

/// The ranges of this list of the content of this number, each past those before it.
#[tactic(auto, unfolding(crate::specs::Contents::ranges_fault))]
fn read_ranges(
    alloc: Global,
    content: usize,
    field: Field,
    values: &[Value],
) -> Result<Ranges, LineFault>
    ensures fault { FailsAt result (model.ranges_fault content field (map view values.now)) }
    ensures ranges { IfOk result
        (λ ranges. ranges ≡ map (model.range_in field) (map view values.now)) }
{
    let mut ranges = Vec::new(alloc);
    let mut least = 0;
    for (i, value) in values.iter().enumerate() {
        let here = Place::Range {
            content,
            list: field,
            range: i,
        };
        let range = read_range(field, least, here, value)?;
        least = range.last + 1;
        ranges.push(range)?;
    }
    Ok(Ranges::of(ranges))
}

/// The ranges of a list of the content of this number, which must be there.
fn read_list(
    alloc: Global,
    number: usize,
    field: Field,
    content: &Value,
) -> Result<Ranges, LineFault>
    ensures fault { FailsAt result (model.list_fault number field (view content.now)) }
    ensures ranges { IfOk result (λ ranges. ranges ≡ model.ranges_in field (view content.now)) }
{
    let here = Place::Content(number);
    let values = located(list(content, field), here)?;
    read_ranges(alloc, number, field, values)
}

/// What a content says that a bookie holds.
#[derive(Drop)]
pub enum Entries {
    /// These entries.
    Holds(Ranges),
    /// What is striped onto it, without these entries.
    Lacks(Ranges),
}

/// What is told or assumed of the entries of a ledger that one bookie holds.
#[derive(Drop)]
pub struct Content {
    /// The bookie's name.
    pub bookie: Name,
    pub entries: Entries,
    /// The entries of which it speaks; where this is none, of all.
    pub told: Option<Ranges>,
    /// Whether nobody told it.
    pub is_assumed: bool,
}

/// Contents, in the order of the line. Contracts see the list.
#[derive(Drop)]
pub struct ContentList {
    items: Vec<Content>,
}

impl Model for ContentList {
    ghost use Rattle.std.specs.Prelude.{List};
    ghost use Rattle.reh_inventory.specs.declared.contents.Content.{Content};

    ghost Value = { List Content };

    ghost view = { λ contents. contents.items.items };
}

impl ContentList {
    /// These contents.
    pub fn of(items: Vec<Content>) -> ContentList
        ensures { result ≡ items.items }
    {
        ContentList { items }
    }

    /// The contents, as a slice.
    pub fn as_slice(&self) -> &[Content]
        ensures { result.now ≡ self.now }
    {
        &self.items
    }
}

/// The bookie of one more content, whose name joins the names, and whether the content is assumed. After an `Err` the
/// name may be there.
fn read_bookie(alloc: Global, names: &mut Names, content: &Value) -> Result<(Name, bool), Fault>
    requires { length names.old < MAX_NAMES }
    ensures fault { FailsWith result (model.before_entries names.old (view content.now)) }
    ensures named { OnOk result
        (names.new ≡ names.old ++ text_of (view content.now) Field.Bookie ∷ []) }
    ensures bookie { IfOk result (λ r. text_of (view content.now) Field.Bookie ≡ r.0) }
    ensures assumed { IfOk result (λ r. mark_of (view content.now) Field.Assumed ≡ r.1) }
{
    if !content.is_object() {
        return Err(Fault::WrongKind(Field::Content));
    }
    let bookie = name(alloc, content, Field::Bookie)?;
    if !names.add(bookie.as_str())? {
        return Err(Fault::Twice(Field::Bookie));
    }
    let is_assumed = flag_if_there(content, Field::Assumed)?;
    if has(content, Field::Entries) == has(content, Field::Lacks) {
        return Err(Fault::EntriesOrLacks);
    }
    Ok((bookie, is_assumed))
}

/// What the content of this number says that its bookie holds.
fn read_entries(alloc: Global, number: usize, content: &Value) -> Result<Entries, LineFault>
    ensures fault { FailsAt result (model.entries_fault number (view content.now)) }
    ensures entries { IfOk result (λ entries. entries ≡ model.entries_in (view content.now)) }
{
    if has(content, Field::Lacks) {
        let ranges = read_list(alloc, number, Field::Lacks, content)?;
        return Ok(Entries::Lacks(ranges));
    }
    let ranges = read_list(alloc, number, Field::Entries, content)?;
    Ok(Entries::Holds(ranges))
}

/// The entries of which the content of this number speaks, if it says so.
fn read_told(alloc: Global, number: usize, content: &Value) -> Result<Option<Ranges>, LineFault>
    ensures fault { FailsAt result (model.told_fault number (view content.now)) }
    ensures told { IfOk result (λ told. told ≡ model.told_in (view content.now)) }
{
    if !has(content, Field::Told) {
        return Ok(None);
    }
    let ranges = read_list(alloc, number, Field::Told, content)?;
    Ok(Some(ranges))
}

/// Adds the content of this number; its bookie's name joins the names. After an `Err` it may be there.
fn add_content(
    alloc: Global,
    names: &mut Names,
    number: usize,
    content: &Value,
    contents: &mut Vec<Content>,
) -> Result<(), LineFault>
    requires { length names.old < MAX_NAMES }
    ensures fault { FailsAt result (model.content_fault number names.old (view content.now)) }
    ensures named { OnOk result
        (names.new ≡ names.old ++ text_of (view content.now) Field.Bookie ∷ []) }
    ensures added { OnOk result
        (contents.new.items ≡ contents.old.items ++ model.content_in (view content.now) ∷ []) }
{
    let here = Place::Content(number);
    let (bookie, is_assumed) = located(read_bookie(alloc, names, content), here)?;
    let entries = read_entries(alloc, number, content)?;
    let told = read_told(alloc, number, content)?;
    contents.push(Content {
        bookie,
        entries,
        told,
        is_assumed,
    })?;
    Ok(())
}

/// At most 4,096 contents.
#[tactic(auto, unfolding(crate::specs::Contents::each_content_fault))]
fn read_each_content(alloc: Global, values: &[Value]) -> Result<ContentList, LineFault>
    requires { length values.now ≤ MAX_NAMES }
    ensures fault { FailsAt result (model.each_content_fault (map view values.now)) }
    ensures contents { IfOk result
        (λ contents. contents ≡ map model.content_in (map view values.now)) }
{
    let mut names = Names::new(alloc);
    let mut contents = Vec::new(alloc);
    for (i, value) in values.iter().enumerate() {
        add_content(alloc, &mut names, i, value, &mut contents)?;
    }
    Ok(ContentList::of(contents))
}

/// The contents of a ledger, none where the line doesn't have them.
pub(crate) fn read_contents(alloc: Global, ledger: &Value) -> Result<ContentList, LineFault>
    ensures fault { FailsAt result (model.contents_fault (view ledger.now)) }
    ensures contents { IfOk result
        (λ contents. contents ≡ model.contents_in (view ledger.now)) }
{
    if !has(ledger, Field::Contents) {
        return Ok(ContentList::of(Vec::new(alloc)));
    }
    let values = list_within(ledger, Field::Contents, 0, MAX_NAMES)?;
    read_each_content(alloc, values)
}
