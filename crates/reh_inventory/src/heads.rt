// The first line of an inventory.
ghost use Rattle.std.specs.Prelude.{◌≡◌, ◌<◌, ◌≤◌, [], ◌∷◌, ◌++◌, length, map, IfOk, OnOk};
ghost use Rattle.std.specs.Result.{result_err};
ghost use Rattle.serde_json.specs.View.{view};
ghost use Rattle.reh_census_file.specs.declared.lists.TheConstants.{MAX_NAMES};
ghost use Rattle.reh_inventory_fields.specs.Faults.{FailsWith, FailsAt, fault_at};
ghost use Rattle.reh_inventory_fields.specs.Members.{text_of, name_if_there as name_if_there_in};
ghost use Rattle.reh_inventory.specs.Heads as model;

use reh_census_file::{MAX_NAMES, NameList as Names};
use reh_inventory_fields::members::{
    flag, flag_if_there, has, list_within, name, name_if_there, number_within, text,
};
use reh_inventory_fields::{Fault, Field, LineFault, Name, Place};
use reh_types::{MAX_DELAY, MAX_GRACE};
use serde_json::Value;
use std::alloc::Global;
use std::marker::Model;

/// A bookie of the first line.
#[derive(Drop)]
pub struct Bookie {
    pub name: Name,
    /// Whether it is registered.
    pub is_up: bool,
    pub is_read_only: bool,
    /// Whether it came back without its disk.
    pub is_empty: bool,
    /// Its rack, if the line names it.
    pub rack: Option<Name>,
}

/// Bookies, in the order of the line. Contracts see the list.
#[derive(Drop)]
pub struct BookieList {
    items: Vec<Bookie>,
}

impl Model for BookieList {
    ghost use Rattle.std.specs.Prelude.{List};
    ghost use Rattle.reh_inventory.specs.declared.heads.Bookie.{Bookie};

    ghost Value = { List Bookie };

    ghost view = { λ bookies. bookies.items.items };
}

impl BookieList {
    /// These bookies.
    pub fn of(items: Vec<Bookie>) -> BookieList
        ensures { result ≡ items.items }
    {
        BookieList { items }
    }

    /// The bookies, as a slice.
    pub fn as_slice(&self) -> &[Bookie]
        ensures { result.now ≡ self.now }
    {
        &self.items
    }
}

/// The first line of an inventory.
#[derive(Drop)]
pub struct Head {
    /// When the inventory was taken, if that is told.
    pub taken: Option<Name>,
    /// The grace of an open ledger, in ticks.
    pub grace: u64,
    /// For how many ticks after a bookie's loss an audit waits.
    pub delay: u64,
    /// Whether members of which no content tells are assumed to hold what is striped onto them.
    pub assumes_striped: bool,
    /// At most 4,096 bookies, each name once.
    pub bookies: BookieList,
}

/// A bookie whose name none before it has; its name joins the names. After an `Err` they may have it.
fn read_bookie(alloc: Global, names: &mut Names, bookie: &Value) -> Result<Bookie, Fault>
    requires { length names.old < MAX_NAMES }
    ensures fault { FailsWith result (model.bookie_fault names.old (view bookie.now)) }
    ensures named { OnOk result
        (names.new ≡ names.old ++ text_of (view bookie.now) Field.Name ∷ []) }
    ensures bookie { IfOk result (λ b. b ≡ model.bookie_in (view bookie.now)) }
{
    if !bookie.is_object() {
        return Err(Fault::WrongKind(Field::Bookie));
    }
    let name = name(alloc, bookie, Field::Name)?;
    if !names.add(name.as_str())? {
        return Err(Fault::Twice(Field::Name));
    }
    let is_up = flag(bookie, Field::Up)?;
    let is_read_only = flag_if_there(bookie, Field::ReadOnly)?;
    let is_empty = flag_if_there(bookie, Field::Empty)?;
    let rack = name_if_there(alloc, bookie, Field::Rack)?;
    Ok(Bookie {
        name,
        is_up,
        is_read_only,
        is_empty,
        rack,
    })
}

/// Adds the bookie of this number. After an `Err` its name may be there.
fn add_bookie(
    alloc: Global,
    names: &mut Names,
    number: usize,
    bookie: &Value,
    read: &mut Vec<Bookie>,
) -> Result<(), LineFault>
    requires { length names.old < MAX_NAMES }
    ensures fault { FailsAt result
        (fault_at (Place.Bookie number) (model.bookie_fault names.old (view bookie.now))) }
    ensures named { OnOk result
        (names.new ≡ names.old ++ text_of (view bookie.now) Field.Name ∷ []) }
    ensures added { OnOk result
        (read.new.items ≡ read.old.items ++ model.bookie_in (view bookie.now) ∷ []) }
{
    match read_bookie(alloc, names, bookie) {
        Ok(bookie) => {
            read.push(bookie)?;
            Ok(())
        }
        Err(fault) => Err(LineFault::new(fault, Place::Bookie(number))),
    }
}

/// At most 4,096 bookies.
#[tactic(auto, unfolding(crate::specs::Heads::each_bookie_fault))]
fn read_each_bookie(alloc: Global, bookies: &[Value]) -> Result<BookieList, LineFault>
    requires { length bookies.now ≤ MAX_NAMES }
    ensures fault { FailsAt result (model.each_bookie_fault (map view bookies.now)) }
    ensures bookies { IfOk result (λ read. read ≡ map model.bookie_in (map view bookies.now)) }
{
    let mut names = Names::new(alloc);
    let mut read = Vec::new(alloc);
    for (i, bookie) in bookies.iter().enumerate() {
        add_bookie(alloc, &mut names, i, bookie, &mut read)?;
    }
    Ok(BookieList::of(read))
}

/// When the inventory was taken, if that is told.
fn read_taken(alloc: Global, head: &Value) -> Result<Option<Name>, Fault>
    ensures fault { FailsWith result (model.taken_fault (view head.now)) }
    ensures taken { IfOk result
        (λ taken. taken ≡ name_if_there_in (view head.now) Field.Taken) }
{
    let Some(taken) = name_if_there(alloc, head, Field::Taken)? else {
        return Ok(None);
    };
    if taken.as_str() == "-" {
        return Err(Fault::Limit(Field::Taken));
    }
    Ok(Some(taken))
}

/// Whether members of which nothing is told are assumed to hold what is striped onto them.
fn read_held(head: &Value) -> Result<bool, Fault>
    ensures fault { result_err result ≡ model.held_fault (view head.now) }
    ensures held { IfOk result (λ held. held ≡ model.assumes_striped (view head.now)) }
{
    if !has(head, Field::Held) {
        return Ok(false);
    }
    match text(head, Field::Held)? {
        "striped" => Ok(true),
        _ => Err(Fault::WrongKind(Field::Held)),
    }
}

/// The first line.
pub(crate) fn read_head(alloc: Global, head: &Value) -> Result<Head, LineFault>
    ensures fault { FailsAt result (model.head_fault (view head.now)) }
    ensures head { IfOk result (λ h. h ≡ model.head_in (view head.now)) }
{
    number_within(head, Field::Inventory, 1, 1)?;
    let taken = read_taken(alloc, head)?;
    let grace = number_within(head, Field::Grace, 0, MAX_GRACE)?;
    let delay = number_within(head, Field::LostDelayTicks, 0, MAX_DELAY)?;
    let assumes_striped = read_held(head)?;
    let bookies = list_within(head, Field::Bookies, 1, MAX_NAMES)?;
    let bookies = read_each_bookie(alloc, bookies)?;
    Ok(Head {
        taken,
        grace,
        delay,
        assumes_striped,
        bookies,
    })
}
