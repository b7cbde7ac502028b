// The marks of a picture's bookies and contents, which rehearsals pass over and questions about the cluster ask for.
ghost use Rattle.std.specs.Prelude.{◌≡◌, ◌++◌, ◌∷◌, [], IfOk, OnOk, map, string_bytes};
ghost use Rattle.std.specs.Option.{option_map};
ghost use Rattle.std.specs.Result.{result_err};
ghost use Rattle.serde_json.specs.View.{view};
ghost use Rattle.reh_fields.specs.Names.{is_name as is_rack_name};
ghost use Rattle.reh_fields.specs.Faults.{FailsWith};
ghost use Rattle.reh_picture.specs.Marks as model;
ghost use Rattle.reh_fields.specs.Members.{flag_if_there as flag_if_there_in, list_of};
ghost use Rattle.reh_picture.specs.Places.{FailsAt, fault_at};

use crate::members::list_at;
use crate::places::{LocatedFault, Place};
use reh_fields::members::flag_if_there;
use reh_fields::names::is_name;
use reh_fields::{Field, PictureFault};
use serde_json::Value;
use std::alloc::Global;
use std::marker::Model;

/// The marks of a bookie: whether it is read-only, whether it came back without its disk, and its rack, if the picture
/// names it.
#[derive(Drop)]
pub struct BookieMarks {
    is_read_only: bool,
    is_empty: bool,
    rack: Option<String>,
}

impl Model for BookieMarks {
    ghost use Rattle.std.specs.Prelude.{string_bytes};
    ghost use Rattle.std.specs.Option.{option_map};
    ghost use Rattle.reh_picture.specs.Marks as model;

    ghost Value = { model.BookieMarks };

    ghost view = { λ m. record {
      is_read_only = m.is_read_only;
      is_empty = m.is_empty;
      rack = option_map string_bytes m.rack;
    } };
}

impl BookieMarks {
    pub fn is_read_only(&self) -> bool
        ensures { result ≡ self.now.is_read_only }
    {
        self.is_read_only
    }

    /// Whether it came back without its disk.
    pub fn is_empty(&self) -> bool
        ensures { result ≡ self.now.is_empty }
    {
        self.is_empty
    }

    pub fn rack(&self) -> Option<&str>
        ensures { option_map (λ rack. rack.now) result ≡ self.now.rack }
    {
        match &self.rack {
            Some(rack) => Some(rack.as_str()),
            None => None,
        }
    }
}

/// A bookie's rack, if the picture names it.
fn read_rack(alloc: Global, bookie: &Value) -> Result<Option<String>, PictureFault>
    ensures fault { FailsWith result (model.rack_fault (view bookie.now)) }
    ensures rack { IfOk result (λ rack. option_map string_bytes rack ≡ model.rack_of (view bookie.now)) }
{
    let Some(value) = bookie.get(Field::Rack.name()) else {
        return Ok(None);
    };
    let Some(rack) = value.as_str() else {
        return Err(PictureFault::WrongKind(Field::Rack));
    };
    if !is_name(rack.as_bytes()) {
        return Err(PictureFault::Limit(Field::Rack));
    }
    let copy = String::from_str(alloc, rack)?;
    Ok(Some(copy))
}

/// The marks of a bookie.
fn read_bookie_marks(alloc: Global, bookie: &Value) -> Result<BookieMarks, PictureFault>
    ensures fault { FailsWith result (model.bookie_marks_fault (view bookie.now)) }
    ensures marks { IfOk result (λ marks. marks ≡ model.bookie_marks (view bookie.now)) }
{
    let is_read_only = flag_if_there(bookie, Field::ReadOnly)?;
    let is_empty = flag_if_there(bookie, Field::Empty)?;
    let rack = read_rack(alloc, bookie)?;
    Ok(BookieMarks {
        is_read_only,
        is_empty,
        rack,
    })
}

/// Adds the marks of the bookie of this number.
fn add_bookie(
    alloc: Global,
    marks: &mut Vec<BookieMarks>,
    number: usize,
    bookie: &Value,
) -> Result<(), LocatedFault>
    ensures fault { FailsAt result
        (fault_at (Place.Bookie number) (model.bookie_marks_fault (view bookie.now))) }
    ensures marks { OnOk result
        (marks.new.items ≡ marks.old.items ++ model.bookie_marks (view bookie.now) ∷ []) }
{
    match read_bookie_marks(alloc, bookie) {
        Ok(one) => Ok(marks.push(one)?),
        Err(fault) => Err(LocatedFault::new(fault, Place::Bookie(number))),
    }
}

/// The marks of bookies.
#[tactic(auto, unfolding(crate::specs::Marks::each_marks_fault))]
fn read_each_bookie(alloc: Global, bookies: &[Value]) -> Result<Vec<BookieMarks>, LocatedFault>
    ensures fault { FailsAt result (model.each_marks_fault (map view bookies.now)) }
    ensures marks { IfOk result
        (λ marks. marks.items ≡ map model.bookie_marks (map view bookies.now)) }
{
    let mut marks = Vec::new(alloc);
    for (i, bookie) in bookies.iter().enumerate() {
        add_bookie(alloc, &mut marks, i, bookie)?;
    }
    Ok(marks)
}

/// The fault of what marks the content of this number.
fn check_content_at(number: usize, content: &Value) -> Result<(), LocatedFault>
    ensures { FailsAt result (fault_at (Place.Content number)
        (result_err (flag_if_there_in (view content.now) Field.Assumed))) }
{
    match flag_if_there(content, Field::Assumed) {
        Ok(_) => Ok(()),
        Err(fault) => Err(LocatedFault::new(fault, Place::Content(number))),
    }
}

/// The first fault of the marks of contents.
#[tactic(auto, unfolding(crate::specs::Marks::each_assumed_fault))]
fn check_each_content(contents: &[Value]) -> Result<(), LocatedFault>
    ensures { FailsAt result (model.each_assumed_fault (map view contents.now)) }
{
    for (i, content) in contents.iter().enumerate() {
        check_content_at(i, content)?;
    }
    Ok(())
}

/// The marks of a picture's bookies, once those of its contents have no fault either.
pub(crate) fn read_marks(alloc: Global, picture: &Value) -> Result<Vec<BookieMarks>, LocatedFault>
    ensures fault { FailsAt result (model.marks_fault (view picture.now)) }
    ensures marks { IfOk result (λ marks. marks.items
        ≡ map model.bookie_marks (list_of (view picture.now) Field.Bookies)) }
{
    let bookies = list_at(picture, Field::Bookies, Place::Picture)?;
    let marks = read_each_bookie(alloc, bookies)?;
    let contents = list_at(picture, Field::Contents, Place::Picture)?;
    check_each_content(contents)?;
    Ok(marks)
}
