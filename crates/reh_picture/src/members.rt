// The lists of a picture and of its parts, or a fault with its place.
ghost use Rattle.std.specs.Prelude.{◌≡◌, ◌≤◌, IfOk, length, map};
ghost use Rattle.std.specs.Result.{result_err};
ghost use Rattle.serde_json.specs.View.{view};
ghost use Rattle.reh_fields.specs.Members.{list_fault, list_in, list_of};
ghost use Rattle.reh_picture.specs.Places.{FailsAt, fault_at};

use crate::places::{LocatedFault, Place};
use reh_fields::Field;
use reh_fields::members::{list, list_within};
use serde_json::Value;

/// A list of the part of a picture at this place.
pub(crate) fn list_at(part: &Value, field: Field, here: Place) -> Result<&[Value], LocatedFault>
    ensures fault { FailsAt result
        (fault_at here (result_err (list_in (view part.now) field))) }
    ensures list { IfOk result (λ list. list_of (view part.now) field ≡ map view list.now) }
{
    match list(part, field) {
        Ok(list) => Ok(list),
        Err(fault) => Err(LocatedFault::new(fault, here)),
    }
}

/// A list of a picture, of a length within these limits.
pub(crate) fn list_of_picture(
    picture: &Value,
    field: Field,
    least: usize,
    most: usize,
) -> Result<&[Value], LocatedFault>
    ensures fault { FailsAt result
        (fault_at Place.Picture (list_fault (view picture.now) field least most)) }
    ensures list { IfOk result (λ list. list_of (view picture.now) field ≡ map view list.now) }
    ensures within { IfOk result (λ list. (least ≤ length list.now) × (length list.now ≤ most)) }
{
    match list_within(picture, field, least, most) {
        Ok(list) => Ok(list),
        Err(fault) => Err(LocatedFault::new(fault, Place::Picture)),
    }
}
