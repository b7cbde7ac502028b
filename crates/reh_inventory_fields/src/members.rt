// The members of a line's objects, each as the kind of value that it must be.
ghost use Rattle.std.specs.Prelude.{◌≡◌, ◌≤◌, Ok, Err, None, Some, map, length, option_map, IfOk, IfErr};
ghost use Rattle.std.specs.Result.{result_err};
ghost use Rattle.serde_json.specs.View.{view};
ghost use Rattle.reh_inventory_fields.specs.Faults.{FailsWith};
ghost use Rattle.reh_inventory_fields.specs.Members as model;
ghost use Rattle.reh_inventory_fields.specs.Members.{list_of, number_of, text_of};

use crate::faults::Fault;
use crate::fields::Field;
use crate::names::Name;
use reh_fields::names::is_name;
use serde_json::Value;
use std::alloc::Global;

/// The greatest id, entry, version, length and count.
pub const MAX_NUMBER: u64 = 9_223_372_036_854_775_807;

/// The largest ensemble.
pub const MAX_ENSEMBLE: u64 = 64;

/// Whether the member is there.
pub fn has(object: &Value, field: Field) -> bool
    ensures { result ≡ model.has (view object.now) field }
{
    object.get(field.name()).is_some()
}

/// The member of an object.
fn member(object: &Value, field: Field) -> Result<&Value, Fault>
    ensures ok { IfOk result (λ v. model.member_in (view object.now) field ≡ Ok (view v.now)) }
    ensures err { IfErr result (λ fault. model.member_in (view object.now) field ≡ Err fault) }
{
    object.get(field.name()).ok_or(Fault::Missing(field))
}

/// A member that is a number from 0 on.
fn number(object: &Value, field: Field) -> Result<u64, Fault>
    ensures { result ≡ model.number_in (view object.now) field }
{
    member(object, field)?
        .as_u64()
        .ok_or(Fault::WrongKind(field))
}

/// A member that is a number below 2^63, which may be below 0.
pub fn integer(object: &Value, field: Field) -> Result<i64, Fault>
    ensures { result ≡ model.integer_in (view object.now) field }
{
    member(object, field)?
        .as_i64()
        .ok_or(Fault::WrongKind(field))
}

/// A member that is true or false.
pub fn flag(object: &Value, field: Field) -> Result<bool, Fault>
    ensures { result ≡ model.flag_in (view object.now) field }
{
    member(object, field)?
        .as_bool()
        .ok_or(Fault::WrongKind(field))
}

/// A member that needn't be there and is true or false: false where it isn't there.
pub fn flag_if_there(object: &Value, field: Field) -> Result<bool, Fault>
    ensures { result ≡ model.flag_if_there (view object.now) field }
{
    match object.get(field.name()) {
        Some(value) => value.as_bool().ok_or(Fault::WrongKind(field)),
        None => Ok(false),
    }
}

/// A member that is a text.
pub fn text(object: &Value, field: Field) -> Result<&str, Fault>
    ensures ok { IfOk result (λ text. model.text_in (view object.now) field ≡ Ok text.now) }
    ensures err { IfErr result (λ fault. model.text_in (view object.now) field ≡ Err fault) }
{
    member(object, field)?
        .as_str()
        .ok_or(Fault::WrongKind(field))
}

/// A member that is a list.
pub fn list(object: &Value, field: Field) -> Result<&[Value], Fault>
    ensures fault { result_err result ≡ result_err (model.list_in (view object.now) field) }
    ensures list { IfOk result (λ list. list_of (view object.now) field ≡ map view list.now) }
{
    let list = member(object, field)?
        .as_array()
        .ok_or(Fault::WrongKind(field))?;
    Ok(list.as_slice())
}

/// A member that is a number from the least to the most.
pub fn number_within(object: &Value, field: Field, least: u64, most: u64) -> Result<u64, Fault>
    ensures fault { result_err result ≡ model.number_fault (view object.now) field least most }
    ensures number { IfOk result (λ n. number_of (view object.now) field ≡ n) }
    ensures within { IfOk result (λ n. n ≤ most) }
    ensures from { IfOk result (λ n. least ≤ n) }
{
    let number = number(object, field)?;
    if number < least || number > most {
        return Err(Fault::Limit(field));
    }
    Ok(number)
}

/// A member that needn't be there and is a number up to the greatest.
pub fn number_if_there(object: &Value, field: Field) -> Result<Option<u64>, Fault>
    ensures fault { result_err result ≡ model.number_if_there_fault (view object.now) field }
    ensures number { IfOk result
        (λ number. number ≡ model.number_if_there (view object.now) field) }
{
    if !has(object, field) {
        return Ok(None);
    }
    let number = number_within(object, field, 0, MAX_NUMBER)?;
    Ok(Some(number))
}

/// A member that is a list with from the least to the most elements.
pub fn list_within(
    object: &Value,
    field: Field,
    least: usize,
    most: usize,
) -> Result<&[Value], Fault>
    ensures fault { result_err result ≡ model.list_fault (view object.now) field least most }
    ensures list { IfOk result (λ list. list_of (view object.now) field ≡ map view list.now) }
    ensures within { IfOk result (λ list. (least ≤ length list.now) × (length list.now ≤ most)) }
{
    let list = list(object, field)?;
    if list.len() < least || list.len() > most {
        return Err(Fault::Limit(field));
    }
    Ok(list)
}

/// A copy of a text that must be a name.
pub fn name_of(alloc: Global, field: Field, text: &str) -> Result<Name, Fault>
    ensures fault { FailsWith result (model.text_fault field text.now) }
    ensures name { IfOk result (λ name. name ≡ text.now) }
{
    if !is_name(text.as_bytes()) {
        return Err(Fault::Limit(field));
    }
    let name = Name::new(alloc, text)?;
    Ok(name)
}

/// A member that is a name.
pub fn name(alloc: Global, object: &Value, field: Field) -> Result<Name, Fault>
    ensures fault { FailsWith result (model.name_fault (view object.now) field) }
    ensures name { IfOk result (λ name. text_of (view object.now) field ≡ name) }
{
    let text = text(object, field)?;
    name_of(alloc, field, text)
}

/// A member that needn't be there and is a name.
pub fn name_if_there(alloc: Global, object: &Value, field: Field) -> Result<Option<Name>, Fault>
    ensures fault { FailsWith result (model.name_if_there_fault (view object.now) field) }
    ensures name { IfOk result (λ name. name ≡ model.name_if_there (view object.now) field) }
{
    if !has(object, field) {
        return Ok(None);
    }
    let name = name(alloc, object, field)?;
    Ok(Some(name))
}
