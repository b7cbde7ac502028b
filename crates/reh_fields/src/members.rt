// The members of a picture's objects, each as the kind of value that it must be.
ghost use Rattle.std.specs.Prelude.{◌≡◌, ◌≤◌, Ok, Err, map, length, IfOk, IfErr};
ghost use Rattle.std.specs.Result.{result_err};
ghost use Rattle.serde_json.specs.View.{view};
ghost use Rattle.reh_fields.specs.Members.{member_in, number_in, integer_in, flag_in, text_in, list_in, number_of};
ghost use Rattle.reh_fields.specs.Members.{list_of, number_fault, list_fault, mark_of};
ghost use Rattle.reh_fields.specs.Members.{flag_if_there as flag_if_there_in};

use crate::faults::PictureFault;
use crate::fields::Field;
use serde_json::Value;

/// The member of an object.
pub fn member(object: &Value, field: Field) -> Result<&Value, PictureFault>
    ensures ok { IfOk result (λ v. member_in (view object.now) field ≡ Ok (view v.now)) }
    ensures err { IfErr result (λ fault. member_in (view object.now) field ≡ Err fault) }
{
    object.get(field.name()).ok_or(PictureFault::Missing(field))
}

/// A member that is a number from 0 on.
pub fn number(object: &Value, field: Field) -> Result<u64, PictureFault>
    ensures { result ≡ number_in (view object.now) field }
{
    member(object, field)?
        .as_u64()
        .ok_or(PictureFault::WrongKind(field))
}

/// A member that is a number, which may be below 0.
pub fn integer(object: &Value, field: Field) -> Result<i64, PictureFault>
    ensures { result ≡ integer_in (view object.now) field }
{
    member(object, field)?
        .as_i64()
        .ok_or(PictureFault::WrongKind(field))
}

/// A member that is true or false.
pub fn flag(object: &Value, field: Field) -> Result<bool, PictureFault>
    ensures { result ≡ flag_in (view object.now) field }
{
    member(object, field)?
        .as_bool()
        .ok_or(PictureFault::WrongKind(field))
}

/// A member that needn't be there and is true or false: false where it isn't there.
pub fn flag_if_there(object: &Value, field: Field) -> Result<bool, PictureFault>
    ensures { result ≡ flag_if_there_in (view object.now) field }
{
    match object.get(field.name()) {
        Some(value) => value.as_bool().ok_or(PictureFault::WrongKind(field)),
        None => Ok(false),
    }
}

/// The same, where what is neither true nor false is passed over.
pub fn mark(object: &Value, field: Field) -> bool
    ensures { result ≡ mark_of (view object.now) field }
{
    flag_if_there(object, field).unwrap_or(false)
}

/// A member that is a text.
pub fn text(object: &Value, field: Field) -> Result<&str, PictureFault>
    ensures ok { IfOk result (λ text. text_in (view object.now) field ≡ Ok text.now) }
    ensures err { IfErr result (λ fault. text_in (view object.now) field ≡ Err fault) }
{
    member(object, field)?
        .as_str()
        .ok_or(PictureFault::WrongKind(field))
}

/// A member that is a list.
pub fn list(object: &Value, field: Field) -> Result<&[Value], PictureFault>
    ensures fault { result_err result ≡ result_err (list_in (view object.now) field) }
    ensures list { IfOk result (λ list. list_of (view object.now) field ≡ map view list.now) }
{
    let list = member(object, field)?
        .as_array()
        .ok_or(PictureFault::WrongKind(field))?;
    Ok(list.as_slice())
}

/// A member that is a number from the least to the most.
pub fn number_within(
    object: &Value,
    field: Field,
    least: u64,
    most: u64,
) -> Result<u64, PictureFault>
    ensures fault { result_err result ≡ number_fault (view object.now) field least most }
    ensures number { IfOk result (λ n. number_of (view object.now) field ≡ n) }
    ensures within { IfOk result (λ n. n ≤ most) }
{
    let number = number(object, field)?;
    if number < least || number > most {
        return Err(PictureFault::Limit(field));
    }
    Ok(number)
}

/// A member that is a list with from the least to the most elements.
pub fn list_within(
    object: &Value,
    field: Field,
    least: usize,
    most: usize,
) -> Result<&[Value], PictureFault>
    ensures fault { result_err result ≡ list_fault (view object.now) field least most }
    ensures list { IfOk result (λ list. list_of (view object.now) field ≡ map view list.now) }
    ensures within { IfOk result (λ list. (least ≤ length list.now) × (length list.now ≤ most)) }
{
    let list = list(object, field)?;
    if list.len() < least || list.len() > most {
        return Err(PictureFault::Limit(field));
    }
    Ok(list)
}
