// The text of a picture.
ghost use Rattle.std.specs.Prelude.{◌≡◌, None, Ok, map, string_bytes, IfOk, OnOk};
ghost use Rattle.serde_json.specs.View.{view};
ghost use Rattle.reh_picture.specs.Listings.{located_listing};
ghost use Rattle.reh_picture.specs.Pictures.{picture_of};
ghost use Rattle.reh_picture_out.specs.Kept.{kept_of};
ghost use Rattle.reh_picture_out.specs.Marks.{KeepsMarksIn};
ghost use Rattle.reh_picture_out.specs.Written.{first_data, delayed_data, written_data, IsPicture};

use crate::bookies::bookie_values;
use crate::contents::content_values;
use crate::ledgers::ledger_values;
use reh_cluster::State;
use reh_picture::{Listed, PictureFault, list_picture};
use serde_json::{Map, Value, put};
use std::alloc::{AllocError, Global};

/// The text of a picture that shows the state, as far as a picture can: `kept_of` says what is kept. It has format 1,
/// or format 2 where there is a delay for lost bookies. The marks are those of the picture that the rehearsal began with,
/// as far as they stay: `KeepsMarks` says which.
///
/// The text is read back before it is given out, so what no picture can hold is refused with the fault that reading
/// finds, `TooLong`, more than 8,388,608 bytes. `NoMemory` comes only where a growth was refused. What a picture has no
/// field for is left out: `Unshown` says what that is.
pub fn picture_text(alloc: Global, state: &State, began: &Listed) -> Result<String, PictureFault>
    ensures state { IfOk result (λ text. picture_of (string_bytes text) ≡ Ok (kept_of state.now)) }
    ensures marks { IfOk result (λ text. KeepsMarksIn state.now began.now (string_bytes text)) }
    ensures listed { IfOk result (λ text. located_listing (string_bytes text) ≡ None) }
{
    state.assert_well_formed();
    let value = picture_value(alloc, state, began)?;
    let text = value.to_string(alloc)?;
    drop(value);
    check_listed(alloc, text.as_bytes())?;
    Ok(text)
}

/// Reads bytes as a picture, and gives the fault that this finds.
fn check_listed(alloc: Global, bytes: &[u8]) -> Result<(), PictureFault>
    ensures { OnOk result (located_listing bytes.now ≡ None) }
{
    match list_picture(alloc, bytes) {
        Ok(_) => Ok(()),
        Err(located) => Err(located.fault),
    }
}

/// The picture as JSON.
fn picture_value(alloc: Global, state: &State, began: &Listed) -> Result<Value, PictureFault>
    ensures { IfOk result (λ v. IsPicture state.now began.now.marks.items began.now.listing.holdings.items (view v)) }
{
    let marks = began.marks.as_slice();
    let bookies = bookie_values(alloc, state, marks)?;
    let ledgers = ledger_values(alloc, state.names(), state.ledgers())?;
    let told = began.listing.holdings.as_slice();
    let contents = content_values(alloc, state, told)?;
    let value = written_value(
        alloc,
        state.delay(),
        state.grace(),
        bookies,
        ledgers,
        contents,
    )?;
    Ok(value)
}

/// The picture of these parts.
fn written_value(
    alloc: Global,
    delay: u64,
    grace: u64,
    bookies: Vec<Value>,
    ledgers: Vec<Value>,
    contents: Vec<Value>,
) -> Result<Value, AllocError>
    ensures { IfOk result (λ v. view v ≡ written_data delay grace
        (map view bookies.items) (map view ledgers.items) (map view contents.items)) }
{
    let mut fields = Map::new(alloc);
    put(&mut fields, alloc, "bookies", Value::Array(bookies))?;
    put(&mut fields, alloc, "ledgers", Value::Array(ledgers))?;
    put(&mut fields, alloc, "contents", Value::Array(contents))?;
    put(&mut fields, alloc, "grace", Value::from(grace))?;
    if delay == 0 {
        put(&mut fields, alloc, "format", Value::from(1u64))?;
        return Ok(Value::Object(fields));
    }
    put(&mut fields, alloc, "format", Value::from(2u64))?;
    put(&mut fields, alloc, "lostDelayTicks", Value::from(delay))?;
    Ok(Value::Object(fields))
}
