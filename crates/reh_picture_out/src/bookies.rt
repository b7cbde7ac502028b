// The bookies of a picture, as JSON.
ghost use Rattle.std.specs.Prelude.{◌≡◌, ◌&&◌, nat_eq, map, IfOk};
ghost use Rattle.serde_json.specs.View.{view};
ghost use Rattle.std.specs.Option.{option_map};
ghost use Rattle.reh_picture_out.specs.Written.{name_at, bookie_data, bookie_data_at, bookies_data};

use reh_cluster::{Names, State};
use reh_picture::BookieMarks;
use reh_types::BookieIx;
use serde_json::{Map, Value, put};
use std::alloc::{AllocError, Global};

/// The name of a bookie, no letter where there is no such bookie.
pub(crate) fn name_of(names: &Names, bookie: BookieIx) -> &str
    ensures { result.now ≡ name_at names.now bookie }
{
    match names.name(bookie) {
        Some(name) => name,
        None => "",
    }
}

/// A bookie with these marks.
fn marked_value(
    alloc: Global,
    name: &str,
    up: bool,
    is_read_only: bool,
    is_empty: bool,
    rack: Option<&str>,
) -> Result<Value, AllocError>
    ensures { IfOk result (λ v. view v ≡ bookie_data name.now up (record {
      is_read_only = is_read_only;
      is_empty = is_empty;
      rack = option_map (λ rack. rack.now) rack.entry;
    })) }
{
    let mut fields = Map::new(alloc);
    put(
        &mut fields,
        alloc,
        "name",
        Value::try_from_str(alloc, name)?,
    )?;
    put(&mut fields, alloc, "up", Value::from(up))?;
    put(&mut fields, alloc, "readOnly", Value::from(is_read_only))?;
    put(&mut fields, alloc, "empty", Value::from(is_empty))?;
    let Some(rack) = rack else {
        return Ok(Value::Object(fields));
    };
    put(
        &mut fields,
        alloc,
        "rack",
        Value::try_from_str(alloc, rack)?,
    )?;
    Ok(Value::Object(fields))
}

/// Whether a bookie that came back without its disk, or not, is marked so once it holds so many entries.
fn stays_empty(marks: &BookieMarks, count: usize) -> bool
    ensures { result ≡ (marks.now.is_empty && nat_eq count 0) }
{
    marks.is_empty() && count == 0
}

/// The bookie of this number, with the marks that stay.
fn bookie_value_at(
    alloc: Global,
    state: &State,
    marks: &[BookieMarks],
    bookie: BookieIx,
) -> Result<Value, AllocError>
    ensures { IfOk result (λ v. view v ≡ bookie_data_at state.now marks.now bookie) }
{
    let names = state.names();
    let name = name_of(names, bookie);
    let up = state.is_up(bookie);
    let count = state.count(bookie);
    match marks.get(bookie.0 as usize) {
        Some(marks) => {
            let is_empty = stays_empty(marks, count);
            marked_value(
                alloc,
                name,
                up,
                marks.is_read_only(),
                is_empty,
                marks.rack(),
            )
        }
        None => marked_value(alloc, name, up, false, false, None),
    }
}

/// The bookies.
pub(crate) fn bookie_values(
    alloc: Global,
    state: &State,
    marks: &[BookieMarks],
) -> Result<Vec<Value>, AllocError>
    ensures { IfOk result (λ values. map view values.items ≡ bookies_data state.now marks.now) }
{
    let mut values = Vec::new(alloc);
    for bookie in 0..state.names().len() {
        values.push(bookie_value_at(alloc, state, marks, BookieIx(bookie as u8))?)?;
    }
    Ok(values)
}
