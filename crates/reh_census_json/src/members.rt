// Members of a census's object.
ghost use Rattle.std.specs.Prelude.{◌≡◌, OnOk, codes, flat_map};
ghost use Rattle.json.specs.Json.{boolean, string};
ghost use Rattle.json.specs.Tree.{json_tokens};
ghost use Rattle.reh_answer.specs.Objects.{Adds, member_tokens};
ghost use Rattle.reh_census_file.specs.Texts as texts;
ghost use Rattle.reh_census_json.specs.Objects as model;

use json::Writer;
use reh_answer::{add_null, add_text};
use reh_census::Names;
use reh_census_file::NameList;
use std::alloc::{AllocError, Global};

/// The name of this number, or an empty one where no name has it.
fn name_of(names: &NameList, number: u16) -> &str
    ensures { result.now ≡ texts.name_of names.now number }
{
    match names.name(number) {
        Some(name) => name,
        None => "",
    }
}

/// Adds under a name whether something is so.
pub(crate) fn add_flag(json: &mut Writer<Global>, name: &str, is: bool) -> Result<(), AllocError>
    ensures { OnOk result (Adds (member_tokens name.now (boolean is)) json.old json.new) }
{
    json.key(name)?;
    json.boolean(is)
}

/// Adds the name of a rack, if it is known, or null.
pub(crate) fn add_rack(
    json: &mut Writer<Global>,
    racks: &NameList,
    rack: Option<u16>,
) -> Result<(), AllocError>
    ensures { OnOk result (Adds (member_tokens (codes "rack") (model.rack_json racks.now rack)) json.old json.new) }
{
    match rack {
        Some(number) => add_text(json, "rack", name_of(racks, number)),
        None => add_null(json, "rack"),
    }
}

/// Adds a ledger's state, of one that isn't closed.
pub(crate) fn add_state(json: &mut Writer<Global>, is_open: bool) -> Result<(), AllocError>
    ensures { OnOk result (Adds (member_tokens (codes "state") (string (model.state_word is_open))) json.old json.new) }
{
    if is_open {
        add_text(json, "state", "OPEN")
    } else {
        add_text(json, "state", "IN_RECOVERY")
    }
}

/// Adds the names of these numbers.
fn add_each(json: &mut Writer<Global>, names: &NameList, numbers: &[u16]) -> Result<(), AllocError>
    ensures { OnOk result (Adds (flat_map (λ n. json_tokens (model.name_json names.now n)) numbers.now) json.old json.new) }
{
    for number in numbers {
        json.string(name_of(names, *number))?;
    }
    Ok(())
}

/// Adds under a name the list of the names of these numbers.
pub(crate) fn add_names(
    json: &mut Writer<Global>,
    name: &str,
    names: &NameList,
    numbers: &Names,
) -> Result<(), AllocError>
    ensures { OnOk result (Adds (member_tokens name.now (model.names_json names.now numbers.now)) json.old json.new) }
{
    json.key(name)?;
    json.begin_array()?;
    add_each(json, names, numbers.as_slice())?;
    json.end_array()
}
