// A census as one object.
ghost use Rattle.std.specs.Prelude.{◌≡◌, OnOk, IfOk, codes, flat_map, string_bytes};
ghost use Rattle.std.specs.List.{zip};
ghost use Rattle.json.specs.Tree.{json_tokens};
ghost use Rattle.reh_answer.specs.Objects.{Adds, IsLineOf, member_tokens};
ghost use Rattle.reh_census_json.specs.Objects as model;

use crate::members::{add_flag, add_names, add_rack, add_state};
use json::Writer;
use reh_answer::{
    add_null, add_number, add_text, add_text_or_null, count_entries, count_unknown, text_in,
};
use reh_census::{Bookie, Bookies, Counted, CountedEnsemble, CountedTail};
use reh_census_file::{NameList, NamedCensus};
use std::alloc::{AllocError, Global};

/// Adds what was judged.
fn add_judged(json: &mut Writer<Global>, census: &NamedCensus) -> Result<(), AllocError>
    ensures { OnOk result (Adds (member_tokens (codes "judged") (model.judged_json census.now)) json.old json.new) }
{
    let counted = census.census();
    let judged = counted.judged();
    let entries = counted.entries();
    json.key("judged")?;
    json.begin_object()?;
    add_number(json, "ledgers", judged.ledgers)?;
    add_number(json, "entries", count_entries(entries))?;
    add_number(json, "assumed", judged.assumed)?;
    add_number(json, "unknown", count_unknown(entries))?;
    add_number(json, "unread", judged.unread)?;
    add_number(json, "missing", judged.missing)?;
    add_null(json, "announced")?;
    add_text_or_null(json, "taken", census.taken())?;
    json.end_object()
}

/// Adds a bookie.
fn add_bookie(
    json: &mut Writer<Global>,
    racks: &NameList,
    name: &str,
    bookie: &Bookie,
) -> Result<(), AllocError>
    ensures { OnOk result (Adds (json_tokens (model.bookie_json racks.now name.now bookie.now)) json.old json.new) }
{
    json.begin_object()?;
    add_text(json, "name", name)?;
    add_flag(json, "up", bookie.is_registered)?;
    add_flag(json, "readOnly", bookie.is_read_only)?;
    add_flag(json, "empty", bookie.is_empty)?;
    add_rack(json, racks, bookie.rack)?;
    json.end_object()
}

/// Adds the bookies that have these names.
fn add_each_bookie(
    json: &mut Writer<Global>,
    racks: &NameList,
    names: &NameList,
    bookies: &Bookies,
) -> Result<(), AllocError>
    ensures { OnOk result (Adds (flat_map (λ b. json_tokens (model.named_json racks.now b)) (zip names.now bookies.now))
        json.old json.new) }
{
    let listed = bookies.as_slice();
    for number in 0..listed.len() {
        let Some(name) = names.name(number as u16) else {
            return Ok(());
        };
        add_bookie(json, racks, name, &listed[number])?;
    }
    Ok(())
}

/// Adds the list of the bookies.
fn add_bookies(json: &mut Writer<Global>, census: &NamedCensus) -> Result<(), AllocError>
    ensures { OnOk result (Adds (member_tokens (codes "bookies") (model.bookies_json census.now)) json.old json.new) }
{
    json.key("bookies")?;
    json.begin_array()?;
    add_each_bookie(json, census.racks(), census.names(), census.bookies())?;
    json.end_array()
}

/// Adds a class of entries.
fn add_class(
    json: &mut Writer<Global>,
    names: &NameList,
    counted: &Counted,
) -> Result<(), AllocError>
    ensures { OnOk result (Adds (json_tokens (model.class_json names.now counted.now)) json.old json.new) }
{
    let class = &counted.class;
    json.begin_object()?;
    add_number(json, "count", counted.count)?;
    add_number(json, "writeQuorumSize", class.write_quorum)?;
    add_number(json, "ackQuorumSize", class.ack_quorum)?;
    add_names(json, "known", names, &class.known)?;
    add_names(json, "untold", names, &class.untold)?;
    json.end_object()
}

/// Adds the classes in a list.
fn add_each_class(
    json: &mut Writer<Global>,
    names: &NameList,
    classes: &[Counted],
) -> Result<(), AllocError>
    ensures { OnOk result (Adds (flat_map (λ c. json_tokens (model.class_json names.now c)) classes.now) json.old json.new) }
{
    for counted in classes {
        add_class(json, names, counted)?;
    }
    Ok(())
}

/// Adds the list of classes of entries.
fn add_entries(json: &mut Writer<Global>, census: &NamedCensus) -> Result<(), AllocError>
    ensures { OnOk result (Adds (member_tokens (codes "entries") (model.entries_json census.now)) json.old json.new) }
{
    json.key("entries")?;
    json.begin_array()?;
    add_each_class(json, census.names(), census.census().entries())?;
    json.end_array()
}

/// Adds a tail.
fn add_tail(
    json: &mut Writer<Global>,
    names: &NameList,
    counted: &CountedTail,
) -> Result<(), AllocError>
    ensures { OnOk result (Adds (json_tokens (model.tail_json names.now counted.now)) json.old json.new) }
{
    let tail = &counted.tail;
    json.begin_object()?;
    add_number(json, "count", counted.count)?;
    add_state(json, tail.is_open)?;
    add_number(json, "ensembleSize", tail.size)?;
    add_number(json, "writeQuorumSize", tail.write_quorum)?;
    add_number(json, "ackQuorumSize", tail.ack_quorum)?;
    add_names(json, "ensemble", names, &tail.ensemble)?;
    json.end_object()
}

/// Adds the tails in a list.
fn add_each_tail(
    json: &mut Writer<Global>,
    names: &NameList,
    tails: &[CountedTail],
) -> Result<(), AllocError>
    ensures { OnOk result (Adds (flat_map (λ t. json_tokens (model.tail_json names.now t)) tails.now) json.old json.new) }
{
    for counted in tails {
        add_tail(json, names, counted)?;
    }
    Ok(())
}

/// Adds the list of tails.
fn add_tails(json: &mut Writer<Global>, census: &NamedCensus) -> Result<(), AllocError>
    ensures { OnOk result (Adds (member_tokens (codes "tails") (model.tails_json census.now)) json.old json.new) }
{
    json.key("tails")?;
    json.begin_array()?;
    add_each_tail(json, census.names(), census.census().tails())?;
    json.end_array()
}

/// Adds an ensemble.
fn add_ensemble(
    json: &mut Writer<Global>,
    names: &NameList,
    counted: &CountedEnsemble,
) -> Result<(), AllocError>
    ensures { OnOk result (Adds (json_tokens (model.ensemble_json names.now counted.now)) json.old json.new) }
{
    json.begin_object()?;
    add_number(json, "count", counted.count)?;
    add_names(json, "bookies", names, &counted.members)?;
    json.end_object()
}

/// Adds the ensembles in a list.
fn add_each_ensemble(
    json: &mut Writer<Global>,
    names: &NameList,
    ensembles: &[CountedEnsemble],
) -> Result<(), AllocError>
    ensures { OnOk result (Adds (flat_map (λ e. json_tokens (model.ensemble_json names.now e)) ensembles.now) json.old json.new) }
{
    for counted in ensembles {
        add_ensemble(json, names, counted)?;
    }
    Ok(())
}

/// Adds the list of ensembles.
fn add_ensembles(json: &mut Writer<Global>, census: &NamedCensus) -> Result<(), AllocError>
    ensures { OnOk result (Adds (member_tokens (codes "ensembles") (model.ensembles_json census.now)) json.old json.new) }
{
    json.key("ensembles")?;
    json.begin_array()?;
    add_each_ensemble(json, census.names(), census.census().ensembles())?;
    json.end_array()
}

/// Adds the object.
fn add_all(json: &mut Writer<Global>, census: &NamedCensus) -> Result<(), AllocError>
    ensures { OnOk result (Adds (json_tokens (model.census_value census.now)) json.old json.new) }
{
    json.begin_object()?;
    add_flag(json, "strict", census.is_strict())?;
    add_judged(json, census)?;
    add_bookies(json, census)?;
    add_entries(json, census)?;
    add_tails(json, census)?;
    add_ensembles(json, census)?;
    json.end_object()
}

/// The census as JSON: one object, on one line.
pub fn census_json(alloc: Global, census: &NamedCensus) -> Result<String, AllocError>
    ensures text { IfOk result (λ text. string_bytes text ≡ model.json_of census.now) }
    ensures reads_back { IfOk result (λ text. IsLineOf (model.census_value census.now) (string_bytes text)) }
{
    let mut json = Writer::new(Vec::new(alloc));
    add_all(&mut json, census)?;
    let mut text = text_in(json)?;
    text.push_str("\n")?;
    Ok(text)
}
