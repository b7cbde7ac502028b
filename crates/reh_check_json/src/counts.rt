// How much a picture shows, as members of its object.
ghost use Rattle.std.specs.Prelude.{◌≡◌, ◌^◌, ◌-◌, OnOk, codes, min};
ghost use Rattle.reh_answer.specs.Objects.{Adds, member_tokens, number_json};
ghost use Rattle.reh_check_json.specs.Objects as model;

use json::Writer;
use reh_answer::{add_number, add_text};
use reh_picture::Counts;
use reh_types::MAX_WORDS;
use std::alloc::{AllocError, Global};

/// Adds the members that say how many bookies and ledgers there are.
fn add_parts(json: &mut Writer<Global>, counts: &Counts) -> Result<(), AllocError>
    ensures { OnOk result (Adds (model.parts_tokens counts.now) json.old json.new) }
{
    add_text(json, "input", "picture")?;
    add_number(json, "bookies", counts.bookies as u64)?;
    add_number(json, "up", counts.up as u64)?;
    add_number(json, "ledgers", counts.ledgers as u64)?;
    add_number(json, "open", counts.open as u64)?;
    add_number(json, "inRecovery", counts.in_recovery as u64)?;
    add_number(json, "closed", counts.closed as u64)
}

/// Adds how many entries bookies hold.
fn add_entries(json: &mut Writer<Global>, entries: u128) -> Result<(), AllocError>
    ensures { OnOk result (Adds (member_tokens (codes "entries") (number_json (min entries (2 ^ 64 - 1)))) json.old json.new) }
{
    add_number(json, "entries", entries.min(u64::MAX as u128) as u64)
}

/// Adds the members that say how many fragments, entries and words there are.
fn add_sizes(json: &mut Writer<Global>, counts: &Counts) -> Result<(), AllocError>
    ensures { OnOk result (Adds (model.sizes_tokens counts.now) json.old json.new) }
{
    add_number(json, "fragments", counts.fragments as u64)?;
    add_entries(json, counts.entries)?;
    add_number(json, "words", counts.words)?;
    add_number(json, "maxWords", MAX_WORDS)
}

/// Adds the members that say how much a picture shows.
pub(crate) fn add_counts(json: &mut Writer<Global>, counts: &Counts) -> Result<(), AllocError>
    ensures { OnOk result (Adds (model.counts_tokens counts.now) json.old json.new) }
{
    add_parts(json, counts)?;
    add_sizes(json, counts)
}
