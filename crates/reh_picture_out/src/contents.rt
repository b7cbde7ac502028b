// What the bookies of a picture hold, as JSON.
ghost use Rattle.std.specs.Prelude.{◌≡◌, ℕ, ◌*◌, ◌<◌, ◌≤◌, ◌&&◌, nat_eq, nat_lt, map, length, IfOk, OnOk};
ghost use Rattle.serde_json.specs.View.{view};
ghost use Rattle.reh_types.specs.declared.limits.TheConstants.{ENTRIES_IN_WORD, ENTRY_END};
ghost use Rattle.reh_model.specs.Contents.{has};
ghost use Rattle.reh_picture_out.specs.Holdings.{Adds, LiesWithin};
ghost use Rattle.reh_picture_out.specs.Marks.{has_assumed};
ghost use Rattle.reh_picture_out.specs.Ranges.{is_in};
ghost use Rattle.reh_picture_out.specs.Written.{range_data, content_data, AreContents};

use crate::bookies::name_of;
use crate::ranges::ranges_of;
use crate::told::{is_assumed, lacks_content};
use reh_cluster::{Ledger, State};
use reh_picture::{Holding, PictureFault};
use reh_types::{BookieIx, ENTRIES_IN_WORD, LedgerId, MAX_PICTURE_BYTES};
use serde_json::{Value, json};
use std::alloc::{AllocError, Global};

/// More ranges than this take more bytes than a picture may have: each takes 6 at least, as in `[0,0],`.
const MAX_RANGES: usize = MAX_PICTURE_BYTES / 6;

/// A range of entries.
fn range_value(alloc: Global, range: (u32, u32)) -> Result<Value, AllocError>
    ensures { IfOk result (λ v. view v ≡ range_data range) }
{
    json!(in alloc; [range.0, range.1])
}

/// Ranges of entries.
fn range_values(alloc: Global, ranges: &[(u32, u32)]) -> Result<Vec<Value>, AllocError>
    ensures { IfOk result (λ values. map view values.items ≡ map range_data ranges.now) }
{
    let mut values = Vec::new(alloc);
    for range in ranges {
        values.push(range_value(alloc, *range)?)?;
    }
    Ok(values)
}

/// What a bookie holds of a ledger.
fn content_value(
    alloc: Global,
    assumed: bool,
    name: &str,
    ledger: LedgerId,
    ranges: &[(u32, u32)],
) -> Result<Value, AllocError>
    ensures { IfOk result (λ v. view v ≡ content_data assumed name.now ledger ranges.now) }
{
    let ranges = range_values(alloc, ranges)?;
    json!(in alloc; {"entries": ranges, "bookie": name, "ledger": ledger.0, "assumed": assumed})
}

/// The ranges of the entries of a ledger that a bookie holds.
fn held_ranges(
    alloc: Global,
    state: &State,
    bookie: BookieIx,
    ledger: &Ledger,
) -> Result<Vec<(u32, u32)>, AllocError>
    requires end { ENTRIES_IN_WORD * ledger.now.words ≤ ENTRY_END }
    requires within { LiesWithin state.now.parts.held ledger.now }
    ensures { IfOk result (λ ranges. (e : ℕ)
        → is_in ranges.items e ≡ has state.now.parts.held bookie ledger.now.id e) }
{
    let end = ENTRIES_IN_WORD as u32 * ledger.words() as u32;
    ranges_of(alloc, state.row(bookie, ledger.id()), end)
}

/// Adds what a bookie holds of a ledger, if it holds an entry of it or it was told what it holds, and gives how many
/// ranges that are.
fn push_content(
    alloc: Global,
    state: &State,
    told: &[Holding],
    assumed: bool,
    bookie: BookieIx,
    ledger: &Ledger,
    contents: &mut Vec<Value>,
) -> Result<usize, AllocError>
    requires bookie { bookie < length state.now.names }
    requires end { ENTRIES_IN_WORD * ledger.now.words ≤ ENTRY_END }
    requires within { LiesWithin state.now.parts.held ledger.now }
    requires assumed { assumed ≡ has_assumed told.now ledger.now.id }
    ensures { OnOk result (Adds state.now.names state.now.parts.held told.now
        (λ b l. nat_eq b bookie && nat_eq ledger.now.id l) (map view contents.old.items) (map view contents.new.items)) }
{
    let held = held_ranges(alloc, state, bookie, ledger)?;
    let ranges = held.as_slice();
    if lacks_content(told, bookie, ledger.id(), ranges) {
        return Ok(0);
    }
    let names = state.names();
    let name = name_of(names, bookie);
    let content = content_value(alloc, assumed, name, ledger.id(), ranges)?;
    contents.push(content)?;
    Ok(ranges.len())
}

/// Adds what all bookies hold of a ledger, and gives how many ranges there is room for then.
fn push_contents(
    alloc: Global,
    state: &State,
    told: &[Holding],
    ledger: &Ledger,
    contents: &mut Vec<Value>,
    room: usize,
) -> Result<usize, PictureFault>
    requires end { ENTRIES_IN_WORD * ledger.now.words ≤ ENTRY_END }
    requires within { LiesWithin state.now.parts.held ledger.now }
    ensures { OnOk result (Adds state.now.names state.now.parts.held told.now
        (λ b l. nat_lt b (length state.now.names) && nat_eq ledger.now.id l)
        (map view contents.old.items) (map view contents.new.items)) }
{
    let assumed = is_assumed(told, ledger.id());
    let mut room = room;
    for bookie in 0..state.names().len() {
        let bookie = BookieIx(bookie as u8);
        let ranges = push_content(alloc, state, told, assumed, bookie, ledger, contents)?;
        if ranges > room {
            return Err(PictureFault::TooLong);
        }
        room -= ranges;
    }
    Ok(room)
}

/// What the bookies hold, after a picture that told these holdings. A bookie that holds no entry of a ledger has a content
/// for it only where that picture had one.
pub(crate) fn content_values(
    alloc: Global,
    state: &State,
    told: &[Holding],
) -> Result<Vec<Value>, PictureFault>
    ensures { IfOk result
        (λ values. AreContents state.now told.now (map view values.items)) }
{
    let mut contents = Vec::new(alloc);
    let mut room = MAX_RANGES;
    for ledger in state.ledgers() {
        room = push_contents(alloc, state, told, ledger, &mut contents, room)?;
    }
    Ok(contents)
}
