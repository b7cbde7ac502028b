// The ranges of the entries of a word.
ghost use Rattle.std.specs.Prelude.{◌≡◌, ◌+◌, ◌*◌, ◌<◌, ◌==◌, IfOk, OnOk, map};
ghost use Rattle.std.specs.Option.{ForSome};
ghost use Rattle.std.specs.Int.{bit_at};
ghost use Rattle.json.specs.Tree.{json_tokens};
ghost use Rattle.reh_types.specs.declared.limits.TheConstants.{ENTRY_END};
ghost use Rattle.reh_model.specs.Contents.{is_in_word};
ghost use Rattle.reh_answer.specs.Objects.{Adds, list_json};
ghost use Rattle.reh_changes.specs.Passing.{ended, open_after};
ghost use Rattle.reh_changes.specs.Ranges.{ranges_in};
ghost use Rattle.reh_run_json.specs.Values.{range_json, tokens_of};

use crate::values::add_range;
use json::Writer;
use std::alloc::{AllocError, Global};

/// Adds the list of the ranges of the entries whose bits are set in the word of that number.
pub(crate) fn add_ranges(
    json: &mut Writer<Global>,
    number: usize,
    bits: u64,
) -> Result<(), AllocError>
    requires { 64 * number < ENTRY_END }
    ensures { OnOk result (Adds (json_tokens (list_json (map range_json (ranges_in number (is_in_word number bits)))))
        json.old json.new) }
{
    json.begin_array()?;
    add_each_range(json, number, bits)?;
    json.end_array()
}

/// Adds the ranges of those entries.
fn add_each_range(json: &mut Writer<Global>, number: usize, bits: u64) -> Result<(), AllocError>
    requires { 64 * number < ENTRY_END }
    ensures { OnOk result (Adds (tokens_of (map range_json (ranges_in number (is_in_word number bits))))
        json.old json.new) }
{
    let begin = (64 * number) as u32;
    let mut since = None;
    for i in 0..64 {
        since = pass(json, since, begin + i, is_bit_set(bits, i))?;
    }
    pass(json, since, begin + 64, false)?;
    Ok(())
}

/// Whether the bit is set.
fn is_bit_set(bits: u64, i: u32) -> bool
    requires { i < 64 }
    ensures { result ≡ (bit_at bits i == 1) }
{
    (bits >> i) & 1 == 1
}

/// Passes an entry, which is there or isn't. Before it a range may be open, since its first entry; the range is added if
/// it ends there. Gives the first entry of the range that is open after the entry, if one is.
fn pass(
    json: &mut Writer<Global>,
    since: Option<u32>,
    entry: u32,
    is_there: bool,
) -> Result<Option<u32>, AllocError>
    requires { ForSome since (λ first. first < entry) }
    ensures begun { IfOk result (λ next. ForSome next (λ next. next < entry + 1)) }
    ensures next { IfOk result (λ next. next ≡ open_after since entry is_there) }
    ensures added { OnOk result (Adds (tokens_of (map range_json (ended since entry is_there))) json.old json.new) }
{
    match (since, is_there) {
        (Some(first), true) => Ok(Some(first)),
        (Some(first), false) => {
            add_range(json, first, entry - 1)?;
            Ok(None)
        }
        (None, true) => Ok(Some(entry)),
        (None, false) => Ok(None),
    }
}
