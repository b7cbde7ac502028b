// The ranges of entries that a row of words has.
ghost use Rattle.std.specs.Prelude.{◌≡◌, ℕ, ◌+◌, ◌<◌, ◌≤◌, ◌&&◌, ◌||◌, false, nat_eq, nat_lt, IfOk, IsTrue, EachIndex, slice_index};
ghost use Rattle.std.specs.Option.{ForSome};
ghost use Rattle.reh_types.specs.declared.limits.TheConstants.{ENTRY_END};
ghost use Rattle.reh_held.specs.Rows as rows;
ghost use Rattle.reh_picture_out.specs.Ranges.{is_in, is_passed};

use reh_held::is_set;
use std::alloc::{AllocError, Global};

/// The ranges of the entries below an end that a row has, rising, each as long as it can be: the first and the last
/// entry of each.
pub(crate) fn ranges_of(
    alloc: Global,
    words: &[u64],
    end: u32,
) -> Result<Vec<(u32, u32)>, AllocError>
    requires { end ≤ ENTRY_END }
    ensures { IfOk result
        (λ ranges. (e : ℕ) → is_in ranges.items e ≡ (nat_lt e end && rows.is_set words.now e)) }
{
    let mut ranges = Vec::new(alloc);
    if is_clear(words) {
        return Ok(ranges);
    }
    let mut first = None;
    for entry in 0..end {
        first = pass(&mut ranges, first, entry, is_set(words, entry))?;
    }
    pass(&mut ranges, first, end, false)?;
    Ok(ranges)
}

/// Whether no word has a bit that is set.
pub fn is_clear(words: &[u64]) -> bool
    ensures { IsTrue result → EachIndex words.now (λ k. slice_index words.now k ≡ 0) }
{
    for word in words {
        if *word != 0 {
            return false;
        }
    }
    true
}

/// Passes an entry, which is in the row or isn't: adds the range that is open, if it ends before the entry, and gives
/// the first entry of the one that is open then.
fn pass(
    ranges: &mut Vec<(u32, u32)>,
    first: Option<u32>,
    entry: u32,
    is_there: bool,
) -> Result<Option<u32>, AllocError>
    requires { ForSome first (λ first. first < entry) }
    ensures begun { IfOk result (λ next. ForSome next (λ next. next < entry + 1)) }
    ensures passed { IfOk result (λ next. (e : ℕ) → is_passed ranges.new.items next (entry + 1) e
        ≡ (is_passed ranges.old.items first entry e || (is_there && nat_eq e entry))) }
    ensures closed { IfOk result (λ next. (e : ℕ) → is_there ≡ false
        → is_in ranges.new.items e ≡ is_passed ranges.old.items first entry e) }
{
    match (first, is_there) {
        (Some(first), true) => Ok(Some(first)),
        (Some(first), false) => {
            ranges.push((first, entry - 1))?;
            Ok(None)
        }
        (None, true) => Ok(Some(entry)),
        (None, false) => Ok(None),
    }
}
