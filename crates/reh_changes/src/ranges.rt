// The ranges of the entries of a word.
ghost use Rattle.std.specs.Prelude.{◌≡◌, ℕ, ◌+◌, ◌*◌, ◌<◌, ◌≤◌, ◌++◌, ◌∷◌, [], ◌==◌, false, IfOk, OnOk, string_bytes, codes};
ghost use Rattle.std.specs.Option.{ForSome};
ghost use Rattle.std.specs.Int.{bit_at};
ghost use Rattle.reh_types.specs.declared.limits.TheConstants.{ENTRY_END};
ghost use Rattle.reh_model.specs.Contents.{is_in_word};
ghost use Rattle.reh_commands.specs.Texts.{behind_spaces};
ghost use Rattle.reh_changes.specs.Ranges.{range_word, range_words, ranges_in};
ghost use Rattle.reh_changes.specs.Passing.{ended, open_after};

use std::alloc::AllocError;

/// Adds the ranges of the entries whose bits are set in the word of that number, each after a space and the sign.
pub(crate) fn push_ranges(
    text: &mut String,
    sign: &str,
    number: usize,
    bits: u64,
) -> Result<(), AllocError>
    requires { 64 * number < ENTRY_END }
    ensures { OnOk result (string_bytes text.new ≡ string_bytes text.old
        ++ behind_spaces (range_words sign.now (ranges_in number (is_in_word number bits)))) }
{
    let begin = (64 * number) as u32;
    let mut since = None;
    for i in 0..64 {
        since = pass(text, sign, since, begin + i, is_bit_set(bits, i))?;
    }
    pass(text, sign, since, begin + 64, false)?;
    Ok(())
}

/// Whether the bit is set.
fn is_bit_set(bits: u64, i: u32) -> bool
    requires { i < 64 }
    ensures { result ≡ (bit_at bits i == 1) }
{
    (bits >> i) & 1 == 1
}

/// Passes an entry, which is there or isn't, where a range is open since its first entry, if one is: adds the range, if
/// it ends before the entry, and gives the first entry of the one that is open then.
fn pass(
    text: &mut String,
    sign: &str,
    since: Option<u32>,
    entry: u32,
    is_there: bool,
) -> Result<Option<u32>, AllocError>
    requires { ForSome since (λ first. first < entry) }
    ensures begun { IfOk result (λ next. ForSome next (λ next. next < entry + 1)) }
    ensures next { IfOk result (λ next. next ≡ open_after since entry is_there) }
    ensures text { OnOk result (string_bytes text.new ≡ string_bytes text.old
        ++ behind_spaces (range_words sign.now (ended since entry is_there))) }
{
    match (since, is_there) {
        (Some(first), true) => Ok(Some(first)),
        (Some(first), false) => {
            push_range(text, sign, first, entry - 1)?;
            Ok(None)
        }
        (None, true) => Ok(Some(entry)),
        (None, false) => Ok(None),
    }
}

/// Adds a range after a space and the sign.
fn push_range(text: &mut String, sign: &str, first: u32, last: u32) -> Result<(), AllocError>
    ensures { OnOk result (string_bytes text.new ≡ string_bytes text.old
        ++ (codes " " ++ range_word sign.now (first, last))) }
{
    if first == last {
        write!(text, " {sign}{first}")
    } else {
        write!(text, " {sign}{first}-{last}")
    }
}
