// What a bookie holds of 64 entries of a ledger.
ghost use Rattle.std.specs.Prelude.{◌≡◌, ◌<◌, ◌++◌, OnOk, string_bytes, slice_index};
ghost use Rattle.reh_model.specs.Cluster.{words_among};
ghost use Rattle.reh_commands.specs.Texts.{behind_spaces};
ghost use Rattle.reh_changes.specs.Changes as changes;

use crate::ranges::push_ranges;
use reh_cluster::State;
use reh_commands::push_name;
use reh_types::{BookieIx, LedgerId};
use std::alloc::AllocError;

/// Adds the line of a word: which of the entries whose bits have turned the bookie holds now, and which it held.
pub(crate) fn push_word(
    text: &mut String,
    state: &State,
    bookie: BookieIx,
    ledger: LedgerId,
    number: usize,
    bits: u64,
) -> Result<(), AllocError>
    requires { number < words_among state.now.parts.ledgers ledger }
    ensures { OnOk result (string_bytes text.new ≡ string_bytes text.old
        ++ changes.word_line state.now bookie ledger number bits) }
{
    text.push_str("  bookie")?;
    push_name(text, state.names(), bookie)?;
    write!(text, " ledger {}", ledger.0)?;
    push_turned(text, state, bookie, ledger, number, bits)?;
    text.push('\n')
}

/// Adds the ranges of those entries that the bookie holds now, and of those that it held, each after a space.
fn push_turned(
    text: &mut String,
    state: &State,
    bookie: BookieIx,
    ledger: LedgerId,
    number: usize,
    bits: u64,
) -> Result<(), AllocError>
    requires { number < words_among state.now.parts.ledgers ledger }
    ensures { OnOk result (string_bytes text.new ≡ string_bytes text.old
        ++ behind_spaces (changes.turned_words state.now bookie ledger number bits)) }
{
    state.assert_well_formed();
    let held = word_at(state.row(bookie, ledger), number);
    push_ranges(text, "+", number, bits & held)?;
    push_ranges(text, "-", number, bits & !held)?;
    Ok(())
}

/// The word of that number, 0 past the last one.
fn word_at(words: &[u64], number: usize) -> u64
    ensures { result ≡ slice_index words.now number }
{
    match words.get(number) {
        Some(word) => *word,
        None => 0,
    }
}
