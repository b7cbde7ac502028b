// What changed in what a bookie holds of 64 entries of a ledger.
ghost use Rattle.std.specs.Prelude.{◌≡◌, ◌<◌, ◌++◌, OnOk, codes, slice_index};
ghost use Rattle.json.specs.Tree.{json_tokens};
ghost use Rattle.reh_model.specs.Cluster.{words_among};
ghost use Rattle.reh_answer.specs.Objects.{Adds, member_tokens};
ghost use Rattle.reh_run_json.specs.Changes as changes;

use crate::metadata::begin_change;
use crate::ranges::add_ranges;
use crate::values::{add_id, add_named};
use json::Writer;
use reh_cluster::{Names, State};
use reh_types::{BookieIx, LedgerId};
use std::alloc::{AllocError, Global};

/// Adds the change of a word: the entries that the bookie holds now and did not, and those that it held and doesn't now.
pub(crate) fn add_word(
    json: &mut Writer<Global>,
    state: &State,
    bookie: BookieIx,
    ledger: LedgerId,
    number: usize,
    bits: u64,
) -> Result<(), AllocError>
    requires { number < words_among state.now.parts.ledgers ledger }
    ensures { OnOk result (Adds (json_tokens (changes.entries_change state.now.names bookie ledger
        (changes.gained_json state.now bookie ledger number bits)
        (changes.gone_json state.now bookie ledger number bits))) json.old json.new) }
{
    begin_entries(json, state.names(), bookie, ledger)?;
    add_turned(json, state, bookie, ledger, number, bits)?;
    json.end_object()
}

/// Begins the object of such a change with its bookie and ledger.
fn begin_entries(
    json: &mut Writer<Global>,
    names: &Names,
    bookie: BookieIx,
    ledger: LedgerId,
) -> Result<(), AllocError>
    ensures { OnOk result (Adds (changes.entries_begun names.now bookie ledger) json.old json.new) }
{
    begin_change(json, "entries")?;
    add_named(json, "bookie", names, bookie)?;
    add_id(json, "ledger", ledger)
}

/// Adds the ranges of those entries that the bookie holds now, and of those that it held.
fn add_turned(
    json: &mut Writer<Global>,
    state: &State,
    bookie: BookieIx,
    ledger: LedgerId,
    number: usize,
    bits: u64,
) -> Result<(), AllocError>
    requires { number < words_among state.now.parts.ledgers ledger }
    ensures { OnOk result (Adds (member_tokens (codes "gained") (changes.gained_json state.now bookie ledger number bits)
        ++ member_tokens (codes "gone") (changes.gone_json state.now bookie ledger number bits)) json.old json.new) }
{
    state.assert_well_formed();
    let held = word_at(state.row(bookie, ledger), number);
    json.key("gained")?;
    add_ranges(json, number, bits & held)?;
    json.key("gone")?;
    add_ranges(json, number, bits & !held)
}

/// The word of that number, 0 past the last one.
fn word_at(words: &[u64], number: usize) -> u64
    ensures { result ≡ slice_index words.now number }
{
    match words.get(number) {
        Some(word) => *word,
        None => 0,
    }
}
