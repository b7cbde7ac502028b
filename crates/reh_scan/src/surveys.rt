// What can't be read any more.
ghost use Rattle.std.specs.Prelude.{◌≡◌, ◌+◌, ◌^◌, ◌<◌, ◌≤◌, ◌++◌, length, not, Some, count_by};
ghost use Rattle.std.specs.Prelude.{drop, take, IfOk, OnOk};
ghost use Rattle.std.specs.List.{list_any};
ghost use Rattle.std.specs.Option.{IsSome};
ghost use Rattle.reh_model.specs.Striping as stripe;
ghost use Rattle.reh_model.specs.Striping.{range};
ghost use Rattle.reh_model.specs.Cluster as cluster;
ghost use Rattle.reh_model.specs.Survey as model;
ghost use Rattle.reh_scan.specs.Sources.{is_set_at, sizes_of};

use crate::sources::{Rows, four_masks_of, readable_words, source_rows};
use reh_cluster::{Ledger, State};
use reh_meta::{Fragment, LedgerMeta};
use reh_stripe::{FourMasks, FourWords, wrapped};
use reh_types::{LedgerId, SurveyLine};
use std::alloc::{AllocError, Global};

/// The lines of all fragments, in picture order.
pub fn survey_plain(alloc: Global, state: &State) -> Result<Vec<SurveyLine>, AllocError>
    ensures { IfOk result (λ lines. lines.items ≡ model.survey state.now) }
{
    let mut lines = Vec::new(alloc);
    for ledger in state.ledgers() {
        push_run(
            &mut lines,
            state,
            ledger,
            0,
            ledger.metadata().fragments().len(),
        )?;
    }
    Ok(lines)
}

/// A run of the survey: so many of its lines, or as many as there are, from that one on. Both ends of a run may lie
/// within a ledger.
pub fn survey_run(
    alloc: Global,
    state: &State,
    first: usize,
    count: usize,
) -> Result<Vec<SurveyLine>, AllocError>
    ensures { IfOk result (λ lines. lines.items ≡ take count (drop first (model.survey state.now))) }
{
    let mut lines = Vec::new(alloc);
    let mut before = first;
    let mut wanted = count;
    for ledger in state.ledgers() {
        let there = ledger.metadata().fragments().len();
        let skipped = before.min(there);
        let run = wanted.min(there - skipped);
        push_run(&mut lines, state, ledger, skipped, run)?;
        before -= skipped;
        wanted -= run;
    }
    Ok(lines)
}

/// Puts the lines of so many of the ledger's fragments, from that number on, after the others.
fn push_run(
    lines: &mut Vec<SurveyLine>,
    state: &State,
    ledger: &Ledger,
    first: usize,
    count: usize,
) -> Result<(), AllocError>
    requires { first + count ≤ length ledger.now.metadata.fragments }
    ensures { OnOk result (lines.new.items
        ≡ lines.old.items ++ take count (drop first (model.lines_of state.now ledger.now))) }
{
    if count == 0 {
        return Ok(());
    }
    let metadata = ledger.metadata();
    let fragments = metadata.fragments();
    let masks = four_masks_of(metadata);
    for number in first..first + count {
        lines.push(fragment_line(state, ledger, &masks, number, &fragments[number]))?;
    }
    Ok(())
}

/// The line of the fragment of that number, which has to be in the picture. It takes no memory.
pub fn survey_line(state: &State, ledger: LedgerId, fragment: u64) -> SurveyLine
    requires { IsSome (model.line_at state.now ledger fragment) }
    ensures { model.line_at state.now ledger fragment ≡ Some result }
{
    let found = state.ledger(ledger).unwrap();
    let number = fragment as usize;
    let metadata = found.metadata();
    let masks = four_masks_of(metadata);
    fragment_line(state, found, &masks, number, &metadata.fragments()[number])
}

/// The line of a ledger's fragment, by the masks of its ensembles.
fn fragment_line(
    state: &State,
    ledger: &Ledger,
    masks: &FourMasks,
    number: usize,
    fragment: &Fragment,
) -> SurveyLine
    requires ensemble { length fragment.now.ensemble ≡ ledger.now.metadata.size }
    requires masks { masks.now ≡ sizes_of ledger.now.metadata }
    ensures { result ≡ model.line_of state.now ledger.now number fragment.now }
{
    SurveyLine {
        ledger: ledger.id(),
        fragment: number as u64,
        down: count_down(state, ledger, fragment),
        lost: lost_of(state, ledger, masks, number, fragment),
    }
}

/// How many members of the ledger's fragment aren't registered.
fn count_down(state: &State, ledger: &Ledger, fragment: &Fragment) -> u32
    requires { length fragment.now.ensemble ≡ ledger.now.metadata.size }
    ensures { result ≡ model.down_of state.now fragment.now }
{
    let mut down = 0;
    for index in 0..ledger.metadata().size() as usize {
        if !state.is_up(fragment.ensemble[index]) {
            down += 1;
        }
    }
    down
}

/// How many entries of the ledger's fragment can't be read, if it has a stop.
fn lost_of(
    state: &State,
    ledger: &Ledger,
    masks: &FourMasks,
    number: usize,
    fragment: &Fragment,
) -> Option<u32>
    requires ensemble { length fragment.now.ensemble ≡ ledger.now.metadata.size }
    requires masks { masks.now ≡ sizes_of ledger.now.metadata }
    ensures { result ≡ model.lost_of state.now ledger.now number fragment.now }
{
    let stop = ledger.metadata().end_of(number)?;
    Some(count_lost(state, ledger, masks, fragment, stop))
}

/// How many entries from the fragment's first one up to, not including, the stop can't be read.
fn count_lost(
    state: &State,
    ledger: &Ledger,
    masks: &FourMasks,
    fragment: &Fragment,
    stop: u32,
) -> u32
    requires ensemble { length fragment.now.ensemble ≡ ledger.now.metadata.size }
    requires masks { masks.now ≡ sizes_of ledger.now.metadata }
    ensures { result ≡ count_by
        (λ e. not (cluster.is_readable state.now ledger.now fragment.now e))
        (range fragment.now.first stop) }
{
    if stop <= fragment.first {
        return 0;
    }
    let rows = source_rows(state, ledger, fragment);
    count_lacking(&rows, masks, ledger.metadata(), fragment.first, stop - 1)
}

/// How many entries from the first to the last are in no row at an index of their write sets.
///
/// It goes by words, of 64 entries each and four at a time: the entries that one index carries are a mask of the bits of
/// its row's words.
fn count_lacking(
    rows: &Rows<'_>,
    masks: &FourMasks,
    metadata: &LedgerMeta,
    first: u32,
    last: u32,
) -> u32
    requires masks { masks.now ≡ sizes_of metadata.now }
    requires order { first ≤ last }
    requires last { last + 1 < 2 ^ 32 }
    ensures { result ≡ count_by
        (λ e. not (list_any (is_set_at rows.now e) (stripe.write_set e metadata.now.size metadata.now.write_quorum)))
        (range first (last + 1)) }
{
    let size = metadata.size();
    let mut start = 64 * (first / 64) % size;
    let mut count = 0;
    for four in 0..(last / 64 - first / 64) / 4 + 1 {
        let number = first / 64 + 4 * four;
        let readable = readable_words(rows, masks, metadata, start, number);
        let lacking = FourWords::between(number, first, last).without(&readable);
        count += lacking.count() as usize;
        start = wrapped(start + 256 % size, size);
    }
    count as u32
}
