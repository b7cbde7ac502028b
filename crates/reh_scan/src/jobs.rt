// Scans, apart from the state that they read.
ghost use Rattle.std.specs.Prelude.{◌≡◌, ℕ, ◌*◌, ◌/◌, ◌-◌, ◌^◌, ◌<◌, ◌≤◌, ◌++◌, [], length, map, All, None, Some, IfOk, OnOk};
ghost use Rattle.std.specs.Prelude.{slice_index, slice_index_or};
ghost use Rattle.std.specs.List.{find};
ghost use Rattle.std.specs.Option.{option_map};
ghost use Rattle.reh_types.specs.declared.limits.TheConstants.{MAX_ENSEMBLE_SIZE};
ghost use Rattle.reh_held.specs.Rows.{is_set};
ghost use Rattle.reh_model.specs.Scan.{aim_refusal, scan};
ghost use Rattle.reh_model.specs.Striping.{striped_entries};
ghost use Rattle.reh_stripe.specs.Words.{entries_in, has_bit};
ghost use Rattle.reh_scan.specs.Jobs.{AreCopies, IsReadingOf, IsReading, source_in};
ghost use Rattle.reh_scan.specs.Sources.{is_set_at};

use crate::blocks::{MOST_ENTRIES, block_end, repeats};
use crate::sources::{Rows, source_row};
use reh_cluster::{Ledger, State};
use reh_meta::Fragment;
use reh_stripe::{Round, Striped, Word, WordEntries, word_at};
use reh_types::{Aim, BookieIx, Content, MAX_ENSEMBLE_SIZE, Members, Sources};
use std::alloc::{AllocError, Global};
use std::marker::Model;

/// What a worker needs to scan the fragment of an aim: the metadata as it was read, and what the registered members of
/// the ensemble held of the fragment. The search for sources is left to `look`, which needs no state.
///
/// Contracts see the content that a look at the job finds.
#[derive(Drop)]
pub struct Job {
    aim: Aim,
    version: u64,
    reading: Reading,
}

impl Model for Job {
    ghost use Rattle.reh_types.specs.declared.contents.Content.{Content};

    ghost Value = { Content };

    ghost use Rattle.reh_scan.specs.Jobs.{content_in, IsJob};

    ghost view = { content_in };

    ghost invariant = { IsJob };
}

/// What was read of a fragment.
#[derive(Drop)]
struct Reading {
    first: u32,
    stop: u32,
    /// The ensemble size.
    size: u32,
    write_quorum: u32,
    ensemble: Members,
    /// The words that each member holds of the fragment, from that of the first entry on, by the members' indexes; none
    /// of one that isn't registered.
    rows: Vec<Words>,
}

/// Words of a row; contracts see the list.
#[derive(Drop)]
struct Words {
    items: Vec<u64>,
}

impl Model for Words {
    ghost use Rattle.std.specs.Prelude.{List, ℕ};

    ghost Value = { List ℕ };

    ghost view = { λ w. w.items.items };
}

impl Job {
    /// The job of an aim, as the state stands.
    pub fn of(alloc: Global, state: &State, aim: &Aim) -> Result<Job, AllocError>
        requires { aim_refusal state.now aim.now ≡ None }
        ensures { IfOk result (λ job. scan state.now aim.now ≡ Some job) }
    {
        let Some(ledger) = state.ledger(aim.ledger) else {
            unreachable!()
        };
        let metadata = ledger.metadata();
        let Some(fragment) = metadata.fragments().get(aim.fragment as usize) else {
            unreachable!()
        };
        let Some(stop) = metadata.end_of(aim.fragment as usize) else {
            unreachable!()
        };
        let reading = read(alloc, state, ledger, fragment, stop)?;
        Ok(Job {
            aim: *aim,
            version: metadata.version(),
            reading,
        })
    }

    /// The aim of the job.
    pub fn aim(&self) -> Aim
        ensures { result ≡ self.now.aim }
    {
        self.aim
    }
}

/// Reads a fragment that ends at the stop.
fn read(
    alloc: Global,
    state: &State,
    ledger: &Ledger,
    fragment: &Fragment,
    stop: u32,
) -> Result<Reading, AllocError>
    requires { length fragment.now.ensemble ≡ ledger.now.metadata.size }
    ensures { IfOk result (IsReadingOf state.now ledger.now fragment.now stop) }
{
    let metadata = ledger.metadata();
    Ok(Reading {
        first: fragment.first,
        stop,
        size: metadata.size(),
        write_quorum: metadata.write_quorum(),
        ensemble: Members::of(fragment.ensemble.clone()?),
        rows: copy_rows(alloc, state, ledger, fragment, stop)?,
    })
}

/// The words that each member of the fragment holds of it.
fn copy_rows(
    alloc: Global,
    state: &State,
    ledger: &Ledger,
    fragment: &Fragment,
    stop: u32,
) -> Result<Vec<Words>, AllocError>
    ensures { IfOk result (λ rows.
        AreCopies state.now ledger.now.id fragment.now.first stop fragment.now.ensemble rows.items) }
{
    let mut rows = Vec::with_capacity(alloc, fragment.ensemble.len())?;
    for bookie in &fragment.ensemble {
        let row = source_row(state, ledger, *bookie);
        rows.push(copy_words(alloc, row, fragment.first, stop)?)?;
    }
    Ok(rows)
}

/// The words of a row in which the entries from the first up to, not including, the stop lie.
fn copy_words(alloc: Global, row: &[u64], first: u32, stop: u32) -> Result<Words, AllocError>
    ensures { IfOk result (λ words. (entry : ℕ) → first ≤ entry → entry < stop
        → is_set words (entry - 64 * (first / 64)) ≡ is_set row.now entry) }
{
    let end = row.len().min((stop as usize).div_ceil(64));
    let begin = end.min((first / 64) as usize);
    let items = Vec::from_slice(alloc, &row[begin..end])?;
    Ok(Words { items })
}

/// Looks for the source of each entry that the fragment stripes onto the index: the first member in the order of its
/// write set that was registered, and held it.
///
/// BookKeeper's replication worker reads an entry from the members of its write set in this order.
pub fn look(alloc: Global, job: &Job) -> Result<Content, AllocError>
    ensures { IfOk result (λ content. content ≡ job.now) }
{
    let reading = &job.reading;
    Ok(Content {
        aim: job.aim,
        version: job.version,
        first: reading.first,
        stop: reading.stop,
        ensemble: reading.ensemble.clone_in()?,
        sources: Sources::of(find_sources(alloc, reading, job.aim.index as u32)?),
    })
}

/// The source of each entry that the fragment stripes onto the index.
///
/// It goes by blocks: where the members' words are those of the block before, the sources are, too.
fn find_sources(
    alloc: Global,
    reading: &Reading,
    index: u32,
) -> Result<Vec<Option<BookieIx>>, AllocError>
    requires { IsReading reading.now }
    ensures { IfOk result (λ sources. sources.items ≡ map (source_in reading.now)
        (striped_entries reading.now.first reading.now.stop index reading.now.size reading.now.write_quorum)) }
{
    let rows = rows_of(reading);
    let round = Round::new(reading.size);
    let number = reading.first / 64;
    let mut sources = Vec::with_capacity(
        alloc,
        stripe(reading, index, reading.first, reading.stop).len(),
    )?;
    let mut block = Vec::new(alloc);
    let mut before = reading.first;
    let mut from = reading.first;
    while from < reading.stop {
        let end = block_end(from, reading.stop, reading.size);
        if !repeats(&rows, reading.size, number, before, from, end) {
            block = block_sources(alloc, reading, &round, stripe(reading, index, from, end))?;
        }
        sources.extend_from_slice(&block)?;
        before = from;
        from = end;
    }
    Ok(sources)
}

/// The words of the members by their indexes, as slices.
fn rows_of<'a>(reading: &'a Reading) -> Rows<'a>
    requires { IsReading reading.now }
    ensures { (index entry : ℕ) → index < reading.now.size → is_set_at result entry index
        ≡ is_set (slice_index_or reading.now.rows.items index []) entry }
{
    let mut rows: Rows<'a> = [&[]; MAX_ENSEMBLE_SIZE as usize];
    for index in 0..reading.size as usize {
        rows[index] = &reading.rows[index].items;
    }
    rows
}

/// The entries from the first up to, not including, the stop that the fragment stripes onto the index.
fn stripe(reading: &Reading, index: u32, first: u32, stop: u32) -> Striped
    requires { IsReading reading.now }
    ensures { result ≡ striped_entries first stop index reading.now.size reading.now.write_quorum }
{
    Striped::new(first, stop, index, reading.size, reading.write_quorum)
}

/// The source of each of these entries.
///
/// It goes by words of 64 entries: of each the members' words are read once.
fn block_sources(
    alloc: Global,
    reading: &Reading,
    round: &Round,
    entries: Striped,
) -> Result<Vec<Option<BookieIx>>, AllocError>
    requires reading { IsReading reading.now }
    requires round { round.now ≡ reading.now.size }
    requires from { All (λ entry. reading.now.first ≤ entry) entries }
    ensures { IfOk result (λ sources. sources.items ≡ map (source_in reading.now) entries) }
{
    let mut sources = Vec::with_capacity(alloc, MOST_ENTRIES)?;
    for word in entries.words() {
        push_sources(&mut sources, reading, round, word)?;
    }
    Ok(sources)
}

/// Puts the sources of a word's entries after the others.
fn push_sources(
    sources: &mut Vec<Option<BookieIx>>,
    reading: &Reading,
    round: &Round,
    word: Word,
) -> Result<(), AllocError>
    requires reading { IsReading reading.now }
    requires round { round.now ≡ reading.now.size }
    requires number { word.number < 2 ^ 26 }
    requires from { All (λ entry. reading.now.first ≤ entry) (entries_in word) }
    ensures { OnOk result (sources.new.items
        ≡ sources.old.items ++ map (source_in reading.now) (entries_in word)) }
{
    let held = held_words(reading, word.number);
    let start = 64 * word.number % reading.size;
    for entry in WordEntries::new(word) {
        let bit = entry % 64;
        let indexes = round.write_set(start, bit, reading.write_quorum);
        sources.push(find_source(reading.ensemble.as_slice(), &held, indexes, bit))?;
    }
    Ok(())
}

/// A word of each member, by the members' indexes.
type HeldWords = [u64; MAX_ENSEMBLE_SIZE as usize];

/// The members' words of that number.
fn held_words(reading: &Reading, number: u32) -> HeldWords
    requires { IsReading reading.now }
    ensures { (index : ℕ) → index < reading.now.size → slice_index result index
        ≡ slice_index (slice_index_or reading.now.rows.items index []) (number - reading.now.first / 64) }
{
    let place = number.saturating_sub(reading.first / 64) as usize;
    let mut held = [0; MAX_ENSEMBLE_SIZE as usize];
    for index in 0..reading.size as usize {
        held[index] = word_at(&reading.rows[index].items, place);
    }
    held
}

/// The first member in the order of the write set whose word has the bit.
fn find_source(
    members: &[BookieIx],
    held: &HeldWords,
    indexes: &[u32],
    bit: u32,
) -> Option<BookieIx>
    requires within { All (λ index. index < length members.now) indexes.now }
    requires small { length members.now ≤ MAX_ENSEMBLE_SIZE }
    requires bit { bit < 64 }
    ensures { result ≡ option_map (λ index. slice_index members.now index)
        (find (λ index. has_bit (slice_index held.now index) bit) indexes.now) }
{
    for index in indexes {
        let place = *index as usize;
        if (held[place] >> bit) & 1 == 1 {
            return Some(members[place]);
        }
    }
    None
}
