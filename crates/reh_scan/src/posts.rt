// Whether what a worker found can be posted.
ghost use Rattle.std.specs.Prelude.{◌≡◌, ℕ, ◌+◌, ◌*◌, ◌^◌, ◌<◌, ◌&&◌, ◌==◌, false, length, map, All, Some, slice_get};
ghost use Rattle.std.specs.Prelude.{IsTrue, MatchOption, min, slice_index, take, ◌≤◌};
ghost use Rattle.std.specs.List.{list_any, zip};
ghost use Rattle.reh_types.specs.declared.limits.TheConstants.{MAX_BOOKIES};
ghost use Rattle.reh_model.specs.Checks.{first_reason};
ghost use Rattle.reh_model.specs.Cluster.{stripe_at};
ghost use Rattle.reh_model.specs.Refusals.{Decides, Finds};
ghost use Rattle.reh_model.specs.Scan as scan;
ghost use Rattle.reh_model.specs.Scan.{is_as_seen, lost_source, post_refusal};
ghost use Rattle.reh_model.specs.Striping as stripe;
ghost use Rattle.reh_model.specs.Striping.{striped_entries};
ghost use Rattle.reh_stripe.specs.Words.{entries_in, has_bit};
ghost use Rattle.reh_scan.specs.Posts.{IsSeen, is_copy_at, lost_bit, lost_copy, source_of};
ghost use Rattle.reh_scan.specs.Sources.{sizes_of};

use crate::blocks::{block_end, repeats};
use crate::places::{check_member, find_owned};
use crate::sources::{Rows, masks_of, source_rows};
use reh_cluster::{Ledger, State};
use reh_meta::{Fragment, LedgerMeta};
use reh_stripe::{Masks, Striped, Word, WordEntries, word_at};
use reh_types::{BookieIx, Content, MAX_BOOKIES, Refusal};

/// Whether what a worker found can be posted, or else the first refusal that applies: it has to hold the ledger's lock,
/// the fragment has to be as it was seen, at the version that was seen, and the source that is named for each entry has
/// to be one still. It takes no memory.
pub fn check(state: &State, content: &Content) -> Result<(), Refusal>
    ensures { Decides result (post_refusal state.now content.now) }
{
    find_posted(state, content)?;
    Ok(())
}

/// The entries that a post has copied, which the content's fragment stripes onto the index, if it can be posted.
pub fn find_posted(state: &State, content: &Content) -> Result<Striped, Refusal>
    ensures { Finds result (post_refusal state.now content.now)
        (λ entries. entries
        ≡ stripe_at state.now content.now.aim.ledger content.now.aim.fragment content.now.aim.index) }
{
    let aim = &content.aim;
    let found = find_owned(state, aim.worker, aim.ledger)?;
    let metadata = found.ledger.metadata();
    let Some(fragment) = find_seen(metadata, content) else {
        return Err(Refusal::Stale(metadata.version()));
    };
    check_member(state, found.ledger, fragment, aim.index, aim.worker)?;
    check_sources(state, found.ledger, fragment, content)?;
    Ok(entries_of(metadata, content))
}

/// The content's fragment, if the metadata is as the content saw it.
fn find_seen<'a>(metadata: &'a LedgerMeta, content: &Content) -> Option<&'a Fragment>
    ensures { MatchOption result (is_as_seen metadata.now content.now ≡ false)
        (λ fragment. IsSeen metadata.now content.now fragment.now) }
{
    let fragment = metadata.fragments().get(content.aim.fragment as usize)?;
    if metadata.version() == content.version && is_fragment_as_seen(metadata, content, fragment) {
        Some(fragment)
    } else {
        None
    }
}

/// Whether the fragment is as the content saw it, with a source, or none, for each striped entry.
fn is_fragment_as_seen(metadata: &LedgerMeta, content: &Content, fragment: &Fragment) -> bool
    requires { slice_get metadata.now.fragments content.now.aim.fragment ≡ Some fragment.now }
    ensures { result ≡ scan.is_fragment_as_seen metadata.now content.now fragment.now }
{
    fragment.first == content.first
        && metadata.end_of(content.aim.fragment as usize) == Some(content.stop)
        && fragment.ensemble.as_slice() == content.ensemble.as_slice()
        && content.aim.index < metadata.size() as u64
        && content.sources.as_slice().len() == entries_of(metadata, content).len()
}

/// The entries that the content's fragment stripes onto the index, as it was seen.
fn entries_of(metadata: &LedgerMeta, content: &Content) -> Striped
    requires { content.now.aim.index < metadata.now.size }
    ensures entries { result ≡ striped_entries content.now.first content.now.stop content.now.aim.index
        metadata.now.size metadata.now.write_quorum }
    ensures few { length result < 2 ^ 32 }
{
    stripe(metadata, content.aim.index, content.first, content.stop)
}

/// The entries from the first up to, not including, the stop that a fragment of the ledger stripes onto the index.
fn stripe(metadata: &LedgerMeta, index: u64, first: u32, stop: u32) -> Striped
    requires { index < metadata.now.size }
    ensures entries { result ≡ striped_entries first stop index metadata.now.size metadata.now.write_quorum }
    ensures few { length result < 2 ^ 32 }
{
    let size = metadata.size();
    Striped::new(first, stop, index as u32, size, metadata.write_quorum())
}

/// Whether each entry can still be copied from the source that is named for it.
///
/// It goes by blocks: one with the sources of the block before, where the members' rows are as there, needs no look.
fn check_sources(
    state: &State,
    ledger: &Ledger,
    fragment: &Fragment,
    content: &Content,
) -> Result<(), Refusal>
    requires ensemble { length fragment.now.ensemble ≡ ledger.now.metadata.size }
    requires members { All (λ member. member < MAX_BOOKIES) fragment.now.ensemble }
    requires index { content.now.aim.index < ledger.now.metadata.size }
    ensures { Decides result (first_reason (map (lost_source state.now ledger.now fragment.now)
        (zip (striped_entries content.now.first content.now.stop content.now.aim.index
        ledger.now.metadata.size ledger.now.metadata.write_quorum) content.now.sources))) }
{
    let metadata = ledger.metadata();
    let size = metadata.size();
    let rows = source_rows(state, ledger, fragment);
    let masks = masks_of(metadata);
    let mut sources = content.sources.as_slice();
    let mut block = &sources[..0];
    let mut before = content.first;
    let mut from = content.first;
    while from < content.stop {
        let end = block_end(from, content.stop, size);
        let count = if repeats(&rows, size, 0, before, from, end) && begins_with(sources, block) {
            block.len()
        } else {
            let entries = stripe(metadata, content.aim.index, from, end);
            check_block(&rows, &masks, metadata, fragment, entries, sources)?
        };
        let (here, behind) = sources.split_at(count);
        block = here;
        sources = behind;
        before = from;
        from = end;
    }
    Ok(())
}

/// Whether the sources begin with those of a block.
fn begins_with(sources: &[Option<BookieIx>], block: &[Option<BookieIx>]) -> bool
    ensures bound { IsTrue result → length block.now ≤ length sources.now }
    ensures same { IsTrue result → take (length block.now) sources.now ≡ block.now }
{
    block.len() <= sources.len() && are_same(&sources[..block.len()], block)
}

/// Whether both are the same sources. It goes through all of them, without a way out, so that many can be compared at
/// once.
fn are_same(sources: &[Option<BookieIx>], others: &[Option<BookieIx>]) -> bool
    requires { length sources.now ≡ length others.now }
    ensures { IsTrue result → sources.now ≡ others.now }
{
    let mut differing = 0;
    for (source, other) in sources.iter().zip(others) {
        differing |= code_of(*source) ^ code_of(*other);
    }
    differing == 0
}

/// A number for the source: the bookie's own, or the one past them all.
fn code_of(source: Option<BookieIx>) -> u16
    ensures { source ≡ source_of result }
{
    match source {
        Some(bookie) => bookie.0 as u16,
        None => 256,
    }
}

/// How many sources are those of the entries, if each entry can be copied from the source that is named for it.
///
/// It goes by words of 64 entries: of each the members' rows are read once.
fn check_block(
    rows: &Rows<'_>,
    masks: &Masks,
    metadata: &LedgerMeta,
    fragment: &Fragment,
    entries: Striped,
    sources: &[Option<BookieIx>],
) -> Result<usize, Refusal>
    requires ensemble { length fragment.now.ensemble ≡ metadata.now.size }
    requires members { All (λ member. member < MAX_BOOKIES) fragment.now.ensemble }
    requires masks { masks.now ≡ sizes_of metadata.now }
    ensures { Finds result
        (first_reason (map (lost_copy rows.now metadata.now fragment.now) (zip entries sources.now)))
        (λ count. count ≡ min (length entries) (length sources.now)) }
{
    let mut rest = sources;
    for word in entries.words() {
        let copies = copies_of(rows, masks, metadata, fragment, word.number);
        check_word(&copies, word, rest)?;
        let checked = (word.bits.count_ones() as usize).min(rest.len());
        rest = &rest[checked..];
    }
    Ok(sources.len() - rest.len())
}

/// For each bookie which entries of a word can be copied from it.
type Copies = [u64; MAX_BOOKIES];

/// The entries of a word that are in the bookies' rows at the indexes that carry them.
fn copies_of(
    rows: &Rows<'_>,
    masks: &Masks,
    metadata: &LedgerMeta,
    fragment: &Fragment,
    number: u32,
) -> Copies
    requires ensemble { length fragment.now.ensemble ≡ metadata.now.size }
    requires members { All (λ member. member < MAX_BOOKIES) fragment.now.ensemble }
    requires masks { masks.now ≡ sizes_of metadata.now }
    requires number { 64 * number < 2 ^ 32 }
    ensures { (bookie i : ℕ) → i < 64 → has_bit (slice_index result bookie) i
        ≡ list_any (is_copy_at rows.now fragment.now (64 * number + i) bookie)
        (stripe.write_set (64 * number + i) metadata.now.size metadata.now.write_quorum) }
{
    let size = metadata.size();
    let start = 64 * number % size;
    let mut copies = [0; MAX_BOOKIES];
    for index in 0..size {
        let member = fragment.ensemble[index as usize].0 as usize;
        let carried = masks.carried(start, index);
        copies[member] |= word_at(rows[index as usize], number as usize) & carried;
    }
    copies
}

/// Whether each entry of the word can be copied from the source that is named for it.
fn check_word(copies: &Copies, word: Word, sources: &[Option<BookieIx>]) -> Result<(), Refusal>
    requires { word.number < 2 ^ 26 }
    ensures { Decides result (first_reason (map (lost_bit copies.now) (zip (entries_in word) sources.now))) }
{
    for (entry, source) in WordEntries::new(word).zip(sources) {
        check_source(copies, entry, *source)?;
    }
    Ok(())
}

/// Whether the entry can be copied from the source that is named for it.
fn check_source(copies: &Copies, entry: u32, source: Option<BookieIx>) -> Result<(), Refusal>
    ensures { Decides result (lost_bit copies.now (entry, source)) }
{
    match source {
        Some(bookie) if (word_at(copies, bookie.0 as usize) >> (entry % 64)) & 1 == 1 => Ok(()),
        Some(_) => Err(Refusal::SourceGone(entry as u64)),
        None => Err(Refusal::NoSource(entry as u64)),
    }
}
