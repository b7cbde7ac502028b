// From which members of an ensemble an entry can be copied.
ghost use Rattle.std.specs.Prelude.{◌≡◌, ℕ, ◌+◌, ◌*◌, ◌%◌, ◌^◌, ◌<◌, length, not, slice_index};
ghost use Rattle.std.specs.List.{find, list_any};
ghost use Rattle.reh_model.specs.Metadata.{IsMetadata};
ghost use Rattle.reh_model.specs.Cluster as cluster;
ghost use Rattle.reh_model.specs.Cluster.{is_source};
ghost use Rattle.reh_model.specs.Striping as stripe;
ghost use Rattle.reh_held.specs.Rows.{is_set};
ghost use Rattle.reh_stripe.specs.Words.{has_bit};
ghost use Rattle.reh_scan.specs.Sources.{is_set_at, is_source_at, sizes_of};

use reh_cluster::{Ledger, State};
use reh_meta::{Fragment, LedgerMeta};
use reh_stripe::{FourMasks, FourWords, Masks, Striped, Word, least_entry, word_at};
use reh_types::{BookieIx, MAX_ENSEMBLE_SIZE};

/// The least of the entries that can't be read.
pub fn first_unreadable(
    state: &State,
    ledger: &Ledger,
    fragment: &Fragment,
    entries: Striped,
) -> Option<u32>
    requires { length fragment.now.ensemble ≡ ledger.now.metadata.size }
    ensures { result
        ≡ find (λ e. not (cluster.is_readable state.now ledger.now fragment.now e)) entries }
{
    let metadata = ledger.metadata();
    let rows = source_rows(state, ledger, fragment);
    let masks = masks_of(metadata);
    for word in entries.words() {
        let number = word.number;
        let start = 64 * number % metadata.size();
        let bits = word.bits & !readable_word(&rows, &masks, metadata, start, number);
        if let Some(entry) = least_entry(Word { number, bits }) {
            return Some(entry);
        }
    }
    None
}

/// A row of words for each index of an ensemble.
pub type Rows<'a> = [&'a [u64]; MAX_ENSEMBLE_SIZE as usize];

/// The rows of the fragment's members, by their indexes; without words where a member isn't registered.
pub fn source_rows<'a>(state: &'a State, ledger: &Ledger, fragment: &Fragment) -> Rows<'a>
    requires { length fragment.now.ensemble ≡ ledger.now.metadata.size }
    ensures well_formed { IsMetadata ledger.now.metadata }
    ensures rows { (index entry : ℕ) → index < ledger.now.metadata.size
        → is_set_at result entry index
        ≡ is_source_at state.now ledger.now fragment.now entry index }
{
    let mut rows: Rows<'a> = [&[]; MAX_ENSEMBLE_SIZE as usize];
    for index in 0..ledger.metadata().size() as usize {
        rows[index] = source_row(state, ledger, fragment.ensemble[index]);
    }
    rows
}

/// The bookie's row of the ledger; without words where the bookie isn't registered.
pub fn source_row<'a>(state: &'a State, ledger: &Ledger, bookie: BookieIx) -> &'a [u64]
    ensures { (entry : ℕ) → is_set result.now entry
        ≡ is_source state.now ledger.now.id entry bookie }
{
    if state.is_up(bookie) {
        state.row(bookie, ledger.id())
    } else {
        &[]
    }
}

/// Which entries of a word the indexes of the ledger's ensembles carry.
pub fn masks_of(metadata: &LedgerMeta) -> Masks
    ensures { result ≡ sizes_of metadata.now }
{
    Masks::new(metadata.size(), metadata.write_quorum())
}

/// The same, of four words at a time.
pub fn four_masks_of(metadata: &LedgerMeta) -> FourMasks
    ensures { result ≡ sizes_of metadata.now }
{
    FourMasks::new(metadata.size(), metadata.write_quorum())
}

/// The entries of a word that are in some row at an index of their write sets. The word's first entry has its rank 0 at
/// the index `start`.
fn readable_word(
    rows: &Rows<'_>,
    masks: &Masks,
    metadata: &LedgerMeta,
    start: u32,
    number: u32,
) -> u64
    requires masks { masks.now ≡ sizes_of metadata.now }
    requires start { start ≡ (64 * number) % metadata.now.size }
    requires number { 64 * number < 2 ^ 32 }
    ensures { (i : ℕ) → i < 64 → has_bit result i ≡ list_any (is_set_at rows.now (64 * number + i))
        (stripe.write_set (64 * number + i) metadata.now.size metadata.now.write_quorum) }
{
    let mut readable = 0;
    for index in 0..metadata.size() {
        let carried = masks.carried(start, index);
        readable |= word_at(rows[index as usize], number as usize) & carried;
    }
    readable
}

/// The entries of four words, from that number on, that are in some row at an index of their write sets. The first
/// word's first entry has its rank 0 at the index `start`.
pub fn readable_words(
    rows: &Rows<'_>,
    masks: &FourMasks,
    metadata: &LedgerMeta,
    start: u32,
    number: u32,
) -> FourWords
    requires masks { masks.now ≡ sizes_of metadata.now }
    requires start { start ≡ (64 * number) % metadata.now.size }
    ensures { (k i : ℕ) → k < 4 → i < 64 → has_bit (slice_index result.words k) i
        ≡ list_any (is_set_at rows.now (64 * (number + k) + i))
        (stripe.write_set (64 * (number + k) + i) metadata.now.size metadata.now.write_quorum) }
{
    let mut readable = FourWords::none();
    for index in 0..metadata.size() {
        let held = FourWords::at(rows[index as usize], number as usize);
        readable = readable.or(&held.and(&masks.carried(start, index)));
    }
    readable
}
