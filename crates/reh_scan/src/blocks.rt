// Blocks of a fragment's entries, of which each finds what the one before it found where the members' rows repeat.
ghost use Rattle.std.specs.Prelude.{◌≡◌, ℕ, ◌+◌, ◌-◌, ◌*◌, ◌/◌, ◌^◌, ◌<◌, ◌≤◌, IsTrue};
ghost use Rattle.reh_types.specs.declared.limits.TheConstants.{MAX_ENSEMBLE_SIZE};
ghost use Rattle.reh_held.specs.Rows.{is_set};
ghost use Rattle.reh_scan.specs.Blocks.{IsRepeated, words_of_block};
ghost use Rattle.reh_scan.specs.Sources.{is_set_at};

use crate::sources::Rows;
use reh_stripe::word_at;
use reh_types::MAX_ENSEMBLE_SIZE;

/// How many entries a block can have.
pub const MOST_ENTRIES: usize = 64 * MAX_ENSEMBLE_SIZE as usize;

/// How many words of 64 entries a block has: up to sixteen, and as often as many as the ensemble has members, so that
/// the write sets of one block's entries are those of the next one's.
fn words_of(size: u32) -> u32
    requires some { 1 ≤ size }
    requires small { size ≤ MAX_ENSEMBLE_SIZE }
    ensures { result ≡ words_of_block size }
{
    MAX_ENSEMBLE_SIZE as u32 / size * size
}

/// The end of the block that begins at an entry: that of its words, or the stop.
pub fn block_end(from: u32, stop: u32, size: u32) -> u32
    requires some { 1 ≤ size }
    requires small { size ≤ MAX_ENSEMBLE_SIZE }
    requires inside { from < stop }
    ensures later { from < result }
    ensures within { result ≤ stop }
{
    from + (64 * words_of(size) - from % 64).min(stop - from)
}

/// Whether the rows have the same in two whole blocks, of which the second begins at the entry `middle`. The rows begin
/// with the word of that number.
pub fn repeats(rows: &Rows<'_>, size: u32, number: u32, first: u32, middle: u32, stop: u32) -> bool
    requires some { 1 ≤ size }
    requires small { size ≤ MAX_ENSEMBLE_SIZE }
    requires begun { number ≤ first / 64 }
    requires ordered { (first ≤ middle) × (middle ≤ stop) }
    ensures { IsTrue result → IsRepeated rows.now size number first middle stop }
{
    let words = words_of(size);
    middle % 64 == 0
        && middle - first == 64 * words
        && stop - middle == 64 * words
        && do_rows_repeat(rows, size, (middle / 64 - number) as usize, words as usize)
}

/// Whether in each row so many words from that place on are the same as those right before it.
fn do_rows_repeat(rows: &Rows<'_>, size: u32, place: usize, count: usize) -> bool
    requires small { size ≤ MAX_ENSEMBLE_SIZE }
    requires before { count ≤ place }
    requires place { place < 2 ^ 32 }
    ensures { IsTrue result → (index entry : ℕ) → index < size → 64 * place ≤ entry → entry < 64 * (place + count)
        → is_set_at rows.now entry index ≡ is_set_at rows.now (entry - 64 * count) index }
{
    for index in 0..size as usize {
        if !does_row_repeat(rows[index], place, count) {
            return false;
        }
    }
    true
}

/// Whether in the row so many words from that place on are the same as those right before it.
fn does_row_repeat(row: &[u64], place: usize, count: usize) -> bool
    requires before { count ≤ place }
    requires place { place < 2 ^ 32 }
    ensures { IsTrue result → (entry : ℕ) → 64 * place ≤ entry → entry < 64 * (place + count)
        → is_set row.now entry ≡ is_set row.now (entry - 64 * count) }
{
    for number in place..place + count {
        if word_at(row, number) != word_at(row, number - count) {
            return false;
        }
    }
    true
}
