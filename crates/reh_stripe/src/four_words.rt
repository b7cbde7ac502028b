// Words of 64 entries, four at a time.
ghost use Rattle.std.specs.Prelude.{◌≡◌, ℕ, ◌+◌, ◌*◌, ◌^◌, ◌<◌, ◌≤◌, ◌&&◌, ◌⊎◌, not, length, slice_index};
ghost use Rattle.std.specs.Prelude.{bit_and, bit_or};
ghost use Rattle.std.specs.Int.Count.{ones};
ghost use Rattle.reh_stripe.specs.Words.{has_bit, is_between};

use crate::words::{bits_between, word_at};

/// Four words that follow one another.
///
/// What goes by four words at a time goes through rows in half or a third of the time that it takes word by word.
#[derive(Clone, Copy)]
pub struct FourWords {
    pub words: [u64; 4],
}

impl FourWords {
    /// No entry.
    pub fn none() -> FourWords
        ensures { (k : ℕ) → k < 4 → slice_index result.words k ≡ 0 }
    {
        FourWords { words: [0; 4] }
    }

    /// The words of a row from that number on; the row has no entry past its words.
    pub fn at(row: &[u64], number: usize) -> FourWords
        requires { number + 4 < 2 ^ 64 }
        ensures { (k : ℕ) → k < 4 → slice_index result.words k ≡ slice_index row.now (number + k) }
    {
        if number + 4 <= row.len() {
            return FourWords {
                words: [
                    row[number],
                    row[number + 1],
                    row[number + 2],
                    row[number + 3],
                ],
            };
        }
        FourWords {
            words: [
                word_at(row, number),
                word_at(row, number + 1),
                word_at(row, number + 2),
                word_at(row, number + 3),
            ],
        }
    }

    /// Makes them the words of a row from that number on.
    pub fn put(&self, row: &mut [u64], number: usize)
        requires { number + 4 ≤ length row.old }
        ensures width { length row.new ≡ length row.old }
        ensures words { (k : ℕ) → k < 4 → slice_index row.new (number + k) ≡ slice_index self.now.words k }
        ensures others { (n : ℕ) → (n < number) ⊎ (number + 4 ≤ n) → slice_index row.new n ≡ slice_index row.old n }
    {
        row[number] = self.words[0];
        row[number + 1] = self.words[1];
        row[number + 2] = self.words[2];
        row[number + 3] = self.words[3];
    }

    /// The entries that are in both.
    pub fn and(&self, other: &FourWords) -> FourWords
        ensures { (k : ℕ) → k < 4
            → slice_index result.words k ≡ bit_and (slice_index self.now.words k) (slice_index other.now.words k) }
    {
        FourWords {
            words: [
                self.words[0] & other.words[0],
                self.words[1] & other.words[1],
                self.words[2] & other.words[2],
                self.words[3] & other.words[3],
            ],
        }
    }

    /// The entries that are in one of them.
    pub fn or(&self, other: &FourWords) -> FourWords
        ensures { (k : ℕ) → k < 4
            → slice_index result.words k ≡ bit_or (slice_index self.now.words k) (slice_index other.now.words k) }
    {
        FourWords {
            words: [
                self.words[0] | other.words[0],
                self.words[1] | other.words[1],
                self.words[2] | other.words[2],
                self.words[3] | other.words[3],
            ],
        }
    }

    /// The entries that aren't in the other.
    pub fn without(&self, other: &FourWords) -> FourWords
        ensures { (k i : ℕ) → k < 4 → i < 64
            → has_bit (slice_index result.words k) i
            ≡ (has_bit (slice_index self.now.words k) i && not (has_bit (slice_index other.now.words k) i)) }
    {
        FourWords {
            words: [
                self.words[0] & !other.words[0],
                self.words[1] & !other.words[1],
                self.words[2] & !other.words[2],
                self.words[3] & !other.words[3],
            ],
        }
    }

    /// How many entries there are.
    pub fn count(&self) -> u32
        ensures ones { result ≡ ones (slice_index self.now.words 0) + ones (slice_index self.now.words 1)
            + ones (slice_index self.now.words 2) + ones (slice_index self.now.words 3) }
        ensures words { (k : ℕ) → k < 4 → slice_index self.now.words k < 2 ^ 64 }
    {
        self.words[0].count_ones()
            + self.words[1].count_ones()
            + self.words[2].count_ones()
            + self.words[3].count_ones()
    }

    /// The bits of four words, from that number on, whose entries are from the first to the last.
    pub fn between(number: u32, first: u32, last: u32) -> FourWords
        requires first { first < 64 * number + 64 }
        requires last { 64 * number ≤ last }
        ensures { (k i : ℕ) → k < 4 → i < 64
            → has_bit (slice_index result.words k) i ≡ is_between first last (64 * (number + k) + i) }
    {
        if first <= 64 * number && last - 64 * number >= 255 {
            return FourWords { words: [!0; 4] };
        }
        FourWords {
            words: [
                bits_between(number, first, last),
                bits_to(number + 1, first, last),
                bits_to(number + 2, first, last),
                bits_to(number + 3, first, last),
            ],
        }
    }
}

/// The bits of a word whose entries are from the first to the last, where the first isn't after the word.
fn bits_to(number: u32, first: u32, last: u32) -> u64
    requires { first < 64 * number + 64 }
    ensures { (i : ℕ) → i < 64 → has_bit result i ≡ is_between first last (64 * number + i) }
{
    if number <= last / 64 {
        bits_between(number, first, last)
    } else {
        0
    }
}
