// Words of 64 entries.
ghost use Rattle.std.specs.Prelude.{◌≡◌, ℕ, ◌+◌, ◌*◌, ◌^◌, ◌<◌, ◌≤◌, slice_get, slice_index};
ghost use Rattle.reh_stripe.specs.Words.{has_bit, is_between, entries_in};

/// Some of the 64 entries of a word: bit i of word n stands for entry 64 n + i.
#[derive(Clone, Copy, PartialEq, Eq, Debug)]
pub struct Word {
    pub number: u32,
    pub bits: u64,
}

/// The least entry of a word.
pub fn least_entry(word: Word) -> Option<u32>
    requires { word.number < 2 ^ 26 }
    ensures { result ≡ slice_get (entries_in word) 0 }
{
    if word.bits == 0 {
        None
    } else {
        Some(64 * word.number + word.bits.trailing_zeros())
    }
}

/// The bits of a word whose entries are from the first to the last.
pub fn bits_between(number: u32, first: u32, last: u32) -> u64
    requires first { first < 64 * number + 64 }
    requires last { 64 * number ≤ last }
    ensures { (i : ℕ) → i < 64 → has_bit result i ≡ is_between first last (64 * number + i) }
{
    let low = first.saturating_sub(64 * number);
    let high = (last - 64 * number).min(63);
    (u64::MAX << low) & (u64::MAX >> (63 - high))
}

/// A word of a row, which has no entry past its words.
pub fn word_at(words: &[u64], number: usize) -> u64
    ensures { result ≡ slice_index words.now number }
{
    match words.get(number) {
        Some(word) => *word,
        None => 0,
    }
}
