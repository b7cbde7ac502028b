// The entries of a word, one by one.
ghost use Rattle.std.specs.Prelude.{◌≡◌, ◌^◌, ◌<◌};
ghost use Rattle.std.specs.Iterator.{YieldsFirst, item_count};
ghost use Rattle.reh_stripe.specs.Words.{entries_in};

use crate::words::{Word, least_entry};
use std::marker::Model;

/// The entries of a word, rising; contracts see those that are left.
///
/// Each call of `next` takes the same time, however far the next entry is.
#[derive(Drop)]
pub struct WordEntries {
    word: Word,
}

impl Model for WordEntries {
    ghost use Rattle.std.specs.Prelude.{List, ℕ, ◌^◌, ◌<◌};
    ghost use Rattle.reh_stripe.specs.Words.{entries_in};

    ghost Value = { List ℕ };

    ghost view = { λ s. entries_in s.word };

    ghost invariant = { λ s. s.word.number < 2 ^ 26 };
}

impl WordEntries {
    /// The entries of the word.
    pub fn new(word: Word) -> WordEntries
        requires { word.number < 2 ^ 26 }
        ensures { result ≡ entries_in word }
    {
        WordEntries { word }
    }
}

impl Iterator for WordEntries {
    type Item = u32;

    ghost next_gives = { YieldsFirst (λ s. s) };

    ghost remaining = { item_count (λ s. s) };

    fn next(&mut self) -> Option<u32> {
        let entry = least_entry(self.word)?;
        self.word.bits &= self.word.bits - 1;
        Some(entry)
    }
}
