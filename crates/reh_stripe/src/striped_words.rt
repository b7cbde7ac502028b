// The entries that an index of an ensemble carries, word by word.
ghost use Rattle.std.specs.Prelude.{◌≡◌, ◌<◌, ◌≤◌};
ghost use Rattle.std.specs.Iterator.{YieldsFirst, item_count};
ghost use Rattle.reh_stripe.specs.Words as words;

use crate::masks::Masks;
use crate::words::{Word, bits_between};
use crate::writes::wrapped;
use std::marker::Model;

/// The words of a range's entries that an index carries, rising; contracts see those that are left.
#[derive(Drop)]
pub struct StripedWords {
    pub(crate) number: u32,
    pub(crate) end: u32,
    /// The range's first entry and its last.
    pub(crate) first: u32,
    pub(crate) last: u32,
    pub(crate) index: u32,
    /// The index of rank 0 of the word's first entry, and how far that goes on from word to word.
    pub(crate) start: u32,
    pub(crate) step: u32,
    pub(crate) size: u32,
    pub(crate) masks: Masks,
}

impl Model for StripedWords {
    ghost use Rattle.std.specs.Prelude.{List};
    ghost use Rattle.reh_stripe.specs.declared.words.Word.{Word};

    ghost Value = { List Word };

    ghost use Rattle.reh_stripe.specs.Left.{words_left, IsWithin};

    ghost view = { words_left };

    ghost invariant = { IsWithin };
}

impl Iterator for StripedWords {
    type Item = Word;

    ghost next_gives = { YieldsFirst (λ s. s) };

    ghost remaining = { item_count (λ s. s) };

    fn next(&mut self) -> Option<Word> {
        if self.number >= self.end {
            return None;
        }
        let number = self.number;
        let carried = self.masks.carried(self.start, self.index);
        let bits = carried & bits_between(number, self.first, self.last);
        self.number = number + 1;
        self.start = wrapped(self.start + self.step, self.size);
        Some(Word { number, bits })
    }
}

/// One past the number of the last word in which entries from the first up to, not including, the stop lie; the number
/// of the first one's where there are none.
pub(crate) fn end_word(first: u32, stop: u32) -> u32
    ensures { result ≡ words.end_word first stop }
{
    if first < stop {
        (stop - 1) / 64 + 1
    } else {
        first / 64
    }
}
