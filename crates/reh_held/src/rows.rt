// Rows of words.
ghost use Rattle.std.specs.Prelude.{◌≡◌, ℕ, ◌+◌, ◌*◌, ◌^◌, ◌<◌, ◌≤◌, false, ◌==◌, ◌||◌, ◌↔◌, length, map, All, IfOk, IsTrue};
ghost use Rattle.std.specs.List.{list_any};
ghost use Rattle.reh_model.specs.Contents.{is_in_word, one_of};
ghost use Rattle.reh_held.specs.Rows as rows;
ghost use Rattle.reh_stripe.specs.Words.{is_between};
ghost use Rattle.reh_held.specs.Rows.{is_set, entries_in, IsGreatest};
ghost use Rattle.reh_held.specs.RowTurns.{turn_of, is_turned, IsWordWithin, IsRowTurning};
ghost use Rattle.reh_held.specs.declared.rows.TheConstants.{MAX_WIDTH};

use crate::turns::Turn;
use reh_stripe::{Striped, bits_between, word_at};
use reh_types::Change;
use std::alloc::{AllocError, Global};
use std::marker::Model;

/// How many words a row needs for every entry id that there can be.
pub(crate) const MAX_WIDTH: usize = 1 << 26;

/// The entries that one bookie holds of one ledger, as bits of words. Contracts see the words.
#[derive(Drop)]
pub(crate) struct Row {
    words: Vec<u64>,
}

impl Model for Row {
    ghost use Rattle.std.specs.Prelude.{List, ℕ};

    ghost Value = { List ℕ };

    ghost view = { λ a. a.words.items };
}

impl Clone for Row {
    ghost is_clone = { λ row copy. copy ≡ row };

    fn clone(&self) -> Result<Row, AllocError> {
        let words = self.words.clone()?;
        Ok(Row { words })
    }
}

impl Row {
    /// A row of so many words with no entry.
    pub(crate) fn new(alloc: Global, width: usize) -> Result<Row, AllocError>
        ensures width { IfOk result (λ row. length row ≡ width) }
        ensures none { IfOk result (λ row. (e : ℕ) → is_set row e ≡ false) }
    {
        let words = vec![in alloc; 0; width]?;
        Ok(Row { words })
    }

    /// The same entries in a row of so many words.
    pub(crate) fn longer(&self, alloc: Global, width: usize) -> Result<Row, AllocError>
        requires { length self.now ≤ width }
        ensures width { IfOk result (λ row. length row ≡ width) }
        ensures same { IfOk result (λ row. (e : ℕ) → is_set row e ≡ is_set self.now e) }
    {
        let mut words = Vec::with_capacity(alloc, width)?;
        words.extend_from_slice(&self.words)?;
        words.resize(width, 0)?;
        Ok(Row { words })
    }

    /// Its words.
    pub(crate) fn as_slice(&self) -> &[u64]
        ensures { result.now ≡ self.now }
    {
        self.words.as_slice()
    }

    /// Puts the entry into the row.
    pub(crate) fn insert(&mut self, entry: u32)
        requires { entry < 64 * length self.old }
        ensures width { length self.new ≡ length self.old }
        ensures bits { (e : ℕ) → is_set self.new e ≡ (e == entry || is_set self.old e) }
    {
        self.words[(entry / 64) as usize] |= 1 << (entry % 64);
    }

    /// Turns these bits of a word.
    pub(crate) fn toggle(&mut self, number: usize, bits: u64)
        requires { number < length self.old }
        ensures width { length self.new ≡ length self.old }
        ensures bits { (e : ℕ) → is_set self.new e ≡ one_of (is_set self.old e) (is_in_word number bits e) }
    {
        self.words[number] ^= bits;
    }

    /// Turns the bits of these words.
    pub(crate) fn toggle_words<M>(&mut self, words: &[Change<M>])
        requires { All (IsWordWithin (length self.old)) words.now }
        ensures width { length self.new ≡ length self.old }
        ensures bits { (e : ℕ) → is_set self.new e
            ≡ one_of (is_set self.old e) (is_turned (map turn_of words.now) e) }
    {
        for change in words {
            if let Change::Word { number, bits, .. } = change {
                self.toggle(*number, *bits);
            }
        }
    }

    /// Whether the entry is in the row.
    pub(crate) fn holds(&self, entry: u32) -> bool
        ensures { result ≡ is_set self.now entry }
    {
        is_set(&self.words, entry)
    }

    /// How many entries there are.
    pub(crate) fn count(&self) -> usize
        requires { length self.now ≤ MAX_WIDTH }
        ensures value { result ≡ length (entries_in self.now) }
        ensures bound { result ≤ 64 * length self.now }
    {
        let mut count = 0;
        for word in &self.words {
            count += word.count_ones() as usize;
        }
        count
    }

    /// The greatest entry.
    pub(crate) fn greatest(&self) -> Option<u32>
        requires { length self.now ≤ MAX_WIDTH }
        ensures { IsGreatest (is_set self.now) result }
    {
        let mut end = self.words.len();
        while end > 0 {
            end -= 1;
            let word = self.words[end];
            if word != 0 {
                return Some(64 * end as u32 + word.ilog2());
            }
        }
        None
    }

    /// Puts the entries from the first to the last into the row.
    pub(crate) fn insert_range(&mut self, first: u32, last: u32)
        requires { last < 64 * length self.old }
        ensures width { length self.new ≡ length self.old }
        ensures bits { (e : ℕ) → is_set self.new e ≡ (is_between first last e || is_set self.old e) }
    {
        set_range(&mut self.words, first, last);
    }

    /// The turns after which the row has these entries too.
    pub(crate) fn delta_of(&self, alloc: Global, entries: &Striped) -> Result<Vec<Turn>, AllocError>
        requires { All (λ e. e < 64 * length self.now) entries.now }
        ensures { IfOk result (λ turns. IsRowTurning self.now
            (λ e. is_set self.now e || list_any (λ x. e == x) entries.now) turns.items) }
    {
        let mut turns = Vec::new(alloc);
        for word in entries.words() {
            let number = word.number as usize;
            let bits = word.bits & !word_at(&self.words, number);
            if bits != 0 {
                turns.push(Turn { number, bits })?;
            }
        }
        Ok(turns)
    }
}

/// Whether the entry's bit is set in the words of a row: bit e % 64 of word e / 64 is that of entry e. Past them none
/// is.
pub fn is_set(words: &[u64], entry: u32) -> bool
    ensures { result ≡ rows.is_set words.now entry }
{
    match words.get((entry / 64) as usize) {
        Some(word) => (*word >> (entry % 64)) & 1 == 1,
        None => false,
    }
}

/// Whether two rows of as many words have the same entries.
pub(crate) fn have_same_entries(words: &[u64], others: &[u64]) -> bool
    requires { length words.now ≡ length others.now }
    ensures { IsTrue result ↔ ((e : ℕ) → rows.is_set words.now e ≡ rows.is_set others.now e) }
{
    for number in 0..words.len() {
        if words[number] != others[number] {
            return false;
        }
    }
    true
}

/// Sets the bits of the entries from the first to the last, word by word.
fn set_range(words: &mut Vec<u64>, first: u32, last: u32)
    requires { last < 64 * length words.old.items }
    ensures width { length words.new.items ≡ length words.old.items }
    ensures bits { (e : ℕ) → is_set words.new.items e
        ≡ (is_between first last e || is_set words.old.items e) }
{
    for number in (first / 64) as usize..(last / 64) as usize + 1 {
        words[number] |= bits_between(number as u32, first, last);
    }
}
