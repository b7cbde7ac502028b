// What the bookies hold.
ghost use Rattle.std.specs.Prelude.{◌≡◌, ℕ, ◌+◌, ◌-◌, ◌*◌, ◌<◌, ◌≤◌, ◌↔◌, length, map as mapped, All, IfOk, IsTrue, OnOk, OnErr};
ghost use Rattle.std.specs.List.{range_with_len};
ghost use Rattle.std.specs.Ordering.{nat_cmp};
ghost use Rattle.std.specs.FinMap as map;
ghost use Rattle.reh_types.specs.declared.limits.TheConstants.{MAX_BOOKIES, MAX_LEDGERS};
ghost use Rattle.reh_types.specs.Sets as set;
ghost use Rattle.reh_model.specs.Contents.{has, copies_of, count_held, greatest_held, turned};
ghost use Rattle.reh_held.specs.Rows.{is_set};
ghost use Rattle.reh_held.specs.RowTurns.{turn_of};
ghost use Rattle.reh_held.specs.Tables.{row_at, IsTable};
ghost use Rattle.reh_held.specs.Turns.{turned_all, IsWordOf, IsTurning};
ghost use Rattle.reh_held.specs.Values.{words_in, with_room};
ghost use Rattle.reh_held.specs.declared.rows.TheConstants.{MAX_WIDTH};

use crate::rows::have_same_entries;
use crate::tables::Table;
use crate::turns::Turn;
use reh_stripe::Striped;
use reh_types::{BookieIx, Change, LedgerId};
use std::alloc::{AllocError, Global};
use std::collections::BTreeMap;
use std::marker::Model;

/// What the bookies hold: a set of bookie, ledger and entry. Contracts see its contents.
///
/// For each ledger there is a row of 64-bit words for each bookie, a bit for each entry, all rows of a ledger with as
/// many words. Contracts see how many bookies there are and how many words a ledger's rows have.
#[derive(Drop)]
pub struct Held {
    alloc: Global,
    bookies: usize,
    tables: BTreeMap<LedgerId, Table>,
}

impl Model for Held {
    ghost use Rattle.reh_held.specs.Values.{HeldValue, held_code};

    ghost Value = { HeldValue };

    ghost coded = { held_code };

    ghost use Rattle.reh_held.specs.Kept.{held_of, IsKept};

    ghost view = { held_of };

    ghost invariant = { IsKept };
}

impl Held {
    /// Contents in which none of so many bookies holds an entry.
    pub fn new(alloc: Global, bookies: usize) -> Held
        ensures contents { result.contents ≡ set.empty }
        ensures bookies { result.bookies ≡ bookies }
        ensures words { result.words ≡ map.empty }
        ensures few { map.len result.words ≡ 0 }
    {
        Held {
            alloc,
            bookies,
            tables: BTreeMap::new(alloc),
        }
    }

    /// The same contents once more, on the same allocator.
    pub fn clone_in(&self) -> Result<Held, AllocError>
        ensures { IfOk result (λ held. held ≡ self.now) }
    {
        Ok(Held {
            alloc: self.alloc,
            bookies: self.bookies,
            tables: self.tables.clone()?,
        })
    }

    /// How many words the rows of the ledger have, 0 where it has none.
    pub fn words(&self, ledger: LedgerId) -> usize
        ensures { result ≡ words_in self.now ledger }
    {
        match self.tables.get(&ledger) {
            Some(table) => table.width(),
            None => 0,
        }
    }

    /// Makes all rows of the ledger long enough for the entry, where it has rows or fewer ledgers have some than there
    /// can be. Running out of memory leaves them as they were.
    pub fn reserve(&mut self, ledger: LedgerId, entry: u32) -> Result<(), AllocError>
        requires { words_in self.old ledger ≡ 0 → map.len self.old.words < MAX_LEDGERS }
        ensures ok { OnOk result (self.new ≡ with_room self.old ledger entry) }
        ensures room { OnOk result (entry < 64 * words_in self.new ledger) }
        ensures few { map.len self.new.words ≤ map.len self.old.words + 1 }
        ensures err { OnErr result (self.new ≡ self.old) }
    {
        let width = (entry / 64) as usize + 1;
        if width <= self.words(ledger) {
            return Ok(());
        }
        let table = self.longer_table(ledger, width)?;
        self.tables.insert(ledger, table)?;
        Ok(())
    }

    /// The ledger's table with rows of so many words.
    fn longer_table(&self, ledger: LedgerId, width: usize) -> Result<Table, AllocError>
        requires longer { words_in self.now ledger ≤ width }
        requires small { width ≤ MAX_WIDTH }
        ensures width { IfOk result (λ table. table.width ≡ width) }
        ensures table { IfOk result (IsTable self.now.bookies) }
        ensures same { IfOk result
            (λ table. (b e : ℕ) → is_set (row_at table b) e ≡ has self.now.contents b ledger e) }
    {
        match self.tables.get(&ledger) {
            Some(table) => table.longer(self.alloc, width),
            None => Table::new(self.alloc, self.bookies, width),
        }
    }

    /// The bookie holds the entry of the ledger from now on, where the ledger has rows or fewer ledgers have some than
    /// there can be. Running out of memory leaves the contents as they were.
    pub fn add(&mut self, bookie: BookieIx, ledger: LedgerId, entry: u32) -> Result<(), AllocError>
        requires bookie { bookie < self.old.bookies }
        requires few { words_in self.old ledger ≡ 0 → map.len self.old.words < MAX_LEDGERS }
        ensures ok { OnOk result
            (self.new.contents ≡ set.insert self.old.contents (bookie, ledger, entry)) }
        ensures rows { OnOk result
            (self.new ≡ record (with_room self.old ledger entry) { contents = self.new.contents }) }
        ensures room { OnOk result (entry < 64 * words_in self.new ledger) }
        ensures few { map.len self.new.words ≤ map.len self.old.words + 1 }
        ensures err { OnErr result (self.new ≡ self.old) }
    {
        self.reserve(ledger, entry)?;
        self.put(bookie, ledger, entry);
        Ok(())
    }

    /// The bookie holds the entry from now on, for which the rows of the ledger are long enough.
    fn put(&mut self, bookie: BookieIx, ledger: LedgerId, entry: u32)
        requires bookie { bookie < self.old.bookies }
        requires entry { entry < 64 * words_in self.old ledger }
        ensures { self.new ≡ record self.old { contents = set.insert self.old.contents (bookie, ledger, entry) } }
    {
        match self.tables.get_mut(&ledger) {
            Some(table) => table.insert(bookie, entry),
            None => {}
        }
    }

    /// The bookie holds the entries of the ledger from the first to the last from now on, for which the rows of the
    /// ledger are long enough.
    pub fn add_range(&mut self, bookie: BookieIx, ledger: LedgerId, first: u32, last: u32)
        requires bookie { bookie < self.old.bookies }
        requires last { last < 64 * words_in self.old ledger }
        ensures { self.new ≡ record self.old {
          contents = set.union self.old.contents
              (copies_of bookie ledger (range_with_len first (last + 1 - first)));
        } }
    {
        match self.tables.get_mut(&ledger) {
            Some(table) => table.insert_range(bookie, first, last),
            None => {}
        }
    }

    /// Turns these bits of a word of the bookie's row of the ledger: the entries that they stand for are held where
    /// they were not, and not where they were.
    pub fn toggle(&mut self, bookie: BookieIx, ledger: LedgerId, number: usize, bits: u64)
        requires bookie { bookie < self.old.bookies }
        requires number { number < words_in self.old ledger }
        ensures { self.new ≡ record self.old { contents = turned self.old.contents bookie ledger number bits } }
    {
        let word: Change<()> = Change::Word {
            bookie,
            ledger,
            number,
            bits,
        };
        self.toggle_words(bookie, ledger, &[word]);
    }

    /// Turns the bits of all these words of the bookie's row of the ledger, which is looked up once.
    pub fn toggle_words<M>(&mut self, bookie: BookieIx, ledger: LedgerId, words: &[Change<M>])
        requires bookie { bookie < self.old.bookies }
        requires words { All (IsWordOf (words_in self.old ledger) bookie ledger) words.now }
        ensures { self.new ≡ record self.old {
          contents = turned_all self.old.contents bookie ledger (mapped turn_of words.now);
        } }
    {
        match self.tables.get_mut(&ledger) {
            Some(table) => table.toggle_words(bookie, words),
            None => {}
        }
    }

    /// The turns after which the bookie holds these entries of the ledger too: for each word in which that changes
    /// something, its number and the bits that change. The entries are among those that the ledger's words stand for.
    pub fn delta_of(
        &self,
        alloc: Global,
        bookie: BookieIx,
        ledger: LedgerId,
        entries: &Striped,
    ) -> Result<Vec<Turn>, AllocError>
        requires bookie { bookie < self.now.bookies }
        requires entries { All (λ e. e < 64 * words_in self.now ledger) entries.now }
        ensures { IfOk result (λ turns. IsTurning (words_in self.now ledger) bookie ledger self.now.contents
            (set.union self.now.contents (copies_of bookie ledger entries.now)) turns.items) }
    {
        match self.tables.get(&ledger) {
            Some(table) => {
                let turns = table.delta_of(alloc, bookie, entries)?;
                Ok(turns)
            }
            None => Ok(Vec::new(alloc)),
        }
    }

    /// The words of the bookie's row of the ledger: bit e % 64 of word e / 64 says whether it holds entry e. There are
    /// none for a ledger with no rows.
    pub fn row(&self, bookie: BookieIx, ledger: LedgerId) -> &[u64]
        ensures bits { (e : ℕ) → is_set result.now e ≡ has self.now.contents bookie ledger e }
        ensures words { bookie < self.now.bookies → length result.now ≡ words_in self.now ledger }
    {
        match self.tables.get(&ledger) {
            Some(table) => table.row(bookie),
            None => &[],
        }
    }

    /// Whether each bookie holds the same entries of the ledger here and there, where there are as many bookies and
    /// words. It compares the rows word by word, and takes no memory.
    pub fn has_same_rows(&self, other: &Held, ledger: LedgerId) -> bool
        requires few { self.now.bookies ≤ MAX_BOOKIES }
        requires bookies { self.now.bookies ≡ other.now.bookies }
        requires words { words_in self.now ledger ≡ words_in other.now ledger }
        ensures { IsTrue result ↔ ((b e : ℕ) → b < self.now.bookies
            → has self.now.contents b ledger e ≡ has other.now.contents b ledger e) }
    {
        for bookie in 0..self.bookies {
            if !self.has_same_row(other, BookieIx(bookie as u8), ledger) {
                return false;
            }
        }
        true
    }

    /// Whether the bookie holds the same entries of the ledger here and there, where its rows have as many words.
    fn has_same_row(&self, other: &Held, bookie: BookieIx, ledger: LedgerId) -> bool
        requires bookie { bookie < self.now.bookies }
        requires other { bookie < other.now.bookies }
        requires words { words_in self.now ledger ≡ words_in other.now ledger }
        ensures { IsTrue result
            ↔ ((e : ℕ) → has self.now.contents bookie ledger e ≡ has other.now.contents bookie ledger e) }
    {
        have_same_entries(self.row(bookie, ledger), other.row(bookie, ledger))
    }

    /// Whether the bookie holds the entry of the ledger.
    pub fn holds(&self, bookie: BookieIx, ledger: LedgerId, entry: u32) -> bool
        ensures { result ≡ has self.now.contents bookie ledger entry }
    {
        match self.tables.get(&ledger) {
            Some(table) => table.holds(bookie, entry),
            None => false,
        }
    }

    /// How many entries the bookie holds, of all ledgers.
    pub fn count(&self, bookie: BookieIx) -> usize
        ensures { result ≡ count_held self.now.contents bookie }
    {
        let mut count = 0;
        for table in self.tables.values() {
            count += table.count(bookie);
        }
        count
    }

    /// The greatest entry of the ledger that any bookie holds.
    pub fn greatest(&self, ledger: LedgerId) -> Option<u32>
        ensures { result ≡ greatest_held self.now.contents ledger }
    {
        match self.tables.get(&ledger) {
            Some(table) => table.greatest(),
            None => None,
        }
    }
}
