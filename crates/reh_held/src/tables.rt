// Tables of rows.
ghost use Rattle.std.specs.Prelude.{◌≡◌, ℕ, ◌*◌, ◌^◌, ◌<◌, ◌≤◌, ◌==◌, ◌&&◌, ◌||◌, Bool, false, length, map, All, IfOk};
ghost use Rattle.std.specs.List.{list_any};
ghost use Rattle.reh_model.specs.Contents.{one_of};
ghost use Rattle.reh_stripe.specs.Words.{is_between};
ghost use Rattle.reh_held.specs.Rows.{is_set, entries_in, IsGreatest};
ghost use Rattle.reh_held.specs.RowTurns.{turn_of, is_turned, IsWordWithin, IsRowTurning};
ghost use Rattle.reh_held.specs.Tables.{row_at, IsTable};
ghost use Rattle.reh_held.specs.declared.rows.TheConstants.{MAX_WIDTH};

use crate::rows::{MAX_WIDTH, Row};
use crate::turns::Turn;
use reh_stripe::Striped;
use reh_types::{BookieIx, Change};
use std::alloc::{AllocError, Global};
use std::marker::Model;

/// What all bookies hold of one ledger: a row for each, all with as many words.
#[derive(Drop)]
pub(crate) struct Table {
    width: usize,
    rows: Vec<Row>,
}

impl Model for Table {
    ghost use Rattle.reh_held.specs.Tables.{TableValue};

    ghost Value = { TableValue };

    ghost view = { λ a. record { width = a.width; rows = a.rows.items } };
}

impl Clone for Table {
    ghost is_clone = { λ table copy. copy ≡ table };

    fn clone(&self) -> Result<Table, AllocError> {
        let rows = self.rows.clone()?;
        Ok(Table {
            width: self.width,
            rows,
        })
    }
}

impl Table {
    /// A table for so many bookies, of whom none holds an entry.
    pub(crate) fn new(alloc: Global, bookies: usize, width: usize) -> Result<Table, AllocError>
        requires { width ≤ MAX_WIDTH }
        ensures width { IfOk result (λ table. table.width ≡ width) }
        ensures table { IfOk result (IsTable bookies) }
        ensures none { IfOk result (λ table. (b e : ℕ) → is_set (row_at table b) e ≡ false) }
    {
        let mut rows = Vec::with_capacity(alloc, bookies)?;
        for _ in 0..bookies {
            rows.push(Row::new(alloc, width)?)?;
        }
        Ok(Table { width, rows })
    }

    /// The same entries in rows of so many words.
    pub(crate) fn longer(&self, alloc: Global, width: usize) -> Result<Table, AllocError>
        requires table { IsTable (length self.now.rows) self.now }
        requires longer { self.now.width ≤ width }
        requires small { width ≤ MAX_WIDTH }
        ensures width { IfOk result (λ table. table.width ≡ width) }
        ensures table { IfOk result (IsTable (length self.now.rows)) }
        ensures same { IfOk result
            (λ table. (b e : ℕ) → is_set (row_at table b) e ≡ is_set (row_at self.now b) e) }
    {
        let mut rows = Vec::with_capacity(alloc, self.rows.len())?;
        for row in &self.rows {
            rows.push(row.longer(alloc, width)?)?;
        }
        Ok(Table { width, rows })
    }

    /// How many words each row has.
    pub(crate) fn width(&self) -> usize
        ensures { result ≡ self.now.width }
    {
        self.width
    }

    /// The words of the bookie's row.
    pub(crate) fn row(&self, bookie: BookieIx) -> &[u64]
        ensures { result.now ≡ row_at self.now bookie }
    {
        match self.rows.get(bookie.0 as usize) {
            Some(row) => row.as_slice(),
            None => &[],
        }
    }

    /// Puts the entry into the bookie's row.
    pub(crate) fn insert(&mut self, bookie: BookieIx, entry: u32)
        requires table { IsTable (length self.old.rows) self.old }
        requires bookie { bookie < length self.old.rows }
        requires entry { entry < 64 * self.old.width }
        ensures width { self.new.width ≡ self.old.width }
        ensures table { IsTable (length self.old.rows) self.new }
        ensures bits { (b e : ℕ) → is_set (row_at self.new b) e
            ≡ ((b == bookie && e == entry) || is_set (row_at self.old b) e) }
    {
        self.rows[bookie.0 as usize].insert(entry);
    }

    /// Puts the entries from the first to the last into the bookie's row.
    pub(crate) fn insert_range(&mut self, bookie: BookieIx, first: u32, last: u32)
        requires table { IsTable (length self.old.rows) self.old }
        requires bookie { bookie < length self.old.rows }
        requires last { last < 64 * self.old.width }
        ensures width { self.new.width ≡ self.old.width }
        ensures table { IsTable (length self.old.rows) self.new }
        ensures bits { (b e : ℕ) → is_set (row_at self.new b) e
            ≡ ((b == bookie && is_between first last e) || is_set (row_at self.old b) e) }
    {
        self.rows[bookie.0 as usize].insert_range(first, last);
    }

    /// Turns the bits of these words of the bookie's row.
    pub(crate) fn toggle_words<M>(&mut self, bookie: BookieIx, words: &[Change<M>])
        requires table { IsTable (length self.old.rows) self.old }
        requires bookie { bookie < length self.old.rows }
        requires words { All (IsWordWithin self.old.width) words.now }
        ensures width { self.new.width ≡ self.old.width }
        ensures table { IsTable (length self.old.rows) self.new }
        ensures bits { (b e : ℕ) → is_set (row_at self.new b) e
            ≡ one_of (is_set (row_at self.old b) e) (b == bookie && is_turned (map turn_of words.now) e) }
    {
        self.rows[bookie.0 as usize].toggle_words(words);
    }

    /// The turns after which the bookie's row has these entries too.
    pub(crate) fn delta_of(
        &self,
        alloc: Global,
        bookie: BookieIx,
        entries: &Striped,
    ) -> Result<Vec<Turn>, AllocError>
        requires table { IsTable (length self.now.rows) self.now }
        requires bookie { bookie < length self.now.rows }
        requires entries { All (λ e. e < 64 * self.now.width) entries.now }
        ensures { IfOk result (λ turns. IsRowTurning (row_at self.now bookie)
            (λ e. is_set (row_at self.now bookie) e || list_any (λ x. e == x) entries.now) turns.items) }
    {
        let turns = self.rows[bookie.0 as usize].delta_of(alloc, entries)?;
        Ok(turns)
    }

    /// Whether the bookie's row has the entry.
    pub(crate) fn holds(&self, bookie: BookieIx, entry: u32) -> bool
        ensures { result ≡ is_set (row_at self.now bookie) entry }
    {
        match self.rows.get(bookie.0 as usize) {
            Some(row) => row.holds(entry),
            None => false,
        }
    }

    /// How many entries the bookie's row has.
    pub(crate) fn count(&self, bookie: BookieIx) -> usize
        requires { IsTable (length self.now.rows) self.now }
        ensures value { result ≡ length (entries_in (row_at self.now bookie)) }
        ensures bound { result ≤ 2 ^ 32 }
    {
        match self.rows.get(bookie.0 as usize) {
            Some(row) => row.count(),
            None => 0,
        }
    }

    /// The greatest entry of any row.
    pub(crate) fn greatest(&self) -> Option<u32>
        requires { IsTable (length self.now.rows) self.now }
        ensures { IsGreatest (λ e. list_any (λ row. is_set row e) self.now.rows) result }
    {
        let mut greatest = None;
        for row in &self.rows {
            greatest = greater(greatest, row.greatest());
        }
        greatest
    }
}

/// The greater of two entries, if there is one.
fn greater(first: Option<u32>, second: Option<u32>) -> Option<u32>
    ensures { (p q : ℕ → Bool) → IsGreatest p first → IsGreatest q second
        → IsGreatest (λ e. p e || q e) result }
{
    match (first, second) {
        (Some(first), Some(second)) => Some(first.max(second)),
        (Some(first), None) => Some(first),
        (None, second) => second,
    }
}
