// A table of counts: the entries of a fragment by their members that hold them and those that nobody told of.
ghost use Rattle.std.specs.Prelude.{◌≡◌, ◌+◌, ◌^◌, ◌<◌, ◌==◌, ℕ, Bool, true, cond, IfOk, IfSome, OnOk, length, slice_index_or};
ghost use Rattle.reh_tally.specs.declared.lines.Line.{Line as LineValue};
ghost use Rattle.reh_tally.specs.Lines as model;

use std::alloc::{AllocError, Global};
use std::marker::Model;

/// How many lines a table has at first.
const FIRST: usize = 16;

/// So many entries with these known and these untold members, as masks. A line without entries is free.
#[derive(Clone, Copy)]
pub(crate) struct Line {
    pub(crate) known: u64,
    pub(crate) untold: u64,
    pub(crate) count: u64,
}

/// Lines, each at a place that hangs on its masks, or after it, and how many aren't free. Contracts see the list.
#[derive(Drop)]
pub(crate) struct Lines {
    places: Vec<Line>,
    used: usize,
}

impl Model for Lines {
    ghost use Rattle.std.specs.Prelude.{List};
    ghost use Rattle.reh_tally.specs.declared.lines.Line.{Line};

    ghost Value = { List Line };

    ghost view = { λ lines. lines.places.items };
}

/// So many free lines.
fn free_lines(alloc: Global, count: usize) -> Result<Vec<Line>, AllocError>
    ensures { IfOk result (λ places. (test : ℕ → ℕ → Bool) → model.count_lines places.items test ≡ 0) }
{
    let line = Line {
        known: 0,
        untold: 0,
        count: 0,
    };
    let places = vec![in alloc; line; count]?;
    Ok(places)
}

/// Whether entries with these masks may be counted here.
fn is_for(line: &Line, known: u64, untold: u64) -> bool
    ensures { result ≡ model.is_for line.now known untold }
{
    line.count == 0 || (line.known == known && line.untold == untold)
}

/// A number in which each bit hangs on all bits of the masks.
fn spread(known: u64, untold: u64) -> u64
    ensures { result < 2 ^ 32 }
{
    let known = known.wrapping_mul(0x9e37_79b9_7f4a_7c15);
    let mixed = known.wrapping_add(untold.wrapping_mul(0xc2b2_ae3d_27d4_eb4f));
    (mixed >> 32).wrapping_mul(0xff51_afd7_ed55_8ccd) >> 32
}

/// The place of these masks, if there is one.
fn place_of(places: &[Line], known: u64, untold: u64) -> Option<usize>
    ensures within { IfSome result (λ place. place < length places.now) }
    ensures fits { IfSome result (λ place. (d : LineValue)
        → model.is_for (slice_index_or places.now place d) known untold ≡ true) }
{
    let start = spread(known, untold) as usize;
    for step in 0..places.len() {
        let place = (start + step) & (places.len() - 1);
        if is_for(&places[place], known, untold) {
            return Some(place);
        }
    }
    None
}

/// Counts the line's entries: at its place, or, where there is none, as a line of their own. Says whether a free line was
/// taken, or one added.
fn put(places: &mut Vec<Line>, line: Line) -> Result<bool, AllocError>
    ensures { OnOk result ((test : ℕ → ℕ → Bool) → model.count_lines places.new.items test
        ≡ model.count_lines places.old.items test + cond (test line.known line.untold) line.count 0) }
{
    if let Some(place) = place_of(places, line.known, line.untold) {
        let was = places[place].count;
        if let Some(count) = was.checked_add(line.count) {
            places[place] = Line {
                known: line.known,
                untold: line.untold,
                count,
            };
            return Ok(was == 0);
        }
    }
    places.push(line)?;
    Ok(true)
}

/// The same counts in twice as many lines.
fn doubled(alloc: Global, places: &[Line]) -> Result<Vec<Line>, AllocError>
    ensures { IfOk result (λ more. (test : ℕ → ℕ → Bool)
        → model.count_lines more.items test ≡ model.count_lines places.now test) }
{
    let mut more = free_lines(alloc, places.len().saturating_mul(2))?;
    for line in places {
        put(&mut more, *line)?;
    }
    Ok(more)
}

impl Lines {
    /// No entries.
    pub(crate) fn new(alloc: Global) -> Result<Lines, AllocError>
        ensures { IfOk result (λ lines. (test : ℕ → ℕ → Bool) → model.count_lines lines test ≡ 0) }
    {
        let places = free_lines(alloc, FIRST)?;
        Ok(Lines { places, used: 0 })
    }

    /// Doubles the table where half of its lines are used.
    fn make_room(&mut self, alloc: Global) -> Result<(), AllocError>
        ensures { OnOk result ((test : ℕ → ℕ → Bool)
            → model.count_lines self.new test ≡ model.count_lines self.old test) }
    {
        if self.used >= self.places.len() / 2 {
            let places = doubled(alloc, &self.places)?;
            self.places = places;
        }
        Ok(())
    }

    /// Counts the line's entries.
    pub(crate) fn add(&mut self, alloc: Global, line: Line) -> Result<(), AllocError>
        ensures { OnOk result ((test : ℕ → ℕ → Bool) → model.count_lines self.new test
            ≡ model.count_lines self.old test + cond (test line.known line.untold) line.count 0) }
    {
        self.make_room(alloc)?;
        let is_new = put(&mut self.places, line)?;
        self.used = self.used.saturating_add(is_new as usize);
        Ok(())
    }

    /// The lines, free ones among them.
    pub(crate) fn as_slice(&self) -> &[Line]
        ensures { result.now ≡ self.now }
    {
        &self.places
    }
}
