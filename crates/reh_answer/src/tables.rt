// How many entries have how many known copies.
ghost use Rattle.std.specs.Prelude.{◌≡◌, IfOk};
ghost use Rattle.reh_census.specs.Bookies.{is_flagged};
ghost use Rattle.reh_census.specs.Counting.{counting_in};
ghost use Rattle.reh_answer.specs.Facts as model;

use reh_census::{BookieSet, Census, Counted};
use reh_rules::entries_with;
use std::alloc::{AllocError, Global};
use std::marker::Model;

/// Numbers of entries. Contracts see the list.
#[derive(Drop)]
pub struct Counts {
    items: Vec<u64>,
}

impl Model for Counts {
    ghost use Rattle.std.specs.Prelude.{List, ℕ};

    ghost Value = { List ℕ };

    ghost view = { λ counts. counts.items.items };
}

impl Counts {
    /// These numbers.
    pub fn of(items: Vec<u64>) -> Counts
        ensures { result ≡ items.items }
    {
        Counts { items }
    }

    /// The numbers, as a slice.
    pub fn as_slice(&self) -> &[u64]
        ensures { result.now ≡ self.now }
    {
        &self.items
    }
}

/// How many known copies an entry of this class has, if there is one.
fn copies_in(counted: &Counted) -> usize
    ensures { result ≡ model.copies_in counted.now }
{
    if counted.count > 0 {
        counted.class.known.as_slice().len()
    } else {
        0
    }
}

/// The most known copies that an entry has.
pub(crate) fn most_copies(census: &[Counted]) -> usize
    ensures { result ≡ model.most_copies census.now }
{
    let mut most = 0;
    for counted in census {
        most = most.max(copies_in(counted));
    }
    most
}

/// How many entries have 0, 1, .. up to so many known copies, without the stopped bookies.
pub(crate) fn table_of(
    alloc: Global,
    census: &Census,
    stopped: &BookieSet,
    most: usize,
) -> Result<Counts, AllocError>
    ensures { IfOk result (λ counts. counts ≡ model.table (counting_in census.now) (is_flagged stopped.now) most) }
{
    let mut counts = Vec::new(alloc);
    for copies in 0..most {
        counts.push(entries_with(census.entries(), stopped, copies))?;
    }
    counts.push(entries_with(census.entries(), stopped, most))?;
    Ok(Counts::of(counts))
}
