// The table of copies.
ghost use Rattle.std.specs.Prelude.{◌≡◌, ◌==◌, ◌^◌, ◌≤◌, All, ℕ, length};
ghost use Rattle.reh_census.specs.Bookies.{is_flagged};
ghost use Rattle.reh_census.specs.Copies.{left};
ghost use Rattle.reh_census.specs.Counting.{count_in, entries_in};

use crate::entries::{count_if, count_stopped};
use reh_census::{BookieSet, Class, Counted};

/// How many known copies an entry of this class has, without the stopped bookies.
fn copies_left(stopped: &BookieSet, class: &Class) -> usize
    ensures { result ≡ left (is_flagged stopped.now) class.now.known }
{
    class.known.as_slice().len() - count_stopped(stopped, class.known.as_slice())
}

/// How many entries have this many known copies, without the stopped bookies.
pub fn entries_with(census: &[Counted], stopped: &BookieSet, copies: usize) -> u64
    requires { entries_in census.now ≤ 2 ^ 63 }
    ensures { result ≡ count_in census.now (λ class. left (is_flagged stopped.now) class.known == copies) }
{
    let mut entries = 0;
    for counted in census {
        let has = copies_left(stopped, &counted.class) == copies;
        entries += count_if(has, counted.count);
    }
    entries
}

/// The most known copies that a class has; 0 where there is none.
pub fn most_copies(census: &[Counted]) -> usize
    ensures most { All (λ c. length c.class.known ≤ result) census.now }
    ensures least { (k : ℕ) → All (λ c. length c.class.known ≤ k) census.now → result ≤ k }
{
    let mut most = 0;
    for counted in census {
        most = most.max(counted.class.known.as_slice().len());
    }
    most
}
