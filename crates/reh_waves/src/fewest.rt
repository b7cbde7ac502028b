// How many bookies may fail before an entry is lost.
ghost use Rattle.std.specs.Prelude.{◌≡◌, ◌++◌, ◌∷◌, [], List};
ghost use Rattle.reh_census.specs.Copies.{is_in};
ghost use Rattle.reh_census.specs.Counting.{count_in};
ghost use Rattle.reh_census.specs.declared.classes.Counted.{Counted as CountedValue};
ghost use Rattle.reh_waves.specs.Fewest as model;
ghost use Rattle.reh_waves.specs.Fewest.{AreFewest};

use reh_census::Counted;

/// Whether the bookie is one of these.
fn is_member(names: &[u16], bookie: u16) -> bool
    ensures { result ≡ is_in names.now bookie }
{
    names.contains(&bookie)
}

/// How many different bookies these are.
fn how_many(names: &[u16]) -> usize
    ensures { result ≡ model.how_many names.now }
{
    let mut count = 0;
    for number in 0..names.len() {
        if !is_member(&names[number + 1..], names[number]) {
            count += 1;
        }
    }
    count
}

/// The less of the two numbers.
fn least_of(least: Option<usize>, number: usize) -> usize
    ensures { result ≡ model.least_of least number }
{
    match least {
        Some(least) => least.min(number),
        None => number,
    }
}

/// The fewest known copies where there are these entries more.
fn fewest_with(fewest: Option<usize>, counted: &Counted) -> Option<usize>
    ensures { (entries : List CountedValue) → AreFewest (count_in entries) fewest
        → AreFewest (count_in (entries ++ counted.now ∷ [])) result }
{
    if counted.count == 0 {
        return fewest;
    }
    let known = counted.class.known.as_slice();
    if known.len() == 0 {
        return fewest;
    }
    Some(least_of(fewest, how_many(known)))
}

/// The fewest known copies of any entry that has one.
pub(crate) fn fewest_copies(entries: &[Counted]) -> Option<usize>
    ensures { AreFewest (count_in entries.now) result }
{
    let mut fewest = None;
    for counted in entries {
        fewest = fewest_with(fewest, counted);
    }
    fewest
}
