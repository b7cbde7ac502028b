// Ranges of entries, as a picture lists them.
ghost use Rattle.std.specs.Prelude.{◌≡◌, true};
ghost use Rattle.std.specs.List.{list_any};
ghost use Rattle.reh_cut.specs.Ranges as model;

/// Whether the ranges are in order, by their first and by their last entries.
pub(crate) fn are_in_order(ranges: &[(u32, u32)]) -> bool
    ensures { result ≡ true → model.AreInOrder ranges.now }
{
    ranges.is_sorted_by(|range, next| range.0 <= next.0 && range.1 <= next.1)
}

/// Whether one of the ranges, which are in order, has the entry.
fn find_around(ranges: &[(u32, u32)], entry: u64) -> bool
    requires { model.AreInOrder ranges.now }
    ensures { result ≡ list_any (model.is_within entry) ranges.now }
{
    let place = ranges.partition_point(|range| (range.1 as u64) < entry);
    if place == ranges.len() {
        return false;
    }
    ranges[place].0 as u64 <= entry
}

/// Whether one of the ranges has the entry. Of ranges that are in order few are looked at.
pub(crate) fn are_around(ranges: &[(u32, u32)], are_in_order: bool, entry: u64) -> bool
    requires { are_in_order ≡ true → model.AreInOrder ranges.now }
    ensures { result ≡ list_any (model.is_within entry) ranges.now }
{
    if are_in_order {
        return find_around(ranges, entry);
    }
    for range in ranges {
        if range.0 as u64 <= entry && entry <= range.1 as u64 {
            return true;
        }
    }
    false
}
