// Contents of bookies that came back without their disks.
ghost use Rattle.std.specs.Prelude.{◌≡◌};
ghost use Rattle.std.specs.List.{list_any};
ghost use Rattle.reh_inventory_census.specs.Empties as model;

use crate::counted::number_of;
use reh_census::Bookies;
use reh_census_file::NameList;
use reh_inventory::{Content, Entries};

/// Whether a content says that its bookie holds entries.
fn holds_any(content: &Content) -> bool
    ensures { result ≡ model.holds_any content.now.entries }
{
    match &content.entries {
        Entries::Holds(ranges) => !ranges.as_slice().is_empty(),
        Entries::Lacks(_) => true,
    }
}

/// Whether it says so of a bookie that came back without its disk.
fn holds_though_empty(names: &NameList, bookies: &Bookies, content: &Content) -> bool
    ensures { result ≡ model.holds_though_empty names.now bookies.now content.now }
{
    bookies.is_empty(number_of(names, &content.bookie)) && holds_any(content)
}

/// Whether one of these contents does.
pub(crate) fn are_refilled(names: &NameList, bookies: &Bookies, contents: &[Content]) -> bool
    ensures { result ≡ list_any (model.holds_though_empty names.now bookies.now) contents.now }
{
    for content in contents {
        if holds_though_empty(names, bookies, content) {
            return true;
        }
    }
    false
}
