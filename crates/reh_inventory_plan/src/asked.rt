// What is asked of an inventory's ledgers, and for which of them there is a plan.
ghost use Rattle.std.specs.Prelude.{◌≡◌, true, false};
ghost use Rattle.reh_inventory_plan.specs.Asked as model;

use reh_census_file::NameList;
use reh_cut::{Assume, bookie_in};
use reh_inventory::{Head, LedgerLine, Name};

/// Which bookies are lost, and how the work is to be planned.
#[derive(Drop)]
pub struct Asked {
    /// The bookies that are lost.
    pub lost: NameList,
    /// The bookies that may take places. If there are none, all may.
    pub allowed: NameList,
    /// In how many racks the copies of an entry are to stand, if there are as many copies.
    pub min_racks: usize,
    /// What stands for what nobody tells of a bookie's entries.
    pub assume: Assume,
    /// Whether writers put other bookies into their ensembles themselves.
    pub writers_roll: bool,
    /// Whether pictures and scripts are kept.
    pub keeps_files: bool,
}

/// Whether the name is one of these.
pub(crate) fn is_among(names: &NameList, name: &str) -> bool
    ensures { result ≡ model.is_among names.now name.now }
{
    names.find(name.as_bytes()).is_some()
}

/// Whether the name is one of these, or any will do where there are none.
pub(crate) fn passes(names: &NameList, any_if_none: bool, name: &str) -> bool
    ensures { result ≡ model.passes names.now any_if_none name.now }
{
    any_if_none && names.is_empty() || is_among(names, name)
}

/// Whether the bookie of that name stays registered without the lost ones.
pub(crate) fn stays_up(head: &Head, lost: &NameList, name: &str) -> bool
    ensures { result ≡ model.stays_up head.now lost.now name.now }
{
    let is_up = match bookie_in(head, name) {
        Some(bookie) => bookie.is_up,
        None => false,
    };
    is_up && !is_among(lost, name)
}

/// Whether some of these members doesn't stay registered.
fn misses_one(head: &Head, lost: &NameList, members: &[Name]) -> bool
    ensures { result ≡ model.misses_one head.now lost.now members.now }
{
    for member in members {
        if !stays_up(head, lost, member.as_str()) {
            return true;
        }
    }
    false
}

/// Whether some member of the ledger's ensembles doesn't stay registered.
pub(crate) fn misses_member(head: &Head, lost: &NameList, line: &LedgerLine) -> bool
    ensures { result ≡ model.misses_member head.now lost.now line.now }
{
    for fragment in line.fragments.as_slice() {
        if misses_one(head, lost, fragment.ensemble.as_slice()) {
            return true;
        }
    }
    false
}
