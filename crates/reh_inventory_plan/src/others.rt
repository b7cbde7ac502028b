// Which bookies are offered the places of a ledger, besides those that its line names.
use crate::asked::{Asked, is_among, passes, stays_up};
use reh_census_file::NameList;
use reh_cut::names_bookie;
use reh_inventory::{Bookie, Head, LedgerLine, Name};
use reh_types::MAX_BOOKIES;
use std::alloc::{AllocError, Global};

/// The bookies of the first line that may take places, by their numbers there.
#[derive(Drop)]
pub(crate) struct Takers {
    numbers: Vec<usize>,
}

impl Takers {
    /// Those of this first line.
    pub(crate) fn of(alloc: Global, head: &Head, asked: &Asked) -> Result<Takers, AllocError> {
        let mut numbers = Vec::new(alloc);
        for (number, bookie) in head.bookies.as_slice().iter().enumerate() {
            if may_take(bookie, asked) {
                numbers.push(number)?;
            }
        }
        Ok(Takers { numbers })
    }

    /// The bookies that are offered the places of this ledger, by their numbers: as many as there are missing members of one
    /// ensemble, of each rack. They come in an order that the ledger's id mixes, so that work is shared out over many ledgers.
    pub(crate) fn others_for(
        &self,
        alloc: Global,
        head: &Head,
        lost: &NameList,
        line: &LedgerLine,
    ) -> Result<Vec<usize>, AllocError> {
        let most = most_missing(head, lost, line);
        let mut others = Vec::new(alloc);
        let mut racks = Vec::new(alloc);
        for (_, number) in self.order_for(alloc, line.id)? {
            let Some(bookie) = head.bookies.as_slice().get(number) else {
                continue;
            };
            if others.len() < MAX_BOOKIES
                && !names_bookie(line, bookie.name.as_str())
                && count_of(&racks, &bookie.rack) < most
            {
                others.push(number)?;
                racks.push(&bookie.rack)?;
            }
        }
        Ok(others)
    }

    /// All of them in the order that an id mixes.
    fn order_for(&self, alloc: Global, id: u64) -> Result<Vec<(u64, usize)>, AllocError> {
        let mut order = Vec::new(alloc);
        for number in &self.numbers {
            order.push((mixed(id, *number as u64), *number))?;
        }
        order.sort()?;
        Ok(order)
    }
}

/// A number that an id and a bookie's number mix, by the steps of SplitMix64.
fn mixed(id: u64, number: u64) -> u64 {
    let both = id
        .wrapping_mul(0x9e3779b97f4a7c15)
        .wrapping_add(number.wrapping_mul(0xd1b54a32d192ed03));
    let both = (both ^ (both >> 30)).wrapping_mul(0xbf58476d1ce4e5b9);
    let both = (both ^ (both >> 27)).wrapping_mul(0x94d049bb133111eb);
    both ^ (both >> 31)
}

/// Whether a bookie may take places.
fn may_take(bookie: &Bookie, asked: &Asked) -> bool {
    let name = bookie.name.as_str();
    bookie.is_up
        && !bookie.is_read_only
        && !is_among(&asked.lost, name)
        && passes(&asked.allowed, true, name)
}

/// How many members are missing from one ensemble of the ledger, at most.
fn most_missing(head: &Head, lost: &NameList, line: &LedgerLine) -> usize {
    let mut most = 0;
    for fragment in line.fragments.as_slice() {
        most = most.max(count_missing(head, lost, fragment.ensemble.as_slice()));
    }
    most
}

/// How many of these members are missing.
fn count_missing(head: &Head, lost: &NameList, members: &[Name]) -> usize {
    let mut count: usize = 0;
    for member in members {
        if !stays_up(head, lost, member.as_str()) {
            count = count.saturating_add(1);
        }
    }
    count
}

/// How many of these racks are this one.
fn count_of(racks: &[&Option<Name>], rack: &Option<Name>) -> usize {
    let mut count: usize = 0;
    for other in racks {
        if is_same(other, rack) {
            count = count.saturating_add(1);
        }
    }
    count
}

/// Whether both are the same rack, or neither is known.
fn is_same(one: &Option<Name>, other: &Option<Name>) -> bool {
    match (one, other) {
        (Some(one), Some(other)) => one.as_str() == other.as_str(),
        (None, None) => true,
        _ => false,
    }
}
