// In which racks bookies stand.
ghost use Rattle.std.specs.Prelude.{◌≡◌, ℕ, ◌<◌, ◌≤◌, ◌-◌, length, map, min, nat_le, nat_lt, count_by, position, take, unwrap_or, is_some};
ghost use Rattle.std.specs.Prelude.{IfOk, IsTrue, if◌then◌else◌};
ghost use Rattle.std.specs.Prelude.{slice_get, slice_index};
ghost use Rattle.std.specs.List.{filter, list_all, list_any, reduce};
ghost use Rattle.std.specs.Option.{option_map, option_map_or};
ghost use Rattle.reh_types.specs.declared.limits.TheConstants.{MAX_BOOKIES, MAX_ENSEMBLE_SIZE};
ghost use Rattle.reh_model.specs.Metadata.{with_member, writes};
ghost use Rattle.reh_model.specs.Striping as stripe;
ghost use Rattle.reh_plan.specs.Racks as model;

use reh_meta::{Fragment, LedgerMeta};
use reh_stripe::write_set;
use reh_types::{BookieIx, MAX_BOOKIES, MAX_ENSEMBLE_SIZE};
use std::alloc::{AllocError, Global};
use std::marker::Model;

/// The number of a rack that isn't known.
const NO_RACK: u16 = MAX_BOOKIES as u16;

/// The rack of the member at each index of an ensemble, or of each copy of an entry, by the number of the first bookie in it.
/// A rack that isn't known has a number of its own from `NO_RACK` on.
type RackNumbers = [u16; MAX_ENSEMBLE_SIZE as usize];

/// In which rack each bookie stands, and in how many racks the copies of an entry are to stand, if there are as many copies
/// (BookKeeper's `minNumRacksPerWriteQuorum`). A bookie whose rack isn't known may have stood in one of its own; but one that
/// comes counts for none.
#[derive(Drop)]
pub struct Racks {
    /// Of each bookie the number of the first that stands in its rack, or `NO_RACK`.
    numbers: Vec<u16>,
    least: usize,
}

impl Model for Racks {
    ghost use Rattle.reh_plan.specs.Racks.{Racks as RacksValue};

    ghost Value = { RacksValue };

    ghost view = { λ r. record { numbers = r.numbers.items; least = r.least } };
}

impl Racks {
    /// By the names of the bookies' racks, where they are known. If none is, none are asked for.
    pub fn of(alloc: Global, names: &[Option<&str>], least: usize) -> Result<Racks, AllocError>
        requires { length names.now ≤ MAX_BOOKIES }
        ensures { IfOk result (λ racks.
            racks ≡ model.racks_named (map (option_map (λ name. name.now)) names.now) least) }
    {
        Ok(Racks {
            numbers: numbers_of(alloc, names)?,
            least: least_of(names, least),
        })
    }

    /// The same once more.
    pub fn clone_in(&self) -> Result<Racks, AllocError>
        ensures { IfOk result (λ copy. copy ≡ self.now) }
    {
        Ok(Racks {
            numbers: self.numbers.clone()?,
            least: self.least,
        })
    }

    /// Of the write sets of a fragment that may stand in fewer racks than before, and stand in fewer than are asked for, the
    /// least number of racks, if there are any. A new fragment is compared with the last one before.
    pub(crate) fn fewest(
        &self,
        before: &LedgerMeta,
        after: &LedgerMeta,
        fragment: usize,
    ) -> Option<usize>
        ensures { result ≡ model.fewest_racks self.now before.now after.now fragment }
    {
        let number = number_before(before, fragment);
        let old = before.fragments().get(number)?;
        let new = after.fragments().get(fragment)?;
        if have_same_copies(before, old, after, new) {
            return None;
        }
        least_fewer(
            &self.member_racks(old),
            before,
            &self.member_racks(new),
            after,
            self.least,
        )
    }

    /// How many write sets of a fragment would stand in fewer racks than are asked for, with that bookie at the index.
    pub(crate) fn lacking(
        &self,
        metadata: &LedgerMeta,
        fragment: usize,
        index: usize,
        bookie: BookieIx,
    ) -> usize
        ensures { result ≡ model.lacking_at self.now metadata.now fragment index bookie }
    {
        let Some(fragment) = metadata.fragments().get(fragment) else {
            return 0;
        };
        count_lacking(
            &self.member_racks_with(fragment, index, bookie),
            metadata,
            self.least,
        )
    }

    /// The racks of a fragment's members, with that bookie at the index.
    fn member_racks_with(&self, fragment: &Fragment, index: usize, bookie: BookieIx) -> RackNumbers
        requires { length fragment.now.ensemble ≤ MAX_ENSEMBLE_SIZE }
        ensures { let changed = with_member fragment.now index bookie in (i : ℕ) → i < length changed.ensemble
            → slice_index result i ≡ model.rack_of self.now (slice_index changed.ensemble i) }
    {
        let mut racks = self.member_racks(fragment);
        if index < racks.len() {
            racks[index] = self.rack_of(bookie);
        }
        racks
    }

    /// The racks of a fragment's members.
    fn member_racks(&self, fragment: &Fragment) -> RackNumbers
        requires { length fragment.now.ensemble ≤ MAX_ENSEMBLE_SIZE }
        ensures { (index : ℕ) → index < length fragment.now.ensemble
            → slice_index result index ≡ model.rack_of self.now (slice_index fragment.now.ensemble index) }
    {
        let mut racks = [0; MAX_ENSEMBLE_SIZE as usize];
        for index in 0..fragment.ensemble.len() {
            racks[index] = self.rack_of(fragment.ensemble[index]);
        }
        racks
    }

    /// The rack of a bookie.
    fn rack_of(&self, bookie: BookieIx) -> u16
        ensures { result ≡ model.rack_of self.now bookie }
    {
        match self.numbers.get(bookie.0 as usize) {
            Some(number) if *number < NO_RACK => *number,
            _ => NO_RACK + bookie.0 as u16,
        }
    }
}

// Names of racks

/// How many racks are asked for: none if no rack is known.
fn least_of(names: &[Option<&str>], least: usize) -> usize
    ensures { result ≡ (if list_any (λ name. is_some name) names.now then least else 0) }
{
    if is_any_known(names) { least } else { 0 }
}

/// Whether some rack is known.
fn is_any_known(names: &[Option<&str>]) -> bool
    ensures { result ≡ list_any (λ name. is_some name) names.now }
{
    for name in names {
        if name.is_some() {
            return true;
        }
    }
    false
}

/// Of each bookie the number of the first that stands in its rack.
fn numbers_of(alloc: Global, names: &[Option<&str>]) -> Result<Vec<u16>, AllocError>
    requires { length names.now ≤ MAX_BOOKIES }
    ensures { IfOk result (λ numbers. numbers.items ≡ map (λ name. option_map_or (λ rack.
        unwrap_or (position (λ other. model.is_in_rack rack.now (option_map (λ n. n.now) other)) names.now) MAX_BOOKIES)
        name MAX_BOOKIES) names.now) }
{
    let mut numbers = Vec::new(alloc);
    for name in names {
        numbers.push(rack_number(names, name))?;
    }
    Ok(numbers)
}

/// The number of a rack, if it is known.
fn rack_number(names: &[Option<&str>], name: &Option<&str>) -> u16
    requires { length names.now ≤ MAX_BOOKIES }
    ensures { result ≡ option_map_or (λ rack.
        unwrap_or (position (λ other. model.is_in_rack rack.now (option_map (λ n. n.now) other)) names.now) MAX_BOOKIES)
        name.now MAX_BOOKIES }
{
    match name {
        Some(rack) => number_of(names, rack),
        None => NO_RACK,
    }
}

/// The number of a rack: that of the first bookie that stands in it.
fn number_of(names: &[Option<&str>], rack: &str) -> u16
    requires { length names.now ≤ MAX_BOOKIES }
    ensures { result
        ≡ unwrap_or (position (λ other. model.is_in_rack rack.now (option_map (λ n. n.now) other)) names.now) MAX_BOOKIES }
{
    match first_in(names, rack) {
        Some(number) => number as u16,
        None => NO_RACK,
    }
}

/// The place of the first bookie that stands in the rack, if there is one.
fn first_in(names: &[Option<&str>], rack: &str) -> Option<usize>
    ensures { result ≡ position (λ other. model.is_in_rack rack.now (option_map (λ n. n.now) other)) names.now }
{
    for (place, other) in names.iter().enumerate() {
        if is_in_rack(rack, other) {
            return Some(place);
        }
    }
    None
}

/// Whether a bookie with that rack, if it is known, stands in this one.
fn is_in_rack(rack: &str, other: &Option<&str>) -> bool
    ensures { result ≡ model.is_in_rack rack.now (option_map (λ n. n.now) other.now) }
{
    match other {
        Some(other) => rack == *other,
        None => false,
    }
}

// Racks of write sets

/// The number of the fragment before the plan with which that one is compared: its own; or, of a new fragment, that of the last
/// one, from whose ensemble its writer went on.
fn number_before(metadata: &LedgerMeta, fragment: usize) -> usize
    ensures { result ≡ min fragment (length metadata.now.fragments - 1) }
{
    fragment.min(metadata.fragments().len().saturating_sub(1))
}

/// Whether the fragment has the same members as before, in metadata of the same sizes, so that each entry has the same
/// copies.
fn have_same_copies(before: &LedgerMeta, old: &Fragment, after: &LedgerMeta, new: &Fragment) -> bool
    ensures { IsTrue result → (entry : ℕ) → writes after.now new.now entry ≡ writes before.now old.now entry }
{
    have_same_sizes(before, after) && old.ensemble == new.ensemble
}

/// Whether ensembles and write sets are of the same sizes.
fn have_same_sizes(before: &LedgerMeta, after: &LedgerMeta) -> bool
    ensures { IsTrue result → (after.now.size ≡ before.now.size) × (after.now.write_quorum ≡ before.now.write_quorum) }
{
    before.size() == after.size() && before.write_quorum() == after.write_quorum()
}

/// Of the write sets that may stand in fewer racks than before, and stand in fewer than are asked for, the least number of
/// racks, if there are any, by the racks of the members before and after.
fn least_fewer(
    old: &RackNumbers,
    before: &LedgerMeta,
    new: &RackNumbers,
    after: &LedgerMeta,
    least: usize,
) -> Option<usize>
    ensures { let racks = λ (entry : ℕ). map (slice_index new.now)
        (stripe.write_set entry after.now.size after.now.write_quorum) in
        let racks_before = λ (entry : ℕ). map (slice_index old.now)
        (stripe.write_set entry before.now.size before.now.write_quorum) in
        result ≡ reduce min (map (λ entry. model.least_racks (racks entry))
        (filter (λ entry. model.may_be_fewer least (racks_before entry) (racks entry)) (stripe.range 0 after.now.size))) }
{
    let mut fewest: Option<usize> = None;
    for entry in 0..after.size() {
        if is_fewer(old, before, new, after, least, entry) {
            fewest = Some(lesser(fewest, racks_at(new, after, entry)));
        }
    }
    fewest
}

/// The lesser of two numbers, of which the first may be missing.
fn lesser(first: Option<usize>, second: usize) -> usize
    ensures { result ≡ option_map_or (λ first. min first second) first second }
{
    match first {
        Some(first) => first.min(second),
        None => second,
    }
}

/// Whether the write set of an entry may stand in fewer racks than before, and stands in fewer than are asked for.
fn is_fewer(
    old: &RackNumbers,
    before: &LedgerMeta,
    new: &RackNumbers,
    after: &LedgerMeta,
    least: usize,
    entry: u32,
) -> bool
    ensures { result ≡ model.may_be_fewer least
        (map (slice_index old.now) (stripe.write_set entry before.now.size before.now.write_quorum))
        (map (slice_index new.now) (stripe.write_set entry after.now.size after.now.write_quorum)) }
{
    let old = copy_racks(old, before, entry);
    let new = copy_racks(new, after, entry);
    may_be_fewer(
        &old[..before.write_quorum() as usize],
        &new[..after.write_quorum() as usize],
        least,
    )
}

/// Whether racks that come in the place of others may be fewer, and are fewer than are asked for.
fn may_be_fewer(before: &[u16], after: &[u16], least: usize) -> bool
    requires { length before.now ≤ MAX_ENSEMBLE_SIZE }
    ensures { result ≡ model.may_be_fewer least before.now after.now }
{
    !are_among(after, before) && least_racks(after) < least.min(most_racks(before))
}

/// Whether each of some racks is among others.
fn are_among(others: &[u16], racks: &[u16]) -> bool
    ensures { result ≡ list_all (model.is_among others.now) racks.now }
{
    for rack in racks {
        if !others.contains(rack) {
            return false;
        }
    }
    true
}

/// How many write sets stand in fewer racks than are asked for, by the racks of the members.
fn count_lacking(racks: &RackNumbers, metadata: &LedgerMeta, least: usize) -> usize
    ensures { result ≡ count_by (λ entry. nat_lt
        (model.least_racks (map (slice_index racks.now)
        (stripe.write_set entry metadata.now.size metadata.now.write_quorum)))
        (min least metadata.now.write_quorum)) (stripe.range 0 metadata.now.size) }
{
    let wanted = least.min(metadata.write_quorum() as usize);
    if wanted == 0 {
        return 0;
    }
    let mut count = 0;
    for entry in 0..metadata.size() {
        if racks_at(racks, metadata, entry) < wanted {
            count += 1;
        }
    }
    count
}

/// In how many racks the write set of an entry stands at least, by the racks of the members.
fn racks_at(racks: &RackNumbers, metadata: &LedgerMeta, entry: u32) -> usize
    ensures { result ≡ model.least_racks (map (slice_index racks.now)
        (stripe.write_set entry metadata.now.size metadata.now.write_quorum)) }
{
    let copies = copy_racks(racks, metadata, entry);
    least_racks(&copies[..metadata.write_quorum() as usize])
}

/// The racks of the copies of an entry.
fn copy_racks(racks: &RackNumbers, metadata: &LedgerMeta, entry: u32) -> RackNumbers
    ensures { take metadata.now.write_quorum result ≡ map (slice_index racks.now)
        (stripe.write_set entry metadata.now.size metadata.now.write_quorum) }
{
    let mut copies = [0; MAX_ENSEMBLE_SIZE as usize];
    let mut count = 0;
    for index in write_set(entry, metadata.size(), metadata.write_quorum()) {
        copies[count] = racks[index as usize];
        count += 1;
    }
    copies
}

/// How many different racks these are, without those that aren't known.
fn count_racks(racks: &[u16]) -> usize
    ensures different { result ≡ model.count_racks racks.now }
    ensures few { result ≤ length racks.now }
{
    match racks {
        [] => 0,
        [first, rest @ ..] => {
            let others = count_racks(rest);
            if *first >= NO_RACK || rest.contains(first) {
                others
            } else {
                others + 1
            }
        }
    }
}

/// How many different racks these are at least.
fn least_racks(racks: &[u16]) -> usize
    ensures { result ≡ model.least_racks racks.now }
{
    count_racks(racks).max(1)
}

/// How many different racks these can be at most: each that isn't known may be another one.
fn most_racks(racks: &[u16]) -> usize
    requires { length racks.now ≤ MAX_ENSEMBLE_SIZE }
    ensures { result ≡ model.most_racks racks.now }
{
    count_racks(racks) + count_unknown(racks)
}

/// How many racks aren't known.
fn count_unknown(racks: &[u16]) -> usize
    ensures unknown { result ≡ count_by (nat_le MAX_BOOKIES) racks.now }
    ensures few { result ≤ length racks.now }
{
    let mut count = 0;
    for rack in racks {
        if *rack >= NO_RACK {
            count += 1;
        }
    }
    count
}
