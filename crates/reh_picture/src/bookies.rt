// The bookies of a picture.
ghost use Rattle.std.specs.Prelude.{◌≡◌, ◌<◌, ◌≤◌, [], ◌∷◌, ◌++◌, length, map, None, Some, if◌then◌else◌, IfOk, OnOk};
ghost use Rattle.serde_json.specs.View.{view};
ghost use Rattle.reh_types.specs.declared.limits.TheConstants.{MAX_BOOKIES};
ghost use Rattle.reh_fields.specs.Members.{text_of, list_of};
ghost use Rattle.reh_picture.specs.Places.{FailsAt, fault_at};
ghost use Rattle.reh_picture.specs.Bookies.{bookie_fault, each_bookie_fault, bookies_fault, names_in, registration_in};
ghost use Rattle.reh_picture.specs.Bookies.{registrations_in};

use crate::members::list_of_picture;
use crate::places::{LocatedFault, Place};
use reh_cluster::Names;
use reh_fields::members::flag;
use reh_fields::names::read_name;
use reh_fields::{Field, PictureFault};
use reh_types::MAX_BOOKIES;
use serde_json::Value;
use std::alloc::Global;

/// The names of a picture's bookies, and their registrations.
#[tactic(auto, unfolding(crate::specs::Bookies::bookies_fault))]
pub(crate) fn read_bookies(
    alloc: Global,
    picture: &Value,
) -> Result<(Names, Vec<Option<u64>>), LocatedFault>
    ensures fault { FailsAt result (bookies_fault (view picture.now)) }
    ensures names { IfOk result (λ r. r.0 ≡ names_in (list_of (view picture.now) Field.Bookies)) }
    ensures registrations { IfOk result
        (λ r. r.1.items ≡ registrations_in (list_of (view picture.now) Field.Bookies)) }
    ensures some { IfOk result (λ r. 0 < length r.0) }
{
    let bookies = list_of_picture(picture, Field::Bookies, 1, MAX_BOOKIES)?;
    read_each_bookie(alloc, bookies)
}

/// The names of at most 64 bookies, and their registrations.
#[tactic(auto, unfolding(crate::specs::Bookies::each_bookie_fault))]
fn read_each_bookie(
    alloc: Global,
    bookies: &[Value],
) -> Result<(Names, Vec<Option<u64>>), LocatedFault>
    requires { length bookies.now ≤ MAX_BOOKIES }
    ensures count { IfOk result (λ r. length r.0 ≡ length bookies.now) }
    ensures names { IfOk result (λ r. r.0 ≡ names_in (map view bookies.now)) }
    ensures registrations { IfOk result
        (λ r. r.1.items ≡ registrations_in (map view bookies.now)) }
    ensures fault { FailsAt result (each_bookie_fault (map view bookies.now)) }
{
    let mut lost_at = Vec::with_capacity(alloc, bookies.len())?;
    let mut names = Names::new(alloc);
    for (i, bookie) in bookies.iter().enumerate() {
        add_bookie(alloc, &mut names, &mut lost_at, i, bookie)?;
    }
    Ok((names, lost_at))
}

/// The registration of a bookie as the clock starts: one that isn't registered was lost at tick 0.
fn registration_of(registered: bool) -> Option<u64>
    ensures { result ≡ (if registered then None else Some 0) }
{
    if registered { None } else { Some(0) }
}

/// Adds the name and the registration of the bookie of this number. After an `Err` the names may have its name.
fn add_bookie(
    alloc: Global,
    names: &mut Names,
    lost_at: &mut Vec<Option<u64>>,
    number: usize,
    bookie: &Value,
) -> Result<(), LocatedFault>
    requires { length names.old < MAX_BOOKIES }
    ensures fault { FailsAt result
        (fault_at (Place.Bookie number) (bookie_fault names.old (view bookie.now))) }
    ensures named { OnOk result
        (names.new ≡ names.old ++ text_of (view bookie.now) Field.Name ∷ []) }
    ensures registered { OnOk result
        (lost_at.new.items ≡ lost_at.old.items ++ registration_in (view bookie.now) ∷ []) }
{
    if let Err(fault) = read_name(alloc, names, bookie) {
        return Err(LocatedFault::new(fault, Place::Bookie(number)));
    }
    match flag(bookie, Field::Up) {
        Ok(is_up) => Ok(lost_at.push(registration_of(is_up))?),
        Err(fault) => Err(LocatedFault::new(fault, Place::Bookie(number))),
    }
}
