// The plan for a picture, whose bookies are asked for by name.
ghost use Rattle.std.specs.Prelude.{◌≡◌, ℕ, map, IfOk, Ok};
ghost use Rattle.reh_picture.specs.Listings.{Lists};
ghost use Rattle.reh_picture.specs.Pictures.{picture_of};
ghost use Rattle.reh_types.specs.Sets as set;
ghost use Rattle.reh_inventory_plan.specs.Pictures as model;

use crate::asked::Asked;
use crate::faults::Unplanned;
use crate::flags::{named_flags, read_only_flags, set_of};
use reh_cluster::{Names, State};
use reh_cut::CutFault;
use reh_picture::{BookieMarks, PictureFault, list_picture, read_picture};
use reh_plan::{Planned, Racks, plan};
use reh_types::{BookieSet, MAX_BOOKIES};
use std::alloc::{AllocError, Global};

/// What is asked of a picture's bookies, by their numbers: who is lost, who may work, who is read-only; and in which racks
/// they stand.
#[derive(Drop)]
pub(crate) struct Part {
    lost: BookieSet,
    allowed: BookieSet,
    read_only: BookieSet,
    racks: Racks,
}

/// The plan for the picture of this text.
pub(crate) fn plan_picture(alloc: Global, asked: &Asked, text: &[u8]) -> Result<Planned, Unplanned>
    ensures { IfOk result (model.IsPicturePlan asked.now text.now) }
{
    let state = state_in(alloc, text)?;
    let listed = list_picture(alloc, text)?;
    plan_state(alloc, asked, state, &listed.marks)
}

/// The plan for a cluster whose bookies have these marks.
fn plan_state(
    alloc: Global,
    asked: &Asked,
    state: State,
    marks: &[BookieMarks],
) -> Result<Planned, Unplanned>
    ensures { IfOk result (model.IsPlanAsked asked.now state marks.now) }
{
    let part = part_of(alloc, asked, state.names(), marks)?;
    plan_by(alloc, state, &part, asked.writers_roll)
}

/// The state that the text shows, as a picture that was cut.
fn state_in(alloc: Global, text: &[u8]) -> Result<State, Unplanned>
    ensures { IfOk result (λ state. picture_of text.now ≡ Ok state) }
{
    match read_picture(alloc, text) {
        Ok(state) => Ok(state),
        Err(PictureFault::NoMemory) => Err(Unplanned::NoMemory),
        Err(_) => Err(Unplanned::NoPicture(CutFault::Differs)),
    }
}

/// What is asked of bookies with these names and marks.
fn part_of(
    alloc: Global,
    asked: &Asked,
    names: &Names,
    marks: &[BookieMarks],
) -> Result<Part, AllocError>
    ensures { IfOk result (model.IsPartOf asked.now names.now marks.now) }
{
    let lost = named_flags(alloc, names, &asked.lost, false)?;
    let allowed = named_flags(alloc, names, &asked.allowed, true)?;
    Ok(Part {
        lost: set_of(&lost),
        allowed: set_of(&allowed),
        read_only: read_only_of(alloc, marks)?,
        racks: racks_of(alloc, marks, asked.min_racks)?,
    })
}

/// The bookies that are marked as read-only, of as many as there can be.
pub fn read_only_of(alloc: Global, marks: &[BookieMarks]) -> Result<BookieSet, AllocError>
    ensures { IfOk result (λ bookies. (b : ℕ) → set.contains bookies b
        ≡ model.is_set (map (λ m. m.is_read_only) marks.now) b) }
{
    let flags = read_only_flags(alloc, marks)?;
    Ok(set_of(&flags))
}

/// In which racks the bookies stand, as far as the picture says.
pub fn racks_of(alloc: Global, marks: &[BookieMarks], least: usize) -> Result<Racks, AllocError>
    ensures { IfOk result (λ racks. racks ≡ model.racks_of marks.now least) }
{
    let mut names = Vec::new(alloc);
    for number in 0..marks.len().min(MAX_BOOKIES) {
        names.push(marks[number].rack())?;
    }
    Racks::of(alloc, &names, least)
}

/// The plan for the cluster.
fn plan_by(
    alloc: Global,
    state: State,
    part: &Part,
    writers_roll: bool,
) -> Result<Planned, Unplanned>
    ensures { IfOk result (model.IsPlan state part.now writers_roll) }
{
    let Part {
        lost,
        allowed,
        read_only,
        racks,
    } = part;
    match plan(alloc, state, lost, allowed, read_only, racks, writers_roll) {
        Ok(planned) => Ok(planned),
        Err(fault) => Err(Unplanned::from(fault)),
    }
}
