// From the bytes of a picture to a desk.
ghost use Rattle.std.specs.Prelude.{◌≡◌, ◌<◌, ◌≤◌, IfOk};
ghost use Rattle.reh_model.specs.Session.{opened_session};
ghost use Rattle.reh_desk.specs.Desks.{AreNew};
ghost use Rattle.reh_picture.specs.Pictures.{picture_of};
ghost use Rattle.reh_drill.specs.Drills.{OpensDesk};

use crate::faults::DrillFault;
use reh_cluster::{Names, State};
use reh_desk::{Desk, Seat};
use reh_picture::read_picture;
use reh_session::Session;
use std::alloc::{AllocError, Global};

/// A new desk on the state of a picture, its seats, and the names of the picture's bookies.
#[derive(Drop)]
pub struct Room {
    pub desk: Desk,
    pub seats: Vec<Seat>,
    pub names: Names,
}

/// Opens a desk with so many seats on a picture.
pub(crate) fn open_room(alloc: Global, picture: &[u8], count: u32) -> Result<Room, DrillFault>
    requires some { 0 < count }
    requires few { count ≤ 8 }
    ensures { OpensDesk (picture_of picture.now) count result }
{
    let state = read_picture(alloc, picture)?;
    let names = state.names().clone_in()?;
    let (desk, seats) = open_desk(alloc, state, count)?;
    Ok(Room { desk, seats, names })
}

/// A desk on a session that opens on this state, and its seats.
fn open_desk(alloc: Global, state: State, count: u32) -> Result<(Desk, Vec<Seat>), AllocError>
    requires some { 0 < count }
    requires few { count ≤ 8 }
    ensures { IfOk result (λ r. (r.0 ≡ record { opening = opened_session state; seats = count })
        × AreNew count r.1.items) }
{
    let session = Session::open(alloc, state)?;
    match Desk::open(session, count) {
        Ok(opened) => Ok(opened),
        Err((_session, want)) => Err(want),
    }
}
