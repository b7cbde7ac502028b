// Whether writers find ensembles.
ghost use Rattle.std.specs.Prelude.{◌≡◌, []};
ghost use Rattle.reh_census.specs.Bookies.{bookies_of, is_flagged};
ghost use Rattle.reh_census.specs.Tails as model;
ghost use Rattle.reh_rules.specs.Room as rooms;

use crate::racks::{count_writable, lacks_racks};
use reh_census::{BookieSet, Bookies, Question};

/// How many bookies may be written to, and whether these stand in too few racks: now, and without the stopped ones.
#[derive(Clone, Copy)]
pub struct Room {
    pub writable_now: u64,
    pub writable_then: u64,
    pub lacks_racks_now: bool,
    pub lacks_racks_then: bool,
}

/// What there is for ensembles, where `none` has no bookie.
pub(crate) fn room_of(
    bookies: &Bookies,
    question: &Question,
    none: &BookieSet,
    stopped: &BookieSet,
) -> Room
    requires { none.now ≡ [] }
    ensures { result ≡ rooms.room_of (bookies_of bookies.now) question.now (is_flagged stopped.now) }
{
    Room {
        writable_now: count_writable(bookies, none),
        writable_then: count_writable(bookies, stopped),
        lacks_racks_now: lacks_racks(bookies, question, none),
        lacks_racks_then: lacks_racks(bookies, question, stopped),
    }
}

/// Whether no ensemble of this size can be made, and can now.
pub(crate) fn loses_ensemble(room: &Room, size: u64) -> bool
    ensures { result ≡ rooms.loses_ensemble room.now size }
{
    (room.writable_then < size && !(room.writable_now < size))
        || (room.lacks_racks_then && !room.lacks_racks_now)
}

/// Whether new ledgers of the size that is asked for find no ensemble, and do now.
pub(crate) fn loses_new_ledgers(room: &Room, question: &Question) -> bool
    ensures { result ≡ rooms.breaks_new_ledgers room.now question.now }
{
    !question.allow_blocked_writers
        && match question.ensemble {
            Some(size) => loses_ensemble(room, size),
            None => false,
        }
}
