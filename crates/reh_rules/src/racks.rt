// How many bookies may be written to, and in how many racks.
ghost use Rattle.std.specs.Prelude.{◌≡◌, ◌==◌, ◌&&◌, false};
ghost use Rattle.std.specs.Option.{option_map_or};
ghost use Rattle.reh_census.specs.Bookies as bookies_model;
ghost use Rattle.reh_census.specs.Bookies.{bookies_of, is_flagged};
ghost use Rattle.reh_census.specs.Tails as model;

use crate::members::{is_writable, one_if};
use reh_census::{BookieSet, Bookies, Question};

/// How many bookies may be written to.
pub fn count_writable(bookies: &Bookies, stopped: &BookieSet) -> u64
    ensures { result ≡ bookies_model.writable (bookies_of bookies.now) (is_flagged stopped.now) }
{
    let mut count = 0;
    for bookie in 0..bookies.len() {
        count += one_if(is_writable(bookies, stopped, bookie));
    }
    count
}

/// Whether the bookie stands in the rack.
fn is_in_rack(bookies: &Bookies, bookie: u16, rack: u16) -> bool
    ensures { result ≡ option_map_or (λ r. r == rack) ((bookies_of bookies.now).rack_of bookie) false }
{
    match bookies.rack_of(bookie) {
        Some(r) => r == rack,
        None => false,
    }
}

/// Whether the bookie may be written to, and stands in the rack.
fn is_writable_in(bookies: &Bookies, stopped: &BookieSet, rack: u16, bookie: u16) -> bool
    ensures { result ≡ (bookies_model.is_writable (bookies_of bookies.now) (is_flagged stopped.now) bookie
        && option_map_or (λ r. r == rack) ((bookies_of bookies.now).rack_of bookie) false) }
{
    is_writable(bookies, stopped, bookie) && is_in_rack(bookies, bookie, rack)
}

/// Whether a bookie that may be written to stands in the rack.
fn has_writable(bookies: &Bookies, stopped: &BookieSet, rack: u16) -> bool
    ensures { result ≡ model.has_writable (bookies_of bookies.now) (is_flagged stopped.now) rack }
{
    for bookie in 0..bookies.len() {
        if is_writable_in(bookies, stopped, rack, bookie) {
            return true;
        }
    }
    false
}

/// In how many racks bookies stand that may be written to.
fn count_racks(bookies: &Bookies, stopped: &BookieSet) -> u64
    ensures { result ≡ model.racks (bookies_of bookies.now) (is_flagged stopped.now) }
{
    let mut count = 0;
    for rack in 0..bookies.racks_stop() {
        count += one_if(has_writable(bookies, stopped, rack as u16));
    }
    count
}

/// Whether they stand in fewer racks than are asked for.
pub fn lacks_racks(bookies: &Bookies, question: &Question, stopped: &BookieSet) -> bool
    ensures { result ≡ model.lacks_racks (bookies_of bookies.now) question.now (is_flagged stopped.now) }
{
    match question.min_racks {
        Some(least) => count_racks(bookies, stopped) < least,
        None => false,
    }
}
