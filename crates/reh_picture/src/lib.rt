// From a picture's bytes to the state that it shows.
#![tactic(auto)]

mod bookies;
mod contents;
mod counts;
mod laws;
mod ledgers;
mod listings;
mod marks;
mod members;
mod pictures;
mod places;

pub use contents::Holding;
pub use counts::Counts;
pub use laws::formats_are;
pub use listings::{Listed, list_picture};
pub use marks::BookieMarks;
pub use pictures::{Listing, check_picture, read_picture};
pub use places::{LocatedFault, Place, TextPlace};
pub use reh_fields::{FaultName, Field, LedgerFlaw, PictureFault, Repeated};
