// What a picture lists, for questions about its cluster.
ghost use Rattle.std.specs.Prelude.{IfOk};
ghost use Rattle.serde_json.specs.View.{view};
ghost use Rattle.reh_picture.specs.Listings.{Lists, ListsFields, located_listing, listing_fault};
ghost use Rattle.reh_picture.specs.Places.{FailsAt};

use crate::marks::{BookieMarks, read_marks};
use crate::pictures::{Listing, read_json, read_listing};
use crate::places::LocatedFault;
use serde_json::Value;
use std::alloc::Global;

/// What a picture lists, and the marks of its bookies.
#[derive(Drop)]
pub struct Listed {
    pub listing: Listing,
    pub marks: Vec<BookieMarks>,
}

/// What a picture lists, or its first fault with its place: one of those that a rehearsal of it has, and after them a fault
/// of its marks. No state is made.
///
/// `NoMemory` comes only where a growth was refused, and may then stand in place of any other answer.
pub fn list_picture(alloc: Global, bytes: &[u8]) -> Result<Listed, LocatedFault>
    ensures listed { IfOk result (λ l. Lists bytes.now l) }
    ensures fault { FailsAt result (located_listing bytes.now) }
{
    let picture = read_json(alloc, bytes)?;
    list_value(alloc, &picture)
}

/// What a picture's fields list, and their marks.
fn list_value(alloc: Global, picture: &Value) -> Result<Listed, LocatedFault>
    ensures listed { IfOk result (λ l. ListsFields (view picture.now) l) }
    ensures fault { FailsAt result (listing_fault (view picture.now)) }
{
    let listing = read_listing(alloc, picture)?;
    match read_marks(alloc, picture) {
        Ok(marks) => Ok(Listed { listing, marks }),
        Err(fault) => {
            listing.close();
            Err(fault)
        }
    }
}
