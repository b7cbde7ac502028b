// Tickets and findings, which have to be spent or given back, the book at which they are, and seats, which make its
// calls.
#![tactic(auto)]

mod books;
mod callers;
mod counters;
mod desks;
mod laws;
mod seats;
mod settling;
mod tickets;

pub use books::{Book, SpendCause, SpendFault};
pub use counters::{AtDesk, Counter};
pub use desks::{CloseCause, CloseFault, Closed, Desk};
pub use laws::{tickets_differ, tickets_end, where_memory_is_wanted};
pub use reh_types::{Call, Line, OwnLine};
pub use seats::Seat;
pub use settling::Unsettled;
pub use tickets::{Finding, Stray, Ticket, Unspent, scan};
