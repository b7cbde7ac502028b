// An inventory: a file of JSON lines that shows a whole cluster. What one of its lines says, or the line's first fault.
#![tactic(auto)]

mod contents;
mod heads;
mod inventories;
mod ledgers;
mod lines;

pub use contents::{Content, ContentList, Entries};
pub use heads::{Bookie, BookieList, Head};
pub use inventories::{Inventory, InventoryFault};
pub use ledgers::{Fragment, FragmentList, LedgerLine, LedgerState, Sizes};
pub use lines::{Line, read_line};
pub use reh_inventory_fields::{Ensemble, Fault, Field, LineFault, Name, Place};
