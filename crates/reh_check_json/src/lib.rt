// What is checked, as JSON.
#![tactic(auto)]

mod counts;
mod findings;
mod inventories;
mod objects;
mod scripts;

pub use inventories::{InventoryCounts, inventory_json};
pub use objects::{CheckedScript, picture_json, script_json};
