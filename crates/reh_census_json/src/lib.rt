// A census as JSON.
#![tactic(auto)]

mod members;
mod objects;

pub use objects::census_json;
