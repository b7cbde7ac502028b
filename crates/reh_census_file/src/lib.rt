// Censuses as text.
#![tactic(auto)]

mod checks;
mod drafts;
mod faults;
mod laws;
mod lines;
mod lists;
mod reading;
mod texts;
mod values;
mod words;

pub use faults::{CensusFault, Expected, Keyword, Part};
pub use laws::texts_tell_censuses_apart;
pub use lists::{MAX_NAMES, NameList};
pub use reading::{is_census, read_census};
pub use texts::census_text;
pub use values::NamedCensus;
pub use words::MAX_COUNT;
