// What a worker finds for a place of a fragment, and whether it can be posted.
#![tactic(auto)]

mod blocks;
mod costs;
mod jobs;
mod laws;
mod places;
mod posts;
mod sources;
mod surveys;
mod writers;

pub use costs::survey_costs;
pub use jobs::{Job, look};
pub use laws::surveys_list_places;
pub use places::{Found, aimed, check_bookie, check_member, check_place, find_ledger, find_owned};
pub use posts::{check, find_posted};
pub use sources::{Rows, first_unreadable, four_masks_of, readable_words, source_rows};
pub use surveys::{survey_line, survey_plain, survey_run};
pub use writers::{last_fragment, next_entry};
