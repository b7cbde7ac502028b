// Laws of rehearsals and questions together: what can be read of a picture, and which of its copies are known; and what
// census files count among other inputs.
#![tactic(auto)]

mod laws;

pub use laws::{
    a_bookie_that_joins_again_leaves_all_as_it_was, a_survey_counts_those_without_a_known_copy,
    an_entry_can_be_read_where_a_copy_is_known, as_many_copies_are_known_as_members_hold_the_entry,
    what_census_files_counted_is_counted,
};
