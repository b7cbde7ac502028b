// What a census of ledgers is, and the rules for stopping bookies.
#![tactic(auto)]

mod answers;
mod bookies;
mod censuses;
mod classes;
mod laws;
mod ledgers;
mod names;
mod questions;

pub use answers::{Answer, Broken, Numbers, Rule, answer_by};
pub use bookies::{Bookie, Bookies};
pub use censuses::{Census, CountedEnsemble, CountedTail, Judged, Tail, missing_of};
pub use classes::{Class, Counted};
pub use laws::{
    a_census_gives_the_answer_of_its_ledgers, a_census_in_order_is_the_only_one,
    a_part_of_a_yes_is_a_yes, a_yes_spares_each_entry, a_yes_spares_each_ledger,
    acknowledged_entries_keep_copies, acknowledged_entries_stay_readable,
    an_ensemble_in_order_is_the_same, censuses_add_up, completions_are_between,
    each_rule_is_monotone, every_completion_breaks_a_no, losses_never_raise_copies,
    readable_is_one_copy_kept, some_completion_breaks_an_unknown, yes_is_nothing_broken,
};
pub use ledgers::{Content, Fragment, Ledger, LedgerState, Range, Ranges, Told};
pub use names::{BookieSet, Names};
pub use questions::{Keep, Question};
