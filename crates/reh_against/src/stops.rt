// What is asked, and what was answered.
use reh_census::{Answer, BookieSet, Bookies, Question};

/// The bookies with their names, by number; those to stop; what is asked of that, and what was answered.
#[derive(Clone, Copy)]
pub struct Stop<'a> {
    pub names: &'a [String],
    pub bookies: &'a Bookies,
    pub stopped: &'a BookieSet,
    pub question: &'a Question,
    pub answer: &'a Answer,
}
