// The answer to a stop.
ghost use Rattle.std.specs.Prelude.{◌≡◌};

use reh_answer::Facts;
use reh_census::{Answer, BookieSet};

/// The facts of a stop, and the bookies that are to be stopped.
#[derive(Drop)]
pub struct Verdict {
    pub(crate) facts: Facts,
    pub(crate) stopped: BookieSet,
}

impl Verdict {
    /// The answer.
    pub fn answer(&self) -> &Answer
        ensures { result.now ≡ self.now.facts.answer }
    {
        &self.facts.answer
    }
}
