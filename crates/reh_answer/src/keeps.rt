// Whether a stop is a yes with `--keep 1`.
ghost use Rattle.std.specs.Prelude.{◌≡◌};
ghost use Rattle.reh_census.specs.Answers.{is_yes as is_yes_of};
ghost use Rattle.reh_census.specs.Bookies.{bookies_of, is_flagged};
ghost use Rattle.reh_census.specs.Counting.{counting_in, not_judged};
ghost use Rattle.reh_answer.specs.Facts as model;

use reh_census::{Answer, BookieSet, Bookies, Census, Keep, Question};
use reh_rules::answer_of;
use std::alloc::Global;

/// The question with `--keep 1`.
fn with_keep_1(question: &Question) -> Question
    ensures { result ≡ model.with_keep_1 question.now }
{
    Question {
        keep: Keep::Copies(1),
        ..*question
    }
}

/// Whether the answer is a yes.
fn is_yes(answer: &Answer) -> bool
    ensures { result ≡ is_yes_of answer.now }
{
    match answer {
        Answer::Yes => true,
        Answer::No(..) | Answer::Unknown(..) | Answer::UnknownDisks(_) | Answer::NotJudged(_) => {
            false
        }
    }
}

/// Whether the stop is a yes with `--keep 1`.
pub(crate) fn keep_1_allows(
    alloc: Global,
    census: &Census,
    bookies: &Bookies,
    question: &Question,
    stopped: &BookieSet,
) -> bool
    ensures { result ≡ model.keep_1_allows (counting_in census.now) (bookies_of bookies.now) question.now
        (not_judged census.now.judged) (is_flagged stopped.now) }
{
    let question = with_keep_1(question);
    let answer = answer_of(alloc, census, bookies, &question, stopped);
    is_yes(&answer)
}
