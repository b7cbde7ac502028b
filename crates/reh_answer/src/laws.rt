// Laws: of what is printed.
ghost use Rattle.std.specs.Prelude.{◌≡◌, ℕ, Bool, [], true};
ghost use Rattle.reh_census.specs.declared.censuses.Judged.{Judged};
ghost use Rattle.reh_census.specs.declared.questions.Question.{Question};
ghost use Rattle.reh_census.specs.Answers.{answer_on, is_yes};
ghost use Rattle.reh_census.specs.Bookies.{Bookies};
ghost use Rattle.reh_census.specs.Counting.{Counting, not_judged};
ghost use Rattle.reh_answer.specs.Facts as model;
ghost use Rattle.reh_answer.specs.Texts as texts;

/// Where the verdict says that `--keep 1` allows the stop, the answer with `--keep 1` is a yes (`only`), and it says so of
/// each entry's too few copies where that is so (`each`).
pub fn keep_1_allows_it()
    ensures only { (counting : Counting) (most : ℕ) (bookies : Bookies) (question : Question) (judged : Judged)
        (stopped : ℕ → Bool)
        → (texts.hint (model.facts_on counting most bookies question judged stopped).keep_1_allows ≡ [] → ⊥)
        → is_yes (answer_on counting bookies (model.with_keep_1 question) (not_judged judged) stopped) ≡ true }
    ensures each { (counting : Counting) (most : ℕ) (bookies : Bookies) (question : Question) (judged : Judged)
        (stopped : ℕ → Bool)
        → is_yes (answer_on counting bookies (model.with_keep_1 question) (not_judged judged) stopped) ≡ true
        → texts.hint (model.facts_on counting most bookies question judged stopped).keep_1_allows ≡ texts.hint true }
{}
