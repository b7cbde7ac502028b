// The ledgers that speak against a stop, of those that are added one after the other.
ghost use Rattle.std.specs.Prelude.{◌≡◌, ◌⊎◌, ℕ, Bool, [], ◌∷◌, ◌++◌, All, Contains, Err, IfOk, List, OnOk, length, map, string_bytes};
ghost use Rattle.reh_census.specs.Bookies.{Bookies as BookiesValue, bookies_of, holders, is_flagged};
ghost use Rattle.reh_census.specs.Ledgers.{Ledger as LedgerValue};
ghost use Rattle.reh_census.specs.declared.answers.Answer.{Answer as AnswerValue};
ghost use Rattle.reh_census.specs.declared.questions.Question.{Question as QuestionValue};
ghost use Rattle.reh_tally.specs.Few.{AreFew};
ghost use Rattle.reh_tally.specs.declared.census.TallyFault.TheVariants.{TooMany};
ghost use Rattle.reh_against.specs.declared.found.Found.{Found as FoundValue};
ghost use Rattle.reh_against.specs.Worst.{AreWorst, Each, IsAgainst, SaysAgainst, alone as alone_of, found_if};
ghost use Rattle.reh_against.specs.Weighed as model;

use crate::found::Found;
use crate::kept::{Kept, keep};
use crate::picks::say_of;
use crate::stops::Stop;
use crate::weights::weight_of;
use reh_answer::Against;
use reh_census::Ledger;
use reh_tally::TallyFault;
use std::alloc::{AllocError, Global};
use std::cmp::Reverse;

/// The ten worst of the ledgers that were added, each with its parts, and how many were added.
#[derive(Drop)]
pub struct Worst {
    kept: Vec<Kept>,
    added: usize,
}

/// Adds a ledger that weighs so much, if that is something.
fn add_weighed(
    kept: &mut Vec<Kept>,
    weight: u64,
    id: u64,
    place: usize,
    parts: Vec<Ledger>,
) -> Result<(), AllocError>
    ensures worst { OnOk result ((found : List FoundValue) → AreWorst found (map model.found_of kept.old.items)
        → AreWorst (found ++ found_if weight id place) (map model.found_of kept.new.items)) }
    ensures among { OnOk result (All (Contains (kept.old.items ++ model.kept_by weight id place parts ∷ [])) kept.new.items) }
{
    if weight == 0 {
        return Ok(());
    }
    let found = Found {
        weight: Reverse(weight),
        ledger: id,
        place,
    };
    keep(kept, Kept { found, parts })?;
    Ok(())
}

/// A list of this ledger alone.
fn alone(alloc: Global, ledger: Ledger) -> Result<Vec<Ledger>, AllocError>
    ensures { IfOk result (λ parts. parts.items ≡ alone_of ledger) }
{
    let mut parts = Vec::new(alloc);
    parts.push(ledger)?;
    Ok(parts)
}

impl Worst {
    /// No ledgers.
    pub fn new(alloc: Global) -> Worst
        ensures { (bookies : BookiesValue) (question : QuestionValue) (stopped : ℕ → Bool) (answer : AnswerValue)
            → model.Weighs bookies question stopped answer [] [] result }
    {
        Worst {
            kept: Vec::new(alloc),
            added: 0,
        }
    }

    /// Adds the ledger of this id, which a census counts in these parts. It fails where they alone have more entries than a
    /// census counts, or as many ledgers were added as can be. After an `Err` some of the worst may be gone.
    pub fn add(
        &mut self,
        alloc: Global,
        id: u64,
        parts: Vec<Ledger>,
        stop: &Stop<'_>,
    ) -> Result<(), TallyFault>
        ensures added { OnOk result ((ids : List ℕ) (ledgers : List (List LedgerValue))
            → model.WeighsBy stop.now ids ledgers self.old
            → model.WeighsBy stop.now (ids ++ id ∷ []) (ledgers ++ parts.items ∷ []) self.new) }
        ensures too_many { result ≡ Err TooMany
            → (AreFew (holders (bookies_of stop.now.bookies.now)) parts.items → ⊥) ⊎ (self.old.added ≡ usize.MAX) }
    {
        let weight = weight_of(alloc, &parts, stop)?;
        let place = self.added;
        if place == usize::MAX {
            return Err(TallyFault::TooMany);
        }
        self.added = place + 1;
        add_weighed(&mut self.kept, weight, id, place, parts)?;
        Ok(())
    }

    /// The worst of these ledgers, which have these ids, and each of which a census counts as one. Where one alone has more
    /// entries than a census counts, it fails.
    pub fn of(
        alloc: Global,
        ids: &[u64],
        ledgers: Vec<Ledger>,
        stop: &Stop<'_>,
    ) -> Result<Worst, TallyFault>
        requires { length ids.now ≡ length ledgers.items }
        ensures weighed { IfOk result (model.WeighsBy stop.now ids.now (map alone_of ledgers.items)) }
        ensures too_many { result ≡ Err TooMany → All (λ g. AreFew (holders (bookies_of stop.now.bookies.now))
            (alone_of g)) ledgers.items → ⊥ }
    {
        let mut worst = Worst::new(alloc);
        for ledger in ledgers {
            let place = worst.added;
            let parts = alone(alloc, ledger)?;
            worst.add(alloc, ids[place], parts, stop)?;
        }
        Ok(worst)
    }

    /// What is said of the worst, the worst first: of each the number of its entries that speak against the stop, if it is
    /// entries, and why.
    pub fn say(&self, alloc: Global, stop: &Stop<'_>) -> Result<Vec<Against>, AllocError>
        ensures { IfOk result (λ against. (ids : List ℕ) (ledgers : List (List LedgerValue))
            → model.WeighsBy stop.now ids ledgers self.now
            → SaysAgainst (map string_bytes stop.now.names.now) ids ledgers (bookies_of stop.now.bookies.now)
            stop.now.question.now (is_flagged stop.now.stopped.now) stop.now.answer.now against.items) }
    {
        let against = say_kept(alloc, &self.kept, stop)?;
        Ok(against)
    }
}

/// What is said of each that is kept.
fn say_kept(alloc: Global, kept: &[Kept], stop: &Stop<'_>) -> Result<Vec<Against>, AllocError>
    ensures { IfOk result (λ against. (ledgers : List (List LedgerValue)) → All (model.IsAmong ledgers) kept.now
        → Each (IsAgainst (map string_bytes stop.now.names.now) ledgers (bookies_of stop.now.bookies.now)
        stop.now.question.now.keep (is_flagged stop.now.stopped.now) stop.now.answer.now)
        (map model.found_of kept.now) against.items) }
{
    let mut against = Vec::new(alloc);
    for one in kept {
        let said = say_of(alloc, &one.parts, stop, &one.found)?;
        against.push(said)?;
    }
    Ok(against)
}
