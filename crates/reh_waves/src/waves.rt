// Which bookies may be stopped together, in which rounds.
ghost use Rattle.std.specs.Prelude.{◌≡◌, ◌+◌, ◌<◌, ◌==◌, ◌∷◌, [], cond, true, All, IfOk, OnOk, ℕ, List, length, position};
ghost use Rattle.std.specs.List.Sorted.{IsPermutation};
ghost use Rattle.reh_census.specs.Answers as answers;
ghost use Rattle.reh_census.specs.Answers.{IsAllZero, answer_on, numbers_on};
ghost use Rattle.reh_census.specs.Bookies.{bookies_of, holders};
ghost use Rattle.reh_census.specs.Copies.{is_in};
ghost use Rattle.reh_census.specs.Counting.{IsCensus, counting_in, counting_of, not_judged};
ghost use Rattle.reh_census.specs.Ledgers.{Ledger as LedgerValue};
ghost use Rattle.reh_census.specs.Striping.{range};
ghost use Rattle.reh_census.specs.Tails.{IsTail};
ghost use Rattle.reh_waves.specs.Near.{AreLargest, IsNear};
ghost use Rattle.reh_waves.specs.Waves as model;
ghost use Rattle.reh_waves.specs.Waves.{ArePlaced, AreWaves, IsBegun, IsJoined, IsPlaced, IsRound, NoTwo, answer_in, joins, places};

use crate::near::{Largest, largest_of, near_of, numbers_near};
use crate::sets::set_of;
use reh_census::{Answer, Bookies, Census, Question, answer_by};
use std::alloc::{AllocError, Global};

/// Bookies that may be stopped together, and their rack, where rounds keep to racks.
#[derive(Drop)]
pub struct Round {
    pub rack: Option<u16>,
    pub bookies: Vec<u16>,
}

/// A bookie that can't be stopped even alone, and what speaks against it.
#[derive(Drop)]
pub struct Alone {
    pub bookie: u16,
    pub answer: Answer,
}

/// Rounds, and the bookies that are in none.
#[derive(Drop)]
pub struct Waves {
    pub rounds: Vec<Round>,
    pub alone: Vec<Alone>,
}

/// Whether a bookie of this rack may join a round of that one.
fn may_join(by_rack: bool, rack: Option<u16>, other: Option<u16>) -> bool
    ensures { result ≡ model.may_join by_rack rack other }
{
    if !by_rack {
        return true;
    }
    match (rack, other) {
        (Some(rack), Some(other)) => rack == other,
        _ => false,
    }
}

/// The rack that a round of the bookie keeps to.
fn rack_for(bookies: &Bookies, by_rack: bool, bookie: u16) -> Option<u16>
    ensures { result ≡ model.rack_for by_rack ((bookies_of bookies.now).rack_of bookie) }
{
    if by_rack {
        bookies.rack_of(bookie)
    } else {
        None
    }
}

/// The answer where these bookies are stopped, which may be, and one more, by the part of the census that names it.
fn answer_with(
    alloc: Global,
    census: &Census,
    near: &Census,
    bookies: &Bookies,
    question: &Question,
    largest: Largest,
    members: &[u16],
    bookie: u16,
) -> Result<Answer, AllocError>
    requires near { IsNear census.now near.now (is_in (bookie ∷ [])) }
    requires largest { AreLargest census.now largest.tail largest.ensemble }
    requires well_formed { All (λ t. IsTail t.tail) census.now.tails }
    requires zero { IsAllZero (numbers_on (counting_in census.now) (bookies_of bookies.now) question.now 0 (is_in members.now)) }
    requires members { All (λ b. (bookies_of bookies.now).is_registered b ≡ true) members.now }
    requires bookie { (bookies_of bookies.now).is_registered bookie ≡ true }
    ensures { IfOk result (λ answer. answer
        ≡ answer_in census.now (bookies_of bookies.now) question.now (is_in (bookie ∷ members.now))) }
{
    let stopped = set_of(alloc, bookies.count(), members, bookie)?;
    let numbers = numbers_near(alloc, census, near, bookies, question, largest, &stopped);
    Ok(answer_by(&numbers))
}

/// Whether the bookie of this rack may join the round, and be stopped with it.
fn fits(
    alloc: Global,
    census: &Census,
    near: &Census,
    bookies: &Bookies,
    question: &Question,
    largest: Largest,
    by_rack: bool,
    round: &Round,
    rack: Option<u16>,
    bookie: u16,
) -> Result<bool, AllocError>
    requires near { IsNear census.now near.now (is_in (bookie ∷ [])) }
    requires largest { AreLargest census.now largest.tail largest.ensemble }
    requires well_formed { All (λ t. IsTail t.tail) census.now.tails }
    requires round { IsRound (answer_in census.now (bookies_of bookies.now) question.now) (bookies_of bookies.now) by_rack round.now }
    requires bookie { (bookies_of bookies.now).is_registered bookie ≡ true }
    ensures { IfOk result (λ fits. fits ≡ joins (answer_in census.now (bookies_of bookies.now) question.now) by_rack rack bookie round.now) }
{
    if !may_join(by_rack, rack, round.rack) {
        return Ok(false);
    }
    let answer = answer_with(
        alloc,
        census,
        near,
        bookies,
        question,
        largest,
        &round.bookies,
        bookie,
    )?;
    Ok(is_yes(answer))
}

/// Whether the answer is a yes.
fn is_yes(answer: Answer) -> bool
    ensures { result ≡ answers.is_yes answer }
{
    matches!(answer, Answer::Yes)
}

/// The first round that the bookie may join and be stopped with.
fn first_fit(
    alloc: Global,
    census: &Census,
    near: &Census,
    bookies: &Bookies,
    question: &Question,
    largest: Largest,
    by_rack: bool,
    rounds: &[Round],
    rack: Option<u16>,
    bookie: u16,
) -> Result<Option<usize>, AllocError>
    requires near { IsNear census.now near.now (is_in (bookie ∷ [])) }
    requires largest { AreLargest census.now largest.tail largest.ensemble }
    requires well_formed { All (λ t. IsTail t.tail) census.now.tails }
    requires rounds { All (IsRound (answer_in census.now (bookies_of bookies.now) question.now) (bookies_of bookies.now) by_rack) rounds.now }
    requires bookie { (bookies_of bookies.now).is_registered bookie ≡ true }
    ensures { IfOk result (λ found. found
        ≡ position (joins (answer_in census.now (bookies_of bookies.now) question.now) by_rack rack bookie) rounds.now) }
{
    for number in 0..rounds.len() {
        let round = &rounds[number];
        if fits(
            alloc, census, near, bookies, question, largest, by_rack, round, rack, bookie,
        )? {
            return Ok(Some(number));
        }
    }
    Ok(None)
}

/// Adds the bookie to the round of this number.
fn join(rounds: &mut Vec<Round>, number: usize, bookie: u16) -> Result<(), AllocError>
    requires { number < length rounds.old.items }
    ensures { OnOk result (IsJoined rounds.old.items rounds.new.items number bookie) }
{
    rounds[number].bookies.push(bookie)?;
    Ok(())
}

/// Begins a round.
fn begin(
    alloc: Global,
    rounds: &mut Vec<Round>,
    rack: Option<u16>,
    bookie: u16,
) -> Result<(), AllocError>
    ensures { OnOk result (IsBegun rounds.old.items rounds.new.items rack bookie) }
{
    let mut bookies = Vec::new(alloc);
    bookies.push(bookie)?;
    rounds.push(Round { rack, bookies })?;
    Ok(())
}

/// Puts the registered bookie into the first round that it fits, or begins one, or names it alone, by the part of the
/// census that names it.
fn put(
    alloc: Global,
    census: &Census,
    near: &Census,
    bookies: &Bookies,
    question: &Question,
    largest: Largest,
    by_rack: bool,
    waves: &mut Waves,
    bookie: u16,
) -> Result<(), AllocError>
    requires near { IsNear census.now near.now (is_in (bookie ∷ [])) }
    requires largest { AreLargest census.now largest.tail largest.ensemble }
    requires well_formed { All (λ t. IsTail t.tail) census.now.tails }
    requires waves { AreWaves (answer_in census.now (bookies_of bookies.now) question.now) (bookies_of bookies.now) by_rack waves.old }
    requires bookie { (bookies_of bookies.now).is_registered bookie ≡ true }
    ensures waves { OnOk result (AreWaves (answer_in census.now (bookies_of bookies.now) question.now) (bookies_of bookies.now) by_rack waves.new) }
    ensures places { OnOk result ((b : ℕ) → places waves.new b ≡ places waves.old b + cond (bookie == b) 1 0) }
    ensures placed { OnOk result (IsPlaced (answer_in census.now (bookies_of bookies.now) question.now) (bookies_of bookies.now) by_rack waves.old waves.new bookie) }
{
    let rack = rack_for(bookies, by_rack, bookie);
    let rounds = &waves.rounds;
    let found = first_fit(
        alloc, census, near, bookies, question, largest, by_rack, rounds, rack, bookie,
    )?;
    if let Some(number) = found {
        return join(&mut waves.rounds, number, bookie);
    }
    let answer = answer_with(alloc, census, near, bookies, question, largest, &[], bookie)?;
    if is_yes(answer) {
        return begin(alloc, &mut waves.rounds, rack, bookie);
    }
    waves.alone.push(Alone { bookie, answer })?;
    Ok(())
}

/// Puts the registered bookie into the first round that it fits, or begins one, or names it alone.
fn place(
    alloc: Global,
    census: &Census,
    bookies: &Bookies,
    question: &Question,
    largest: Largest,
    by_rack: bool,
    waves: &mut Waves,
    bookie: u16,
) -> Result<(), AllocError>
    requires largest { AreLargest census.now largest.tail largest.ensemble }
    requires well_formed { All (λ t. IsTail t.tail) census.now.tails }
    requires waves { AreWaves (answer_in census.now (bookies_of bookies.now) question.now) (bookies_of bookies.now) by_rack waves.old }
    requires bookie { (bookies_of bookies.now).is_registered bookie ≡ true }
    ensures waves { OnOk result (AreWaves (answer_in census.now (bookies_of bookies.now) question.now) (bookies_of bookies.now) by_rack waves.new) }
    ensures places { OnOk result ((b : ℕ) → places waves.new b ≡ places waves.old b + cond (bookie == b) 1 0) }
    ensures placed { OnOk result (IsPlaced (answer_in census.now (bookies_of bookies.now) question.now) (bookies_of bookies.now) by_rack waves.old waves.new bookie) }
{
    let among = set_of(alloc, bookies.count(), &[], bookie)?;
    let near = near_of(alloc, census, &among)?;
    put(
        alloc, census, &near, bookies, question, largest, by_rack, waves, bookie,
    )
}

/// Rounds of the registered bookies, each of which may be stopped together, by the census: each bookie in this order goes
/// into the first round that it fits, or begins one. Where rounds keep to racks, bookies without a known rack are in
/// rounds of their own. `Err` only where there is no memory.
pub fn waves_of(
    alloc: Global,
    census: &Census,
    bookies: &Bookies,
    question: &Question,
    order: &[u16],
    by_rack: bool,
) -> Result<Waves, AllocError>
    requires { IsPermutation (range 0 (length bookies.now)) order.now }
    ensures census { IfOk result (AreWaves (answer_in census.now (bookies_of bookies.now) question.now)
        (bookies_of bookies.now) by_rack) }
    ensures ledgers { IfOk result (λ waves. (ledgers : List LedgerValue)
        → IsCensus census.now (holders (bookies_of bookies.now)) ledgers
        → AreWaves (answer_on (counting_of (holders (bookies_of bookies.now)) ledgers) (bookies_of bookies.now) question.now
        (not_judged census.now.judged)) (bookies_of bookies.now) by_rack waves) }
    ensures no_two { IfOk result (λ waves. NoTwo (answer_in census.now (bookies_of bookies.now) question.now) by_rack waves.rounds.items) }
    ensures no_two_of_ledgers { IfOk result (λ waves. (ledgers : List LedgerValue)
        → IsCensus census.now (holders (bookies_of bookies.now)) ledgers
        → NoTwo (answer_on (counting_of (holders (bookies_of bookies.now)) ledgers) (bookies_of bookies.now) question.now
        (not_judged census.now.judged)) by_rack waves.rounds.items) }
    ensures once { IfOk result (λ waves. (b : ℕ) → places waves b ≡ cond ((bookies_of bookies.now).is_registered b) 1 0) }
    ensures placed { IfOk result (ArePlaced (answer_in census.now (bookies_of bookies.now) question.now)
        (bookies_of bookies.now) by_rack order.now) }
{
    let largest = largest_of(census);
    let mut waves = Waves {
        rounds: Vec::new(alloc),
        alone: Vec::new(alloc),
    };
    for bookie in order {
        if bookies.is_registered(*bookie) {
            place(
                alloc, census, bookies, question, largest, by_rack, &mut waves, *bookie,
            )?;
        }
    }
    Ok(waves)
}
