// What the loss of bookies would break.
ghost use Rattle.std.specs.Prelude.{◌≡◌, ◌<◌, All, IfOk, ℕ, map, length};
ghost use Rattle.reh_census.specs.Answers.{numbers_on};
ghost use Rattle.reh_census.specs.Bookies.{bookies_of, is_flagged};
ghost use Rattle.reh_census.specs.Counting.{counting_in, not_judged};
ghost use Rattle.reh_census.specs.Tails.{IsTail};
ghost use Rattle.reh_waves.specs.Losses as model;
ghost use Rattle.reh_waves.specs.Near.{AreLargest};
ghost use Rattle.reh_waves.specs.declared.losses.Lost.TheVariants.{Rack};
ghost use Rattle.reh_waves.specs.Losses.{AreRanked, IsWithin, loss_on, stopped_by};

use crate::near::{Largest, near_of, numbers_near};
use crate::sets::set_of;
use reh_census::{BookieSet, Bookies, Census, Numbers, Question};
use std::alloc::{AllocError, Global};

/// Bookies that are lost: one, all of a rack, two.
#[derive(Clone, Copy)]
pub enum Lost {
    Bookie(u16),
    Rack(u16),
    Pair(u16, u16),
}

/// A loss, with the numbers of every rule.
#[derive(Clone, Copy)]
pub struct Loss {
    pub lost: Lost,
    pub numbers: Numbers,
}

/// Whether the bookie stands in the rack.
fn is_in_rack(bookies: &Bookies, rack: u16, bookie: u16) -> bool
    ensures { result ≡ stopped_by (bookies_of bookies.now) (Rack rack) bookie }
{
    match bookies.rack_of(bookie) {
        Some(found) => found == rack,
        None => false,
    }
}

/// The bookies of a rack.
fn rack_set(alloc: Global, bookies: &Bookies, rack: u16) -> Result<BookieSet, AllocError>
    ensures { IfOk result (λ set. (b : ℕ) → is_flagged set b ≡ stopped_by (bookies_of bookies.now) (Rack rack) b) }
{
    let mut flags = Vec::new(alloc);
    for bookie in 0..bookies.count() {
        flags.push(is_in_rack(bookies, rack, bookie))?;
    }
    Ok(BookieSet::of(flags))
}

/// The bookies that are lost.
fn lost_set(alloc: Global, bookies: &Bookies, lost: Lost) -> Result<BookieSet, AllocError>
    requires { IsWithin (length bookies.now) lost }
    ensures { IfOk result (λ set. (b : ℕ) → is_flagged set b ≡ stopped_by (bookies_of bookies.now) lost b) }
{
    match lost {
        Lost::Bookie(bookie) => set_of(alloc, bookies.count(), &[], bookie),
        Lost::Rack(rack) => rack_set(alloc, bookies, rack),
        Lost::Pair(one, other) => set_of(alloc, bookies.count(), &[one], other),
    }
}

/// The numbers of every rule where these bookies are lost.
fn numbers_lost(
    alloc: Global,
    census: &Census,
    bookies: &Bookies,
    question: &Question,
    largest: Largest,
    lost: Lost,
) -> Result<Numbers, AllocError>
    requires largest { AreLargest census.now largest.tail largest.ensemble }
    requires well_formed { All (λ t. IsTail t.tail) census.now.tails }
    requires lost { IsWithin (length bookies.now) lost }
    ensures { IfOk result (λ numbers. numbers ≡ numbers_on (counting_in census.now) (bookies_of bookies.now) question.now
        (not_judged census.now.judged) (stopped_by (bookies_of bookies.now) lost)) }
{
    let stopped = lost_set(alloc, bookies, lost)?;
    let near = near_of(alloc, census, &stopped)?;
    Ok(numbers_near(alloc, census, &near, bookies, question, largest, &stopped))
}

/// The losses of these, in their order.
pub(crate) fn losses_of(
    alloc: Global,
    census: &Census,
    bookies: &Bookies,
    question: &Question,
    largest: Largest,
    lost: &[Lost],
) -> Result<Vec<Loss>, AllocError>
    requires largest { AreLargest census.now largest.tail largest.ensemble }
    requires well_formed { All (λ t. IsTail t.tail) census.now.tails }
    requires lost { All (IsWithin (length bookies.now)) lost.now }
    ensures { IfOk result (λ losses. losses.items ≡ map (loss_on (counting_in census.now) (bookies_of bookies.now) question.now
        (not_judged census.now.judged)) lost.now) }
{
    let mut losses = Vec::new(alloc);
    for one in lost {
        let numbers = numbers_lost(alloc, census, bookies, question, largest, *one)?;
        losses.push(Loss {
            lost: *one,
            numbers,
        })?;
    }
    Ok(losses)
}

/// The numbers in the order of the rules: what is broken first, and then what nobody knows.
fn weights(numbers: &Numbers) -> [u64; 8]
    ensures { result ≡ model.weights numbers.now }
{
    [
        numbers.readable.no,
        numbers.kept.no,
        numbers.recoverable,
        numbers.writable,
        numbers.replaceable,
        numbers.readable.unknown,
        numbers.kept.unknown,
        numbers.disks,
    ]
}

/// The losses, worst first: those of the same numbers in the order that they had.
pub(crate) fn ranked(losses: Vec<Loss>) -> Result<Vec<Loss>, AllocError>
    ensures { IfOk result (λ ranked. AreRanked losses.items ranked.items) }
{
    let mut ranked = losses;
    ranked.sort_by(|loss, other| weights(&other.numbers).cmp(&weights(&loss.numbers)))?;
    Ok(ranked)
}
