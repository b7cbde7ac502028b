// What the next failures cost.
ghost use Rattle.std.specs.Prelude.{◌≡◌, ◌++◌, All, IfOk, OnOk, List, ℕ, cond, count_by, filter, length, map};
ghost use Rattle.std.specs.List.Sorted.{IsPermutation};
ghost use Rattle.reh_census.specs.Bookies.{bookies_of, holders};
ghost use Rattle.reh_census.specs.Counting.{IsCensus, counting_in, counting_of, not_judged};
ghost use Rattle.reh_census.specs.Ledgers.{Ledger as LedgerValue};
ghost use Rattle.reh_census.specs.Striping.{range};
ghost use Rattle.reh_census.specs.Tails.{IsTail};
ghost use Rattle.reh_waves.specs.Losses.{IsWithin};
ghost use Rattle.reh_waves.specs.Near.{AreLargest};
ghost use Rattle.reh_waves.specs.Losses as losses;
ghost use Rattle.reh_waves.specs.Risk as model;
ghost use Rattle.reh_waves.specs.Risk.{IsRisk};
ghost use Rattle.reh_waves.specs.declared.losses.Lost.TheVariants.{Bookie, Rack, Pair};

use crate::fewest::fewest_copies;
use crate::losses::{Loss, Lost, losses_of, ranked};
use crate::near::{Largest, largest_of};
use crate::spares::least_spare;
use reh_census::{Bookies, Census, Question};
use std::alloc::{AllocError, Global};

/// What the next failures cost.
#[derive(Drop)]
pub struct Risk {
    /// The fewest known copies of any entry that has one.
    pub fewest_copies: Option<usize>,
    /// The fewest copies that an acknowledged entry of a ledger that isn't closed may have, though nobody told of it.
    pub fewest_in_tails: Option<u64>,
    /// The loss of each registered bookie, worst first.
    pub bookies: Vec<Loss>,
    /// That of each rack.
    pub racks: Vec<Loss>,
    /// And of each two registered bookies, where they are asked for.
    pub pairs: Vec<Loss>,
    /// How many ledgers were not judged.
    pub not_judged: u64,
}

/// The registered bookies, in this order.
fn registered_in(alloc: Global, bookies: &Bookies, order: &[u16]) -> Result<Vec<u16>, AllocError>
    ensures { IfOk result (λ registered. registered.items ≡ filter (bookies_of bookies.now).is_registered order.now) }
{
    let mut registered = Vec::new(alloc);
    for bookie in order {
        if bookies.is_registered(*bookie) {
            registered.push(*bookie)?;
        }
    }
    Ok(registered)
}

/// Each bookie alone.
fn each_bookie(alloc: Global, bookies: &[u16]) -> Result<Vec<Lost>, AllocError>
    ensures { IfOk result (λ lost. lost.items ≡ map (λ b. Bookie b) bookies.now) }
{
    let mut lost = Vec::new(alloc);
    for bookie in bookies {
        lost.push(Lost::Bookie(*bookie))?;
    }
    Ok(lost)
}

/// Each rack.
fn each_rack(alloc: Global, racks: &[u16]) -> Result<Vec<Lost>, AllocError>
    ensures { IfOk result (λ lost. lost.items ≡ map (λ rack. Rack rack) racks.now) }
{
    let mut lost = Vec::new(alloc);
    for rack in racks {
        lost.push(Lost::Rack(*rack))?;
    }
    Ok(lost)
}

/// Adds the pairs of a bookie with each of the others.
fn add_pairs(pairs: &mut Vec<Lost>, bookie: u16, others: &[u16]) -> Result<(), AllocError>
    ensures { OnOk result (pairs.new.items ≡ pairs.old.items ++ map (λ other. Pair bookie other) others.now) }
{
    for other in others {
        pairs.push(Lost::Pair(bookie, *other))?;
    }
    Ok(())
}

/// Each two bookies.
fn each_pair(alloc: Global, bookies: &[u16]) -> Result<Vec<Lost>, AllocError>
    ensures { IfOk result (λ pairs. pairs.items ≡ losses.pairs_of bookies.now) }
{
    let mut pairs = Vec::new(alloc);
    for number in 0..bookies.len() {
        add_pairs(&mut pairs, bookies[number], &bookies[number + 1..])?;
    }
    Ok(pairs)
}

/// Each two bookies, if pairs are asked for.
fn pairs_if(alloc: Global, asked: bool, bookies: &[u16]) -> Result<Vec<Lost>, AllocError>
    ensures { IfOk result (λ pairs. pairs.items ≡ model.pairs_if asked bookies.now) }
{
    if !asked {
        return Ok(Vec::new(alloc));
    }
    each_pair(alloc, bookies)
}

/// The losses of these, worst first.
fn rank(
    alloc: Global,
    census: &Census,
    bookies: &Bookies,
    question: &Question,
    largest: Largest,
    lost: Vec<Lost>,
) -> Result<Vec<Loss>, AllocError>
    requires largest { AreLargest census.now largest.tail largest.ensemble }
    requires well_formed { All (λ t. IsTail t.tail) census.now.tails }
    requires lost { All (IsWithin (length bookies.now)) lost.items }
    ensures { IfOk result (λ ranked. losses.AreRanked (map (losses.loss_on (counting_in census.now) (bookies_of bookies.now) question.now
        (not_judged census.now.judged)) lost.items) ranked.items) }
{
    let losses = losses_of(alloc, census, bookies, question, largest, &lost)?;
    ranked(losses)
}

/// What the next failures cost, by the census: bookies and racks in these orders, where losses are alike. `Err` only where
/// there is no memory.
pub fn risk_of(
    alloc: Global,
    census: &Census,
    bookies: &Bookies,
    question: &Question,
    order: &[u16],
    racks: &[u16],
    with_pairs: bool,
) -> Result<Risk, AllocError>
    requires { IsPermutation (range 0 (length bookies.now)) order.now }
    ensures census { IfOk result (IsRisk (counting_in census.now) (bookies_of bookies.now) question.now
        (not_judged census.now.judged) order.now racks.now with_pairs) }
    ensures ledgers { IfOk result (λ risk. (ledgers : List LedgerValue)
        → IsCensus census.now (holders (bookies_of bookies.now)) ledgers
        → IsRisk (counting_of (holders (bookies_of bookies.now)) ledgers) (bookies_of bookies.now) question.now
        (not_judged census.now.judged) order.now racks.now with_pairs risk) }
    ensures once { IfOk result (λ risk. (b : ℕ) → count_by (model.is_loss_of b) risk.bookies.items
        ≡ cond ((bookies_of bookies.now).is_registered b) 1 0) }
{
    let largest = largest_of(census);
    let registered = registered_in(alloc, bookies, order)?;
    let each_two = pairs_if(alloc, with_pairs, &registered)?;
    let each_one = each_bookie(alloc, &registered)?;
    let pairs = rank(alloc, census, bookies, question, largest, each_two)?;
    let alone = rank(alloc, census, bookies, question, largest, each_one)?;
    let by_rack = each_rack(alloc, racks)?;
    Ok(Risk {
        fewest_copies: fewest_copies(census.entries()),
        fewest_in_tails: least_spare(bookies, census.tails()),
        bookies: alone,
        racks: rank(alloc, census, bookies, question, largest, by_rack)?,
        pairs,
        not_judged: census.not_judged(),
    })
}
