// One pass over the lines of an inventory: many are read at a time, and several workers do what can be done of each by itself.
ghost use Rattle.std.specs.Prelude.{◌≡◌, ◌∷◌, ◌++◌, [], ℕ, true, All, List, map, IfOk, OnOk};
ghost use Rattle.reh_inventory_read.specs.Passes as model;

use crate::batches::{Batch, next_lines};
use crate::faults::ReadFault;
use reh_inventory_census::CountFault;
use std::alloc::{AllocError, Global};
use std::io::BufRead;
use std::thread;

/// To what lines of an inventory are added, one after the other.
pub trait Pass {
    /// What is made of a line by itself, before it is added.
    type Made: Drop + Send;

    /// That it was made of a line of these bytes, beside what was added before.
    ghost is_made: { Self → List ℕ → Self.Made → Type 0 };

    /// That these lines were added, and led from one to the other.
    ghost adds: { List (List ℕ) → Self → Self → Type 0 };

    /// Makes of a line what can be made of it by itself, its fault too.
    fn make(&self, alloc: Global, bytes: &[u8]) -> Self::Made
        ensures { is_made self.now bytes.now result };

    /// Adds the next line, of which this was made. After an `Err` a part of it may be there.
    fn add(&mut self, alloc: Global, made: Self::Made) -> Result<(), CountFault>
        ensures { OnOk result ((bytes : List ℕ) → is_made self.old bytes made
            → adds (bytes ∷ []) self.old self.new) };

    /// No line leads from each to itself.
    ghost adds_none: { (pass : Self) → adds [] pass pass };

    /// Some lines, and then others.
    ghost adds_on: { (lines others : List (List ℕ)) (one mid other : Self)
        → adds lines one mid → adds others mid other → adds (lines ++ others) one other };

    /// What was made of a line can still be added after others.
    ghost is_still_made: { (lines : List (List ℕ)) (one other : Self) → adds lines one other
        → (bytes : List ℕ) (made : Self.Made) → is_made one bytes made → is_made other bytes made };
}

/// A line, and what is made of it, once that was done.
#[derive(Drop)]
struct MadeLine<M> {
    bytes: Vec<u8>,
    made: Option<M>,
}

/// These lines, of none of which anything is made yet.
fn to_make<M: Drop>(alloc: Global, lines: Vec<Vec<u8>>) -> Result<Vec<MadeLine<M>>, AllocError>
    ensures { IfOk result (λ waiting. model.bytes_of waiting.items ≡ map (λ line. line.items) lines.items) }
{
    let mut waiting = Vec::new(alloc);
    for bytes in lines {
        waiting.push(MadeLine { bytes, made: None })?;
    }
    Ok(waiting)
}

/// Makes of each of these lines what can be made of it by itself, by so many workers, at least one.
fn make_each<P: Pass + Sync, T: thread::Threads + Sync>(
    threads: &T,
    alloc: Global,
    workers: usize,
    pass: &P,
    lines: Vec<Vec<u8>>,
) -> Result<Vec<MadeLine<P::Made>>, AllocError>
    ensures made { IfOk result (λ made. All (model.IsMade (P.is_made pass.now)) made.items) }
    ensures same { IfOk result (λ made. model.bytes_of made.items ≡ map (λ line. line.items) lines.items) }
{
    let mut lines = to_make(alloc, lines)?;
    thread::for_each_mut(
        threads,
        &mut lines,
        workers.max(1),
        &|_number, line: &mut MadeLine<P::Made>|
            ensures made { model.IsMade (P.is_made pass.entry.now) line.exit.now }
            ensures same { line.exit.now.bytes.items ≡ line.entry.now.bytes.items }
        {
            line.made = Some(pass.make(alloc, &line.bytes));
        },
    );
    Ok(lines)
}

/// Adds the line of this number.
fn add_line<P: Pass>(
    alloc: Global,
    number: u64,
    pass: &mut P,
    line: MadeLine<P::Made>,
) -> Result<(), ReadFault>
    requires { model.IsMade (P.is_made pass.old) line }
    ensures { OnOk result (P.adds (line.bytes.items ∷ []) pass.old pass.new) }
{
    let MadeLine { made, bytes: _ } = line;
    let Some(made) = made else { unreachable!() };
    match pass.add(alloc, made) {
        Ok(()) => Ok(()),
        Err(fault) => Err(ReadFault::Line(number, fault)),
    }
}

/// Adds these lines, the first of which has this number.
fn add_made<P: Pass>(
    alloc: Global,
    first: u64,
    pass: &mut P,
    lines: Vec<MadeLine<P::Made>>,
) -> Result<(), ReadFault>
    requires { All (model.IsMade (P.is_made pass.old)) lines.items }
    ensures { OnOk result (P.adds (model.bytes_of lines.items) pass.old pass.new) }
{
    let mut number = first;
    for line in lines {
        add_line(alloc, number, pass, line)?;
        number = number.saturating_add(1);
    }
    Ok(())
}

/// Adds these lines, the first of which has this number, after several workers made what can be made of each by itself.
fn add_lines<P: Pass + Sync, T: thread::Threads + Sync>(
    threads: &T,
    alloc: Global,
    workers: usize,
    first: u64,
    pass: &mut P,
    lines: Vec<Vec<u8>>,
) -> Result<(), ReadFault>
    ensures { OnOk result (P.adds (map (λ line. line.items) lines.items) pass.old pass.new) }
{
    let lines = make_each(threads, alloc, workers, pass, lines)?;
    add_made(alloc, first, pass, lines)
}

/// Adds the next lines, and says how many there were, and whether no line comes after them. The first of them has this number.
fn add_batch<B: BufRead, P: Pass + Sync, T: thread::Threads + Sync>(
    threads: &T,
    alloc: Global,
    workers: usize,
    reader: &mut B,
    first: u64,
    pass: &mut P,
) -> Result<(u64, bool), ReadFault>
    ensures { IfOk result (λ read.
        model.AddsRead P.adds read.1 (B.remaining reader.old) (B.remaining reader.new) pass.old pass.new) }
{
    let Batch {
        lines,
        is_last,
        fault,
    } = next_lines(alloc, reader)?;
    let count = lines.len() as u64;
    add_lines(threads, alloc, workers, first, pass, lines)?;
    match fault {
        None => Ok((count, is_last)),
        Some(fault) => Err(fault),
    }
}

/// Adds all lines that this reader has left, the first of which has this number.
pub fn add_all<B: BufRead, P: Pass + Sync, T: thread::Threads + Sync>(
    threads: &T,
    alloc: Global,
    workers: usize,
    reader: &mut B,
    first: u64,
    pass: &mut P,
) -> Result<(), ReadFault>
    ensures { OnOk result
        (model.AddsRead P.adds true (B.remaining reader.old) (B.remaining reader.new) pass.old pass.new) }
{
    let mut number = first;
    for _batch in 0..u64::MAX {
        let (lines, is_last) = add_batch(threads, alloc, workers, reader, number, pass)?;
        if is_last {
            return Ok(());
        }
        number = number.saturating_add(lines);
    }
    Err(ReadFault::Line(number, CountFault::TooMany))
}
