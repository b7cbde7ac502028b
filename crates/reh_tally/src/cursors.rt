// What is told of a fragment's members, from an entry on.
ghost use Rattle.std.specs.Prelude.{◌≡◌, ◌<◌, ◌≤◌, ◌+◌, ◌⊎◌, All, Any, IfOk, true, length, drop, slice_index_or};
ghost use Rattle.reh_census.specs.Ledgers.{is_untold};
ghost use Rattle.reh_tally.specs.declared.cursors.Cursor.{Cursor as CursorValue};
ghost use Rattle.reh_tally.specs.Cursors as model;
ghost use Rattle.reh_tally.specs.Masks.{mask_of};
ghost use Rattle.reh_tally.specs.Stretches.{ArePassed, AreRising, IsEnd};

use crate::classes::{content_of, is_untold, told_at};
use crate::masks::with_bit;
use crate::ranges::{Stretch, are_rising, passed_before, stretch_in};
use reh_census::{Ledger, Told};
use std::alloc::{AllocError, Global};

/// A member, its content, whether that one's ranges are rising, and what it tells from an entry on.
#[derive(Clone, Copy)]
pub(crate) struct Cursor {
    bookie: u16,
    content: usize,
    is_rising: bool,
    stretch: Stretch,
}

/// Entries up to the stop, with a mask of the members that hold them, where they are striped onto them.
#[derive(Clone, Copy)]
pub(crate) struct Segment {
    pub(crate) held: u64,
    pub(crate) stop: u64,
}

/// Whether the ranges of what is told are rising.
fn is_rising(told: &Told) -> bool
    ensures { result ≡ true → AreRising (model.ranges_of told.now) }
{
    match told {
        Told::Holds(ranges) | Told::Lacks(ranges) => are_rising(ranges.as_slice()),
        Told::Untold => true,
    }
}

/// Of each content, and of what holds of the rest, whether its ranges are rising.
pub(crate) fn risings_of(alloc: Global, ledger: &Ledger) -> Result<Vec<bool>, AllocError>
    ensures { IfOk result (λ risings. model.AreRisings ledger.now risings.items) }
{
    let mut risings = Vec::with_capacity(alloc, ledger.contents().len().saturating_add(1))?;
    for content in ledger.contents() {
        risings.push(is_rising(&content.told))?;
    }
    risings.push(is_rising(ledger.rest()))?;
    Ok(risings)
}

/// How many of the ranges end before the entry, at least.
fn passed_in(told: &Told, is_rising: bool, at: u64) -> usize
    requires { is_rising ≡ true → AreRising (model.ranges_of told.now) }
    ensures { ArePassed (model.ranges_of told.now) result at }
{
    if !is_rising {
        return 0;
    }
    match told {
        Told::Holds(ranges) | Told::Lacks(ranges) => passed_before(ranges.as_slice(), at),
        Told::Untold => 0,
    }
}

/// What is told from the entry on, where so many ranges are known to end before.
fn stretch_of(told: &Told, is_rising: bool, passed: usize, at: u64, stop: u64) -> Stretch
    requires order { at < stop }
    requires rising { is_rising ≡ true → AreRising (model.ranges_of told.now) }
    requires passed { ArePassed (model.ranges_of told.now) passed at }
    ensures later { at < result.end }
    ensures end { IsEnd (model.ranges_of told.now) stop result.end }
    ensures same { model.IsToldFrom told.now at result }
{
    match told {
        Told::Holds(ranges) => stretch_in(ranges.as_slice(), is_rising, passed, at, stop),
        Told::Lacks(ranges) => {
            let within = stretch_in(ranges.as_slice(), is_rising, passed, at, stop);
            Stretch {
                passed: within.passed,
                is_held: !within.is_held,
                end: within.end,
            }
        }
        Told::Untold => Stretch {
            passed,
            is_held: false,
            end: stop,
        },
    }
}

/// A member's cursor before any entry is looked at, which knows of none from this one on.
fn cursor_of(ledger: &Ledger, risings: &[bool], bookie: u16, first: u64) -> Cursor
    requires { model.AreRisings ledger.now risings.now }
    ensures bookie { result.bookie ≡ bookie }
    ensures told { model.IsCursor ledger.now first result }
    ensures none { result.stretch.end ≤ first }
{
    let content = content_of(ledger, bookie);
    let is_rising = match risings.get(content) {
        Some(rising) => *rising,
        None => false,
    };
    let passed = passed_in(told_at(ledger, content), is_rising, first);
    Cursor {
        bookie,
        content,
        is_rising,
        stretch: Stretch {
            passed,
            is_held: false,
            end: first,
        },
    }
}

/// The members' cursors before any entry is looked at.
pub(crate) fn cursors_of(
    alloc: Global,
    members: &[u16],
    ledger: &Ledger,
    risings: &[bool],
    first: u64,
) -> Result<Vec<Cursor>, AllocError>
    requires { model.AreRisings ledger.now risings.now }
    ensures members { IfOk result (λ cursors. model.members_of cursors.items ≡ members.now) }
    ensures told { IfOk result (λ cursors. All (model.IsCursor ledger.now first) cursors.items) }
    ensures none { IfOk result (λ cursors. All (λ c. c.stretch.end ≤ first) cursors.items) }
{
    let mut cursors = Vec::with_capacity(alloc, members.len())?;
    for bookie in members {
        let cursor = cursor_of(ledger, risings, *bookie, first);
        cursors.push(cursor)?;
    }
    Ok(cursors)
}

/// The cursor at the entry, of which it tells then.
fn moved_to(ledger: &Ledger, cursor: Cursor, at: u64, stop: u64) -> Cursor
    requires order { at < stop }
    requires told { model.IsCursor ledger.now at cursor }
    ensures bookie { result.bookie ≡ cursor.bookie }
    ensures told { model.IsCursor ledger.now at result }
    ensures later { at < result.stretch.end }
    ensures end { model.EndsAt ledger.now stop result.stretch.end result }
{
    let told = told_at(ledger, cursor.content);
    let stretch = stretch_of(told, cursor.is_rising, cursor.stretch.passed, at, stop);
    Cursor {
        bookie: cursor.bookie,
        content: cursor.content,
        is_rising: cursor.is_rising,
        stretch,
    }
}

/// Moves one of the cursors to the entry, of which it tells then.
fn move_one(ledger: &Ledger, cursors: &mut Vec<Cursor>, index: usize, at: u64, stop: u64)
    requires index { index < length cursors.old.items }
    requires order { at < stop }
    requires told { All (model.IsCursor ledger.now at) cursors.old.items }
    requires far { All (model.IsFar ledger.now at stop) cursors.old.items }
    ensures long { length cursors.new.items ≡ length cursors.old.items }
    ensures members { model.members_of cursors.new.items ≡ model.members_of cursors.old.items }
    ensures told { All (model.IsCursor ledger.now at) cursors.new.items }
    ensures far { All (model.IsFar ledger.now at stop) cursors.new.items }
    ensures later { (d : CursorValue) → at < (slice_index_or cursors.new.items index d).stretch.end }
    ensures rest { drop (index + 1) cursors.new.items ≡ drop (index + 1) cursors.old.items }
{
    if cursors[index].stretch.end <= at {
        let moved = moved_to(ledger, cursors[index], at, stop);
        cursors[index] = moved;
    }
}

/// The entries from this one on of which each member holds, where they are striped onto it, all or none: moves the
/// cursors there.
pub(crate) fn next_segment(
    ledger: &Ledger,
    cursors: &mut Vec<Cursor>,
    at: u64,
    stop: u64,
) -> Segment
    requires few { length cursors.old.items ≤ 64 }
    requires order { at < stop }
    requires told { All (model.IsCursor ledger.now at) cursors.old.items }
    requires far { All (model.IsFar ledger.now at stop) cursors.old.items }
    ensures members { model.members_of cursors.new.items ≡ model.members_of cursors.old.items }
    ensures told { All (model.IsCursor ledger.now at) cursors.new.items }
    ensures far { All (model.IsFar ledger.now at stop) cursors.new.items }
    ensures later { at < result.stop }
    ensures within { result.stop ≤ stop }
    ensures before { All (λ c. result.stop ≤ c.stretch.end) cursors.new.items }
    ensures end { (result.stop ≡ stop) ⊎ Any (model.EndsAt ledger.now stop result.stop) cursors.new.items }
    ensures held { result.held ≡ mask_of (λ (c : CursorValue). c.stretch.is_held) cursors.new.items }
{
    let mut held = 0;
    let mut next = stop;
    let mut index = cursors.len();
    while index > 0 {
        index -= 1;
        move_one(ledger, cursors, index, at, stop);
        held = with_bit(held, cursors[index].stretch.is_held);
        next = next.min(cursors[index].stretch.end);
    }
    Segment { held, stop: next }
}

/// Of which of the members nobody told.
pub(crate) fn untold_of(ledger: &Ledger, cursors: &[Cursor]) -> u64
    requires { length cursors.now ≤ 64 }
    ensures { result ≡ mask_of (λ (c : CursorValue). is_untold (model.told_at ledger.now c.content)) cursors.now }
{
    let mut mask = 0;
    let mut index = cursors.len();
    while index > 0 {
        index -= 1;
        let told = told_at(ledger, cursors[index].content);
        mask = with_bit(mask, is_untold(told));
    }
    mask
}
