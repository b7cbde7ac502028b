// Lines of a census, sorted, with those of one kind joined.
ghost use Rattle.std.specs.Prelude.{◌≡◌, ◌≤◌, ◌^◌, ◌+◌, ◌<◌, ℕ, Bool, cond, false, All, sum_by, IfOk, OnOk};
ghost use Rattle.std.specs.Cmp.{IsTotalOrder};
ghost use Rattle.std.specs.Ordering.{is_gt};
ghost use Rattle.std.specs.declared.cmp.Ordering.{Ordering};
ghost use Rattle.std.specs.declared.cmp.Ordering.TheVariants.{Equal};
ghost use Rattle.reh_census.specs.Order.{InOrder};

use std::alloc::{AllocError, Global};
use std::cmp::Ordering;

/// A line of a census: a kind, and how often it comes.
pub(crate) trait Line: Drop {
    type Kind;

    ghost kind: { Self → Self.Kind };

    ghost count: { Self → ℕ };

    ghost cmp: { Self.Kind → Self.Kind → Ordering };

    ghost IsFit: { Self.Kind → Type 0 };

    /// The order of the kinds.
    fn cmp_kind(&self, other: &Self) -> Ordering
        ensures { result ≡ cmp (kind self.now) (kind other.now) };

    /// How often the kind comes.
    fn count(&self) -> u64
        ensures { result ≡ count self.now };

    /// Makes it come so many times more.
    fn add(&mut self, more: u64)
        requires { count self.old + more < 2 ^ 64 }
        ensures kind { kind self.new ≡ kind self.old }
        ensures count { count self.new ≡ count self.old + more };

    ghost total: { IsTotalOrder cmp };

    ghost exact: { (one other : Self.Kind) → cmp one other ≡ Equal → one ≡ other };
}

/// Adds a line to lines none of which comes after it: to the last one, if that is of its kind, and else as the last.
fn add_line<L: Line>(lines: &mut Vec<L>, line: L) -> Result<(), AllocError>
    requires within { sum_by L.count lines.old.items + L.count line < 2 ^ 64 }
    requires order { InOrder (λ one next. L.cmp (L.kind one) (L.kind next)) lines.old.items }
    requires behind { All (λ one. is_gt (L.cmp (L.kind one) (L.kind line)) ≡ false) lines.old.items }
    requires some { All (λ one. 1 ≤ L.count one) lines.old.items }
    requires fit { All (λ one. L.IsFit (L.kind one)) lines.old.items }
    requires fits { L.IsFit (L.kind line) }
    ensures counts { OnOk result ((test : L.Kind → Bool)
        → sum_by (λ one. cond (test (L.kind one)) (L.count one) 0) lines.new.items
        ≡ sum_by (λ one. cond (test (L.kind one)) (L.count one) 0) lines.old.items
        + cond (test (L.kind line)) (L.count line) 0) }
    ensures order { OnOk result (InOrder (λ one next. L.cmp (L.kind one) (L.kind next)) lines.new.items) }
    ensures behind { OnOk result ((next : L.Kind)
        → All (λ one. is_gt (L.cmp (L.kind one) next) ≡ false) lines.old.items
        → is_gt (L.cmp (L.kind line) next) ≡ false
        → All (λ one. is_gt (L.cmp (L.kind one) next) ≡ false) lines.new.items) }
    ensures some { OnOk result (All (λ one. 1 ≤ L.count one) lines.new.items) }
    ensures fit { OnOk result (All (λ one. L.IsFit (L.kind one)) lines.new.items) }
{
    let count = line.count();
    if count == 0 {
        return Ok(());
    }
    let len = lines.len();
    if len > 0 && lines[len - 1].cmp_kind(&line).is_eq() {
        lines[len - 1].add(count);
        return Ok(());
    }
    lines.push(line)?;
    Ok(())
}

/// The same counts by lines in order, one of each kind that comes at all.
pub(crate) fn joined<L: Line>(alloc: Global, lines: Vec<L>) -> Result<Vec<L>, AllocError>
    requires within { sum_by L.count lines.items < 2 ^ 64 }
    requires fit { All (λ one. L.IsFit (L.kind one)) lines.items }
    ensures counts { IfOk result (λ joined. (test : L.Kind → Bool)
        → sum_by (λ one. cond (test (L.kind one)) (L.count one) 0) joined.items
        ≡ sum_by (λ one. cond (test (L.kind one)) (L.count one) 0) lines.items) }
    ensures order { IfOk result (λ joined. InOrder (λ one next. L.cmp (L.kind one) (L.kind next)) joined.items) }
    ensures some { IfOk result (λ joined. All (λ one. 1 ≤ L.count one) joined.items) }
    ensures fit { IfOk result (λ joined. All (λ one. L.IsFit (L.kind one)) joined.items) }
{
    let mut sorted = lines;
    sorted.sort_by(|left, right| right.cmp_kind(left))?;
    let mut joined = Vec::with_capacity(alloc, sorted.len())?;
    while let Some(line) = sorted.pop() {
        add_line(&mut joined, line)?;
    }
    Ok(joined)
}
