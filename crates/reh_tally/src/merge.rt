// Censuses sorted, with what is of one kind joined.
ghost use Rattle.std.specs.Prelude.{◌≡◌, ◌^◌, ◌≤◌, ◌<◌, ℕ, List, Bool, All, IfOk};
ghost use Rattle.std.specs.Ordering.{on};
ghost use Rattle.reh_census.specs.declared.censuses.Tail.{Tail as TailValue};
ghost use Rattle.reh_census.specs.declared.classes.Class.{Class as ClassValue};
ghost use Rattle.reh_census.specs.Counting.{count_ensembles_in, count_in, count_tails_in, ensembles_in, entries_in, tails_in};
ghost use Rattle.reh_census.specs.Order.{InOrder, class_cmp, names_cmp, tail_cmp};
ghost use Rattle.reh_census.specs.Tails.{IsTail};

use crate::joins::{Line, joined};
use reh_census::{Class, Counted, CountedEnsemble, CountedTail, Names, Tail};
use std::alloc::{AllocError, Global};
use std::cmp::Ordering;

impl Line for Counted {
    ghost use Rattle.reh_census.specs.Order.{class_cmp};
    ghost use Rattle.reh_census.proofs.OrderLaws.{class_exact, class_total};

    type Kind = Class;

    ghost kind = { λ counted. counted.class };

    ghost count = { λ counted. counted.count };

    ghost cmp = { class_cmp };

    ghost IsFit = { λ _. Unit {0} };

    ghost total = { class_total };

    ghost exact = { class_exact };

    fn cmp_kind(&self, other: &Counted) -> Ordering {
        let (one, other) = (&self.class, &other.class);
        one.known
            .as_slice()
            .cmp(other.known.as_slice())
            .then(one.untold.as_slice().cmp(other.untold.as_slice()))
            .then(one.ack_quorum.cmp(&other.ack_quorum))
            .then(one.write_quorum.cmp(&other.write_quorum))
    }

    fn count(&self) -> u64 {
        self.count
    }

    fn add(&mut self, more: u64) {
        self.count += more;
    }
}

impl Line for CountedTail {
    ghost use Rattle.reh_census.specs.Order.{tail_cmp};
    ghost use Rattle.reh_census.specs.Tails.{IsTail};
    ghost use Rattle.reh_census.proofs.OrderLaws.{tail_exact, tail_total};

    type Kind = Tail;

    ghost kind = { λ counted. counted.tail };

    ghost count = { λ counted. counted.count };

    ghost cmp = { tail_cmp };

    ghost IsFit = { IsTail };

    ghost total = { tail_total };

    ghost exact = { tail_exact };

    fn cmp_kind(&self, other: &CountedTail) -> Ordering {
        let (one, other) = (&self.tail, &other.tail);
        one.size
            .cmp(&other.size)
            .then(one.write_quorum.cmp(&other.write_quorum))
            .then(one.ack_quorum.cmp(&other.ack_quorum))
            .then(one.is_open.cmp(&other.is_open))
            .then(one.ensemble.as_slice().cmp(other.ensemble.as_slice()))
    }

    fn count(&self) -> u64 {
        self.count
    }

    fn add(&mut self, more: u64) {
        self.count += more;
    }
}

impl Line for CountedEnsemble {
    ghost use Rattle.reh_census.specs.Order.{names_cmp};
    ghost use Rattle.reh_census.proofs.OrderLaws.{names_exact, names_total};

    type Kind = Names;

    ghost kind = { λ counted. counted.members };

    ghost count = { λ counted. counted.count };

    ghost cmp = { names_cmp };

    ghost IsFit = { λ _. Unit {0} };

    ghost total = { names_total };

    ghost exact = { names_exact };

    fn cmp_kind(&self, other: &CountedEnsemble) -> Ordering {
        self.members.as_slice().cmp(other.members.as_slice())
    }

    fn count(&self) -> u64 {
        self.count
    }

    fn add(&mut self, more: u64) {
        self.count += more;
    }
}

/// The same entries in order, with those of one class joined, and without classes that no entry has.
pub fn merged(alloc: Global, census: Vec<Counted>) -> Result<Vec<Counted>, AllocError>
    requires { entries_in census.items < 2 ^ 64 }
    ensures counts { IfOk result (λ merged. (test : ClassValue → Bool)
        → count_in merged.items test ≡ count_in census.items test) }
    ensures order { IfOk result (λ merged. InOrder (on (λ c. c.class) class_cmp) merged.items) }
    ensures some { IfOk result (λ merged. All (λ c. 1 ≤ c.count) merged.items) }
{
    joined(alloc, census)
}

/// The same tails in order, with equal ones joined, and without those that no ledger has.
pub fn merged_tails(alloc: Global, tails: Vec<CountedTail>) -> Result<Vec<CountedTail>, AllocError>
    requires within { tails_in tails.items < 2 ^ 64 }
    requires well_formed { All (λ t. IsTail t.tail) tails.items }
    ensures counts { IfOk result (λ merged. (test : TailValue → Bool)
        → count_tails_in merged.items test ≡ count_tails_in tails.items test) }
    ensures order { IfOk result (λ merged. InOrder (on (λ t. t.tail) tail_cmp) merged.items) }
    ensures some { IfOk result (λ merged. All (λ t. 1 ≤ t.count) merged.items) }
    ensures well_formed { IfOk result (λ merged. All (λ t. IsTail t.tail) merged.items) }
{
    joined(alloc, tails)
}

/// The same ensembles in order, with equal ones joined, and without those that no fragment has.
pub fn merged_ensembles(
    alloc: Global,
    ensembles: Vec<CountedEnsemble>,
) -> Result<Vec<CountedEnsemble>, AllocError>
    requires { ensembles_in ensembles.items < 2 ^ 64 }
    ensures counts { IfOk result (λ merged. (test : List ℕ → Bool)
        → count_ensembles_in merged.items test ≡ count_ensembles_in ensembles.items test) }
    ensures order { IfOk result (λ merged. InOrder (on (λ e. e.members) names_cmp) merged.items) }
    ensures some { IfOk result (λ merged. All (λ e. 1 ≤ e.count) merged.items) }
{
    joined(alloc, ensembles)
}
