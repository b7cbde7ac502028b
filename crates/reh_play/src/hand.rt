// The hand of a player: the findings that it has neither spent nor given back.
ghost use Rattle.std.specs.Prelude.{◌≡◌, ◌<◌, ◌++◌, ◌∷◌, [], length, IfOk, MatchOption, OnSome};
ghost use Rattle.reh_types.specs.declared.limits.TheConstants.{MAX_HAND};

use reh_desk::Finding;
use reh_types::MAX_HAND;
use std::alloc::{AllocError, Global};
use std::collections::VecDeque;
use std::marker::Model;

/// At most 8 findings, oldest first. Its room is taken once. It can't be dropped.
pub(crate) struct Hand {
    findings: VecDeque<Finding>,
}

impl Model for Hand {
    ghost use Rattle.std.specs.Prelude.{List, ◌≤◌};
    ghost use Rattle.std.specs.VecDeque.{deque_len, deque_capacity};
    ghost use Rattle.reh_types.specs.declared.limits.TheConstants.{MAX_HAND};
    ghost use Rattle.reh_desk.specs.Numbered.{Numbered};

    ghost Value = { List Numbered };

    ghost view = { λ h. h.findings.items };

    ghost invariant = { λ h. (deque_len h.findings ≤ MAX_HAND) × (MAX_HAND ≤ deque_capacity h.findings) };
}

impl Hand {
    /// An empty hand.
    pub(crate) fn new(alloc: Global) -> Result<Hand, AllocError>
        ensures { IfOk result (λ hand. hand ≡ []) }
    {
        let mut findings = VecDeque::new(alloc);
        match findings.reserve(MAX_HAND) {
            Ok(()) => Ok(Hand { findings }),
            Err(want) => {
                findings.destroy_empty();
                Err(want)
            }
        }
    }

    /// How many findings it holds.
    pub(crate) fn len(&self) -> usize
        ensures { result ≡ length self.now }
    {
        self.findings.len()
    }

    /// Takes in the newest finding.
    pub(crate) fn add(&mut self, finding: Finding)
        requires { length self.old < MAX_HAND }
        ensures { self.new ≡ self.old ++ finding ∷ [] }
    {
        self.findings.push_back_reserved(finding);
    }

    /// Gives out the oldest finding.
    pub(crate) fn oldest(&mut self) -> Option<Finding>
        ensures oldest { MatchOption result ((self.old ≡ []) × (self.new ≡ [])) (λ finding. self.old ≡ finding
            ∷ self.new) }
        ensures room { OnSome result (length self.new < MAX_HAND) }
    {
        self.findings.pop_front()
    }

    /// Takes the oldest finding back.
    pub(crate) fn put_back(&mut self, finding: Finding)
        requires { length self.old < MAX_HAND }
        ensures { self.new ≡ finding ∷ self.old }
    {
        self.findings.push_front_reserved(finding);
    }

    /// Ends an empty hand.
    pub(crate) fn end(self)
        requires { self ≡ [] }
    {
        let Hand { findings } = self;
        findings.destroy_empty();
    }
}
