// Scanners of tickets.
ghost use Rattle.reh_desk.specs.Numbered.{Numbered};
ghost use Rattle.reh_desk.specs.declared.tickets.Unspent.{Unspent};
ghost use Rattle.reh_crew.specs.Workers.{IsScanOf};

use reh_desk::{Ticket, Unspent, scan};
use std::alloc::Global;

/// Scans tickets. That a scan gave something is known of its call alone: a contract that speaks of any scanner tells a
/// ticket that could not be scanned from one that nobody scanned.
pub(crate) trait Scanner {
    /// What a scan of a ticket may give.
    ghost scans: { Self → Numbered → Unspent → Type 0 };

    /// What is found with a ticket, or the ticket again, where there is no memory.
    fn scan(&self, ticket: Ticket) -> Unspent
        ensures scans { scans self.now ticket result }
        ensures is_scan { IsScanOf ticket result };
}

/// Scans tickets in this memory.
#[derive(Clone, Copy)]
pub(crate) struct InMemory {
    pub(crate) alloc: Global,
}

impl Scanner for InMemory {
    ghost scans = { λ _ _ _. Unit {0} };

    fn scan(&self, ticket: Ticket) -> Unspent {
        match scan(self.alloc, ticket) {
            Ok(finding) => Unspent::Scanned(finding),
            Err((ticket, _)) => Unspent::Unscanned(ticket),
        }
    }
}
