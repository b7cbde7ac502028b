// Whether a census counts so much: that needs no memory.
ghost use Rattle.std.specs.Prelude.{◌≡◌, ℕ, List, IsTrue, ◌↔◌, count_by, true};
ghost use Rattle.reh_census.specs.Counting.{tail_of};
ghost use Rattle.reh_tally.specs.Few as model;
ghost use Rattle.reh_tally.specs.Few.{AreFew, capped};

use reh_census::{Fragment, Ledger, LedgerState};

/// How far a census counts.
pub(crate) const MOST: u64 = 1 << 63;

/// How many entries the fragments have.
fn entries_among(fragments: &[Fragment]) -> u64
    ensures { result ≡ capped (model.entries_among fragments.now) }
{
    let mut total: u64 = 0;
    for fragment in fragments {
        total = total.saturating_add(fragment.stop.saturating_sub(fragment.first));
    }
    total
}

/// How many entries the ledgers have.
fn count_entries(ledgers: &[Ledger]) -> u64
    ensures { result ≡ capped (model.entries_of ledgers.now) }
{
    let mut total: u64 = 0;
    for ledger in ledgers {
        total = total.saturating_add(entries_among(ledger.fragments()));
    }
    total
}

/// How many tails the ledger has: one, if it isn't closed and has an ensemble.
fn tails_in(ledger: &Ledger) -> u64
    ensures { result ≡ count_by (λ tail. true) (tail_of ledger.now) }
{
    if ledger.fragments().is_empty() {
        return 0;
    }
    match ledger.state() {
        LedgerState::Open | LedgerState::InRecovery => 1,
        LedgerState::Closed => 0,
    }
}

/// How many tails the ledgers have.
fn count_tails(ledgers: &[Ledger]) -> u64
    ensures { result ≡ capped (model.tails_of ledgers.now) }
{
    let mut total: u64 = 0;
    for ledger in ledgers {
        total = total.saturating_add(tails_in(ledger));
    }
    total
}

/// How many fragments the ledgers have.
fn count_fragments(ledgers: &[Ledger]) -> u64
    ensures { result ≡ capped (model.fragments_of ledgers.now) }
{
    let mut total: u64 = 0;
    for ledger in ledgers {
        total = total.saturating_add(ledger.fragments().len() as u64);
    }
    total
}

/// Whether a census counts so many entries, tails and fragments as these ledgers have, whichever bookies hold copies.
pub fn are_few(ledgers: &[Ledger]) -> bool
    ensures { (holders : List ℕ) → (IsTrue result ↔ AreFew holders ledgers.now) }
{
    let most = count_entries(ledgers)
        .max(count_tails(ledgers))
        .max(count_fragments(ledgers));
    most <= MOST
}
