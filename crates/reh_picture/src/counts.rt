// How much there is in a state.
ghost use Rattle.std.specs.Prelude.{◌≡◌, ◌≤◌, ◌^◌, All, length, sum_by, count_by};
ghost use Rattle.reh_types.specs.declared.limits.TheConstants.{MAX_FRAGMENTS, MAX_LEDGERS};
ghost use Rattle.reh_model.specs.Metadata as meta;
ghost use Rattle.reh_picture.specs.Counts.{counts_of, up_in, entries_in, fragments_of, is_closed as is_closed_state};

use crate::pictures::words_in_all;
use reh_cluster::{Ledger, State};
use reh_types::{BookieIx, LedgerState, MAX_WORDS};
use std::fmt;

/// How many bookies, ledgers, fragments, entries and words a state has. Its text has a line for each.
#[derive(Clone, Copy)]
pub struct Counts {
    /// All bookies.
    pub bookies: usize,
    /// Those that are registered.
    pub up: usize,
    /// All ledgers.
    pub ledgers: usize,
    /// Ledgers that are OPEN.
    pub open: usize,
    /// Ledgers that are IN_RECOVERY.
    pub in_recovery: usize,
    /// Ledgers that are CLOSED.
    pub closed: usize,
    /// The fragments of all ledgers.
    pub fragments: usize,
    /// The entries that bookies hold, each counted once for every bookie that holds it.
    pub entries: u128,
    /// The words that these take, of so many as there may be.
    pub words: u64,
}

impl Counts {
    /// The counts of a state.
    pub fn of(state: &State) -> Counts
        ensures { result ≡ counts_of state.now }
    {
        let ledgers = state.ledgers();
        let InStates {
            open,
            in_recovery,
            closed,
        } = count_states(ledgers);
        Counts {
            bookies: state.names().len(),
            up: count_up(state),
            ledgers: ledgers.len(),
            open,
            in_recovery,
            closed,
            fragments: count_fragments(ledgers),
            entries: count_entries(state),
            words: words_in_all(state.names().len(), ledgers),
        }
    }
}

impl fmt::Display for Counts {
    ghost use Rattle.std.specs.Prelude.{Some};
    ghost use Rattle.reh_picture.specs.Counts.{counts_text};

    ghost output = { λ counts. Some (counts_text counts) };

    fn fmt<W: fmt::Write>(&self, f: &mut fmt::Formatter<W>) -> fmt::Result {
        write!(
            f,
            "bookies {} up {}\nledgers {} OPEN {} IN_RECOVERY {} CLOSED {}\nfragments {}\nentries {}\nwords {} of {}",
            self.bookies,
            self.up,
            self.ledgers,
            self.open,
            self.in_recovery,
            self.closed,
            self.fragments,
            self.entries,
            self.words,
            MAX_WORDS
        )
    }
}

/// How many bookies are registered.
fn count_up(state: &State) -> usize
    ensures { result ≡ up_in state.now }
{
    let mut up = 0;
    for i in 0..state.names().len() {
        if state.is_up(BookieIx(i as u8)) {
            up += 1;
        }
    }
    up
}

/// How many entries all bookies hold.
fn count_entries(state: &State) -> u128
    ensures { result ≡ entries_in state.now }
{
    let mut entries = 0;
    for i in 0..state.names().len() {
        entries += state.count(BookieIx(i as u8)) as u128;
    }
    entries
}

/// How many fragments ledgers have.
fn count_fragments(ledgers: &[Ledger]) -> usize
    requires few { length ledgers.now ≤ MAX_LEDGERS }
    requires each { All (λ g. length g.metadata.fragments ≤ MAX_FRAGMENTS) ledgers.now }
    ensures { result ≡ fragments_of ledgers.now }
{
    let mut fragments = 0;
    for ledger in ledgers {
        fragments += ledger.metadata().fragments().len();
    }
    fragments
}

/// How many of some ledgers are in each state.
struct InStates {
    open: usize,
    in_recovery: usize,
    closed: usize,
}

/// How many ledgers are in each state.
fn count_states(ledgers: &[Ledger]) -> InStates
    requires { length ledgers.now ≤ MAX_LEDGERS }
    ensures is_open { result.open ≡ count_by (λ g. meta.is_open g.metadata.state) ledgers.now }
    ensures in_recovery { result.in_recovery
        ≡ count_by (λ g. meta.is_in_recovery g.metadata.state) ledgers.now }
    ensures closed { result.closed ≡ count_by (λ g. is_closed_state g.metadata.state) ledgers.now }
{
    let mut open = 0;
    let mut in_recovery = 0;
    let mut closed = 0;
    for ledger in ledgers {
        match ledger.metadata().state() {
            LedgerState::Open => open += 1,
            LedgerState::InRecovery => in_recovery += 1,
            LedgerState::Closed { .. } => closed += 1,
        }
    }
    InStates {
        open,
        in_recovery,
        closed,
    }
}
