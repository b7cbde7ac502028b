// What changed in a ledger's metadata.
ghost use Rattle.std.specs.Prelude.{◌≡◌, ◌++◌, ◌∷◌, [], OnOk, string_bytes};
ghost use Rattle.reh_commands.specs.Texts as texts;
ghost use Rattle.reh_changes.specs.Changes as changes;

use crate::fragments::push_fragments;
use reh_cluster::{Ledger, Names};
use reh_commands::{push_last, state_word};
use reh_meta::LedgerMeta;
use reh_types::{LedgerId, LedgerState};
use std::alloc::AllocError;

/// Adds the lines of a ledger's metadata, where it was this one: its version, its state and its fragments, as far as they
/// changed.
pub(crate) fn push_metadata(
    text: &mut String,
    names: &Names,
    ledger: &Ledger,
    was: &LedgerMeta,
) -> Result<(), AllocError>
    ensures { OnOk result (string_bytes text.new ≡ string_bytes text.old
        ++ changes.metadata_lines names.now ledger.now.id was.now ledger.now.metadata) }
{
    let id = ledger.id();
    let now = ledger.metadata();
    push_version(text, id, was.version(), now.version())?;
    push_state(text, id, was.state(), now.state())?;
    push_fragments(text, names, id, was.fragments(), now.fragments())
}

/// Adds the line of a version, if it changed.
fn push_version(text: &mut String, id: LedgerId, was: u64, now: u64) -> Result<(), AllocError>
    ensures { OnOk result (string_bytes text.new ≡ string_bytes text.old ++ changes.version_line id was now) }
{
    if was == now {
        return Ok(());
    }
    write!(text, "  ledger {} version {was} -> {now}\n", id.0)
}

/// Adds the line of a state, if it changed.
fn push_state(
    text: &mut String,
    id: LedgerId,
    was: LedgerState,
    now: LedgerState,
) -> Result<(), AllocError>
    ensures { OnOk result (string_bytes text.new ≡ string_bytes text.old ++ changes.state_line id was now) }
{
    if is_same_state(was, now) {
        return Ok(());
    }
    write!(text, "  ledger {} state", id.0)?;
    push_state_words(text, was)?;
    text.push_str(" ->")?;
    push_state_words(text, now)?;
    text.push('\n')
}

/// Whether both are the same state.
fn is_same_state(was: LedgerState, now: LedgerState) -> bool
    ensures { result ≡ changes.is_same_state was now }
{
    match (was, now) {
        (LedgerState::Open, LedgerState::Open) => true,
        (LedgerState::InRecovery, LedgerState::InRecovery) => true,
        (LedgerState::Closed { end: was }, LedgerState::Closed { end: now }) => was == now,
        _ => false,
    }
}

/// Adds a state, and of a closed ledger its last entry id, each word after a space.
fn push_state_words(text: &mut String, state: LedgerState) -> Result<(), AllocError>
    ensures { OnOk result (string_bytes text.new ≡ string_bytes text.old
        ++ texts.behind_spaces (changes.state_words state)) }
{
    write!(text, " {}", state_word(state))?;
    match state {
        LedgerState::Open | LedgerState::InRecovery => Ok(()),
        LedgerState::Closed { .. } => {
            text.push_str(" last ")?;
            push_last(text, state)
        }
    }
}
