// What a record of changes leads back to, and what is there now.
ghost use Rattle.std.specs.Prelude.{◌≡◌, ◌++◌, ◌∷◌, [], OnOk, All, string_bytes};
ghost use Rattle.std.specs.Option.{option_copied};
ghost use Rattle.reh_model.specs.Places.{IsThere};
ghost use Rattle.reh_commands.specs.Texts as texts;
ghost use Rattle.reh_changes.specs.Changes as changes;
ghost use Rattle.reh_changes.specs.Changes.{all_lines, lines_of};

use crate::metadata::push_metadata;
use crate::words::push_word;
use reh_cluster::{Ledger, Names, State};
use reh_commands::{push_members, push_name};
use reh_meta::LedgerMeta;
use reh_types::{BookieIx, BookieSet, Change, Lock, Scalar};
use std::alloc::AllocError;

/// Adds the lines of a record that leads back from this state: of each place what was there, and what is there now.
pub fn push_changes(
    text: &mut String,
    state: &State,
    changes: &[Change<LedgerMeta>],
) -> Result<(), AllocError>
    requires { All (IsThere state.now) changes.now }
    ensures { OnOk result (string_bytes text.new ≡ string_bytes text.old ++ all_lines state.now changes.now) }
{
    for change in changes {
        push_change(text, state, change)?;
    }
    Ok(())
}

/// Adds the lines of a change that holds what was at its place.
fn push_change(
    text: &mut String,
    state: &State,
    change: &Change<LedgerMeta>,
) -> Result<(), AllocError>
    requires { IsThere state.now change.now }
    ensures { OnOk result (string_bytes text.new ≡ string_bytes text.old ++ lines_of state.now change.now) }
{
    match change {
        Change::Registration { bookie, lost_at } => {
            push_registration(text, state, *bookie, *lost_at)
        }
        Change::Metadata { place, metadata } => match state.ledgers().get(*place) {
            Some(ledger) => push_metadata(text, state.names(), ledger, metadata),
            None => Ok(()),
        },
        Change::Task { place, task } => match state.ledgers().get(*place) {
            Some(ledger) => push_task(text, state.names(), ledger, task.as_ref()),
            None => Ok(()),
        },
        Change::Lock { place, lock } => match state.ledgers().get(*place) {
            Some(ledger) => push_lock(text, state.names(), ledger, *lock),
            None => Ok(()),
        },
        Change::Word {
            bookie,
            ledger,
            number,
            bits,
        } => push_word(text, state, *bookie, *ledger, *number, *bits),
        Change::Scalar(scalar) => push_scalar(text, state, *scalar),
    }
}

/// Adds the line of a bookie's registration, where it was lost at that tick, or was registered.
fn push_registration(
    text: &mut String,
    state: &State,
    bookie: BookieIx,
    lost_at: Option<u64>,
) -> Result<(), AllocError>
    ensures { OnOk result (string_bytes text.new ≡ string_bytes text.old
        ++ changes.registration_line state.now bookie lost_at) }
{
    let delay = state.delay();
    text.push_str("  bookie")?;
    push_name(text, state.names(), bookie)?;
    push_registration_words(text, delay, lost_at.is_none(), lost_at)?;
    text.push_str(" ->")?;
    push_registration_words(text, delay, state.is_up(bookie), state.lost_tick(bookie))?;
    text.push('\n')
}

/// Adds whether a bookie is registered, and the tick at which it was lost, if it was, where there is a delay, each word
/// after a space.
fn push_registration_words(
    text: &mut String,
    delay: u64,
    is_up: bool,
    lost: Option<u64>,
) -> Result<(), AllocError>
    ensures { OnOk result (string_bytes text.new ≡ string_bytes text.old
        ++ texts.behind_spaces (changes.registration_words delay is_up lost)) }
{
    write!(text, " {}", registration(is_up))?;
    if delay == 0 {
        return Ok(());
    }
    match lost {
        Some(tick) => write!(text, " since {tick}"),
        None => Ok(()),
    }
}

/// A registration, in a report's words.
fn registration(is_up: bool) -> &'static str
    ensures { result.now ≡ texts.registration is_up }
{
    if is_up { "up" } else { "down" }
}

/// Adds the line of a ledger's task, where it was this one.
fn push_task(
    text: &mut String,
    names: &Names,
    ledger: &Ledger,
    was: Option<&BookieSet>,
) -> Result<(), AllocError>
    ensures { OnOk result (string_bytes text.new ≡ string_bytes text.old
        ++ changes.task_line names.now (option_copied was.entry) ledger.now) }
{
    write!(text, "  task {}", ledger.id().0)?;
    push_task_words(text, names, was)?;
    text.push_str(" ->")?;
    push_task_words(text, names, ledger.task())?;
    text.push('\n')
}

/// Adds the bookies that a task is to replace, or `-` where there is none, each word after a space.
fn push_task_words(
    text: &mut String,
    names: &Names,
    task: Option<&BookieSet>,
) -> Result<(), AllocError>
    ensures { OnOk result (string_bytes text.new ≡ string_bytes text.old
        ++ texts.behind_spaces (changes.task_words names.now (option_copied task.entry))) }
{
    match task {
        Some(bookies) => push_members(text, names, bookies),
        None => text.push_str(" -"),
    }
}

/// Adds the line of a lock, where it was this one.
fn push_lock(
    text: &mut String,
    names: &Names,
    ledger: &Ledger,
    was: Option<Lock>,
) -> Result<(), AllocError>
    ensures { OnOk result (string_bytes text.new ≡ string_bytes text.old
        ++ changes.lock_line names.now was ledger.now) }
{
    write!(text, "  lock {}", ledger.id().0)?;
    push_lock_words(text, names, was)?;
    text.push_str(" ->")?;
    push_lock_words(text, names, ledger.lock())?;
    text.push('\n')
}

/// Adds who locks a task and the due tick, if there is one, or `-` where it isn't locked, each word after a space.
fn push_lock_words(text: &mut String, names: &Names, lock: Option<Lock>) -> Result<(), AllocError>
    ensures { OnOk result (string_bytes text.new ≡ string_bytes text.old
        ++ texts.behind_spaces (changes.lock_words names.now lock)) }
{
    let Some(lock) = lock else {
        return text.push_str(" -");
    };
    push_name(text, names, lock.owner)?;
    match lock.due {
        Some(due) => write!(text, " due {due}"),
        None => Ok(()),
    }
}

/// Adds the line of a part that is a single value, where it was this one.
fn push_scalar(text: &mut String, state: &State, was: Scalar) -> Result<(), AllocError>
    ensures { OnOk result (string_bytes text.new ≡ string_bytes text.old
        ++ changes.scalar_line state.now.parts.scalars was) }
{
    match was {
        Scalar::Clock(was) => write!(text, "  clock {was} -> {}\n", state.clock()),
        Scalar::Enabled(was) => {
            let was = enabled_word(was);
            let now = enabled_word(state.is_enabled());
            push_values(text, "autorecovery", was, now)
        }
    }
}

/// Whether AutoRecovery is enabled, as a word.
fn enabled_word(enabled: bool) -> &'static str
    ensures { result.now ≡ changes.enabled_word enabled }
{
    if enabled { "enabled" } else { "disabled" }
}

/// Adds the line of a part by its name, with two values.
fn push_values(text: &mut String, part: &str, was: &str, now: &str) -> Result<(), AllocError>
    ensures { OnOk result (string_bytes text.new ≡ string_bytes text.old
        ++ changes.change_line (part.now ∷ []) (was.now ∷ []) (now.now ∷ [])) }
{
    write!(text, "  {part} {was} -> {now}\n")
}
