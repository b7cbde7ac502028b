// The report of a state.
ghost use Rattle.std.specs.Prelude.{◌≡◌, ◌<◌, ◌++◌, [], IfOk, OnOk, string_bytes, codes, map, slice_get};
ghost use Rattle.std.specs.Prelude.{flat_map, if◌then◌else◌};
ghost use Rattle.std.specs.List.{enumerate_from};
ghost use Rattle.std.specs.Option.{option_copied};
ghost use Rattle.reh_types.specs.Sets as set;
ghost use Rattle.reh_model.specs.Metadata as meta;
ghost use Rattle.reh_commands.specs.Reports.{line_at};
ghost use Rattle.reh_commands.specs.Texts as texts;

use crate::texts::push_name;
use reh_cluster::{Ledger, Names, State};
use reh_meta::{Fragment, LedgerMeta};
use reh_types::{BookieIx, BookieSet, LedgerId, LedgerState, Lock, MAX_BOOKIES};
use std::alloc::{AllocError, Global};

/// The report of a state: its clock, grace and delay, whether AutoRecovery is disabled, its bookies, and its ledgers with
/// their fragments, tasks and locks.
pub fn report_text(alloc: Global, state: &State) -> Result<String, AllocError>
    ensures { IfOk result (λ text. string_bytes text ≡ texts.text_of (texts.report state.now)) }
{
    let mut text = String::new(alloc);
    push_report(&mut text, state)?;
    Ok(text)
}

/// Adds the report of a state.
pub fn push_report(text: &mut String, state: &State) -> Result<(), AllocError>
    ensures { OnOk result (string_bytes text.new ≡ string_bytes text.old ++ texts.text_of (texts.report state.now)) }
{
    push_clock(text, state)?;
    push_autorecovery(text, state.is_enabled())?;
    push_bookies(text, state)?;
    push_ledgers(text, state.names(), state.ledgers())
}

/// Adds the line of the clock.
fn push_clock(text: &mut String, state: &State) -> Result<(), AllocError>
    ensures { OnOk result (string_bytes text.new ≡ string_bytes text.old
        ++ (texts.clock_line state.now ++ codes "\n")) }
{
    write!(text, "clock {} grace {}", state.clock(), state.grace())?;
    push_delay(text, state.delay())?;
    text.push('\n')
}

/// Adds the delay, where there is one.
fn push_delay(text: &mut String, delay: u64) -> Result<(), AllocError>
    ensures { OnOk result (string_bytes text.new ≡ string_bytes text.old
        ++ texts.behind_spaces (texts.delay_words delay)) }
{
    if delay == 0 {
        return Ok(());
    }
    write!(text, " delay {delay}")
}

/// Adds the line of a disabled AutoRecovery, while it is disabled.
fn push_autorecovery(text: &mut String, enabled: bool) -> Result<(), AllocError>
    ensures { OnOk result (string_bytes text.new ≡ string_bytes text.old
        ++ texts.text_of (texts.autorecovery_lines enabled)) }
{
    if enabled {
        return Ok(());
    }
    text.push_str("autorecovery disabled\n")
}

/// Adds the lines of all bookies.
fn push_bookies(text: &mut String, state: &State) -> Result<(), AllocError>
    ensures { OnOk result (string_bytes text.new ≡ string_bytes text.old
        ++ texts.text_of (map (λ place. texts.bookie_line state.now place.0 place.1)
        (enumerate_from 0 state.now.names))) }
{
    for i in 0..state.names().len() {
        push_bookie(text, state, i)?;
    }
    Ok(())
}

/// Adds the line of the i-th bookie, if there is one.
fn push_bookie(text: &mut String, state: &State, i: usize) -> Result<(), AllocError>
    requires { i < MAX_BOOKIES }
    ensures { OnOk result (string_bytes text.new ≡ string_bytes text.old
        ++ line_at state.now i (slice_get state.now.names i)) }
{
    let bookie = BookieIx(i as u8);
    let Some(name) = state.names().name(bookie) else {
        return Ok(());
    };
    let registration = if state.is_up(bookie) { "up" } else { "down" };
    let count = state.count(bookie);
    write!(text, "bookie {name} {registration} {count}")?;
    push_since(text, state.delay(), state.lost_tick(bookie))?;
    text.push('\n')
}

/// Adds the tick at which a bookie was lost, if it was, where there is a delay.
fn push_since(text: &mut String, delay: u64, lost: Option<u64>) -> Result<(), AllocError>
    ensures { OnOk result (string_bytes text.new ≡ string_bytes text.old
        ++ texts.behind_spaces (texts.since_words delay lost)) }
{
    if delay == 0 {
        return Ok(());
    }
    match lost {
        Some(tick) => write!(text, " since {tick}"),
        None => Ok(()),
    }
}

/// Adds the lines of ledgers.
fn push_ledgers(text: &mut String, names: &Names, ledgers: &[Ledger]) -> Result<(), AllocError>
    ensures { OnOk result (string_bytes text.new ≡ string_bytes text.old
        ++ texts.text_of (flat_map (texts.ledger_lines names.now) ledgers.now)) }
{
    for ledger in ledgers {
        push_ledger(text, names, ledger)?;
    }
    Ok(())
}

/// Adds the lines of a ledger.
fn push_ledger(text: &mut String, names: &Names, ledger: &Ledger) -> Result<(), AllocError>
    ensures { OnOk result (string_bytes text.new ≡ string_bytes text.old
        ++ texts.text_of (texts.ledger_lines names.now ledger.now)) }
{
    push_metadata(text, ledger.id(), ledger.metadata())?;
    push_fragments(text, names, ledger.metadata())?;
    push_task(text, names, ledger.task())?;
    push_lock(text, names, ledger.lock())
}

/// Adds the line of a ledger's metadata.
fn push_metadata(text: &mut String, id: LedgerId, metadata: &LedgerMeta) -> Result<(), AllocError>
    ensures { OnOk result (string_bytes text.new ≡ string_bytes text.old
        ++ (texts.ledger_line id metadata.now ++ codes "\n")) }
{
    let state = state_word(metadata.state());
    write!(
        text,
        "ledger {} {state} version {} last ",
        id.0,
        metadata.version()
    )?;
    push_last(text, metadata.state())?;
    let size = metadata.size();
    write!(
        text,
        " quorum {size} {} {}\n",
        metadata.write_quorum(),
        metadata.ack_quorum()
    )
}

/// The state of a ledger.
pub fn state_word(state: LedgerState) -> &'static str
    ensures { result.now ≡ texts.state_word state }
{
    match state {
        LedgerState::Open => "OPEN",
        LedgerState::InRecovery => "IN_RECOVERY",
        LedgerState::Closed { .. } => "CLOSED",
    }
}

/// Adds a ledger's last entry id, or `-` where it isn't closed.
pub fn push_last(text: &mut String, state: LedgerState) -> Result<(), AllocError>
    ensures { OnOk result (string_bytes text.new ≡ string_bytes text.old ++ texts.last_word state) }
{
    match state {
        LedgerState::Open | LedgerState::InRecovery => text.push_str("-"),
        LedgerState::Closed { end: 0 } => text.push_str("-1"),
        LedgerState::Closed { end } => write!(text, "{}", end - 1),
    }
}

/// Adds the lines of a ledger's fragments.
fn push_fragments(text: &mut String, names: &Names, metadata: &LedgerMeta) -> Result<(), AllocError>
    ensures { OnOk result (string_bytes text.new ≡ string_bytes text.old
        ++ texts.text_of (texts.fragment_lines names.now metadata.now)) }
{
    for (f, fragment) in metadata.fragments().iter().enumerate() {
        push_fragment(text, names, f, fragment, metadata.end_of(f))?;
    }
    Ok(())
}

/// Adds the line of a fragment by its number, and where it stops.
fn push_fragment(
    text: &mut String,
    names: &Names,
    number: usize,
    fragment: &Fragment,
    stop: Option<u32>,
) -> Result<(), AllocError>
    ensures { OnOk result (string_bytes text.new ≡ string_bytes text.old
        ++ (texts.fragment_line names.now number fragment.now stop ++ codes "\n")) }
{
    write!(text, "fragment {number} first {} stop ", fragment.first)?;
    push_stop(text, stop)?;
    push_names(text, names, &fragment.ensemble)?;
    text.push('\n')
}

/// Adds a fragment's stop, or `-` where it has none.
fn push_stop(text: &mut String, stop: Option<u32>) -> Result<(), AllocError>
    ensures { OnOk result (string_bytes text.new ≡ string_bytes text.old ++ texts.stop_word stop) }
{
    match stop {
        Some(stop) => write!(text, "{stop}"),
        None => text.push_str("-"),
    }
}

/// Adds the names of bookies, each after a space.
pub fn push_names(text: &mut String, names: &Names, bookies: &[BookieIx]) -> Result<(), AllocError>
    ensures { OnOk result (string_bytes text.new ≡ string_bytes text.old
        ++ texts.behind_spaces (map (texts.name_of names.now) bookies.now)) }
{
    for bookie in bookies {
        push_name(text, names, *bookie)?;
    }
    Ok(())
}

/// Adds the line of a task, if there is one.
fn push_task(text: &mut String, names: &Names, task: Option<&BookieSet>) -> Result<(), AllocError>
    ensures { OnOk result (string_bytes text.new ≡ string_bytes text.old
        ++ texts.text_of (texts.task_lines names.now (option_copied task.entry))) }
{
    let Some(bookies) = task else {
        return Ok(());
    };
    text.push_str("task")?;
    push_members(text, names, bookies)?;
    text.push('\n')
}

/// Adds the names of a set's bookies in picture order, each after a space.
pub fn push_members(text: &mut String, names: &Names, bookies: &BookieSet) -> Result<(), AllocError>
    ensures { OnOk result (string_bytes text.new ≡ string_bytes text.old
        ++ texts.behind_spaces (texts.names_in names.now bookies.now)) }
{
    for i in 0..names.len() {
        push_member(text, names, bookies, i)?;
    }
    Ok(())
}

/// Adds the name of the i-th bookie after a space, if it is in the set.
fn push_member(
    text: &mut String,
    names: &Names,
    bookies: &BookieSet,
    i: usize,
) -> Result<(), AllocError>
    requires { i < MAX_BOOKIES }
    ensures { OnOk result (string_bytes text.new ≡ string_bytes text.old
        ++ (if set.contains bookies.now i then codes " " ++ texts.name_of names.now i else [])) }
{
    let bookie = BookieIx(i as u8);
    if bookies.contains(bookie) {
        push_name(text, names, bookie)?;
    }
    Ok(())
}

/// Adds the line of a task's lock, if there is one.
fn push_lock(text: &mut String, names: &Names, lock: Option<Lock>) -> Result<(), AllocError>
    ensures { OnOk result (string_bytes text.new ≡ string_bytes text.old
        ++ texts.text_of (texts.lock_lines names.now lock)) }
{
    let Some(lock) = lock else {
        return Ok(());
    };
    text.push_str("lock")?;
    push_name(text, names, lock.owner)?;
    match lock.due {
        Some(due) => write!(text, " due {due}\n"),
        None => text.push('\n'),
    }
}
