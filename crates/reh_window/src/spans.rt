// Which entries the windows of a ledger have, and which windows it has.
ghost use Rattle.std.specs.Prelude.{◌≡◌, ◌≤◌, true, IfOk, OnOk};
ghost use Rattle.std.specs.Result.{result_err};
ghost use Rattle.reh_window.specs.Windows as model;

use crate::faults::WindowFault;
use reh_inventory::{LedgerLine, LedgerState};
use reh_inventory_census::{end_of, end_told, last_first};
use reh_inventory_fields::{MAX_ENSEMBLE, MAX_NUMBER};
use reh_types::ENTRY_END;

/// The entries from the start up to, not including, the stop.
#[derive(Clone, Copy)]
pub(crate) struct Span {
    pub(crate) start: u64,
    pub(crate) stop: u64,
}

/// How many entries a window of the ledger has: the greatest multiple of its ensemble size up to 65,536.
pub fn width_of(line: &LedgerLine) -> u64
    ensures { result ≡ model.width_of line.now }
{
    let size = line.sizes.ensemble;
    if size == 0 {
        return 0;
    }
    ENTRY_END / size * size
}

/// The last entry: of a ledger that isn't closed, the greatest that a bookie is told or assumed to hold, or the first one of
/// the last fragment, if that is greater.
fn last_entry(line: &LedgerLine) -> u64
    ensures { result ≡ model.last_entry line.now }
{
    match end_of(line.state) {
        Some(end) => end.saturating_sub(1),
        None => { last_first(line).max(end_told(line.contents.as_slice()).saturating_sub(1)) }
    }
}

/// Whether an inventory may have such a line.
fn is_fit(line: &LedgerLine) -> bool
    ensures { result ≡ model.is_fit line.now }
{
    let size = line.sizes.ensemble;
    1 <= size && size <= MAX_ENSEMBLE && last_entry(line) <= MAX_NUMBER
}

/// The number of the last window.
fn last_window(line: &LedgerLine) -> u64
    requires { model.is_fit line.now ≡ true }
    ensures { result ≡ model.last_window line.now }
{
    last_entry(line) / width_of(line)
}

/// The entries of the window of this number.
fn span_of(line: &LedgerLine, window: u64) -> Span
    requires fit { model.is_fit line.now ≡ true }
    requires there { window ≤ model.last_window line.now }
    ensures { result ≡ model.span_of window line.now }
{
    let width = width_of(line);
    let start = window * width;
    Span {
        start,
        stop: start + width,
    }
}

/// The entries of the window of this number, or why the ledger has no such window.
pub(crate) fn checked_span(line: &LedgerLine, window: u64) -> Result<Span, WindowFault>
    ensures fault { result_err result ≡ model.window_fault window line.now }
    ensures span { IfOk result (λ span. span ≡ model.span_of window line.now) }
    ensures fit { OnOk result (model.is_fit line.now ≡ true) }
{
    if !is_fit(line) {
        return Err(WindowFault::Unfit);
    }
    let last = last_window(line);
    if window > last {
        return Err(WindowFault::PastLast(last));
    }
    let span = span_of(line, window);
    let first = last_first(line);
    if end_of(line.state).is_none() && window < last && first < span.stop {
        return Err(WindowFault::Unsettled(first, last));
    }
    Ok(span)
}

/// The state of the window of this number, which begins at this entry.
pub(crate) fn state_in(line: &LedgerLine, window: u64, start: u64) -> LedgerState
    requires fit { model.is_fit line.now ≡ true }
    requires begins { start ≡ (model.span_of window line.now).start }
    ensures { result ≡ model.state_in window line.now }
{
    let end = end_of(line.state);
    if end.is_none() && window == last_window(line) {
        return line.state;
    }
    let settled = end.unwrap_or(last_first(line));
    LedgerState::Closed {
        end: settled.saturating_sub(start).min(width_of(line)),
    }
}
