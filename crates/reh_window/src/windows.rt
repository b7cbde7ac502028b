// A window of a ledger, as the line of a ledger.
ghost use Rattle.std.specs.Prelude.{◌≡◌, IfOk};
ghost use Rattle.reh_window.specs.Windows as model;

use crate::contents::contents_in;
use crate::faults::WindowFault;
use crate::fragments::fragments_in;
use crate::spans::{checked_span, state_in};
use reh_inventory::LedgerLine;
use std::alloc::Global;

/// The window of this number of a ledger, in place of its line: the entries from that many times its width on, counted from
/// 0 on. A window of a ledger that isn't closed is either the last one, in the ledger's own state, or has entries of
/// fragments alone that stop, and then it is closed.
pub fn window_of(alloc: Global, line: &LedgerLine, window: u64) -> Result<LedgerLine, WindowFault>
    ensures fault { model.FailsWith result (model.window_fault window line.now) }
    ensures cut { IfOk result (λ made. made ≡ model.window_of window line.now) }
{
    let span = checked_span(line, window)?;
    let state = state_in(line, window, span.start);
    let fragments = fragments_in(alloc, span, line.fragments.as_slice())?;
    let contents = contents_in(alloc, span, line.contents.as_slice())?;
    Ok(LedgerLine {
        id: line.id,
        state,
        sizes: line.sizes,
        version: line.version,
        length: None,
        fragments,
        contents,
    })
}
