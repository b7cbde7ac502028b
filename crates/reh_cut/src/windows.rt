// The picture of some ledgers, or of a window of each.
ghost use Rattle.std.specs.Prelude.{◌≡◌, true, map, IfOk, OnOk, string_bytes};
ghost use Rattle.std.specs.List.{list_all};
ghost use Rattle.std.specs.Option.{option_map};
ghost use Rattle.reh_cut.specs.Chosen as model;
ghost use Rattle.reh_cut.specs.Cuts.{IsCut};
ghost use Rattle.reh_cut.specs.Faults.{FailsWith, no_window as window_fault};
ghost use Rattle.reh_cut.specs.Passed.{NamesFault};
ghost use Rattle.reh_window.specs.Windows as ledger;

use crate::cuts::cut;
use crate::faults::{CutFault, no_window};
use crate::said::Assume;
use reh_inventory::{Head, LedgerLine};
use reh_window::window_of;
use std::alloc::Global;

/// The window of this number of a ledger.
fn window_in(alloc: Global, line: &LedgerLine, window: u64) -> Result<LedgerLine, CutFault>
    ensures there { OnOk result (ledger.has_window window line.now ≡ true) }
    ensures cut { IfOk result (λ made. made ≡ ledger.window_of window line.now) }
    ensures fault { FailsWith result
        (option_map (window_fault line.now.id) (ledger.window_fault window line.now)) }
{
    match window_of(alloc, line, window) {
        Ok(made) => Ok(made),
        Err(fault) => Err(no_window(line.id, fault)),
    }
}

/// The windows of this number of these ledgers.
fn windows_in(alloc: Global, lines: &[LedgerLine], window: u64) -> Result<Vec<LedgerLine>, CutFault>
    ensures there { OnOk result (list_all (ledger.has_window window) lines.now ≡ true) }
    ensures cut { IfOk result (λ made. made.items ≡ map (ledger.window_of window) lines.now) }
    ensures fault { FailsWith result (model.windows_fault window lines.now) }
{
    let mut made = Vec::new(alloc);
    for line in lines {
        made.push(window_in(alloc, line, window)?)?;
    }
    Ok(made)
}

/// The picture of these ledgers, or of the window of this number of each.
pub(crate) fn cut_lines(
    alloc: Global,
    head: &Head,
    lines: &[LedgerLine],
    assume: Assume,
    window: Option<u64>,
) -> Result<String, CutFault>
    ensures there { OnOk result (model.have_window window lines.now ≡ true) }
    ensures cut { IfOk result (λ text. IsCut head.now (model.cut_lines window lines.now) assume (string_bytes text)) }
    ensures fault { NamesFault result (model.cut_fault head.now assume window lines.now) }
{
    match window {
        Some(window) => {
            let windows = windows_in(alloc, lines, window)?;
            cut(alloc, head, &windows, assume)
        }
        None => cut(alloc, head, lines, assume),
    }
}
