// The picture of some ledgers of an inventory.
ghost use Rattle.std.specs.Prelude.{◌≡◌, IfOk, OnOk, ℕ, List};
ghost use Rattle.rehearse.specs.Cuts as model;

use reh_cut::{Assume, ChosenLedgers, CutFault};
use reh_files::{Looks, RunFault, Teller, open_file, write_out};
use reh_inventory::InventoryFault;
use reh_near::near_ids;
use reh_questions::{read_line, reader_of, refused_line, unfit};
use reh_words::CutWords;
use std::alloc::{AllocError, Global};
use std::io::BufRead;
use std::sync::Wait;
use std::thread;

/// How a picture begins, as it is mostly written.
const PICTURE_BEGINS: &str = "{\"format\"";

/// Says to standard output what the picture is, and to standard error if it may show only a part of a ledger.
pub(crate) fn cut_over<R: thread::Threads + Wait + Copy + Send + 'static>(
    rt: &HostRuntime,
    threads: &R,
    looks: Looks,
    words: &CutWords<'_>,
) -> Result<(), RunFault> {
    let teller = Teller::begin(rt, threads, looks, 1);
    let cut = cut_of(rt, words);
    teller.end(threads);
    let mut text = cut?;
    text.push('\n')?;
    write_out(rt, text.as_bytes())?;
    if words.window.is_some() && !looks.is_quiet {
        let _ = eprintln!(rt;
            "note: of a ledger with more entries this is a part: ask of the inventory whether bookies may be stopped"
        );
    }
    Ok(())
}

/// The picture, as text.
fn cut_of(rt: &HostRuntime, words: &CutWords<'_>) -> Result<String, RunFault>
    ensures { IfOk result (model.IsCutFor words.now) }
{
    let alloc = rt.alloc();
    let path = words.inventory;
    let mut reader = reader_of(alloc, path, open_file(rt, path)?)?;
    let chosen = choose_lines(alloc, path, &mut reader, &words.ledgers)?;
    match chosen.cut(alloc, assumed(words), words.window) {
        Ok(text) => Ok(text),
        Err(fault) => Err(uncut(alloc, path, chosen.inventory().ids(), &fault)),
    }
}

/// What stands for what nobody tells.
fn assumed(words: &CutWords<'_>) -> Assume
    ensures { result ≡ model.assume_of words.now }
{
    if words.assume_held {
        Assume::Held
    } else if words.assume_empty {
        Assume::Empty
    } else {
        Assume::Nothing
    }
}

/// The ledgers of these ids, of the lines of an inventory.
fn choose_lines<B: BufRead>(
    alloc: Global,
    path: &str,
    reader: &mut B,
    ids: &[u64],
) -> Result<ChosenLedgers, RunFault>
    ensures { IfOk result (model.IsChoosing ids.now) }
{
    let mut chosen = ChosenLedgers::new(alloc, Vec::from_slice(alloc, ids)?);
    let mut line = Vec::new(alloc);
    for number in 1..u64::MAX {
        line.clear();
        read_line(alloc, path, reader, &mut line)?;
        if line.is_empty() {
            break;
        }
        choose_line(alloc, path, number, &mut chosen, &line)?;
    }
    Ok(chosen)
}

/// Adds the line of this number.
fn choose_line(
    alloc: Global,
    path: &str,
    number: u64,
    chosen: &mut ChosenLedgers,
    line: &[u8],
) -> Result<(), RunFault>
    ensures { OnOk result ((ids : List ℕ) → model.IsChoosing ids chosen.old → model.IsChoosing ids chosen.new) }
{
    match chosen.add(alloc, line) {
        Ok(()) => Ok(()),
        Err(fault) => Err(unchosen(alloc, path, number, line, fault)),
    }
}

/// The fault of a line. If the file begins as a picture, one more line says so.
fn unchosen(
    alloc: Global,
    path: &str,
    number: u64,
    line: &[u8],
    fault: InventoryFault,
) -> RunFault {
    let fault = refused_line(alloc, path, number, fault);
    if number == 1 && line.starts_with(PICTURE_BEGINS.as_bytes()) {
        return unfit(format!(in alloc;
            "{fault}\n{path} is a picture: nothing has to be cut out of it"
        ));
    }
    fault
}

/// Why there is no picture of an inventory with ledgers of these ids.
fn uncut(alloc: Global, path: &str, ids: &[u64], fault: &CutFault) -> RunFault {
    match fault {
        CutFault::NoMemory => RunFault::NoMemory,
        CutFault::NoLedger(id) => unfit(no_ledger_text(alloc, path, ids, *id)),
        fault => unfit(format!(in alloc; "inventory {path}: {fault}")),
    }
}

/// That there is no such ledger, and which ids are near.
fn no_ledger_text(alloc: Global, path: &str, ids: &[u64], id: u64) -> Result<String, AllocError> {
    let fault = CutFault::NoLedger(id);
    let near = near_ids(alloc, ids, id)?;
    format!(in alloc; "inventory {path}: {fault}{near}")
}
