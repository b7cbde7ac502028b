// The ledgers of inventories that speak against a stop: their files are read once more.
ghost use Rattle.std.specs.Prelude.{◌≡◌, ◌++◌, ◌∷◌, ℕ, Bool, [], IfOk, List, OnOk, length, map, string_bytes};
ghost use Rattle.std.specs.List.{list_any};
ghost use Rattle.reh_against.specs.Weighed.{WeighsBy};
ghost use Rattle.reh_against.specs.Worst.{alone};
ghost use Rattle.reh_census.specs.Ledgers.{Ledger as LedgerValue};
ghost use Rattle.reh_inventory_against.specs.Files.{HaveWeighed};
ghost use Rattle.reh_inventory_against.specs.Reread.{HasWeighed, IsRereading, WeighsIf};
ghost use Rattle.reh_questions.specs.Against as model;

use crate::inputs::{FileKind, too_many, unfit};
use crate::inventories::{read_line, reader_of, uncounted};
use reh_against::{Stop, Worst};
use reh_census::{Answer, Bookie, Judged, Ledger};
use reh_files::{RunFault, open_file};
use reh_inputs::{ClusterNames, names_of};
use reh_inventory_against::Rereading;
use reh_inventory_read::LineReader;
use reh_tally::TallyFault;
use std::alloc::{AllocError, Global};
use std::fs::File;

/// The note that there is no ledger.
const NO_LEDGER: &str = "no ledger was judged: the answer is for a cluster without ledgers";

/// The note where racks are named.
const NO_RACK: &str =
    "some registered bookies have no known rack: they don't count as in a rack that is named";

/// The note on inventories that can be read only once.
const STREAM: &str =
    "no ledger is named of an inventory that can be read only once, as from a pipe";

/// What ledgers are weighed by: the numbers of these names, with what is assumed or without it, and the stop.
#[derive(Clone, Copy)]
pub(crate) struct WeighedBy<'a> {
    pub(crate) names: &'a ClusterNames,
    pub(crate) is_strict: bool,
    pub(crate) stop: Stop<'a>,
}

/// Whether a ledger may speak against a stop with this answer.
pub(crate) fn has_against(answer: &Answer) -> bool
    ensures { result ≡ model.has_against answer.now }
{
    match answer {
        Answer::Yes | Answer::NotJudged(_) => false,
        Answer::No(..) | Answer::Unknown(..) | Answer::UnknownDisks(_) => true,
    }
}

/// Whether a file is read once more, if any is.
fn is_read_again(is_any: bool, kind: FileKind) -> bool
    ensures { result ≡ model.is_read_again is_any kind }
{
    match kind {
        FileKind::Inventory { is_cut: _ } => is_any,
        FileKind::Other | FileKind::Stream { is_cut: _ } => false,
    }
}

/// Whether a file is an inventory that can be read only once.
fn is_stream(kind: FileKind) -> bool
    ensures { result ≡ model.is_stream kind }
{
    match kind {
        FileKind::Stream { is_cut: _ } => true,
        FileKind::Other | FileKind::Inventory { is_cut: _ } => false,
    }
}

/// Whether a file is an inventory whose last line isn't there.
fn is_cut(kind: FileKind) -> bool
    ensures { result ≡ model.is_cut kind }
{
    match kind {
        FileKind::Inventory { is_cut } | FileKind::Stream { is_cut } => is_cut,
        FileKind::Other => false,
    }
}

/// Whether one of these files is.
fn has_stream(kinds: &[FileKind]) -> bool
    ensures { result ≡ list_any model.is_stream kinds.now }
{
    kinds.iter().any(|kind| is_stream(*kind))
}

/// Whether files show no ledger, and none that could not be read or was announced alone.
fn is_empty(judged: Judged) -> bool
    ensures { result ≡ model.is_empty judged }
{
    judged.ledgers == 0 && judged.unread == 0 && judged.missing == 0
}

/// Whether a registered bookie's rack isn't known.
fn is_unracked(bookie: Bookie) -> bool
    ensures { result ≡ model.is_unracked bookie }
{
    bookie.is_registered && bookie.rack.is_none()
}

/// Whether that is so of one of these bookies.
fn has_unracked(bookies: &[Bookie]) -> bool
    ensures { result ≡ list_any model.is_unracked bookies.now }
{
    bookies.iter().any(|bookie| is_unracked(*bookie))
}

/// Whether racks are named, and that of some registered bookie isn't known.
pub(crate) fn lacks_rack(racks: &[&str], bookies: &[Bookie]) -> bool
    ensures { result ≡ model.lacks_rack racks.now bookies.now }
{
    !racks.is_empty() && has_unracked(bookies)
}

/// What else is to be noted of these files, whose ledgers were judged so, where some bookie lacks a rack that matters, and
/// of which some are read once more, if any is.
pub(crate) fn notes_of(
    alloc: Global,
    judged: Judged,
    lacks_rack: bool,
    is_any: bool,
    files: &[&str],
    kinds: &[FileKind],
) -> Result<Vec<String>, AllocError>
    ensures { IfOk result (λ notes. map string_bytes notes.items ≡ model.notes_of judged lacks_rack is_any files.now kinds.now) }
{
    let mut notes = cut_notes(alloc, files, kinds)?;
    if is_empty(judged) {
        push_note(alloc, &mut notes, NO_LEDGER)?;
    }
    if lacks_rack {
        push_note(alloc, &mut notes, NO_RACK)?;
    }
    if is_any && has_stream(kinds) {
        push_note(alloc, &mut notes, STREAM)?;
    }
    Ok(notes)
}

/// Adds a note with this text.
fn push_note(alloc: Global, notes: &mut Vec<String>, text: &str) -> Result<(), AllocError>
    ensures { OnOk result (map string_bytes notes.new.items
        ≡ map string_bytes notes.old.items ++ text.now ∷ []) }
{
    notes.push(String::from_str(alloc, text)?)?;
    Ok(())
}

/// A note on each of these files that is an inventory whose last line isn't there.
pub(crate) fn cut_notes(
    alloc: Global,
    files: &[&str],
    kinds: &[FileKind],
) -> Result<Vec<String>, AllocError>
    ensures { IfOk result (λ notes. map string_bytes notes.items ≡ model.cut_notes files.now kinds.now) }
{
    let mut notes = Vec::new(alloc);
    for (path, kind) in files.iter().zip(kinds) {
        push_cut(alloc, &mut notes, *path, *kind)?;
    }
    Ok(notes)
}

/// Adds the note on a file, if it is one of those.
fn push_cut(
    alloc: Global,
    notes: &mut Vec<String>,
    path: &str,
    kind: FileKind,
) -> Result<(), AllocError>
    ensures { OnOk result (map string_bytes notes.new.items
        ≡ map string_bytes notes.old.items ++ model.cut_note path.now kind) }
{
    if is_cut(kind) {
        notes.push(cut_text(alloc, path)?)?;
    }
    Ok(())
}

/// That an inventory's last line isn't there.
fn cut_text(alloc: Global, path: &str) -> Result<String, AllocError>
    ensures { IfOk result (λ text. string_bytes text ≡ model.cut_text path.now) }
{
    format!(in alloc;
        "inventory {path} has no last line: the file was cut, and ledgers may be missing"
    )
}

/// Weighs the ledgers of the inventories among these files that can be read once more, if any is to be.
pub(crate) fn weigh_files(
    rt: &HostRuntime,
    files: &[&str],
    is_any: bool,
    kinds: &[FileKind],
    ids: &[Vec<u64>],
    by: &WeighedBy<'_>,
    worst: &mut Worst,
) -> Result<(), RunFault>
    requires files { length files.now ≡ length ids.now }
    requires kinds { length kinds.now ≡ length ids.now }
    ensures { OnOk result ((before : List ℕ) (ledgers : List (List LedgerValue))
        → WeighsBy by.now.stop before ledgers worst.old
        → HaveWeighed by.now.stop by.now.names.now by.now.is_strict
        (map (model.is_read_again is_any) kinds.now) ids.now before ledgers worst.new) }
{
    for number in 0..ids.len() {
        let is_read = is_read_again(is_any, kinds[number]);
        weigh_if(
            rt,
            files[number],
            is_read,
            ids[number].as_slice(),
            by,
            worst,
        )?;
    }
    Ok(())
}

/// Weighs the ledgers of an inventory, if it is to be read, which had these ids when it was counted.
fn weigh_if(
    rt: &HostRuntime,
    path: &str,
    is_read: bool,
    ids: &[u64],
    by: &WeighedBy<'_>,
    worst: &mut Worst,
) -> Result<(), RunFault>
    ensures { OnOk result
        (WeighsIf by.now.stop by.now.names.now by.now.is_strict is_read ids.now worst.old worst.new) }
{
    if is_read {
        weigh_file(rt, path, ids, by, worst)
    } else {
        Ok(())
    }
}

/// Weighs the ledgers of an inventory, which had these ids when it was counted.
fn weigh_file(
    rt: &HostRuntime,
    path: &str,
    ids: &[u64],
    by: &WeighedBy<'_>,
    worst: &mut Worst,
) -> Result<(), RunFault>
    ensures { OnOk result ((before : List ℕ) (ledgers : List (List LedgerValue))
        → WeighsBy by.now.stop before ledgers worst.old
        → HasWeighed by.now.stop by.now.names.now by.now.is_strict ids.now before ledgers worst.new) }
{
    let alloc = rt.alloc();
    let mut reader = reader_of(alloc, path, open_file(rt, path)?)?;
    weigh_reader(alloc, path, &mut reader, ids, by, worst)
}

/// Weighs the ledgers of an inventory that this reads from its beginning.
fn weigh_reader(
    alloc: Global,
    path: &str,
    reader: &mut LineReader<File>,
    ids: &[u64],
    by: &WeighedBy<'_>,
    worst: &mut Worst,
) -> Result<(), RunFault>
    ensures { OnOk result ((before : List ℕ) (ledgers : List (List LedgerValue))
        → WeighsBy by.now.stop before ledgers worst.old
        → HasWeighed by.now.stop by.now.names.now by.now.is_strict ids.now before ledgers worst.new) }
{
    let mut again = read_first(alloc, path, by, reader)?;
    weigh_lines(alloc, path, reader, &mut again, by, worst)?;
    if again.is_of(ids) {
        Ok(())
    } else {
        Err(changed(alloc, path))
    }
}

/// Begins to read an inventory once more, with the first line that is read.
fn read_first(
    alloc: Global,
    path: &str,
    by: &WeighedBy<'_>,
    reader: &mut LineReader<File>,
) -> Result<Rereading, RunFault>
    ensures { IfOk result (λ again. (first : List ℕ)
        × IsRereading by.now.names.now by.now.is_strict first [] again) }
{
    let mut line = Vec::new(alloc);
    read_line(alloc, path, reader, &mut line)?;
    let again = begin(alloc, path, by, &line)?;
    Ok(again)
}

/// Begins to read an inventory once more, with its first line.
fn begin(alloc: Global, path: &str, by: &WeighedBy<'_>, line: &[u8]) -> Result<Rereading, RunFault>
    ensures { IfOk result (IsRereading by.now.names.now by.now.is_strict line.now []) }
{
    let names = names_of(alloc, by.names)?;
    match Rereading::begin(alloc, names, by.is_strict, line) {
        Ok(again) => Ok(again),
        Err(fault) => Err(uncounted(alloc, path, 1, &fault)),
    }
}

/// Weighs the ledgers of the lines after the first.
fn weigh_lines(
    alloc: Global,
    path: &str,
    reader: &mut LineReader<File>,
    again: &mut Rereading,
    by: &WeighedBy<'_>,
    worst: &mut Worst,
) -> Result<(), RunFault>
    ensures { OnOk result ((names : List (List ℕ)) (strict : Bool) (ids : List ℕ) (ledgers : List (List LedgerValue))
        → model.IsUnderWay by.now.stop names strict ids ledgers again.old worst.old
        → model.IsUnderWay by.now.stop names strict ids ledgers again.new worst.new) }
{
    let mut line = Vec::new(alloc);
    for number in 2..u64::MAX {
        line.clear();
        read_line(alloc, path, reader, &mut line)?;
        if line.is_empty() {
            break;
        }
        weigh_line(alloc, path, number, again, &line, by, worst)?;
    }
    Ok(())
}

/// Weighs the ledger of the line of this number, if it has one.
fn weigh_line(
    alloc: Global,
    path: &str,
    number: u64,
    again: &mut Rereading,
    line: &[u8],
    by: &WeighedBy<'_>,
    worst: &mut Worst,
) -> Result<(), RunFault>
    ensures { OnOk result ((names : List (List ℕ)) (strict : Bool) (ids : List ℕ) (ledgers : List (List LedgerValue))
        → model.IsUnderWay by.now.stop names strict ids ledgers again.old worst.old
        → model.IsUnderWay by.now.stop names strict ids ledgers again.new worst.new) }
{
    match again.add(alloc, line, &by.stop, worst) {
        Ok(()) => Ok(()),
        Err(fault) => Err(uncounted(alloc, path, number, &fault)),
    }
}

/// That an inventory has other ledgers than when it was counted.
fn changed(alloc: Global, path: &str) -> RunFault {
    unfit(format!(in alloc;
        "inventory {path}: it has other ledgers than when they were counted: the file has changed"
    ))
}

/// The worst of pictures' ledgers.
pub(crate) fn weigh(
    alloc: Global,
    ids: &[u64],
    ledgers: Vec<Ledger>,
    stop: &Stop<'_>,
) -> Result<Worst, RunFault>
    requires { length ids.now ≡ length ledgers.items }
    ensures { IfOk result (WeighsBy stop.now ids.now (map alone ledgers.items)) }
{
    match Worst::of(alloc, ids, ledgers, stop) {
        Ok(worst) => Ok(worst),
        Err(TallyFault::TooMany) => Err(too_many(alloc)),
        Err(TallyFault::NoMemory) => Err(RunFault::NoMemory),
    }
}
