// Inventories, read line by line: one that is checked, and one whose ledgers are counted.
ghost use Rattle.std.specs.Prelude.{◌≡◌, ◌++◌, None, Some, IfErr, IfOk, IfSome, OnOk, length, string_bytes};
ghost use Rattle.std.specs.Io.BufRead.{DropsThrough, take_through};
ghost use Rattle.reh_inventory.specs.Inventories.{fault_text};
ghost use Rattle.reh_inventory_read.specs.declared.faults.ReadFault.TheVariants.{TooLong};
ghost use Rattle.reh_questions.specs.Inputs.{IsCountedOf, IsUnfit};
ghost use Rattle.reh_questions.specs.Inventories as model;

use crate::inputs::unfit;
use reh_check_json::{InventoryCounts, inventory_json};
use reh_files::{RunFault, unread};
use reh_inventory::{Inventory, InventoryFault};
use reh_inventory_census::CountFault;
use reh_inventory_read::{
    CountedInventory, LineReader, MAX_LINE_BYTES, ReadFault, count_lines, line_reader, names_in,
    read_line as read_next,
};
use std::alloc::{AllocError, Global};
use std::fs::File;
use std::io::{BufRead, Read, Seek};
use std::thread;

/// Checks an inventory of whose first line this was read, and says how much there is in it. One line is read after the
/// other, so it takes memory for the longest line, the first line, and the ids of the ledgers.
pub fn check_inventory(
    rt: &HostRuntime,
    path: &str,
    file: File,
    start: Vec<u8>,
    as_json: bool,
) -> Result<String, RunFault>
    ensures { IfOk result (λ text. model.SaysOfInventory as_json (string_bytes text)) }
{
    let alloc = rt.alloc();
    let mut line = start;
    let mut reader = reader_of(alloc, path, file)?;
    check_read(alloc, path, &mut reader, &mut line, as_json)
}

/// The same of an inventory that this reads, of whose first line this was read.
fn check_read(
    alloc: Global,
    path: &str,
    reader: &mut LineReader<File>,
    line: &mut Vec<u8>,
    as_json: bool,
) -> Result<String, RunFault>
    ensures { IfOk result (λ text. model.SaysOfInventory as_json (string_bytes text)) }
{
    let mut inventory = Inventory::new(alloc);
    add_read(alloc, path, reader, line, &mut inventory)?;
    whole_text(alloc, path, &inventory, as_json)
}

/// How much there is in an inventory, if its last line is there.
fn whole_text(
    alloc: Global,
    path: &str,
    inventory: &Inventory,
    as_json: bool,
) -> Result<String, RunFault>
    ensures { IfOk result (λ text. model.SaysOfInventory as_json (string_bytes text)) }
{
    if !inventory.is_whole() {
        return Err(cut(alloc, path, inventory));
    }
    Ok(inventory_said(alloc, inventory, as_json)?)
}

/// Adds all lines that this reads, of the first of which this was read.
fn add_read(
    alloc: Global,
    path: &str,
    reader: &mut LineReader<File>,
    line: &mut Vec<u8>,
    inventory: &mut Inventory,
) -> Result<(), RunFault> {
    for number in 1..u64::MAX {
        read_line(alloc, path, reader, line)?;
        if line.is_empty() {
            break;
        }
        match inventory.add(alloc, line) {
            Ok(_) => line.clear(),
            Err(fault) => return Err(refused_line(alloc, path, number, fault)),
        }
    }
    Ok(())
}

/// Reads the rest of a line of which some bytes may be there. A line that is too long is a fault.
pub fn read_line<B: BufRead>(
    alloc: Global,
    path: &str,
    reader: &mut B,
    line: &mut Vec<u8>,
) -> Result<(), RunFault>
    ensures line { OnOk result (IfSome (B.remaining reader.old)
        (λ bytes. line.new.items ≡ line.old.items ++ take_through 10 bytes)) }
    ensures rest { OnOk result (DropsThrough (B.remaining reader.old) (B.remaining reader.new) 10) }
    ensures fault { IfErr result (model.TellsUnreadLine path.now) }
{
    match read_next(reader, line) {
        Ok(()) => Ok(()),
        Err(fault) => Err(uncounted_file(alloc, path, fault)),
    }
}

/// Why an inventory isn't read or counted.
pub fn uncounted_file(alloc: Global, path: &str, fault: ReadFault) -> RunFault
    ensures { model.TellsUnreadInventory path.now fault result }
{
    match fault {
        ReadFault::Unread(error) => unread(alloc, "read", path, error),
        ReadFault::TooLong => too_long(alloc, path),
        ReadFault::Line(number, fault) => uncounted(alloc, path, number, &fault),
        ReadFault::NoMemory => RunFault::NoMemory,
    }
}

/// That a line is too long.
fn too_long(alloc: Global, path: &str) -> RunFault
    ensures { model.TellsUnreadInventory path.now TooLong result }
{
    unfit(format!(in alloc; "inventory {path}: a line has more than {MAX_LINE_BYTES} bytes"))
}

/// The fault of an inventory's line.
pub fn refused_line(alloc: Global, path: &str, line: u64, fault: InventoryFault) -> RunFault
    ensures { model.TellsLine path.now line fault result }
{
    match fault {
        InventoryFault::NoMemory => RunFault::NoMemory,
        fault => faulty_line(alloc, path, line, fault),
    }
}

/// That a line of an inventory has this fault.
fn faulty_line(alloc: Global, path: &str, line: u64, fault: InventoryFault) -> RunFault
    ensures { IsUnfit (model.told_of_line path.now line (fault_text fault)) result }
{
    unfit(format!(in alloc; "inventory {path}: line {line}: {fault}"))
}

/// That the last line isn't there.
fn cut(alloc: Global, path: &str, inventory: &Inventory) -> RunFault
    ensures { IsUnfit (model.cut_text path.now (length inventory.now.ids)) result }
{
    let ledgers = inventory.ledgers();
    unfit(format!(in alloc;
        "inventory {path}: expected a last line, after the lines of {ledgers} ledgers: the file was cut"
    ))
}

/// How much there is in a whole inventory, as text or as JSON.
fn inventory_said(alloc: Global, inventory: &Inventory, as_json: bool) -> Result<String, AllocError>
    ensures { IfOk result (λ text. string_bytes text ≡ model.inventory_text as_json inventory.now) }
{
    let counts = InventoryCounts::of(inventory);
    if as_json {
        return inventory_json(alloc, &counts);
    }
    format!(in alloc; "ok\n{counts}\n")
}

/// Which inventory is counted, and by how many workers its lines are read and counted.
#[derive(Clone, Copy)]
pub(crate) struct Source<'a> {
    pub(crate) alloc: Global,
    pub(crate) path: &'a str,
    pub(crate) workers: usize,
}

/// The census of the inventory in a file that is at its beginning. Its lines are read twice: first the names of all bookies,
/// so that each has its number, in their order, before any ledger is counted.
pub(crate) fn count_inventory<T: thread::Threads + Sync>(
    threads: &T,
    source: Source<'_>,
    file: File,
    is_strict: bool,
) -> Result<CountedInventory, RunFault>
    ensures { IfOk result (IsCountedOf is_strict None) }
{
    let Source {
        alloc,
        path,
        workers,
    } = source;
    let mut reader = reader_of(alloc, path, file)?;
    let names = match names_in(threads, alloc, workers, &mut reader) {
        Ok(names) => names,
        Err(fault) => return Err(uncounted_file(alloc, path, fault)),
    };
    let mut reader = from_start(alloc, path, reader)?;
    match count_lines(threads, alloc, workers, &mut reader, names, is_strict) {
        Ok(counted) => Ok(counted),
        Err(fault) => Err(uncounted_file(alloc, path, fault)),
    }
}

/// A reader of the same file, from its beginning.
pub fn from_start(
    alloc: Global,
    path: &str,
    reader: LineReader<File>,
) -> Result<LineReader<File>, RunFault>
    ensures { IfOk result (λ reader. ⟦<LineReader<File> as Read>⟧.remaining reader ≡ None) }
{
    let mut file = reader.into_inner().into_inner();
    match file.rewind() {
        Ok(()) => reader_of(alloc, path, file),
        Err(error) => Err(unread(alloc, "read", path, error)),
    }
}

/// The census of the inventory of these bytes.
pub(crate) fn count_bytes<T: thread::Threads + Sync>(
    threads: &T,
    source: Source<'_>,
    bytes: &[u8],
    is_strict: bool,
) -> Result<CountedInventory, RunFault>
    ensures { IfOk result (IsCountedOf is_strict (Some bytes.now)) }
{
    let Source {
        alloc,
        path,
        workers,
    } = source;
    let (mut first, mut again) = (bytes, bytes);
    let names = match names_in(threads, alloc, workers, &mut first) {
        Ok(names) => names,
        Err(fault) => return Err(uncounted_file(alloc, path, fault)),
    };
    match count_lines(threads, alloc, workers, &mut again, names, is_strict) {
        Ok(counted) => Ok(counted),
        Err(fault) => Err(uncounted_file(alloc, path, fault)),
    }
}

/// A reader of lines that reads ahead.
pub fn reader_of<R: Read + Drop>(
    alloc: Global,
    path: &str,
    inner: R,
) -> Result<LineReader<R>, RunFault>
    ensures { IfOk result (λ reader. ⟦<LineReader<R> as Read>⟧.remaining reader ≡ R.remaining inner) }
{
    match line_reader(alloc, inner) {
        Ok(reader) => Ok(reader),
        Err(fault) => Err(uncounted_file(alloc, path, fault)),
    }
}

/// The fault of a line that can't be counted.
pub(crate) fn uncounted(alloc: Global, path: &str, line: u64, fault: &CountFault) -> RunFault
    ensures { model.TellsUncounted path.now line fault.now result }
{
    match fault {
        CountFault::Line(fault) => refused_line(alloc, path, line, *fault),
        CountFault::NoMemory => RunFault::NoMemory,
        CountFault::TooManyBookies => unfit(format!(in alloc;
            "inventory {path}: line {line}: there are more than 4096 bookies"
        )),
        CountFault::Unnamed => unfit(format!(in alloc;
            "inventory {path}: line {line}: it names a bookie that no line had when the names were read: the file has changed"
        )),
        CountFault::Unfit(id) => unfit(format!(in alloc;
            "inventory {path}: line {line}: ledger {id} can't be counted"
        )),
        CountFault::HoldsThoughEmpty(id) => unfit(format!(in alloc;
            "inventory {path}: line {line}: a bookie that is shown as empty holds entries of ledger {id}: leave out one of the two"
        )),
        CountFault::TooMany => unfit(format!(in alloc;
            "inventory {path}: there are more entries, ledgers or fragments than can be counted"
        )),
    }
}
