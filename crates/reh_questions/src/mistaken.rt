// A file that is no picture, but an inventory, or one without its first line.
ghost use Rattle.std.specs.Prelude.{◌≡◌, ◌==◌, ◌&&◌, IfOk, option_map, position};
ghost use Rattle.reh_picture.specs.Pictures.{located_picture_of};
ghost use Rattle.reh_questions.specs.Mistaken as model;

use crate::inputs::unfit;
use crate::inventories::refused_line;
use reh_cluster::State;
use reh_files::{INVENTORY_BEGINS, RunFault, open_file, read_on};
use reh_inventory::{Inventory, InventoryFault};
use reh_picture::{LocatedFault, check_picture};
use reh_words::{PlayWords, Task};
use std::alloc::Global;
use std::fs;

/// The state that a picture of these bytes shows. Where they begin as an inventory, the fault says so.
pub fn state_in(alloc: Global, path: &str, bytes: &[u8]) -> Result<State, RunFault>
    ensures { IfOk result (λ state. located_picture_of bytes.now ≡ Ok state) }
{
    match check_picture(alloc, bytes) {
        Ok(state) => Ok(state),
        Err(located) => Err(explained(alloc, path, bytes, RunFault::from(located))),
    }
}

/// Whether bytes begin as an inventory.
fn is_inventory(bytes: &[u8]) -> bool
    ensures { result ≡ model.begins_as_inventory bytes.now }
{
    bytes.starts_with(INVENTORY_BEGINS.as_bytes())
}

/// Whether a picture is refused.
fn is_refusal(fault: &RunFault) -> bool
    ensures { result ≡ model.is_refusal fault.now }
{
    match fault {
        RunFault::Picture(_) | RunFault::Refused(..) => true,
        _ => false,
    }
}

/// The fault of a run on the file of these bytes. If its picture is refused, and it begins as an inventory, one more line
/// says so, and what makes a picture of it.
pub(crate) fn explained(alloc: Global, path: &str, bytes: &[u8], fault: RunFault) -> RunFault
    ensures { model.Explains path.now (model.is_refusal fault && model.begins_as_inventory bytes.now) fault result }
{
    if !is_refusal(&fault) || !is_inventory(bytes) {
        return fault;
    }
    unfit(format!(in alloc;
        "{fault}\n{path} is an inventory: cut --ledgers ID,.. makes a picture of some of its ledgers"
    ))
}

/// The fault of an inventory without its first line, if bytes begin with another line of one.
pub(crate) fn headless(alloc: Global, path: &str, bytes: &[u8]) -> Option<RunFault>
    ensures { model.IsHeadless path.now bytes.now result }
{
    match Inventory::new(alloc).add(alloc, first_line(bytes)) {
        Err(InventoryFault::NoHead) => Some(refused_line(alloc, path, 1, InventoryFault::NoHead)),
        _ => None,
    }
}

/// The first line, without its end.
fn first_line(bytes: &[u8]) -> &[u8]
    ensures { result.now ≡ model.first_line bytes.now }
{
    match first_lf(bytes) {
        Some(end) => &bytes[..end],
        None => bytes,
    }
}

/// Where the first LF stands, if there is one.
fn first_lf(bytes: &[u8]) -> Option<usize>
    ensures { result ≡ position (λ b. b == 10) bytes.now }
{
    bytes.iter().position(|byte| *byte == b'\n')
}

/// The fault of a file that is checked, and is no picture.
pub fn no_picture(alloc: Global, path: &str, bytes: &[u8], located: LocatedFault) -> RunFault
    ensures { model.TellsNoPicture path.now bytes.now located result }
{
    match headless(alloc, path, bytes) {
        Some(fault) => fault,
        None => RunFault::from(located),
    }
}

/// The file of the picture on which a rehearsal is played, if it is in one.
pub fn picture_of<'a>(task: &Task<'a>) -> Option<&'a str>
    ensures { option_map (λ picture. picture.now) result ≡ model.played_picture task.now }
{
    match task {
        Task::Play(PlayWords::Talk { picture, .. } | PlayWords::Files { picture, .. }) => {
            Some(*picture)
        }
        Task::PlayOut(words) => Some(words.picture),
        Task::Drill(files) => Some(files.picture),
        _ => None,
    }
}

/// How a rehearsal ends, on the picture in this file. If it is refused, the file is opened once more, to see whether it
/// begins as an inventory.
pub fn end_on(
    rt: &HostRuntime,
    picture: Option<&str>,
    run: Result<u8, RunFault>,
) -> Result<u8, RunFault>
    ensures { model.EndsOn picture.entry run result }
{
    match run {
        Ok(status) => Ok(status),
        Err(fault) => Err(fault_on(rt, picture, fault)),
    }
}

/// The fault of a rehearsal on the picture in this file.
fn fault_on(rt: &HostRuntime, picture: Option<&str>, fault: RunFault) -> RunFault
    ensures { model.ExplainsOn picture.entry fault result }
{
    match picture {
        Some(path) if is_refusal(&fault) => {
            let start = start_of(rt, path);
            explained(rt.alloc(), path, &start, fault)
        }
        _ => fault,
    }
}

/// How a file begins, if it can be read once more; otherwise nothing. A pipe can't.
fn start_of(rt: &HostRuntime, path: &str) -> Vec<u8> {
    let mut bytes = Vec::new(rt.alloc());
    let is_file = match fs::metadata(rt, path) {
        Ok(metadata) => metadata.is_file(),
        Err(_) => false,
    };
    if is_file && let Ok(file) = open_file(rt, path) {
        let _ = read_on(rt, path, file, INVENTORY_BEGINS.len() as u64, &mut bytes);
    }
    bytes
}
