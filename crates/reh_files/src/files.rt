// Files that are read, and what is written to standard output.
ghost use Rattle.std.specs.Prelude.{◌≡◌, codes, length, string_bytes, IfErr, IfOk, OnOk, ◌+◌};
ghost use Rattle.std.specs.Io.{StartsWith};
ghost use Rattle.reh_files.specs.Faults.{SaysUndone, TellsUnread, TellsUnreadFile, TellsUnwritten};
ghost use Rattle.reh_files.specs.Inputs.{IsInputFrom, IsInventoryFrom};

use crate::faults::RunFault;
use reh_census_file::is_census;
use reh_types::{MAX_PICTURE_BYTES, MAX_SCRIPT_BYTES};
use std::alloc::{AllocError, Global};
use std::fs::File;
use std::io::{ErrorKind, Read, Seek, Write};
use std::{fs, io};

/// The file of this path, or standard input, if that is `-`; or that it can't be opened, and the system's reason.
pub fn open_file(rt: &HostRuntime, path: &str) -> Result<File, RunFault>
    ensures { IfErr result (TellsUnread (codes "open") path.now) }
{
    let place = if path == "-" { "/dev/stdin" } else { path };
    match fs::open(rt, place) {
        Ok(file) => Ok(file),
        Err(error) => Err(unread(rt.alloc(), "open", path, error)),
    }
}

/// Reads on in a file, up to so many bytes more; or says that it can't be read, and the system's reason.
pub fn read_on(
    rt: &HostRuntime,
    path: &str,
    file: File,
    most: u64,
    bytes: &mut Vec<u8>,
) -> Result<File, RunFault>
    ensures fault { IfErr result (TellsUnread (codes "read") path.now) }
    ensures appends { StartsWith bytes.new.items bytes.old.items }
{
    let mut part = file.take(most);
    match part.read_to_end(bytes) {
        Ok(_) => Ok(part.into_inner()),
        Err(error) => Err(unread(rt.alloc(), "read", path, error)),
    }
}

/// How an inventory begins.
pub const INVENTORY_BEGINS: &str = "{\"inventory\"";

/// How many bytes of a picture are read: a byte more than one may have.
pub const PICTURE_BYTES: u64 = MAX_PICTURE_BYTES as u64 + 1;

/// How many bytes of a census are read after as many as of a picture: a longer one is cut.
const MORE_CENSUS_BYTES: u64 = 1 << 28;

/// The bytes of a picture's file.
pub fn read_picture(rt: &HostRuntime, path: &str) -> Result<Vec<u8>, RunFault>
    ensures { IfErr result (TellsUnreadFile path.now) }
{
    let mut bytes = Vec::new(rt.alloc());
    read_on(rt, path, open_file(rt, path)?, PICTURE_BYTES, &mut bytes)?;
    Ok(bytes)
}

/// What was read of an input's file.
#[derive(Drop)]
pub enum InputBytes {
    /// The bytes of a picture or of a census.
    Whole(Vec<u8>),
    /// The file of an inventory, at its beginning.
    Inventory(File),
    /// All bytes of an inventory that can be read only once, as from a pipe.
    Stream(Vec<u8>),
}

/// The bytes of an input's file: all of a census, and of a picture as many as are read of one; or the file of an inventory, or
/// all its bytes, where it can be read only once.
pub fn read_input_file(rt: &HostRuntime, path: &str) -> Result<InputBytes, RunFault>
    ensures begins { IfOk result (IsInputFrom INVENTORY_BEGINS.now) }
    ensures fault { IfErr result (TellsUnreadFile path.now) }
{
    let begins = INVENTORY_BEGINS.as_bytes();
    let mut bytes = Vec::new(rt.alloc());
    let file = read_on(
        rt,
        path,
        open_file(rt, path)?,
        begins.len() as u64,
        &mut bytes,
    )?;
    if bytes.as_slice() == begins {
        return rewound(rt, path, file, bytes);
    }
    let file = read_on(rt, path, file, PICTURE_BYTES, &mut bytes)?;
    if is_census(&bytes) {
        read_on(rt, path, file, MORE_CENSUS_BYTES, &mut bytes)?;
    }
    Ok(InputBytes::Whole(bytes))
}

/// An inventory of whose file this was read: the file at its beginning, or all bytes of one that can't be set back to it.
fn rewound(rt: &HostRuntime, path: &str, file: File, start: Vec<u8>) -> Result<InputBytes, RunFault>
    ensures begins { IfOk result (IsInventoryFrom start.items) }
    ensures fault { IfErr result (TellsUnread (codes "read") path.now) }
{
    let (mut file, mut bytes) = (file, start);
    if file.rewind().is_ok() {
        return Ok(InputBytes::Inventory(file));
    }
    match file.read_to_end(&mut bytes) {
        Ok(_) => Ok(InputBytes::Stream(bytes)),
        Err(error) => Err(unread(rt.alloc(), "read", path, error)),
    }
}

/// The bytes of a script's file, and of a longer one a byte more than a script may have.
pub fn read_script(rt: &HostRuntime, path: &str) -> Result<Vec<u8>, RunFault>
    ensures { IfErr result (TellsUnreadFile path.now) }
{
    let mut bytes = Vec::new(rt.alloc());
    read_on(
        rt,
        path,
        open_file(rt, path)?,
        MAX_SCRIPT_BYTES as u64 + 1,
        &mut bytes,
    )?;
    Ok(bytes)
}

/// That a file can't be opened or read, or out of memory.
pub fn unread(alloc: Global, failed: &str, path: &str, error: io::Error) -> RunFault
    ensures { TellsUnread failed.now path.now result }
{
    match error.kind() {
        ErrorKind::OutOfMemory => RunFault::from(error),
        _ => match unread_text(alloc, failed, path, error) {
            Ok(text) => RunFault::Unread(text),
            Err(want) => RunFault::from(want),
        },
    }
}

/// That a file can't be written, or out of memory.
pub fn unwritten(alloc: Global, path: &str, error: io::Error) -> RunFault
    ensures { TellsUnwritten path.now result }
{
    match error.kind() {
        ErrorKind::OutOfMemory => RunFault::from(error),
        _ => match unread_text(alloc, "write", path, error) {
            Ok(text) => RunFault::Unwritten(text),
            Err(want) => RunFault::from(want),
        },
    }
}

/// What could not be done with a file, and the system's reason.
fn unread_text(
    alloc: Global,
    failed: &str,
    path: &str,
    error: io::Error,
) -> Result<String, AllocError>
    ensures { IfOk result (λ text. SaysUndone failed.now path.now (string_bytes text)) }
{
    let said = format!(in alloc; "{error}")?;
    let reason = without_number(said.as_str());
    format!(in alloc; "cannot {failed} {path}: {reason}")
}

/// A system's reason without the number that comes after it.
fn without_number(reason: &str) -> &str {
    match reason.split_once(" (os error ") {
        Some((words, _)) => words,
        None => reason,
    }
}

/// The scripts in these files, in order, and of a longer one a byte more than a script may have.
pub fn read_scripts(rt: &HostRuntime, paths: &[&str]) -> Result<Vec<Vec<u8>>, RunFault>
    ensures { IfOk result (λ scripts. length scripts.items ≡ length paths.now) }
{
    let mut scripts = Vec::new(rt.alloc());
    for path in paths {
        let script = read_script(rt, path)?;
        push_script(&mut scripts, script)?;
    }
    Ok(scripts)
}

/// Adds a script.
fn push_script(scripts: &mut Vec<Vec<u8>>, script: Vec<u8>) -> Result<(), AllocError>
    ensures { OnOk result (length scripts.new.items ≡ length scripts.old.items + 1) }
{
    scripts.push(script)?;
    Ok(())
}

/// Writes bytes to standard output.
pub fn write_out(rt: &HostRuntime, bytes: &[u8]) -> Result<(), RunFault>
    ensures { IfErr result (λ fault. fault ≡ RunFault.WriteFault) }
{
    let mut writer = io::writer(rt);
    if writer.write_all(bytes).is_ok() && writer.flush().is_ok() {
        Ok(())
    } else {
        Err(RunFault::WriteFault)
    }
}
