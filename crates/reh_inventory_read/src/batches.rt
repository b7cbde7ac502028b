// Lines of an inventory, many at a time, so that several workers can read and count them.
ghost use Rattle.std.specs.Prelude.{◌≡◌, ◌∷◌, ◌++◌, [], map, IfNone, IfOk, OnOk};
ghost use Rattle.reh_inventory_read.specs.Lines.{Reads};

use crate::faults::ReadFault;
use crate::lines::read_line;
use std::alloc::{AllocError, Global};
use std::io::BufRead;

/// How many lines are read at a time, at most.
const MAX_LINES: usize = 4096;

/// After how many bytes no further line is read at that time.
const MAX_BYTES: usize = 1 << 20;

/// The bytes of some lines of an inventory; whether no line comes after them, and why the next one can't be read, if it can't.
#[derive(Drop)]
pub(crate) struct Batch {
    pub(crate) lines: Vec<Vec<u8>>,
    pub(crate) is_last: bool,
    pub(crate) fault: Option<ReadFault>,
}

/// The next lines of an inventory.
pub(crate) fn next_lines<B: BufRead>(alloc: Global, reader: &mut B) -> Result<Batch, AllocError>
    ensures { IfOk result (λ batch. IfNone batch.fault
        (Reads batch.is_last (B.remaining reader.old) (B.remaining reader.new) (map (λ line. line.items) batch.lines.items))) }
{
    let mut lines = Vec::new(alloc);
    let mut read = 0_usize;
    for _number in 0..MAX_LINES {
        if read >= MAX_BYTES {
            break;
        }
        let mut bytes = Vec::new(alloc);
        if let Err(fault) = read_line(reader, &mut bytes) {
            return Ok(Batch {
                lines,
                is_last: false,
                fault: Some(fault),
            });
        }
        if bytes.is_empty() {
            return Ok(Batch {
                lines,
                is_last: true,
                fault: None,
            });
        }
        read = read.saturating_add(bytes.len());
        push_line(&mut lines, bytes)?;
    }
    Ok(Batch {
        lines,
        is_last: false,
        fault: None,
    })
}

/// Adds a line of these bytes.
fn push_line(lines: &mut Vec<Vec<u8>>, bytes: Vec<u8>) -> Result<(), AllocError>
    ensures { OnOk result (lines.new.items ≡ lines.old.items ++ bytes ∷ []) }
{
    lines.push(bytes)?;
    Ok(())
}
